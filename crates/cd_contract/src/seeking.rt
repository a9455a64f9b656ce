//! The marks of a clause: the shapes of all that its literals and their subterms are instances of.
#![tactic(auto)]

ghost use Rattle.std.specs.Prelude.{slice_get, Some};
ghost use Rattle.cd_contract.specs.Marks.{Marked, Keeps, MarksParts, MeetsIn, MeetsAmong, MeetsWhole, IsSought};

use crate::marks::Marks;
use crate::shapes::{argument, head, mixed, shapes, shapes_of_part};
use cd_clause::{Atom, Clause, Literal};
use cd_term::Term;

/// Marks what a symbol makes of all that its arguments are instances of.
pub fn mark_parts(marks: &mut Marks, symbol: u32, args: &[Term])
    ensures kept { Keeps marks.old marks.new }
    ensures parts { MarksParts marks.new symbol (slice_get args.now 0) (slice_get args.now 1) }
{
    let first = shapes_of_part(argument(args, 0));
    let second = shapes_of_part(argument(args, 1));
    marks.mark_grid(symbol, &first, &second);
}

/// The same of two arguments, in whatever order.
fn mark_sides(marks: &mut Marks, symbol: u32, s: &Term, t: &Term)
    ensures kept { Keeps marks.old marks.new }
    ensures straight { MarksParts marks.new symbol (Some s.now) (Some t.now) }
    ensures exchanged { MarksParts marks.new symbol (Some t.now) (Some s.now) }
{
    let left = shapes(s);
    let right = shapes(t);
    marks.mark_grid(symbol, &left, &right);
    marks.mark_grid(symbol, &right, &left);
}

/// Marks what the subterms of a term are instances of.
fn mark_term(marks: &mut Marks, t: &Term)
    requires { Marked marks.old 0 }
    ensures kept { Keeps marks.old marks.new }
    ensures met { MeetsIn (Marked marks.new) t.now }
{
    let Term::App(f, args) = t else {
        return;
    };
    let args = args.as_slice();
    mark_parts(marks, u32::from(*f), args);
    for arg in args {
        mark_term(marks, arg);
    }
}

/// The same of several terms.
fn mark_terms(marks: &mut Marks, ts: &[Term])
    requires { Marked marks.old 0 }
    ensures kept { Keeps marks.old marks.new }
    ensures met { MeetsAmong (Marked marks.new) ts.now }
{
    for t in ts {
        mark_term(marks, t);
    }
}

/// The same of a literal, which is marked besides, its sides exchanged too.
fn mark_literal(marks: &mut Marks, l: &Literal)
    requires { Marked marks.old 0 }
    ensures kept { Keeps marks.old marks.new }
    ensures met { MeetsWhole (Marked marks.new) l.now }
{
    let symbol = head(l.positive, &l.atom);
    match &l.atom {
        Atom::Truth => marks.mark(mixed(symbol, 1, 1)),
        Atom::Pred(_, args) => {
            let args = args.as_slice();
            mark_parts(marks, symbol, args);
            mark_terms(marks, args);
        }
        Atom::Equal(s, t) => {
            mark_sides(marks, symbol, s, t);
            mark_term(marks, s);
            mark_term(marks, t);
        }
    }
}

/// The marks of a clause.
pub fn marks_of(c: &Clause) -> Marks
    ensures { IsSought c.now.literals (Marked result) }
{
    let mut marks = Marks::new();
    for l in c.literals.as_slice() {
        mark_literal(&mut marks, l);
    }
    marks
}
