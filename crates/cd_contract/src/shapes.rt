//! Shapes of terms and literals: numbers of their first levels, by which most clauses are refused without a look at
//! their terms.
#![tactic(auto)]

ghost use Rattle.std.specs.Prelude.{◌≡◌, ◌<◌, slice_get};
ghost use Rattle.std.specs.Option.{option_copied};
ghost use Rattle.cd_contract.specs.Shapes.{mix, part, shape, head_of, literal_shape, HasShapes, PartHasShapes};

use cd_clause::{Atom, Literal};
use cd_term::Term;

/// A number below 4,096 of a symbol and the numbers of its first two arguments.
pub fn mixed(symbol: u32, first: u16, second: u16) -> u16
    ensures value { result ≡ mix symbol first second }
    ensures below { result < 4096 }
{
    let sum = u64::from(symbol) * 2654435 + u64::from(first) * 40503 + u64::from(second) * 60013;
    (sum / 256 % 4096) as u16
}

/// The argument in a place, if there is one.
pub fn argument(args: &[Term], i: usize) -> Option<&Term>
    ensures { option_copied result ≡ slice_get args.now i }
{
    args.get(i)
}

/// The shape of no level of an argument that there may be.
fn mark_of(arg: Option<&Term>) -> u16
    ensures { result ≡ part (shape 0) (option_copied arg.entry) }
{
    match arg {
        None => 1,
        Some(_) => 0,
    }
}

/// The shape of a term's head, which tells how many of its first two arguments there are.
fn head_shape(t: &Term) -> u16
    ensures { result ≡ shape 1 t.now }
{
    match t {
        Term::Var(_) => 0,
        Term::App(f, args) => {
            let args = args.as_slice();
            let first = mark_of(argument(args, 0));
            let second = mark_of(argument(args, 1));
            mixed(u32::from(*f), first, second)
        }
    }
}

/// The same of an argument that there may be.
fn head_part(arg: Option<&Term>) -> u16
    ensures { result ≡ part (shape 1) (option_copied arg.entry) }
{
    match arg {
        None => 1,
        Some(t) => head_shape(t),
    }
}

/// The shape of two levels.
fn short_shape(t: &Term) -> u16
    ensures { result ≡ shape 2 t.now }
{
    match t {
        Term::Var(_) => 0,
        Term::App(f, args) => {
            let args = args.as_slice();
            let first = head_part(argument(args, 0));
            let second = head_part(argument(args, 1));
            mixed(u32::from(*f), first, second)
        }
    }
}

/// The same of an argument that there may be.
fn short_part(arg: Option<&Term>) -> u16
    ensures { result ≡ part (shape 2) (option_copied arg.entry) }
{
    match arg {
        None => 1,
        Some(t) => short_shape(t),
    }
}

/// The shape of a term.
pub fn shape_of(t: &Term) -> u16
    ensures value { result ≡ shape 3 t.now }
    ensures below { result < 4096 }
{
    match t {
        Term::Var(_) => 0,
        Term::App(f, args) => {
            let args = args.as_slice();
            let first = short_part(argument(args, 0));
            let second = short_part(argument(args, 1));
            mixed(u32::from(*f), first, second)
        }
    }
}

/// A number that stands for a sign and what an atom begins with.
pub fn head(sign: bool, atom: &Atom) -> u32
    ensures { result ≡ head_of sign atom.now }
{
    match atom {
        Atom::Truth => { if sign { 65536 } else { 65537 } }
        Atom::Pred(p, _) => {
            if sign {
                131072 + u32::from(*p)
            } else {
                196608 + u32::from(*p)
            }
        }
        Atom::Equal(_, _) => { if sign { 65538 } else { 65539 } }
    }
}

/// The shape of a literal.
pub fn shape_of_literal(l: &Literal) -> u16
    ensures value { result ≡ literal_shape l.now }
    ensures below { result < 4096 }
{
    let head = head(l.positive, &l.atom);
    match &l.atom {
        Atom::Truth => mixed(head, 1, 1),
        Atom::Pred(_, args) => {
            let args = args.as_slice();
            let first = short_part(argument(args, 0));
            let second = short_part(argument(args, 1));
            mixed(head, first, second)
        }
        Atom::Equal(s, t) => {
            let first = short_shape(s);
            let second = short_shape(t);
            mixed(head, first, second)
        }
    }
}

/// The shapes of the heads of all that a term is an instance of.
fn heads(t: &Term) -> [u16; 2]
    ensures { HasShapes 1 t.now result }
{
    match t {
        Term::Var(_) => [0; 2],
        Term::App(f, args) => {
            let args = args.as_slice();
            let first = mark_of(argument(args, 0));
            let second = mark_of(argument(args, 1));
            [0, mixed(u32::from(*f), first, second)]
        }
    }
}

/// The same of an argument that there may be.
fn heads_of_part(arg: Option<&Term>) -> [u16; 2]
    ensures { PartHasShapes 1 (option_copied arg.entry) result }
{
    match arg {
        None => [1; 2],
        Some(t) => heads(t),
    }
}

/// The shapes of two levels of all that a term is an instance of.
pub fn shapes(t: &Term) -> [u16; 5]
    ensures { HasShapes 2 t.now result }
{
    match t {
        Term::Var(_) => [0; 5],
        Term::App(f, args) => {
            let f = u32::from(*f);
            let args = args.as_slice();
            let [a, b] = heads_of_part(argument(args, 0));
            let [c, d] = heads_of_part(argument(args, 1));
            [
                0,
                mixed(f, a, c),
                mixed(f, a, d),
                mixed(f, b, c),
                mixed(f, b, d),
            ]
        }
    }
}

/// The same of an argument that there may be.
pub fn shapes_of_part(arg: Option<&Term>) -> [u16; 5]
    ensures { PartHasShapes 2 (option_copied arg.entry) result }
{
    match arg {
        None => [1; 5],
        Some(t) => shapes(t),
    }
}
