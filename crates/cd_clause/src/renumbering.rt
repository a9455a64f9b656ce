//! Clauses with their variables renamed in the order of first occurrence.
#![tactic(auto)]

ghost use Rattle.std.specs.Prelude.{◌≡◌, ◌<◌, ◌^◌, length, map, IfOk, OnOk};
ghost use Rattle.std.specs.List.{flat_map};
ghost use Rattle.cd_term.specs.Terms.{variables_of, firsts_after, order_of, rank, ranked, substituted};
ghost use Rattle.cd_clause.specs.Clauses.{terms_of, clause_terms, atom_changed, literals_changed, renumbered_literals};

use crate::{Atom, Clause, Literal, Literals};
use cd_term::{Args, Term};
use indexmap::IndexSet;
use std::alloc::{AllocError, Global};

/// Variables in an order, each with its place.
type Order = IndexSet<u32>;

/// Adds the variables of a term that aren't there, each once, in the order of first occurrence.
fn note(t: &Term, seen: &mut Order) -> Result<(), AllocError>
    ensures { OnOk result (seen.new.keys ≡ firsts_after seen.old.keys (variables_of t.now)) }
{
    match t {
        Term::Var(k) => {
            seen.insert(*k)?;
            Ok(())
        }
        Term::App(_, args) => {
            for arg in args.as_slice() {
                note(arg, seen)?;
            }
            Ok(())
        }
    }
}

fn note_terms(terms: &[Term], seen: &mut Order) -> Result<(), AllocError>
    ensures { OnOk result (seen.new.keys ≡ firsts_after seen.old.keys (flat_map variables_of terms.now)) }
{
    for term in terms {
        note(term, seen)?;
    }
    Ok(())
}

fn note_atom(atom: &Atom, seen: &mut Order) -> Result<(), AllocError>
    ensures { OnOk result (seen.new.keys ≡ firsts_after seen.old.keys (flat_map variables_of (terms_of atom.now))) }
{
    match atom {
        Atom::Truth => Ok(()),
        Atom::Pred(_, args) => note_terms(args.as_slice(), seen),
        Atom::Equal(left, right) => {
            note(left, seen)?;
            note(right, seen)?;
            Ok(())
        }
    }
}

/// The variables of a list of literals in the order of first occurrence.
fn order_in(alloc: Global, literals: &[Literal]) -> Result<Order, AllocError>
    ensures { IfOk result (λ order. order.keys ≡ order_of (clause_terms literals.now)) }
{
    let mut seen = IndexSet::new(alloc);
    for literal in literals {
        note_atom(&literal.atom, &mut seen)?;
    }
    Ok(seen)
}

/// The place of a variable, or the number of places where it has none.
fn place_in(order: &Order, k: u32) -> u32
    requires few { length order.now.keys < 2 ^ 32 }
    ensures { result ≡ rank order.now.keys k }
{
    match order.get_index_of(&k) {
        Some(place) => place as u32,
        None => order.len() as u32,
    }
}

fn renamed(alloc: Global, t: &Term, order: &Order) -> Result<Term, AllocError>
    requires few { length order.now.keys < 2 ^ 32 }
    ensures { IfOk result (λ u. u ≡ substituted (ranked order.now.keys) t.now) }
{
    match t {
        Term::Var(k) => Ok(Term::Var(place_in(order, *k))),
        Term::App(f, args) => {
            let mut values = Args::new(alloc);
            for arg in args.as_slice() {
                values.push(renamed(alloc, arg, order)?)?;
            }
            Ok(Term::App(*f, values))
        }
    }
}

fn renamed_terms(alloc: Global, terms: &[Term], order: &Order) -> Result<Args, AllocError>
    requires few { length order.now.keys < 2 ^ 32 }
    ensures { IfOk result (λ ts. ts ≡ map (substituted (ranked order.now.keys)) terms.now) }
{
    let mut values = Args::new(alloc);
    for term in terms {
        values.push(renamed(alloc, term, order)?)?;
    }
    Ok(values)
}

fn renamed_atom(alloc: Global, atom: &Atom, order: &Order) -> Result<Atom, AllocError>
    requires few { length order.now.keys < 2 ^ 32 }
    ensures { IfOk result (λ a. a ≡ atom_changed (substituted (ranked order.now.keys)) atom.now) }
{
    match atom {
        Atom::Truth => Ok(Atom::Truth),
        Atom::Pred(p, args) => Ok(Atom::Pred(*p, renamed_terms(alloc, args.as_slice(), order)?)),
        Atom::Equal(left, right) => Ok(Atom::Equal(
            renamed(alloc, left, order)?,
            renamed(alloc, right, order)?,
        )),
    }
}

fn renamed_literals(
    alloc: Global,
    literals: &[Literal],
    order: &Order,
) -> Result<Literals, AllocError>
    requires few { length order.now.keys < 2 ^ 32 }
    ensures { IfOk result (λ ls. ls ≡ literals_changed (substituted (ranked order.now.keys)) literals.now) }
{
    let mut values = Literals::new(alloc);
    for literal in literals {
        values.push(Literal {
            positive: literal.positive,
            atom: renamed_atom(alloc, &literal.atom, order)?,
        })?;
    }
    Ok(values)
}

/// The clause with its variables renamed to 0, 1, 2 and so on in the order of first occurrence. A clause of
/// 2^32 different variables or more, which no memory holds, is refused as want of memory.
/// Recurs to the depth of its terms: see 'How deep terms may be' in docs/ARCHITECTURE.md.
pub fn renumber(alloc: Global, c: &Clause) -> Result<Clause, AllocError>
    ensures { IfOk result (λ d. d.literals ≡ renumbered_literals c.now.literals) }
{
    let order = order_in(alloc, c.literals.as_slice())?;
    if order.len() > 0xffff_ffff {
        return Err(AllocError);
    }
    Ok(Clause {
        literals: renamed_literals(alloc, c.literals.as_slice(), &order)?,
    })
}
