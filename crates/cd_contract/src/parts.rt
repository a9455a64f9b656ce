//! What a clause is sought by, so that a side of an equation is tried on few of its subterms.
#![tactic(auto)]

ghost use Rattle.std.specs.Prelude.{◌≡◌, ◌≤◌, length, sum_by, slice_get, IfOk, OnOk};
ghost use Rattle.cd_term.specs.declared.Term.TheVariants.{App};
ghost use Rattle.cd_term.specs.Terms.{size_of};
ghost use Rattle.cd_clause.specs.Clauses.{terms_of, clause_size};
ghost use Rattle.cd_rewrite.specs.Walks.{NoneIn, NoneAmong, NoLiteralBefore};
ghost use Rattle.cd_contract.specs.Parts.{Lacks, HasPart, Adds, AreSmall, IsSoughtBy};

use crate::marks::{Brief, Marks};
use crate::rows::Row;
use crate::seeking::{mark_parts, marks_of};
use cd_clause::{Atom, Clause};
use cd_term::Term;
use std::alloc::{AllocError, Global};

/// A subterm of a clause, which isn't a variable, and the marks of all that it is an instance of.
#[derive(Clone, Copy)]
pub struct Part<'c> {
    pub term: &'c Term,
    pub marks: Brief,
}

/// The counts of a clause, its marks, and its subterms but variables.
#[derive(Drop)]
pub struct Sought<'c> {
    pub row: Row,
    pub marks: Marks,
    pub parts: Vec<Part<'c>>,
}

/// Adds the subterm of a symbol and arguments.
fn add_part<'c>(
    parts: &mut Vec<Part<'c>>,
    t: &'c Term,
    symbol: u16,
    args: &[Term],
) -> Result<(), AllocError>
    requires is { t.now ≡ App symbol args.now }
    requires small { size_of t.now ≤ 65535 }
    ensures adds { OnOk result (Adds parts.old.items parts.new.items) }
    ensures there { OnOk result (HasPart parts.new.items t.entry.now) }
{
    let mut marks = Marks::new();
    mark_parts(&mut marks, u32::from(symbol), args);
    parts.push(Part {
        term: t,
        marks: marks.brief(),
    })?;
    Ok(())
}

/// Adds the subterms of a term.
fn add_term<'c>(parts: &mut Vec<Part<'c>>, t: &'c Term) -> Result<(), AllocError>
    requires { size_of t.now ≤ 65535 }
    ensures adds { OnOk result (Adds parts.old.items parts.new.items) }
    ensures all { OnOk result (NoneIn (Lacks parts.new.items) t.entry.now) }
{
    let Term::App(f, args) = t else {
        return Ok(());
    };
    let args = args.as_slice();
    add_part(parts, t, *f, args)?;
    for arg in args {
        add_term(parts, arg)?;
    }
    Ok(())
}

/// The same of several terms.
fn add_terms<'c>(parts: &mut Vec<Part<'c>>, ts: &'c [Term]) -> Result<(), AllocError>
    requires { sum_by size_of ts.now ≤ 65535 }
    ensures adds { OnOk result (Adds parts.old.items parts.new.items) }
    ensures all { OnOk result (NoneAmong (Lacks parts.new.items) ts.entry.now) }
{
    for t in ts {
        add_term(parts, t)?;
    }
    Ok(())
}

/// The same of the terms of an atom.
fn add_atom<'c>(parts: &mut Vec<Part<'c>>, a: &'c Atom) -> Result<(), AllocError>
    requires { sum_by size_of (terms_of a.now) ≤ 65535 }
    ensures adds { OnOk result (Adds parts.old.items parts.new.items) }
    ensures all { OnOk result (NoneAmong (Lacks parts.new.items) (terms_of a.entry.now)) }
{
    match a {
        Atom::Truth => Ok(()),
        Atom::Pred(_, args) => {
            add_terms(parts, args.as_slice())?;
            Ok(())
        }
        Atom::Equal(s, t) => {
            add_term(parts, s)?;
            add_term(parts, t)?;
            Ok(())
        }
    }
}

/// The subterms of a clause but variables.
fn parts_of<'c>(alloc: Global, c: &'c Clause) -> Result<Vec<Part<'c>>, AllocError>
    requires { clause_size c.now ≤ 65535 }
    ensures all { IfOk result (λ ps. NoLiteralBefore (Lacks ps.items) c.entry.now.literals (length c.entry.now.literals)) }
    ensures small { IfOk result (λ ps. AreSmall ps.items) }
{
    let mut parts = Vec::new(alloc);
    for literal in c.literals.as_slice() {
        add_atom(&mut parts, &literal.atom)?;
    }
    Ok(parts)
}

impl<'c> Sought<'c> {
    pub fn of(alloc: Global, c: &'c Clause) -> Result<Sought<'c>, AllocError>
        requires { clause_size c.now ≤ 65535 }
        ensures { IfOk result (IsSoughtBy c.entry.now) }
    {
        let parts = parts_of(alloc, c)?;
        Ok(Sought {
            row: Row::of(c),
            marks: marks_of(c),
            parts,
        })
    }
}
