//! Two clauses joined under a substitution.
#![tactic(auto)]

ghost use Rattle.std.specs.Prelude.{◌≡◌, ◌+◌, ◌≤◌, ◌<◌, ◌++◌, ◌↔◌, length, map, remove, IfOk, OnOk};
ghost use Rattle.cd_term.specs.Terms.{applied};
ghost use Rattle.cd_clause.specs.Clauses.{atom_changed, literals_changed, variable_bound_of, AreLiteralsMeasured, AreLiteralsWithin, IsWithinBounds, joined};

use crate::limits::measure_literals;
use crate::sizes::variables;
use crate::{Atom, Clause, Literal, Literals};
use cd_term::{Args, MAX_LEVELS, MAX_SYMBOLS, Subst, Term, TermFault, substitute};
use std::alloc::{AllocError, Global};

fn measure_without(
    literals: &[Literal],
    skip: usize,
    s: &[Term],
    symbols: u64,
    levels: u64,
) -> Option<u64>
    requires { skip < length literals.now }
    ensures { AreLiteralsMeasured symbols levels
        (literals_changed (applied s.now) (remove literals.now skip)) result }
{
    let Some(front) = measure_literals(&literals[..skip], s, symbols, levels) else {
        return None;
    };
    let Some(back) = measure_literals(&literals[skip + 1..], s, symbols - front, levels) else {
        return None;
    };
    Some(front + back)
}

fn substituted_terms(alloc: Global, terms: &[Term], s: &[Term]) -> Result<Args, AllocError>
    ensures { IfOk result (λ ts. ts ≡ map (applied s.now) terms.now) }
{
    let mut values = Args::new(alloc);
    for term in terms {
        values.push(substitute(alloc, term, s)?)?;
    }
    Ok(values)
}

fn substituted_atom(alloc: Global, atom: &Atom, s: &[Term]) -> Result<Atom, AllocError>
    ensures { IfOk result (λ a. a ≡ atom_changed (applied s.now) atom.now) }
{
    match atom {
        Atom::Truth => Ok(Atom::Truth),
        Atom::Pred(p, args) => Ok(Atom::Pred(*p, substituted_terms(alloc, args.as_slice(), s)?)),
        Atom::Equal(left, right) => Ok(Atom::Equal(
            substitute(alloc, left, s)?,
            substitute(alloc, right, s)?,
        )),
    }
}

/// Adds literals with a substitution applied to a list, of whatever size. A variable past the substitution
/// stays as it is.
pub fn push_substituted(
    alloc: Global,
    into: &mut Literals,
    literals: &[Literal],
    s: &[Term],
) -> Result<(), AllocError>
    ensures { OnOk result (into.new ≡ into.old ++ literals_changed (applied s.now) literals.now) }
{
    for literal in literals {
        into.push(Literal {
            positive: literal.positive,
            atom: substituted_atom(alloc, &literal.atom, s)?,
        })?;
    }
    Ok(())
}

fn push_without(
    alloc: Global,
    into: &mut Literals,
    literals: &[Literal],
    skip: usize,
    s: &[Term],
) -> Result<(), AllocError>
    requires { skip < length literals.now }
    ensures { OnOk result
        (into.new ≡ into.old ++ literals_changed (applied s.now) (remove literals.now skip)) }
{
    push_substituted(alloc, into, &literals[..skip], s)?;
    push_substituted(alloc, into, &literals[skip + 1..], s)?;
    Ok(())
}

/// The size of the joined literals, where they are within the limits of a clause.
fn measure_joined(a: &Clause, skip_a: u16, b: &Clause, skip_b: u16, s: &[Term]) -> Option<u64>
    requires in_a { skip_a < length a.now.literals }
    requires in_b { skip_b < length b.now.literals }
    requires covered { variable_bound_of a.now ≤ length s.now }
    ensures { AreLiteralsMeasured 65535 1000 (joined a.now skip_a b.now skip_b s.now) result }
{
    let moved = &s[variables(a) as usize..];
    let Some(first) = measure_without(
        a.literals.as_slice(),
        skip_a as usize,
        s,
        MAX_SYMBOLS,
        MAX_LEVELS,
    ) else {
        return None;
    };
    let room = MAX_SYMBOLS - first;
    let Some(second) = measure_without(
        b.literals.as_slice(),
        skip_b as usize,
        moved,
        room,
        MAX_LEVELS,
    ) else {
        return None;
    };
    Some(first + second)
}

fn joined_literals(
    alloc: Global,
    a: &Clause,
    skip_a: u16,
    b: &Clause,
    skip_b: u16,
    s: &[Term],
) -> Result<Literals, AllocError>
    requires in_a { skip_a < length a.now.literals }
    requires in_b { skip_b < length b.now.literals }
    requires covered { variable_bound_of a.now ≤ length s.now }
    ensures { IfOk result (λ ls. ls ≡ joined a.now skip_a b.now skip_b s.now) }
{
    let moved = &s[variables(a) as usize..];
    let mut literals = Literals::new(alloc);
    push_without(
        alloc,
        &mut literals,
        a.literals.as_slice(),
        skip_a as usize,
        s,
    )?;
    push_without(
        alloc,
        &mut literals,
        b.literals.as_slice(),
        skip_b as usize,
        moved,
    )?;
    Ok(literals)
}

/// The literals of `a` but the one in place `skip_a`, and then those of `b` but the one in place `skip_b`,
/// with the variables of `b` moved up by `variables(a)` and with a substitution applied. `OutOfBounds`
/// exactly where that clause isn't within bounds; this is found before anything is built.
/// Recurs to the depth of its terms: see 'How deep terms may be' in docs/ARCHITECTURE.md.
pub fn join(
    alloc: Global,
    a: &Clause,
    skip_a: u16,
    b: &Clause,
    skip_b: u16,
    s: &Subst,
) -> Result<Clause, TermFault>
    requires in_a { skip_a < length a.now.literals }
    requires in_b { skip_b < length b.now.literals }
    requires covered { variable_bound_of a.now + variable_bound_of b.now ≤ length s.now }
    ensures value { IfOk result (λ c. c.literals ≡ joined a.now skip_a b.now skip_b s.now) }
    ensures within { IfOk result IsWithinBounds }
    ensures refused { (result ≡ Err TermFault.OutOfBounds)
        ↔ (¬ AreLiteralsWithin 65535 1000 (joined a.now skip_a b.now skip_b s.now)) }
{
    let Some(_) = measure_joined(a, skip_a, b, skip_b, s.as_slice()) else {
        return Err(TermFault::OutOfBounds);
    };
    Ok(Clause {
        literals: joined_literals(alloc, a, skip_a, b, skip_b, s.as_slice())?,
    })
}
