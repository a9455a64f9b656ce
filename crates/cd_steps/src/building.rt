//! What follows by an inference with a substitution, measured and built.
#![tactic(auto)]

ghost use Rattle.std.specs.Prelude.{◌≡◌, ◌↔◌, ◌++◌, ◌≤◌, List, map, IfOk, IsTrue, OnOk, Some};
ghost use Rattle.cd_term.specs.Terms.{bound_of, greatest};
ghost use Rattle.cd_clause.specs.declared.Literal.{Literal};
ghost use Rattle.cd_clause.specs.Clauses.{AreLiteralsMeasured};
ghost use Rattle.cd_steps.specs.Bounds.{AnswersGiven, IsStepWithin, IsSubstWithin};
ghost use Rattle.cd_steps.specs.Drafts.{part_under, concluded_under, GivenBy};

use crate::drafts::{Draft, Part};
use crate::following::second_values;
use cd_clause::{
    Atom, Clause, Literal, Literals, at_atom, measure_atom_replaced, measure_literals,
    push_substituted, substitute_atom_replaced,
};
use cd_term::{
    MAX_LEVELS, MAX_SYMBOLS, Term, TermFault, all_same_applied, measure_all, measure_applied,
    substitute, variable_bound,
};
use std::alloc::{AllocError, Global};

/// Adds a part with its substitutions applied to a list of literals.
fn push_part(
    alloc: Global,
    into: &mut Literals,
    part: Part,
    s: &[Term],
    r: &[Term],
) -> Result<(), AllocError>
    ensures { OnOk result (into.new ≡ into.old ++ part_under s.now r.now part.entry) }
{
    match part {
        Part::First(literals) => push_substituted(alloc, into, literals, s),
        Part::Second(literals) => push_substituted(alloc, into, literals, r),
        Part::Unequal(left, right) => {
            let left = substitute(alloc, left, s)?;
            let right = substitute(alloc, right, s)?;
            into.push(Literal {
                positive: false,
                atom: Atom::Equal(left, right),
            })
        }
        Part::Replaced(literal, path, new) => {
            match substitute_atom_replaced(alloc, &literal.atom, r, path, new, s)? {
                None => Ok(()),
                Some(atom) => into.push(Literal {
                    positive: literal.positive,
                    atom,
                }),
            }
        }
    }
}

/// What follows by an inference with its substitutions, of whatever size.
fn concluded(alloc: Global, draft: &Draft, s: &[Term], r: &[Term]) -> Result<Literals, AllocError>
    ensures { IfOk result (λ ls. ls ≡ concluded_under s.now r.now draft.now) }
{
    let mut literals = Literals::new(alloc);
    push_part(alloc, &mut literals, draft.one, s, r)?;
    push_part(alloc, &mut literals, draft.two, s, r)?;
    push_part(alloc, &mut literals, draft.three, s, r)?;
    push_part(alloc, &mut literals, draft.four, s, r)?;
    push_part(alloc, &mut literals, draft.five, s, r)?;
    Ok(literals)
}

/// The size of a part of what follows, within limits.
fn measure_part(part: Part, s: &[Term], r: &[Term], symbols: u64, levels: u64) -> Option<u64>
    ensures { AreLiteralsMeasured symbols levels (part_under s.now r.now part.entry) result }
{
    match part {
        Part::First(literals) => measure_literals(literals, s, symbols, levels),
        Part::Second(literals) => measure_literals(literals, r, symbols, levels),
        Part::Unequal(left, right) => {
            if symbols == 0 {
                return None;
            }
            let Some(first) = measure_applied(left, s, symbols - 1, levels) else {
                return None;
            };
            let Some(second) = measure_applied(right, s, symbols - 1 - first, levels) else {
                return None;
            };
            Some(1 + first + second)
        }
        Part::Replaced(literal, path, new) => {
            let Some(_) = at_atom(&literal.atom, path) else {
                return Some(0);
            };
            measure_atom_replaced(&literal.atom, r, path, new, s, symbols, levels)
        }
    }
}

/// The size of literals that are measured already and of one part more.
fn measure_more(so_far: Option<u64>, part: Part, s: &[Term], r: &[Term]) -> Option<u64>
    ensures { (ls : List Literal) → AreLiteralsMeasured 65535 1000 ls so_far → AreLiteralsMeasured 65535 1000 (ls ++ part_under s.now r.now part.entry) result }
{
    let Some(total) = so_far else {
        return None;
    };
    let room = MAX_SYMBOLS.saturating_sub(total);
    let Some(more) = measure_part(part, s, r, room, MAX_LEVELS) else {
        return None;
    };
    Some(total.saturating_add(more))
}

/// The size of what follows by an inference with its substitutions, where that is within the limits of a clause.
fn measure_concluded(draft: &Draft, s: &[Term], r: &[Term]) -> Option<u64>
    ensures { AreLiteralsMeasured 65535 1000 (concluded_under s.now r.now draft.now) result }
{
    let one = measure_more(Some(0), draft.one, s, r);
    let two = measure_more(one, draft.two, s, r);
    let three = measure_more(two, draft.three, s, r);
    let four = measure_more(three, draft.four, s, r);
    measure_more(four, draft.five, s, r)
}

/// Whether each variable of some terms is below 65,536.
fn have_few_variables(terms: &[Term]) -> bool
    ensures { IsTrue result ↔ (greatest (map bound_of terms.now) ≤ 65536) }
{
    for term in terms {
        if variable_bound(term) > 65_536 {
            return false;
        }
    }
    true
}

/// Whether a substitution is within bounds: its terms together have at most 65,535 symbols and variables, each of
/// them has at most 1,000 levels, and each of their variables is below 65,536.
pub fn is_subst_within(s: &[Term]) -> bool
    ensures { IsTrue result ↔ IsSubstWithin s.now }
{
    match measure_all(s, MAX_SYMBOLS, MAX_LEVELS) {
        None => false,
        Some(_) => have_few_variables(s),
    }
}

/// What follows by an inference with a substitution, or `None` where nothing does. `OutOfBounds` only where a
/// clause follows and it or the substitution is out of bounds; this is found before anything is built.
pub fn gives(alloc: Global, draft: &Draft, s: &[Term]) -> Result<Option<Clause>, TermFault>
    ensures { AnswersGiven (GivenBy draft.now s.now) (IsStepWithin s.now) result }
{
    let Some(r) = second_values(draft, s) else {
        return Ok(None);
    };
    if !all_same_applied(draft.left, s, draft.right, r) {
        return Ok(None);
    }
    if !is_subst_within(s) {
        return Err(TermFault::OutOfBounds);
    }
    let Some(_) = measure_concluded(draft, s, r) else {
        return Err(TermFault::OutOfBounds);
    };
    Ok(Some(Clause {
        literals: concluded(alloc, draft, s, r)?,
    }))
}
