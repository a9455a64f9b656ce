//! Whether some literals are what follows by an inference with a substitution. No memory is taken.
#![tactic(auto)]

ghost use Rattle.std.specs.Prelude.{◌≡◌, ◌↔◌, ◌++◌, ◌+◌, false, List, length, drop, IsTrue, IfSome, IfNone};
ghost use Rattle.cd_term.specs.Terms.{applied};
ghost use Rattle.cd_clause.specs.declared.Literal.{Literal};
ghost use Rattle.cd_clause.specs.declared.Atom.TheVariants.{Equal};
ghost use Rattle.cd_clause.specs.Clauses.{literals_changed};
ghost use Rattle.cd_clause.specs.Places.{signed, replaced_at_under};
ghost use Rattle.cd_steps.specs.Drafts.{literal_of, part_under, concluded_under, GivenBy};

use crate::drafts::{Draft, Part};
use cd_clause::{Atom, Clause, Literal, are_literals_applied, at_atom, is_atom_replaced};
use cd_term::{Term, all_same_applied, is_applied};

/// What follows in `rest` some literals with a substitution applied, where it begins with them.
fn strip_applied<'a>(rest: &'a [Literal], literals: &[Literal], s: &[Term]) -> Option<&'a [Literal]>
    ensures some { IfSome result (λ others. rest.entry.now ≡ literals_changed (applied s.now) literals.now ++ others.now) }
    ensures none { IfNone result ((others : List Literal) → rest.entry.now ≡ literals_changed (applied s.now) literals.now ++ others → ⊥) }
{
    if rest.len() < literals.len() {
        return None;
    }
    let (head, others) = rest.split_at(literals.len());
    if are_literals_applied(literals, s, head) {
        Some(others)
    } else {
        None
    }
}

fn is_unequal(left: &Term, right: &Term, s: &[Term], literal: &Literal) -> bool
    ensures { IsTrue result ↔ (literal.now ≡ signed false (Equal (applied s.now left.now) (applied s.now right.now))) }
{
    if literal.positive {
        return false;
    }
    match &literal.atom {
        Atom::Equal(l, r) => {
            if !is_applied(left, s, l) {
                return false;
            }
            is_applied(right, s, r)
        }
        _ => false,
    }
}

/// The same of one literal of the second premise with its subterm at a path replaced.
fn strip_replaced<'a>(
    rest: &'a [Literal],
    literal: &Literal,
    path: &[u16],
    new: &Term,
    s: &[Term],
    r: &[Term],
) -> Option<&'a [Literal]>
    ensures some { IfSome result (λ others. rest.entry.now ≡ literal_of literal.now.positive (replaced_at_under r.now s.now path.now new.now literal.now.atom) ++ others.now) }
    ensures none { IfNone result ((others : List Literal) → rest.entry.now ≡ literal_of literal.now.positive (replaced_at_under r.now s.now path.now new.now literal.now.atom) ++ others → ⊥) }
{
    let Some(_) = at_atom(&literal.atom, path) else {
        return Some(rest);
    };
    let Some((other, others)) = rest.split_first() else {
        return None;
    };
    if other.positive != literal.positive {
        return None;
    }
    if !is_atom_replaced(&literal.atom, r, path, new, s, &other.atom) {
        return None;
    }
    Some(others)
}

/// What follows in `rest` a part with its substitutions applied, where it begins with it.
fn strip_part<'a>(rest: &'a [Literal], part: Part, s: &[Term], r: &[Term]) -> Option<&'a [Literal]>
    ensures some { IfSome result (λ others. rest.entry.now ≡ part_under s.now r.now part.entry ++ others.now) }
    ensures none { IfNone result ((others : List Literal) → rest.entry.now ≡ part_under s.now r.now part.entry ++ others → ⊥) }
{
    match part {
        Part::First(literals) => strip_applied(rest, literals, s),
        Part::Second(literals) => strip_applied(rest, literals, r),
        Part::Unequal(left, right) => {
            let Some((literal, others)) = rest.split_first() else {
                return None;
            };
            if is_unequal(left, right, s, literal) {
                Some(others)
            } else {
                None
            }
        }
        Part::Replaced(literal, path, new) => strip_replaced(rest, literal, path, new, s, r),
    }
}

/// Whether these literals are the parts of an inference, one after another.
fn are_concluded(draft: &Draft, s: &[Term], r: &[Term], literals: &[Literal]) -> bool
    ensures { IsTrue result ↔ (literals.now ≡ concluded_under s.now r.now draft.now) }
{
    let Some(rest) = strip_part(literals, draft.one, s, r) else {
        return false;
    };
    let Some(rest) = strip_part(rest, draft.two, s, r) else {
        return false;
    };
    let Some(rest) = strip_part(rest, draft.three, s, r) else {
        return false;
    };
    let Some(rest) = strip_part(rest, draft.four, s, r) else {
        return false;
    };
    let Some(rest) = strip_part(rest, draft.five, s, r) else {
        return false;
    };
    rest.is_empty()
}

/// The values for the variables of the second premise, where a substitution has as many terms as an inference
/// wants.
pub fn second_values<'a>(draft: &Draft, s: &'a [Term]) -> Option<&'a [Term]>
    ensures some { IfSome result (λ r. (r.now ≡ drop draft.now.up s.entry.now) × (length s.entry.now ≡ draft.now.up + draft.now.more)) }
    ensures none { IfNone result (length s.entry.now ≡ draft.now.up + draft.now.more → ⊥) }
{
    let count = s.len() as u64;
    if draft.up > count {
        return None;
    }
    if draft.more != count - draft.up {
        return None;
    }
    let (_, rest) = s.split_at(draft.up as usize);
    Some(rest)
}

/// Whether a clause is what follows by an inference with a substitution.
pub fn follows(draft: &Draft, s: &[Term], clause: &Clause) -> bool
    ensures { IsTrue result ↔ GivenBy draft.now s.now clause.now }
{
    let Some(r) = second_values(draft, s) else {
        return false;
    };
    if !all_same_applied(draft.left, s, draft.right, r) {
        return false;
    }
    are_concluded(draft, s, r, clause.literals.as_slice())
}
