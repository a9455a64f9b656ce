//! Clauses without what makes no difference.
#![tactic(auto)]

ghost use Rattle.std.specs.Prelude.{◌≡◌, ◌↔◌, List, [], IsTrue, IfOk};
ghost use Rattle.cd_clause.specs.declared.Clause.{Clause};
ghost use Rattle.cd_clause.specs.declared.Literal.{Literal};
ghost use Rattle.cd_clause.specs.Clauses.{IsSameLiteral, IsAbsurd, IsSuperfluous, AreKept, IsTidied, AreLiteralsMeasured};
ghost use Rattle.cd_list.specs.Lists.{Among};

use crate::codes::is_superfluous_behind;
use crate::limits::measure_atom;
use crate::renumbering::renumber;
use crate::tautology::{is_same_atom, is_trivial_atom};
use crate::{Clause, Literal, Literals};
use cd_list::Copied;
use cd_term::{MAX_LEVELS, MAX_SYMBOLS, Term};
use indexmap::IndexSet;
use std::alloc::{AllocError, Global};

fn is_same_literal(l: &Literal, m: &Literal) -> bool
    ensures { IsTrue result ↔ (IsSameLiteral l.now m.now) }
{
    l.positive == m.positive && is_same_atom(&l.atom, &m.atom)
}

fn is_among(l: &Literal, others: &[Literal]) -> bool
    ensures { IsTrue result ↔ Among (IsSameLiteral l.now) others.now }
{
    for other in others {
        if is_same_literal(l, other) {
            return true;
        }
    }
    false
}

pub(crate) fn is_absurd(l: &Literal) -> bool
    ensures { IsTrue result ↔ (IsAbsurd l.now) }
{
    !l.positive && is_trivial_atom(&l.atom)
}

/// Whether a literal is false everywhere, or the same as one of the earlier literals.
pub(crate) fn is_superfluous(earlier: &[Literal], l: &Literal) -> bool
    ensures { IsTrue result ↔ (IsSuperfluous earlier.now l.now) }
{
    is_absurd(l) || is_among(l, earlier)
}

/// The literals that aren't superfluous. Each is looked up once among the earlier ones.
fn kept(alloc: Global, literals: &[Literal]) -> Result<Literals, AllocError>
    ensures { IfOk result (λ ls. AreKept [] literals.now ls) }
{
    let mut values = Literals::new(alloc);
    let mut met = IndexSet::new(alloc);
    for literal in literals {
        if is_superfluous_behind(alloc, &mut met, literal)? {
            continue;
        }
        values.push(literal.copy(alloc)?)?;
    }
    Ok(values)
}

/// The clause without each `$false`, each negative equation with equal sides and each literal that is the
/// same as an earlier one, and then with its variables renumbered. It holds in the same interpretations.
/// Recurs to the depth of its terms: see 'How deep terms may be' in docs/ARCHITECTURE.md.
pub fn tidy(alloc: Global, c: &Clause) -> Result<Clause, AllocError>
    ensures { IfOk result (λ d. IsTidied c.now d) }
{
    let literals = kept(alloc, c.literals.as_slice())?;
    renumber(alloc, &Clause { literals })
}

/// The size that literals have together without those that are superfluous, where it is at most 65,535 and
/// none of them has more than 1,000 levels, or `None` otherwise.
fn measure_kept(literals: &[Literal]) -> Option<u64>
    ensures { (kept : List Literal) → AreKept [] literals.now kept → AreLiteralsMeasured 65535 1000 kept result }
{
    let unchanged: [Term; 0] = [];
    let mut total: u64 = 0;
    for (i, literal) in literals.iter().enumerate() {
        if is_superfluous(&literals[..i], literal) {
            continue;
        }
        let room = MAX_SYMBOLS - total;
        let Some(more) = measure_atom(&literal.atom, unchanged.as_slice(), room, MAX_LEVELS) else {
            return None;
        };
        total += more;
    }
    Some(total)
}

/// The size of the tidy form of a clause, or `None` where it isn't within bounds. Nothing is built, and no
/// memory is taken.
pub fn measure_tidied(c: &Clause) -> Option<u64>
    ensures { (d : Clause) → IsTidied c.now d → AreLiteralsMeasured 65535 1000 d.literals result }
{
    measure_kept(c.literals.as_slice())
}
