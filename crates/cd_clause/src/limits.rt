//! Clauses measured within limits, without building them.
#![tactic(auto)]

ghost use Rattle.std.specs.Prelude.{◌↔◌, IsTrue};
ghost use Rattle.cd_term.specs.Terms.{applied};
ghost use Rattle.cd_clause.specs.Clauses.{atom_changed, literals_changed, IsAtomMeasure, AreLiteralsMeasured, IsWithinBounds};

use crate::{Atom, Clause, Literal};
use cd_term::{MAX_LEVELS, MAX_SYMBOLS, Term, measure_all_applied, measure_applied};

/// The size that an atom has as a literal once a substitution is applied, within limits.
pub(crate) fn measure_atom(atom: &Atom, s: &[Term], symbols: u64, levels: u64) -> Option<u64>
    ensures { IsAtomMeasure symbols levels (atom_changed (applied s.now) atom.now) result }
{
    if symbols == 0 {
        return None;
    }
    match atom {
        Atom::Truth => Some(1),
        Atom::Pred(_, args) => {
            if levels == 0 {
                return None;
            }
            let Some(more) = measure_all_applied(args.as_slice(), s, symbols - 1, levels - 1) else {
                return None;
            };
            Some(1 + more)
        }
        Atom::Equal(left, right) => {
            let Some(first) = measure_applied(left, s, symbols - 1, levels) else {
                return None;
            };
            let Some(second) = measure_applied(right, s, symbols - 1 - first, levels) else {
                return None;
            };
            Some(1 + first + second)
        }
    }
}

/// The size that literals have together once a substitution is applied, where it is at most `symbols` and
/// no atom is deeper than `levels`, or `None` otherwise. Nothing is built, and no memory is taken.
/// Recurs to the depth of its terms: see 'How deep terms may be' in docs/ARCHITECTURE.md.
pub fn measure_literals(literals: &[Literal], s: &[Term], symbols: u64, levels: u64) -> Option<u64>
    ensures { AreLiteralsMeasured symbols levels (literals_changed (applied s.now) literals.now) result }
{
    let mut total: u64 = 0;
    for literal in literals {
        let Some(more) = measure_atom(&literal.atom, s, symbols - total, levels) else {
            return None;
        };
        total += more;
    }
    Some(total)
}

/// Whether a clause has a size of at most 65,535 and each of its terms and predicate atoms at most 1,000
/// levels.
/// Recurs to the depth of its terms: see 'How deep terms may be' in docs/ARCHITECTURE.md.
pub fn within(c: &Clause) -> bool
    ensures { IsTrue result ↔ (IsWithinBounds c.now) }
{
    let unchanged: [Term; 0] = [];
    let measured = measure_literals(
        c.literals.as_slice(),
        unchanged.as_slice(),
        MAX_SYMBOLS,
        MAX_LEVELS,
    );
    measured.is_some()
}
