//! What is kept beside a held clause, so that few have to be looked at.
#![tactic(auto)]

ghost use Rattle.std.specs.Prelude.{◌≡◌, false, IsTrue, ◌↔◌};
ghost use Rattle.cd_clause.specs.declared.Clause.{Clause};
ghost use Rattle.cd_kbo.specs.declared.order.Order.{Order};
ghost use Rattle.cd_subsume.specs.Subsumption.{Subsumes};
ghost use Rattle.cd_rewrite.specs.Reduction.{Spot, ReducesAt};
ghost use Rattle.cd_contract.specs.Rows.{IsRow, IsSideOf, AreSides, IsSideAtMost};

use crate::tally::{Tally, of_literals, of_term, of_terms};
use cd_clause::{Clause, variables};
use cd_rewrite::{has_variables_of, sides_of_one};
use cd_term::Term;

/// The counts of a clause: of its literals by signs; the greatest ones of its terms; of the sides of the equation that
/// it may be, where they have the variables of the other side; and its variables, one more than the greatest one.
#[derive(Clone, Copy, Debug)]
pub struct Row {
    pub variables: u64,
    pub positive: Tally,
    pub negative: Tally,
    pub terms: Tally,
    pub left: Option<Tally>,
    pub right: Option<Tally>,
}

/// Whether there is a side whose counts are at most others.
fn fits(side: Option<Tally>, terms: Tally) -> bool
    ensures { IsTrue result ↔ IsSideAtMost side terms }
{
    match side {
        None => false,
        Some(side) => side.is_at_most(terms),
    }
}

/// The counts of a side, where it has the variables of the other one.
fn side(from: &Term, to: &Term) -> Option<Tally>
    ensures { IsSideOf from.now to.now result }
{
    if !has_variables_of(from, to) {
        return None;
    }
    Some(of_term(from))
}

/// The counts of the sides of the equation that a clause may be.
fn sides(d: &Clause) -> (Option<Tally>, Option<Tally>)
    ensures { AreSides d.now result.0 result.1 }
{
    let Some((left, right)) = sides_of_one(d) else {
        return (None, None);
    };
    (side(left, right), side(right, left))
}

impl Row {
    pub fn of(d: &Clause) -> Row
        ensures { IsRow d.now result }
    {
        let (left, right) = sides(d);
        Row {
            variables: variables(d),
            positive: of_literals(d, true),
            negative: of_literals(d, false),
            terms: of_terms(d),
            left,
            right,
        }
    }

    /// False only where no clause of the one counts subsumes a clause of the others.
    pub fn may_subsume(&self, other: &Row) -> bool
        ensures { result ≡ false → (d : Clause) (c : Clause) → IsRow d self.now → IsRow c other.now → ¬ Subsumes d c }
    {
        self.positive.is_at_most(other.positive) && self.negative.is_at_most(other.negative)
    }

    /// False only where no clause of the one counts reduces a clause of the others from its left side.
    pub fn may_reduce_left(&self, other: &Row) -> bool
        ensures { result ≡ false → (o : Order) (d : Clause) (c : Clause) → IsRow d self.now → IsRow c other.now →
            (at : Spot) → at.side ≡ 0 → ¬ ReducesAt o d c at }
    {
        fits(self.left, other.terms)
    }

    /// The same of the right side.
    pub fn may_reduce_right(&self, other: &Row) -> bool
        ensures { result ≡ false → (o : Order) (d : Clause) (c : Clause) → IsRow d self.now → IsRow c other.now →
            (at : Spot) → at.side ≡ 1 → ¬ ReducesAt o d c at }
    {
        fits(self.right, other.terms)
    }
}
