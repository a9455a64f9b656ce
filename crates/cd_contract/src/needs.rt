//! The shapes that a clause needs in another one to make it superfluous.
#![tactic(auto)]

ghost use Rattle.std.specs.Prelude.{◌≡◌, ◌≤◌, false, None, length};
ghost use Rattle.cd_clause.specs.declared.Clause.{Clause};
ghost use Rattle.cd_kbo.specs.declared.order.Order.{Order};
ghost use Rattle.cd_rewrite.specs.Reduction.{Spot, ReducesAt, Reduces};
ghost use Rattle.cd_contract.specs.Hits.{Contracts, IsWay};
ghost use Rattle.cd_contract.specs.Marks.{Marked, BrieflyMarked, IsSought};
ghost use Rattle.cd_contract.specs.Needs.{IsFirstShape, IsSideShape, IsNeeds, ArePassed};

use crate::marks::{Brief, Marks};
use crate::shapes::{shape_of, shape_of_literal};
use cd_clause::Clause;
use cd_kbo::Order;
use cd_names::How;
use cd_rewrite::{has_variables_of, is_falling, may_lower, sides_of_one};
use cd_term::Term;

/// A number that is never marked.
const NEVER: u16 = 65535;

/// The shapes of a clause's first literal, and of the sides of the equation that it may be, where these may lower terms
/// by an order.
#[derive(Clone, Copy, Debug)]
pub struct Needs {
    pub literal: u16,
    pub left: u16,
    pub right: u16,
}

/// The shape of the first literal, or one that is always marked where there is none.
fn first_shape(d: &Clause) -> u16
    ensures { IsFirstShape d.now.literals result }
{
    match d.literals.as_slice().first() {
        None => 0,
        Some(l) => shape_of_literal(l),
    }
}

/// The shape of a side, if it isn't known to be smaller than the other one.
fn side_shape(from: &Term, to: &Term, order: &Order) -> u16
    ensures { IsSideShape order.now from.now to.now result }
{
    if !may_lower(from, to) {
        return NEVER;
    }
    if !has_variables_of(from, to) {
        return NEVER;
    }
    if is_falling(to, from, order) {
        return NEVER;
    }
    shape_of(from)
}

impl Needs {
    pub fn of(d: &Clause, order: &Order) -> Needs
        ensures { IsNeeds order.now d.now result }
    {
        let literal = first_shape(d);
        let Some((left, right)) = sides_of_one(d) else {
            return Needs {
                literal,
                left: NEVER,
                right: NEVER,
            };
        };
        Needs {
            literal,
            left: side_shape(left, right, order),
            right: side_shape(right, left, order),
        }
    }

    /// False only where no clause of these needs reduces one of the marks from its left side.
    pub fn may_reduce_left(&self, marks: &Marks) -> bool
        ensures { result ≡ false → (o : Order) (d : Clause) (c : Clause) → IsNeeds o d self.now → IsSought c.literals (Marked marks.now) →
            (at : Spot) → at.side ≡ 0 → ¬ ReducesAt o d c at }
    {
        marks.has(self.left)
    }

    /// The same of the right side.
    pub fn may_reduce_right(&self, marks: &Marks) -> bool
        ensures { result ≡ false → (o : Order) (d : Clause) (c : Clause) → IsNeeds o d self.now → IsSought c.literals (Marked marks.now) →
            (at : Spot) → at.side ≡ 1 → ¬ ReducesAt o d c at }
    {
        marks.has(self.right)
    }

    /// False only where no clause of these needs reduces one of the marks.
    fn may_reduce(&self, marks: &Marks) -> bool
        ensures { result ≡ false → (o : Order) (d : Clause) (c : Clause) → IsNeeds o d self.now → IsSought c.literals (Marked marks.now) →
            ¬ Reduces o d c }
    {
        let left = marks.has(self.left);
        let right = marks.has(self.right);
        left || right
    }

    /// False only where no clause of these needs makes one of the marks superfluous in a way.
    pub fn may_contract(&self, how: How, marks: &Marks) -> bool
        ensures { result ≡ false → (o : Order) (d : Clause) (c : Clause) → IsNeeds o d self.now → IsSought c.literals (Marked marks.now) →
            ¬ Contracts o how d c }
    {
        match how {
            How::Subsumes => marks.has(self.literal),
            How::Reduces => self.may_reduce(marks),
        }
    }

    /// From which of its sides, the left one and the right one, a clause of these needs may reduce one of the marks.
    pub fn strike_sides(&self, marks: &Brief) -> (bool, bool)
        ensures left { result.0 ≡ false → (o : Order) (d : Clause) (c : Clause) → IsNeeds o d self.now → IsSought c.literals (BrieflyMarked marks.now) →
            (at : Spot) → at.side ≡ 0 → ¬ ReducesAt o d c at }
        ensures right { result.1 ≡ false → (o : Order) (d : Clause) (c : Clause) → IsNeeds o d self.now → IsSought c.literals (BrieflyMarked marks.now) →
            (at : Spot) → at.side ≡ 1 → ¬ ReducesAt o d c at }
    {
        (marks.has(self.left), marks.has(self.right))
    }

    /// False only where no clause of these needs makes one of the marks superfluous.
    pub fn may_strike(&self, marks: &Brief) -> bool
        ensures { result ≡ false → (o : Order) (d : Clause) (c : Clause) → IsNeeds o d self.now → IsSought c.literals (BrieflyMarked marks.now) →
            IsWay o d c None }
    {
        if marks.has(self.literal) {
            return true;
        }
        if marks.has(self.left) {
            return true;
        }
        marks.has(self.right)
    }
}

/// The first place from `start` on of needs by which a clause may make one of the marks superfluous in a way, or the end.
pub fn next_place(how: How, needs: &[Needs], marks: &Marks, start: usize) -> usize
    requires { start ≤ length needs.now }
    ensures above { start ≤ result }
    ensures within { result ≤ length needs.now }
    ensures passed { ArePassed how marks.now needs.now start result }
{
    for place in start..needs.len() {
        if needs[place].may_contract(how, marks) {
            return place;
        }
    }
    needs.len()
}
