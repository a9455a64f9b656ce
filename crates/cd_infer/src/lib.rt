//! What clauses conclude: all conclusions of one clause, or of two, in their order.
//!
//! Only eligible literals are used, and only sides of equations than which the other side isn't greater (ordered
//! resolution and superposition; Bachmair and Ganzinger, Rewrite-based equational theorem proving with selection
//! and simplification, 1994). The places that inferences are made on stand in one list, in their order, and each
//! place gives one conclusion with the most general unifier, or nothing where no substitution makes its terms
//! equal.
#![tactic(auto)]

ghost use Rattle.std.specs.Prelude.{◌↔◌, IsTrue};
ghost use Rattle.cd_infer.specs.Conclusions.{IsUsable, SoloAnswers, PairAnswers};
ghost use Rattle.cd_infer.specs.Marks.{AreMarks};

mod clashing;
mod concluding;
mod equations;
mod factoring;
pub mod laws;
mod marks;
mod pairing;
mod paramodulating;
mod resolving;

use cd_clause::{Clause, variables, within};
use cd_kbo::Order;
use cd_list::Sequence;
use cd_names::Name;
use cd_steps::Step;
use cd_term::TermFault;
use equations::conclude_alone;
use factoring::One;
use marks::Marks;
pub use marks::{Mark, marks_of};
use pairing::conclude_both;
use resolving::Two;
use std::alloc::Global;

/// A step that no peer has recorded yet, and the clause that it gives, before it is tidied.
#[derive(Drop)]
pub struct Conclusion {
    pub step: Step,
    pub clause: Clause,
}

pub type Conclusions = Sequence<Conclusion>;

/// Whether conclusions can be drawn of a clause: it is within bounds, and each of its variables is below 65,535, as
/// in a tidy clause within bounds ([`laws::usable`]). No memory is taken.
pub fn is_usable(c: &Clause) -> bool
    ensures { IsTrue result ↔ IsUsable c.now }
{
    if !within(c) {
        return false;
    }
    variables(c) <= 65_535
}

/// All conclusions of one clause alone: factoring, reflexivity resolution, and equality factoring, each by its
/// places in ascending order. `OutOfBounds` exactly where the substitution or the clause of one of them is out of
/// bounds.
pub fn solo(alloc: Global, name: Name, c: &Clause, order: &Order) -> Result<Conclusions, TermFault>
    requires { IsUsable c.now }
    ensures { SoloAnswers order.now name c.now result }
{
    let one = One { name, c, order };
    conclude_alone(alloc, &one)
}

/// All conclusions of two clauses: resolution on a positive literal of `a` and a negative one of `b`, and
/// paramodulation from `a` into `b`, each by its places in ascending order. `OutOfBounds` as for [`solo`].
pub fn pair(
    alloc: Global,
    a_name: Name,
    a: &Clause,
    b_name: Name,
    b: &Clause,
    order: &Order,
) -> Result<Conclusions, TermFault>
    requires first { IsUsable a.now }
    requires second { IsUsable b.now }
    ensures { PairAnswers order.now a_name a.now b_name b.now result }
{
    let first = marks_of(alloc, a, order)?;
    let second = marks_of(alloc, b, order)?;
    pair_marked(
        alloc,
        a_name,
        a,
        first.as_slice(),
        b_name,
        b,
        second.as_slice(),
        order,
    )
}

/// The same of two clauses whose marks are known: [`marks_of`] finds those of a clause once for all others that it
/// meets.
pub fn pair_marked(
    alloc: Global,
    a_name: Name,
    a: &Clause,
    a_marks: &[Mark],
    b_name: Name,
    b: &Clause,
    b_marks: &[Mark],
    order: &Order,
) -> Result<Conclusions, TermFault>
    requires first { IsUsable a.now }
    requires second { IsUsable b.now }
    requires first_marks { AreMarks order.now a.now a_marks.now }
    requires second_marks { AreMarks order.now b.now b_marks.now }
    ensures { PairAnswers order.now a_name a.now b_name b.now result }
{
    let two = Two {
        a_name,
        a,
        b_name,
        b,
        order,
    };
    let marks = Marks {
        first: a_marks,
        second: b_marks,
    };
    conclude_both(alloc, &two, &marks)
}
