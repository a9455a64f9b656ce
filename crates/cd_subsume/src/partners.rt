//! Which literal is tried next: one that few others can be chosen for.
#![tactic(auto)]

ghost use Rattle.std.specs.Prelude.{◌≡◌, ◌≤◌, ◌<◌, ℕ, length, MatchOption, IfOk};
ghost use Rattle.cd_term.specs.declared.Term.{Term};
ghost use Rattle.cd_subsume.specs.declared.picks.Pick.{Pick};
ghost use Rattle.cd_unify.specs.Bindings.{values_in, room_in, trail_in};
ghost use Rattle.cd_subsume.specs.Subsumption.{IsPicked, ArePicked};
ghost use Rattle.cd_subsume.specs.Search.{AreGoals, strays};
ghost use Rattle.std.specs.Prelude.{List};

use crate::literals::{can_bind, may_become};
use cd_clause::Literal;
use cd_unify::Bindings;
use std::alloc::{AllocError, Global};

/// A literal that needs a partner, by its place, and how many literals of the other clause it may become.
#[derive(Clone, Copy, Debug)]
pub struct Goal {
    pub literal: usize,
    pub partners: usize,
}

/// How many of some literals a literal may become.
fn partners(l: &Literal, ms: &[Literal]) -> usize
    ensures { result ≡ 0 → (g : ℕ → Term) (p : Pick) → ¬ IsPicked g l.now ms.now p }
{
    let mut count = 0;
    for m in ms {
        if may_become(l, m, false) || may_become(l, m, true) {
            count += 1;
        }
    }
    count
}

/// Each literal as a goal, or `None` only where one of them has no partner.
pub fn goals_of(
    alloc: Global,
    ls: &[Literal],
    ms: &[Literal],
) -> Result<Option<Vec<Goal>>, AllocError>
    ensures { IfOk result (λ o. MatchOption o ((g : ℕ → Term) (picks : List Pick) → ¬ ArePicked g ls.now ms.now picks)
        (λ goals. AreGoals (length ls.now) goals.items)) }
{
    let mut goals: Vec<Goal> = Vec::new(alloc);
    for (literal, l) in ls.iter().enumerate() {
        let partners = partners(l, ms);
        if partners == 0 {
            return Ok(None);
        }
        goals.push(Goal { literal, partners })?;
    }
    Ok(Some(goals))
}

/// How many of the literals that aren't taken a literal can become with the values so far; counting stops at `most`.
fn partners_left<'c>(
    l: &Literal,
    ms: &'c [Literal],
    taken: &[bool],
    most: usize,
    bindings: &mut Bindings<'c>,
) -> Result<usize, AllocError>
    requires { length taken.now ≡ length ms.now }
    ensures covers { room_in bindings.new ≡ room_in bindings.old }
    ensures values { IfOk result (λ count. values_in bindings.new ≡ values_in bindings.old) }
    ensures trail { IfOk result (λ count. trail_in bindings.new ≡ trail_in bindings.old) }
{
    let mut count = 0;
    for (place, m) in ms.iter().enumerate() {
        if count >= most {
            break;
        }
        if taken[place] {
            continue;
        }
        if can_bind(l, m, false, bindings)? || can_bind(l, m, true, bindings)? {
            count += 1;
        }
    }
    Ok(count)
}

/// The most tests of two literals that are made for the choice of the next goal.
const MOST_TESTS: usize = 4096;

/// A goal from place `from` on that has the fewest partners with the values so far, where this is found by few tests,
/// and otherwise the fewest before any values. Each answer is right: it only makes the search longer or shorter.
pub fn fewest<'c>(
    goals: &[Goal],
    from: usize,
    ls: &[Literal],
    ms: &'c [Literal],
    taken: &[bool],
    bindings: &mut Bindings<'c>,
) -> Result<usize, AllocError>
    requires some { from < length goals.now }
    requires inside { strays (length ls.now) goals.now ≡ 0 }
    requires taken { length taken.now ≡ length ms.now }
    ensures covers { room_in bindings.new ≡ room_in bindings.old }
    ensures range { IfOk result (λ best. (from ≤ best) × (best < length goals.now)) }
    ensures values { IfOk result (λ best. values_in bindings.new ≡ values_in bindings.old) }
    ensures trail { IfOk result (λ best. trail_in bindings.new ≡ trail_in bindings.old) }
{
    let is_cheap = ms.len() <= MOST_TESTS && goals.len() - from <= MOST_TESTS / (ms.len() + 1);
    let mut best = from;
    let mut least = usize::MAX;
    for i in from..goals.len() {
        let goal = goals[i];
        let mut count = goal.partners;
        if is_cheap {
            count = partners_left(&ls[goal.literal], ms, taken, least, bindings)?;
        }
        if count < least {
            best = i;
            least = count;
        }
    }
    Ok(best)
}
