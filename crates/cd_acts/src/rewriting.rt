//! Rewrite: an equation makes the first pending item smaller.
#![tactic(auto)]

ghost use Rattle.std.specs.Prelude.{◌≡◌, ℕ, ◌<◌, ◌+◌, ◌∷◌, [], Option, Some, None, IfOk, OnOk, length, slice_get};
ghost use Rattle.cd_ledger.specs.declared.events.Act.TheVariants.{Rewrite};
ghost use Rattle.cd_machine.specs.Acts.{IsItemOf};
ghost use Rattle.cd_read.specs.declared.problem.Problem.{Problem};
ghost use Rattle.cd_acts.specs.Acts.{AddsStep, Does, MayRewrite, Reworks};
ghost use Rattle.cd_acts.specs.Indexed.{IsIndexed};
ghost use Rattle.cd_acts.specs.View.{local_of};

use crate::rules::{is_tidy, tidy};
use crate::state::{State, take_first};
use cd_clause::Clause;
use cd_kbo::Order;
use cd_ledger::{Item, Letters, Origin};
use cd_list::Sequence;
use cd_names::Name;
use cd_rewrite::ReductAt;
use cd_steps::{Step, Steps};
use std::alloc::{AllocError, Global};

/// Puts a step that gives this clause behind the others, and `Tidy` behind it where the clause isn't tidy. Answers the
/// tidy clause.
pub fn add_step(
    alloc: Global,
    steps: &mut Steps,
    step: Step,
    clause: Clause,
) -> Result<Clause, AllocError>
    ensures { IfOk result (AddsStep step clause steps.old steps.new) }
{
    steps.push(step)?;
    if is_tidy(&clause) {
        return Ok(clause);
    }
    let clause = tidy(alloc, &clause)?;
    steps.push(Step::Tidy)?;
    Ok(clause)
}

/// The item of a step that gives this clause.
pub fn item_of(
    alloc: Global,
    origin: Origin,
    step: Step,
    clause: Clause,
) -> Result<Item, AllocError>
    ensures { IfOk result (IsItemOf origin step clause) }
{
    let mut steps = Sequence::new(alloc);
    let clause = add_step(alloc, &mut steps, step, clause)?;
    Ok(Item {
        origin,
        forced: None,
        steps,
        clause,
    })
}

/// The item with its reduct in the place of its clause, and the step behind its own.
fn reworked(alloc: Global, item: Item, by: Name, r: ReductAt) -> Result<Item, AllocError>
    ensures { IfOk result (Reworks item by r) }
{
    let Item {
        origin,
        forced: _,
        mut steps,
        clause: _,
    } = item;
    let ReductAt {
        s,
        j,
        at,
        subst,
        clause,
    } = r;
    let step = Step::Rewrite {
        by,
        s,
        j,
        at,
        subst,
    };
    let clause = add_step(alloc, &mut steps, step, clause)?;
    Ok(Item {
        origin,
        forced: None,
        steps,
        clause,
    })
}

/// One more, which is a number since a greater one is.
pub fn next_unit(units: u64, steps: u64) -> u64
    requires { units < steps }
    ensures { result ≡ units + 1 }
{
    units + 1
}

impl State {
    /// Rewrites the first pending item in its place.
    pub fn rewrite(
        &mut self,
        alloc: Global,
        order: &Order,
        by: Name,
        r: ReductAt,
    ) -> Result<Letters, AllocError>
        requires indexed { IsIndexed self.old }
        requires may { MayRewrite order.now (local_of self.old) by r }
        ensures does { IfOk result (λ letters. (p : Problem) (time : ℕ) → Does order.now p (local_of self.old) time (Rewrite 0) (local_of self.new) letters) }
        ensures indexed { OnOk result (IsIndexed self.new) }
        ensures journal { self.new.journal ≡ self.old.journal }
    {
        let item = take_first(&mut self.pending);
        let item = reworked(alloc, item, by, r)?;
        self.pending.push_front(item)?;
        self.units = next_unit(self.units, self.limits.steps);
        Ok(Letters::new(alloc))
    }
}
