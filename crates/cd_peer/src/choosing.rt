//! What a peer does next, with what it finds for it.
#![tactic(auto)]

ghost use Rattle.std.specs.Prelude.{◌≡◌, [], None, Some, IfOk, slice_get};
ghost use Rattle.std.specs.List.{AllByRecursion as Each};
ghost use Rattle.std.specs.Option.{option_copied};
ghost use Rattle.cd_acts.specs.Answers.{IsSubsumerOf};
ghost use Rattle.cd_acts.specs.Indexed.{IsIndexed, IsSensible};
ghost use Rattle.cd_acts.specs.View.{local_of};
ghost use Rattle.cd_alone.specs.Ready.{IsReady};
ghost use Rattle.cd_clause.specs.Clauses.{IsWithinBounds};
ghost use Rattle.cd_kbo.specs.declared.order.Order.{Order};
ghost use Rattle.cd_machine.specs.Hits.{IsReducer};
ghost use Rattle.cd_machine.specs.Turns.{IsFirstReady, NoneReady};
ghost use Rattle.cd_read.specs.declared.problem.Problem.{Problem};
ghost use Rattle.cd_peer.specs.Choices.{IsChoice, IsRewriterNamed};

use cd_acts::State;
use cd_acts::rules::{Concluded, Reduction, Standing, reduction_of, standing_of};
use cd_fineness::fineness::is_acceptable;
use cd_infer::Conclusions;
use cd_kbo::Order;
use cd_ledger::{Bound, Item, Outcome, Verdict};
use cd_names::Name;
use cd_read::Problem;
use cd_rewrite::ReductAt;
use cd_tasks::Task;
use std::alloc::{AllocError, Global};

/// What a peer does next, with what it found for it.
#[derive(Drop)]
pub enum Choice {
    /// The waiting letter in this place is admitted.
    Admit(u64),
    /// The waiting letter in this place is thrown away.
    Reject(u64),
    /// The equation with this name rewrites the first pending item so.
    Rewrite(Name, ReductAt),
    /// The first pending item ends so.
    Keep(Outcome),
    /// The first owed task has these conclusions.
    Work(Task, Conclusions),
    /// The token is passed on.
    Pass,
    /// Nothing is left to be done anywhere.
    Declare,
    /// A limit is reached.
    End(Verdict),
    /// Nothing is to be done.
    Idle,
}

fn choose_letter(
    alloc: Global,
    state: &State,
    order: &Order,
    problem: &Problem,
    place: u64,
) -> Result<Choice, AllocError>
    requires first { IsFirstReady (local_of state.now) place }
    requires indexed { IsIndexed state.now }
    requires sensible { IsSensible (local_of state.now) }
    ensures { IfOk result (IsChoice order.now problem.now (local_of state.now)) }
{
    let letter = state.letter_at(place);
    let fine = is_acceptable(alloc, state, order, problem, letter)?;
    if fine {
        return Ok(Choice::Admit(place));
    }
    Ok(Choice::Reject(place))
}

/// The first pending item, where there is one.
pub fn first_item(state: &State) -> Option<&Item>
    ensures { option_copied result ≡ slice_get (local_of state.now).pending 0 }
{
    state.pending.front()
}

/// How the equation with this name rewrites the first item.
fn choose_rewriting(
    alloc: Global,
    state: &State,
    order: &Order,
    item: &Item,
    by: Name,
) -> Result<Choice, AllocError>
    requires none { NoneReady (local_of state.now) }
    requires indexed { IsIndexed state.now }
    requires sensible { IsSensible (local_of state.now) }
    requires ready { IsReady order.now (local_of state.now) }
    requires there { slice_get (local_of state.now).pending 0 ≡ Some item.now }
    requires within { IsWithinBounds item.now.clause }
    requires rewriter { IsRewriterNamed order.now state.now.known item.now by }
    ensures { IfOk result (λ choice. (p : Problem) → IsChoice order.now p (local_of state.now) choice) }
{
    let Some(equation) = state.look(by) else {
        unreachable!();
    };
    if state.units == state.limits.steps {
        return Ok(Choice::End(Verdict::Spent));
    }
    let reduction = reduction_of(alloc, &equation.entry.clause, &item.clause, order)?;
    match reduction {
        Reduction::To(r) => Ok(Choice::Rewrite(by, r)),
        Reduction::TooLarge => Ok(Choice::End(Verdict::Limit(Bound::Bounds))),
    }
}

/// How the first item ends, which nothing rewrites, given the first held clause that subsumes it.
fn choose_keep(state: &State, item: &Item, subsumer: Option<Name>) -> Choice
    requires none { NoneReady (local_of state.now) }
    requires there { slice_get (local_of state.now).pending 0 ≡ Some item.now }
    requires free { item.now.forced ≡ None }
    requires subsumer { IsSubsumerOf item.now.clause state.now.known subsumer }
    ensures { (order : Order) (p : Problem) → Each (λ e. ¬ IsReducer order item.now.clause e) state.now.known → IsChoice order p (local_of state.now) result }
{
    match state.outcome_of(item, subsumer) {
        Some(outcome) => Choice::Keep(outcome),
        None => Choice::End(Verdict::Limit(Bound::Names)),
    }
}

/// What becomes of the first item, which no equation is to rewrite before others.
fn choose_free(
    alloc: Global,
    state: &State,
    order: &Order,
    item: &Item,
) -> Result<Choice, AllocError>
    requires none { NoneReady (local_of state.now) }
    requires indexed { IsIndexed state.now }
    requires sensible { IsSensible (local_of state.now) }
    requires ready { IsReady order.now (local_of state.now) }
    requires there { slice_get (local_of state.now).pending 0 ≡ Some item.now }
    requires within { IsWithinBounds item.now.clause }
    requires free { item.now.forced ≡ None }
    ensures { IfOk result (λ choice. (p : Problem) → IsChoice order.now p (local_of state.now) choice) }
{
    let standing = standing_of(alloc, &state.held, &item.clause, order)?;
    match standing {
        Standing::Reduced(by) => {
            let choice = choose_rewriting(alloc, state, order, item, by)?;
            Ok(choice)
        }
        Standing::Subsumed(by) => Ok(choose_keep(state, item, Some(by))),
        Standing::Free => Ok(choose_keep(state, item, None)),
    }
}

/// What becomes of the first item.
fn choose_item(
    alloc: Global,
    state: &State,
    order: &Order,
    item: &Item,
) -> Result<Choice, AllocError>
    requires none { NoneReady (local_of state.now) }
    requires indexed { IsIndexed state.now }
    requires sensible { IsSensible (local_of state.now) }
    requires ready { IsReady order.now (local_of state.now) }
    requires there { slice_get (local_of state.now).pending 0 ≡ Some item.now }
    ensures { IfOk result (λ choice. (p : Problem) → IsChoice order.now p (local_of state.now) choice) }
{
    match item.forced {
        Some(by) => {
            let choice = choose_rewriting(alloc, state, order, item, by)?;
            Ok(choice)
        }
        None => {
            let choice = choose_free(alloc, state, order, item)?;
            Ok(choice)
        }
    }
}

/// What becomes of the first task, where nothing is pending.
fn choose_task(
    alloc: Global,
    state: &State,
    order: &Order,
    task: Task,
) -> Result<Choice, AllocError>
    requires none { NoneReady (local_of state.now) }
    requires indexed { IsIndexed state.now }
    requires sensible { IsSensible (local_of state.now) }
    requires ready { IsReady order.now (local_of state.now) }
    requires pending { (local_of state.now).pending ≡ [] }
    requires there { slice_get (local_of state.now).owed 0 ≡ Some task }
    ensures { IfOk result (λ choice. (p : Problem) → IsChoice order.now p (local_of state.now) choice) }
{
    if state.units == state.limits.steps {
        return Ok(Choice::End(Verdict::Spent));
    }
    cd_premises::decisions_meet();
    let concluded = state.conclude(alloc, order, task)?;
    match concluded {
        Concluded::Found(found) => Ok(Choice::Work(task, found)),
        Concluded::TooLarge => Ok(Choice::End(Verdict::Limit(Bound::Bounds))),
    }
}

/// What becomes of the token, where nothing is pending or owed.
fn choose_token(state: &State) -> Choice
    requires none { NoneReady (local_of state.now) }
    requires pending { (local_of state.now).pending ≡ [] }
    requires owed { (local_of state.now).owed ≡ [] }
    ensures { (order : Order) (p : Problem) → IsChoice order p (local_of state.now) result }
{
    match &state.token {
        None => Choice::Idle,
        Some(token) => {
            if state.may_declare(token) {
                return Choice::Declare;
            }
            Choice::Pass
        }
    }
}

/// What is to be done next, where nothing is pending.
fn choose_rest(alloc: Global, state: &State, order: &Order) -> Result<Choice, AllocError>
    requires none { NoneReady (local_of state.now) }
    requires indexed { IsIndexed state.now }
    requires sensible { IsSensible (local_of state.now) }
    requires ready { IsReady order.now (local_of state.now) }
    requires pending { (local_of state.now).pending ≡ [] }
    ensures { IfOk result (λ choice. (p : Problem) → IsChoice order.now p (local_of state.now) choice) }
{
    match state.tasks.next() {
        Some(task) => {
            let choice = choose_task(alloc, state, order, task)?;
            Ok(choice)
        }
        None => Ok(choose_token(state)),
    }
}

/// What is to be done next, where no waiting letter is ready.
fn choose_work(alloc: Global, state: &State, order: &Order) -> Result<Choice, AllocError>
    requires none { NoneReady (local_of state.now) }
    requires indexed { IsIndexed state.now }
    requires sensible { IsSensible (local_of state.now) }
    requires ready { IsReady order.now (local_of state.now) }
    ensures { IfOk result (λ choice. (p : Problem) → IsChoice order.now p (local_of state.now) choice) }
{
    match first_item(state) {
        Some(item) => {
            let choice = choose_item(alloc, state, order, item)?;
            Ok(choice)
        }
        None => {
            let choice = choose_rest(alloc, state, order)?;
            Ok(choice)
        }
    }
}

/// What is to be done next: a waiting letter that is ready comes first, then the first pending item, then the first owed
/// task, then the token. The error is want of memory.
pub fn choose(
    alloc: Global,
    state: &State,
    order: &Order,
    problem: &Problem,
) -> Result<Choice, AllocError>
    requires indexed { IsIndexed state.now }
    requires sensible { IsSensible (local_of state.now) }
    requires ready { IsReady order.now (local_of state.now) }
    ensures { IfOk result (IsChoice order.now problem.now (local_of state.now)) }
{
    match state.first_ready() {
        Some(place) => {
            let choice = choose_letter(alloc, state, order, problem, place)?;
            Ok(choice)
        }
        None => {
            let choice = choose_work(alloc, state, order)?;
            Ok(choice)
        }
    }
}
