//! Whether a letter that came may be admitted.
#![tactic(auto)]

ghost use Rattle.std.specs.Prelude.{◌≡◌, ◌↔◌, ◌<◌, ◌≤◌, ◌&&◌, IsTrue, IfOk, Some, None, not};
ghost use Rattle.std.specs.List.{list_all};
ghost use Rattle.std.specs.Option.{option_copied};
ghost use Rattle.cd_ledger.specs.Records.{begins, is_copy, recorded};
ghost use Rattle.cd_machine.specs.Fits.{BodyFine, IsAcceptable, IsFine, NoticeHolds};
ghost use Rattle.cd_machine.specs.Right.{Lead, standing};
ghost use Rattle.cd_machine.specs.Rules.{IsFit, IsSubstFit};
ghost use Rattle.cd_steps.specs.Bounds.{AnswersGiven, IsStepWithin, subst_of};
ghost use Rattle.cd_steps.specs.Premises.{is_before};
ghost use Rattle.cd_fineness.specs.Fine.{IsAnswer, IsReplay, IsRightOf, all_tests, goes_test, named_test, shape_test, shares, standing_if_any};
ghost use Rattle.cd_acts.specs.Indexed.{AreNamesOf, AreOnce, IsIndexed, IsSensible};
ghost use Rattle.cd_acts.specs.View.{local_of};

use crate::symbols::{is_fit, is_subst_fit};
use cd_acts::State;
use cd_acts::rules::{holds_over, is_tautology, is_tidy};
use cd_acts::settling::cites_of;
use cd_acts::state::entry_in;
use cd_clause::{Clause, size};
use cd_kbo::Order;
use cd_ledger::{Body, Knowns, Letter, Record};
use cd_list::{Equals, same_items};
use cd_names::{How, Name, owner_of};
use cd_read::Problem;
use cd_steps::{Premise, Step, step_gives};
use cd_tasks::Tasks;
use cd_term::{Term, TermFault};
use std::alloc::{AllocError, Global};

/// The earliest time that no letter may have.
const END_OF_TIME: u64 = 0x8000_0000_0000_0000;

/// Whether a step begins a record: it doesn't go on from the clause before it.
fn begins(step: &Step) -> bool
    ensures { result ≡ begins step.now }
{
    let (first, _) = step.premises();
    match first {
        Premise::Before => false,
        Premise::Given(_) => true,
        Premise::Named(_) => true,
    }
}

fn is_copy(step: &Step) -> bool
    ensures { result ≡ is_copy step.now }
{
    match step {
        Step::Copy { of: _ } => true,
        Step::Input { index: _ } => false,
        Step::Resolve {
            pos: _,
            i: _,
            neg: _,
            j: _,
            subst: _,
        } => false,
        Step::Factor {
            of: _,
            i: _,
            j: _,
            subst: _,
        } => false,
        Step::Refl {
            of: _,
            i: _,
            subst: _,
        } => false,
        Step::EqFac {
            of: _,
            i: _,
            s: _,
            j: _,
            z: _,
            subst: _,
        } => false,
        Step::Para {
            giver: _,
            i: _,
            s: _,
            taker: _,
            j: _,
            at: _,
            subst: _,
        } => false,
        Step::Rewrite {
            by: _,
            s: _,
            j: _,
            at: _,
            subst: _,
        } => false,
        Step::Tidy => false,
    }
}

/// Whether a step takes no input, or one of the share of a peer.
fn in_share(peers: u16, sender: u16, step: &Step) -> bool
    requires { 0 < peers }
    ensures { result ≡ shares peers sender step.now }
{
    match step {
        Step::Input { index } => *index % u32::from(peers) == u32::from(sender),
        Step::Copy { of: _ } => true,
        Step::Resolve {
            pos: _,
            i: _,
            neg: _,
            j: _,
            subst: _,
        } => true,
        Step::Factor {
            of: _,
            i: _,
            j: _,
            subst: _,
        } => true,
        Step::Refl {
            of: _,
            i: _,
            subst: _,
        } => true,
        Step::EqFac {
            of: _,
            i: _,
            s: _,
            j: _,
            z: _,
            subst: _,
        } => true,
        Step::Para {
            giver: _,
            i: _,
            s: _,
            taker: _,
            j: _,
            at: _,
            subst: _,
        } => true,
        Step::Rewrite {
            by: _,
            s: _,
            j: _,
            at: _,
            subst: _,
        } => true,
        Step::Tidy => true,
    }
}

/// Whether no step begins a record.
fn none_begins(steps: &[Step]) -> bool
    ensures { result ≡ list_all (λ t. not (begins t)) steps.now }
{
    for t in steps {
        if begins(t) {
            return false;
        }
    }
    true
}

/// Whether each step takes no input, or one of the share of a peer.
fn are_shared(peers: u16, sender: u16, steps: &[Step]) -> bool
    requires { 0 < peers }
    ensures { result ≡ list_all (shares peers sender) steps.now }
{
    for t in steps {
        if !in_share(peers, sender, t) {
            return false;
        }
    }
    true
}

/// Whether the first step begins a record, and no other does.
fn is_shape(steps: &[Step]) -> bool
    ensures { result ≡ shape_test steps.now }
{
    match steps {
        [] => false,
        [first, rest @ ..] => begins(first) && none_begins(rest),
    }
}

/// Whether the steps aren't a copy alone.
fn goes_on(steps: &[Step]) -> bool
    ensures { result ≡ goes_test steps.now }
{
    match steps {
        [] => true,
        [only] => !is_copy(only),
        [_, _, ..] => true,
    }
}

/// Whether steps have the shape of a record's, and take inputs of the sender's share alone.
fn is_shaped(peers: u16, sender: u16, steps: &[Step]) -> bool
    requires { 0 < peers }
    ensures { result ≡ (shape_test steps.now && (goes_test steps.now && list_all (shares peers sender) steps.now)) }
{
    is_shape(steps) && (goes_on(steps) && are_shared(peers, sender, steps))
}

/// Whether a premise is the clause before the step.
fn is_before(premise: Premise) -> bool
    ensures { result ≡ is_before premise }
{
    match premise {
        Premise::Before => true,
        Premise::Given(_) => false,
        Premise::Named(_) => false,
    }
}

/// What a premise stands for: the clause before the step, an input, or the clause of a record that is known here.
fn standing<'a>(
    problem: &'a Problem,
    tasks: &Tasks,
    known: &'a Knowns,
    current: Option<&'a Clause>,
    premise: Premise,
) -> Option<&'a Clause>
    requires names { AreNamesOf tasks.now.arrivals known.now }
    requires once { AreOnce known.now }
    ensures { option_copied result ≡ standing problem.entry.now (λ n. recorded n known.entry.now) (option_copied current.entry) premise }
{
    match premise {
        Premise::Before => current,
        Premise::Given(index) => match problem.inputs.get(index as usize) {
            None => None,
            Some(input) => Some(&input.clause),
        },
        Premise::Named(n) => match entry_in(tasks, known, n) {
            None => None,
            Some(found) => Some(&found.1.entry.clause),
        },
    }
}

/// The same of a premise that a step may have.
fn standing_if_any<'a>(
    problem: &'a Problem,
    tasks: &Tasks,
    known: &'a Knowns,
    current: Option<&'a Clause>,
    premise: Option<Premise>,
) -> Option<&'a Clause>
    requires names { AreNamesOf tasks.now.arrivals known.now }
    requires once { AreOnce known.now }
    ensures { option_copied result ≡ standing_if_any (standing problem.entry.now (λ n. recorded n known.entry.now) (option_copied current.entry)) premise }
{
    match premise {
        None => None,
        Some(premise) => standing(problem, tasks, known, current, premise),
    }
}

/// Whether a clause and a substitution are within bounds and over the symbols of the problem. No memory is taken.
fn are_fit(problem: &Problem, c: &Clause, subst: &[Term]) -> bool
    ensures { IsTrue result ↔ (IsFit problem.now c.now × IsSubstFit problem.now subst.now) }
{
    is_fit(problem, c) && is_subst_fit(problem, subst)
}

/// The clause that a step gives of what its premises stand for.
fn result_of(
    alloc: Global,
    step: &Step,
    first: Option<&Clause>,
    second: Option<&Clause>,
    before: bool,
) -> Result<Option<Clause>, TermFault>
    ensures { AnswersGiven (IsRightOf step.now (option_copied first.entry) (option_copied second.entry) before) (IsStepWithin (subst_of step.now)) result }
{
    if before {
        return step_gives(alloc, step, first, second, None);
    }
    step_gives(alloc, step, None, first, second)
}

/// The same; `None` also where the clause is out of bounds.
fn result_within(
    alloc: Global,
    step: &Step,
    first: Option<&Clause>,
    second: Option<&Clause>,
    before: bool,
) -> Result<Option<Clause>, AllocError>
    ensures { IfOk result (IsAnswer step.now (option_copied first.entry) (option_copied second.entry) before) }
{
    cd_steps::laws::steps();
    match result_of(alloc, step, first, second, before) {
        Ok(found) => Ok(found),
        Err(TermFault::OutOfBounds) => Ok(None),
        Err(TermFault::Memory) => Err(AllocError),
    }
}

/// The one clause that a step gives over the known records, within bounds and over the symbols of the problem, behind the
/// clause before it; `None` exactly where there is none. The error is want of memory.
pub fn replayed(
    alloc: Global,
    problem: &Problem,
    tasks: &Tasks,
    known: &Knowns,
    behind: Option<&Clause>,
    step: &Step,
) -> Result<Option<Clause>, AllocError>
    requires names { AreNamesOf tasks.now.arrivals known.now }
    requires once { AreOnce known.now }
    ensures { IfOk result (IsReplay problem.now (λ n. recorded n known.now) (option_copied behind.entry) step.now) }
{
    cd_steps::laws::registries();
    let (p, q) = step.premises();
    let first = standing(problem, tasks, known, behind, p);
    let second = standing_if_any(problem, tasks, known, behind, q);
    match result_within(alloc, step, first, second, is_before(p))? {
        None => Ok(None),
        Some(c) => {
            if are_fit(problem, &c, step.subst()) {
                return Ok(Some(c));
            }
            Ok(None)
        }
    }
}

/// Whether steps that came to a clause, or to none, came to this one.
fn is_conclusion(current: &Option<Clause>, clause: &Clause) -> bool
    ensures { IsTrue result ↔ (current.now ≡ Some clause.now) }
{
    match current {
        None => false,
        Some(d) => d.equals(clause),
    }
}

/// Whether steps are right over the known records, one behind the other, and lead to a clause.
fn leads(
    alloc: Global,
    problem: &Problem,
    tasks: &Tasks,
    known: &Knowns,
    steps: &[Step],
    clause: &Clause,
) -> Result<bool, AllocError>
    requires names { AreNamesOf tasks.now.arrivals known.now }
    requires once { AreOnce known.now }
    ensures { IfOk result (λ b. IsTrue b ↔ Lead problem.now (λ n. recorded n known.now) None steps.now clause.now) }
{
    let mut current = None;
    for step in steps {
        match replayed(alloc, problem, tasks, known, current.as_ref(), step)? {
            Some(next) => {
                current = Some(next);
            }
            None => return Ok(false),
        }
    }
    Ok(is_conclusion(&current, clause))
}

/// Whether a record's name is new and the sender's, and its owner the one that the policy names.
fn named_test(sender: u16, n: Name, owner: u16, right: u16, known: bool) -> bool
    ensures { result ≡ named_test sender n owner right known }
{
    !known && (n.peer == sender && owner == right)
}

/// Whether a record passes each of its tests.
fn all_tests(
    named: bool,
    shaped: bool,
    cited: bool,
    led: bool,
    tidy: bool,
    fit: bool,
    trivial: bool,
) -> bool
    ensures { result ≡ all_tests named shaped cited led tidy fit trivial }
{
    named && (shaped && (cited && (led && (tidy && (fit && !trivial)))))
}

/// Whether a record that a peer sent may be admitted: its name is new and the sender's, its owner the one that the policy
/// names, its steps have the shape of a record's, take inputs of the sender's share alone and lead to its clause over the
/// known records, it cites the names in them, and the clause is tidy, fit and no tautology. The error is want of memory.
pub fn is_fine(
    alloc: Global,
    state: &State,
    problem: &Problem,
    sender: u16,
    r: &Record,
) -> Result<bool, AllocError>
    requires indexed { IsIndexed state.now }
    requires sensible { IsSensible (local_of state.now) }
    ensures { IfOk result (λ b. IsTrue b ↔ IsFine problem.now (local_of state.now) sender r.now) }
{
    if !is_fit(problem, &r.clause) {
        return Ok(false);
    }
    let steps = r.steps.as_slice();
    let known = state.is_known(r.name);
    let sum = size(&r.clause);
    let owner = owner_of(state.policy, r.name.peer, r.name.seq, sum, state.peers);
    let named = named_test(sender, r.name, r.owner, owner, known);
    let shaped = is_shaped(state.peers, sender, steps);
    let cites = cites_of(alloc, steps)?;
    let cited = same_items(r.cites.as_slice(), cites.as_slice());
    let led = leads(alloc, problem, &state.tasks, &state.known, steps, &r.clause)?;
    let tidy = is_tidy(&r.clause);
    let trivial = is_tautology(&r.clause);
    Ok(all_tests(named, shaped, cited, led, tidy, true, trivial))
}

/// Whether a notice is for this peer, which owns the record that it speaks of, and true. The error is want of memory.
pub fn notice_holds(
    alloc: Global,
    state: &State,
    order: &Order,
    of: Name,
    by: Name,
    how: How,
) -> Result<bool, AllocError>
    requires indexed { IsIndexed state.now }
    requires sensible { IsSensible (local_of state.now) }
    ensures { IfOk result (λ b. IsTrue b ↔ NoticeHolds order.now (local_of state.now) of by how) }
{
    let Some(c) = state.look(of) else {
        return Ok(false);
    };
    let Some(d) = state.look(by) else {
        return Ok(false);
    };
    if c.entry.owner != state.me {
        return Ok(false);
    }
    let found = holds_over(alloc, how, &d.entry, &c.entry, order)?;
    Ok(found)
}

/// Whether what a letter brings may be admitted: a record that is fine, a notice that is true, or the token, where this
/// peer doesn't hold it. The error is want of memory.
pub fn is_body_fine(
    alloc: Global,
    state: &State,
    order: &Order,
    problem: &Problem,
    sender: u16,
    body: &Body,
) -> Result<bool, AllocError>
    requires indexed { IsIndexed state.now }
    requires sensible { IsSensible (local_of state.now) }
    ensures { IfOk result (λ b. IsTrue b ↔ BodyFine order.now problem.now (local_of state.now) sender body.now) }
{
    match body {
        Body::Kept(r) => {
            let fine = is_fine(alloc, state, problem, sender, r)?;
            Ok(fine)
        }
        Body::Notice { of, by, how } => {
            let fine = notice_holds(alloc, state, order, *of, *by, *how)?;
            Ok(fine)
        }
        Body::Token(t) => Ok(
            state.token.is_none()
                && t.one.len() <= usize::from(state.peers)
                && t.two.len() <= usize::from(state.peers),
        ),
    }
}

/// Whether a letter may be admitted, so that no reason for rejection holds: it is of another of the peers, its time leaves
/// room for later ones, and what it brings is fine. The error is want of memory.
pub fn is_acceptable(
    alloc: Global,
    state: &State,
    order: &Order,
    problem: &Problem,
    l: &Letter,
) -> Result<bool, AllocError>
    requires indexed { IsIndexed state.now }
    requires sensible { IsSensible (local_of state.now) }
    ensures { IfOk result (λ b. IsTrue b ↔ IsAcceptable order.now problem.now (local_of state.now) l.now) }
{
    if l.time < END_OF_TIME && l.sender != state.me && l.sender < state.peers {
        let fine = is_body_fine(alloc, state, order, problem, l.sender, &l.body)?;
        return Ok(fine);
    }
    Ok(false)
}
