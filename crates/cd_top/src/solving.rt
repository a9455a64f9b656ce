//! Runs the peers on a problem, and says what came of it.
ghost use Rattle.std.specs.Prelude.{◌≡◌, ◌<◌, ◌^◌, Some, None, length, map, IfOk};
ghost use Rattle.std.specs.List.{AllByRecursion};
ghost use Rattle.cd_acts.specs.View.{local_of};
ghost use Rattle.cd_peer.specs.Plain.{plain};
ghost use Rattle.cd_peer.specs.Whole.{IsWhole};
ghost use Rattle.cd_read.specs.Formed.{IsBounded, IsFormed};
ghost use Rattle.cd_recorded.specs.Recorded.{journal_of};
ghost use Rattle.cd_top.specs.Asked.{grid_of};
ghost use Rattle.cd_top.specs.Ends.{IsRefutedText, IsSolved, IsTold};

use crate::answer::{Account, Answer};
use crate::finding::{Ending, least, least_bound, sorted_live};
use crate::running::{Finished, run};
use crate::texts::{limit_by, refuted_by, saturated_by, spent_by};
use cd_acts::State;
use cd_build::{derivation, derivations_refute};
use cd_check::refutations_are_accepted;
use cd_ledger::{Events, Journals, Limits, Verdict};
use cd_list::{Copied, Sequence};
use cd_options::{Options, Origins};
use cd_outside::Bytes;
use cd_read::Problem;
use cd_recorded::{chosen_are_runs, live_names_are_one, runs_are_journalled, runs_say};
use std::alloc::{AllocError, Global};

/// The answer to a problem, and the account of its run.
pub fn solve(
    alloc: Global,
    options: &Options,
    problem: Problem,
) -> Result<(Answer, Account), AllocError>
    requires formed { IsFormed problem }
    requires bounded { IsBounded problem }
    requires some { 0 < options.now.peers }
    requires alone { options.now.schedule ≡ None → options.now.peers ≡ 1 }
    ensures { IfOk result (λ r. IsSolved options.now problem r.0 r.1) }
{
    derivations_refute();
    refutations_are_accepted();
    chosen_are_runs();
    runs_say();
    runs_are_journalled();
    live_names_are_one();
    let peers = peers_of(options);
    let Finished { states, order } = run(alloc, options, &problem)?;
    let (answer, text) = told(alloc, options, &problem, &states)?;
    let asked = options.copy(alloc)?;
    let journals = journals_of(alloc, states)?;
    let account = Account {
        asked: Some(asked),
        problem: Some(problem),
        peers,
        policy: options.policy,
        limits: Limits {
            steps: options.steps,
        },
        journals,
        order,
        text,
    };
    Ok((answer, account))
}

fn peers_of(options: &Options) -> u16
    ensures { result ≡ options.now.peers }
{
    options.peers
}

// The answer that the states of the peers give, and its text.
fn told(
    alloc: Global,
    options: &Options,
    problem: &Problem,
    states: &[State],
) -> Result<(Answer, Bytes), AllocError>
    requires few { length states.now < 2 ^ 16 }
    requires whole { AllByRecursion (IsWhole plain problem.now) states.now }
    ensures { IfOk result (λ r. IsTold options.now problem.now (map local_of states.now) r.0 r.1) }
{
    let grid = grid_of(&options.source);
    if let Some(peer) = least(states, Ending::Refuted) {
        let text = refuted(alloc, grid, problem, &states[usize::from(peer)])?;
        return Ok((Answer::Refuted { peer }, text));
    }
    if let Some((peer, bound)) = least_bound(states) {
        let text = limit_by(alloc, grid, problem, peer, bound)?;
        return Ok((Answer::Limit { peer, bound }, text));
    }
    if let Some(peer) = least(states, Ending::Spent) {
        let text = spent_by(alloc, grid, problem, peer, options.steps)?;
        return Ok((Answer::Spent { peer }, text));
    }
    let live = sorted_live(alloc, states)?;
    let text = saturated_by(alloc, grid, problem, options.peers, &live)?;
    Ok((Answer::Saturated, text))
}

// The number of the generated problem, where it is one.
fn grid_of(source: &Origins) -> Option<u32>
    ensures { result ≡ grid_of source.now }
{
    match source {
        Origins::File(_) => None,
        Origins::Grid(n) => Some(*n),
    }
}

// The text of a refuted peer's derivation.
fn refuted(
    alloc: Global,
    grid: Option<u32>,
    problem: &Problem,
    state: &State,
) -> Result<Bytes, AllocError>
    requires whole { IsWhole plain problem.now state.now }
    requires refuted { state.now.verdict ≡ Some Verdict.Refuted }
    ensures { IfOk result (IsRefutedText grid problem.now (local_of state.now)) }
{
    let lines = derivation(alloc, problem, state)?;
    refuted_by(alloc, grid, problem, lines.as_slice())
}

// The journals of the peers, which are no longer needed.
fn journals_of(alloc: Global, states: Vec<State>) -> Result<Journals, AllocError>
    ensures { IfOk result (λ journals. journals ≡ map journal_of (map local_of states.items)) }
{
    let mut journals = Sequence::new(alloc);
    for state in states {
        journals.push(journal_of(state))?;
    }
    Ok(journals)
}

fn journal_of(state: State) -> Events
    ensures { result ≡ state.journal }
{
    let State {
        journal,
        me: _,
        peers: _,
        policy: _,
        limits: _,
        known: _,
        held: _,
        pending: _,
        settled: _,
        tasks: _,
        done: _,
        waiting: _,
        token: _,
        count: _,
        next_seq: _,
        units: _,
        clock: _,
        verdict: _,
    } = state;
    journal
}
