//! Runs the peers on a problem.
ghost use Rattle.std.specs.Prelude.{◌≡◌, ◌<◌, ◌^◌, Some, None, length, map, replicate, IfOk};
ghost use Rattle.std.specs.List.{AllByRecursion};
ghost use Rattle.cd_acts.specs.View.{local_of};
ghost use Rattle.cd_peer.specs.Plain.{plain};
ghost use Rattle.cd_peer.specs.Whole.{IsWhole};
ghost use Rattle.cd_read.specs.Formed.{IsBounded, IsFormed};
ghost use Rattle.cd_top.specs.Running.{AreStatesOf, HasRun};
ghost use Rattle.cd_world.specs.Worlds.{Stands};

use cd_acts::State;
use cd_ledger::{Event, Limits};
use cd_list::Sequence;
use cd_names::Policy;
use cd_options::Options;
use cd_peer::Peer;
use cd_premises::formed_inputs_fit;
use cd_read::Problem;
use cd_search::search;
use cd_world::laws::schedules_are_chosen;
use cd_world::{Turns, World};
use std::alloc::{AllocError, Global};

/// What is left of a run: the states of the peers in the order of their numbers, and the peer of each event.
#[derive(Drop)]
pub struct Finished {
    pub states: Vec<State>,
    pub order: Turns,
}

/// Runs as many peers as the options ask for, by the stated schedule, or one alone, until one has a verdict.
pub fn run(alloc: Global, options: &Options, problem: &Problem) -> Result<Finished, AllocError>
    requires formed { IsFormed problem.now }
    requires bounded { IsBounded problem.now }
    requires some { 0 < options.now.peers }
    requires alone { options.now.schedule ≡ None → options.now.peers ≡ 1 }
    ensures { IfOk result (λ f. HasRun options.now problem.now f.states.items f.order) }
{
    formed_inputs_fit();
    match options.schedule {
        None => run_alone(alloc, options, problem),
        Some(seed) => run_scheduled(alloc, options, problem, seed),
    }
}

// One peer alone.
fn run_alone(alloc: Global, options: &Options, problem: &Problem) -> Result<Finished, AllocError>
    requires formed { IsFormed problem.now }
    requires bounded { IsBounded problem.now }
    requires one { options.now.peers ≡ 1 }
    requires free { options.now.schedule ≡ None }
    ensures { IfOk result (λ f. HasRun options.now problem.now f.states.items f.order) }
{
    formed_inputs_fit();
    let limits = Limits {
        steps: options.steps,
    };
    let peer = search(alloc, problem, options.policy, limits)?;
    let state = peer.into_state();
    let order = order_of(alloc, state.journal.as_slice())?;
    let mut states = Vec::with_capacity(alloc, 1)?;
    states.push(state)?;
    Ok(Finished { states, order })
}

// Peers by the stated schedule.
fn run_scheduled(
    alloc: Global,
    options: &Options,
    problem: &Problem,
    seed: u64,
) -> Result<Finished, AllocError>
    requires formed { IsFormed problem.now }
    requires bounded { IsBounded problem.now }
    requires some { 0 < options.now.peers }
    requires stated { options.now.schedule ≡ Some seed }
    ensures { IfOk result (λ f. HasRun options.now problem.now f.states.items f.order) }
{
    formed_inputs_fit();
    schedules_are_chosen();
    let limits = Limits {
        steps: options.steps,
    };
    let mut world = World::start(alloc, problem, options.peers, options.policy, limits)?;
    world.scheduled(seed)?;
    let (peers, order) = world.into_parts();
    let states = states_of(alloc, problem, peers)?;
    Ok(Finished { states, order })
}

// The states of the peers, which are no longer needed.
fn states_of(alloc: Global, problem: &Problem, peers: Vec<Peer>) -> Result<Vec<State>, AllocError>
    requires { AllByRecursion (Stands problem.now) peers.items }
    ensures { IfOk result (λ states. AreStatesOf problem.now peers.entry.items states.items) }
{
    let mut states = Vec::with_capacity(alloc, peers.len())?;
    for peer in peers {
        states.push(peer.into_state())?;
    }
    Ok(states)
}

// Peer 0, once for each event.
fn order_of(alloc: Global, journal: &[Event]) -> Result<Turns, AllocError>
    ensures { IfOk result (λ order. order ≡ replicate (length journal.now) 0) }
{
    let mut order = Sequence::new(alloc);
    for _event in journal {
        order.push(0u16)?;
    }
    Ok(order)
}
