//! Turns, until there is a verdict.
ghost use Rattle.std.specs.Prelude.{◌≡◌, ◌<◌, ◌^◌, ◌↔◌, ℕ, length, false, None, IsTrue, IfOk, OnOk};
ghost use Rattle.std.specs.List.{AllByRecursion};
ghost use Rattle.cd_ledger.specs.declared.local.Limits.{Limits};
ghost use Rattle.cd_laws.specs.Measure.{names_left, units_left};
ghost use Rattle.cd_machine.specs.Rules.{IsFit, clauses_of};
ghost use Rattle.cd_names.specs.declared.ownership.Policy.{Policy};
ghost use Rattle.cd_peer.specs.Plain.{plain};
ghost use Rattle.cd_search.specs.Search.{IsFinished};
ghost use Rattle.cd_search.specs.Steps.{HasGiven, HasNames, HasSpent, HasUnits, IsSearching, Nearer};

use cd_ledger::Limits;
use cd_names::Policy;
use cd_peer::Peer;
use cd_read::Problem;
use std::alloc::{AllocError, Global};

/// Runs one peer on the problem until it has a verdict.
///
/// It ends, for all of a turn's events but those of the token use a unit, give a name, or lessen what is known and not
/// superfluous, pending or waiting; and alone a peer passes its token twice.
pub fn search<'p>(
    alloc: Global,
    problem: &'p Problem,
    policy: Policy,
    limits: Limits,
) -> Result<Peer<'p>, AllocError>
    requires fit { AllByRecursion (IsFit problem.now) (clauses_of problem.now) }
    requires few { length problem.now.inputs < 2 ^ 32 }
    ensures problem { IfOk result (λ peer. peer.problem ≡ problem.now) }
    ensures standing { IfOk result (λ peer. peer.fallen ≡ false) }
    ensures finished { IfOk result (λ peer. IsFinished plain problem.now policy limits peer.local) }
{
    let mut peer = Peer::start(alloc, problem, 0, 1, policy, limits)?;
    'units: while is_running(&peer) {
        spend_unit(&mut peer)?;
    }
    Ok(peer)
}

// Turns until a unit is used, or there is a verdict.
fn spend_unit(peer: &mut Peer) -> Result<(), AllocError>
    requires { (policy : Policy) × (limits : Limits) × IsSearching policy limits peer.old }
    ensures stays { OnOk result ((policy : Policy) (limits : Limits) → IsSearching policy limits peer.old → IsSearching policy limits peer.new) }
    ensures problem { OnOk result (peer.new.problem ≡ peer.old.problem) }
    ensures spent { OnOk result (HasSpent peer.old.local peer.new.local) }
{
    let units = units_left(peer);
    'names: while has_units(peer, units) {
        give_name(peer)?;
    }
    Ok(())
}

// Turns until a name is given or a unit is used, or there is a verdict.
fn give_name(peer: &mut Peer) -> Result<(), AllocError>
    requires { (policy : Policy) × (limits : Limits) × IsSearching policy limits peer.old }
    ensures stays { OnOk result ((policy : Policy) (limits : Limits) → IsSearching policy limits peer.old → IsSearching policy limits peer.new) }
    ensures problem { OnOk result (peer.new.problem ≡ peer.old.problem) }
    ensures given { OnOk result (HasGiven peer.old.local peer.new.local) }
{
    let units = units_left(peer);
    let names = names_left(peer);
    'turns: while has_names(peer, units, names) {
        take_turn(peer)?;
    }
    Ok(())
}

// One event: alone a peer is never idle, since it holds the token.
fn take_turn(peer: &mut Peer) -> Result<(), AllocError>
    requires searching { (policy : Policy) × (limits : Limits) × IsSearching policy limits peer.old }
    requires running { peer.old.local.verdict ≡ None }
    ensures stays { OnOk result ((policy : Policy) (limits : Limits) → IsSearching policy limits peer.old → IsSearching policy limits peer.new) }
    ensures problem { OnOk result (peer.new.problem ≡ peer.old.problem) }
    ensures nearer { OnOk result (Nearer peer.old.local peer.new.local) }
{
    let _short = journal_len(peer);
    let _turned = peer.turn()?;
    Ok(())
}

fn journal_len(peer: &Peer) -> usize
    ensures { length peer.now.local.journal < 2 ^ 62 }
{
    peer.journal().len()
}

fn is_running(peer: &Peer) -> bool
    ensures { IsTrue result ↔ (peer.now.local.verdict ≡ None) }
{
    match peer.verdict() {
        None => true,
        Some(_) => false,
    }
}

// The rewritings and tasks that the peer may still do.
fn units_left(peer: &Peer) -> u64
    requires { peer.now.fallen ≡ false }
    ensures { result ≡ units_left peer.now.local }
{
    let state = peer.state();
    state.limits.steps.saturating_sub(state.units)
}

// The names that it may still give.
fn names_left(peer: &Peer) -> u32
    requires { peer.now.fallen ≡ false }
    ensures { result ≡ names_left peer.now.local }
{
    65_536u32.saturating_sub(peer.state().next_seq)
}

fn has_units(peer: &Peer, units: u64) -> bool
    requires { peer.now.fallen ≡ false }
    ensures { IsTrue result ↔ HasUnits units peer.now.local }
{
    is_running(peer) && units_left(peer) == units
}

fn has_names(peer: &Peer, units: u64, names: u32) -> bool
    requires { peer.now.fallen ≡ false }
    ensures { IsTrue result ↔ HasNames units names peer.now.local }
{
    has_units(peer, units) && names_left(peer) == names
}
