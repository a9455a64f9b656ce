//! Looks for what the answer needs among the states of the peers.
ghost use Rattle.std.specs.Prelude.{◌≡◌, ◌++◌, ◌<◌, ◌^◌, length, map, IfOk, OnOk, IsPermutation, IsSortedByKey};
ghost use Rattle.std.specs.List.{flat_map};
ghost use Rattle.std.specs.Option.{option_copied};
ghost use Rattle.cd_acts.specs.View.{local_of};
ghost use Rattle.cd_names.specs.Orders.{name_cmp};
ghost use Rattle.cd_recorded.specs.Live.{live_record, live_records, name_of};
ghost use Rattle.cd_top.specs.Finding.{ended_as, ends_as, least_bound, live_among};
ghost use Rattle.cd_top.specs.Headline.{least};

use cd_acts::State;
use cd_acts::state::holds;
use cd_ledger::{Bound, Known, Record, Verdict};
use std::alloc::{AllocError, Global};

/// What a verdict without a bound can be.
#[derive(Clone, Copy)]
pub enum Ending {
    Refuted,
    Spent,
}

fn ends_as(ending: Ending, verdict: Option<Verdict>) -> bool
    ensures { result ≡ ends_as ending verdict }
{
    match (ending, verdict) {
        (Ending::Refuted, Some(Verdict::Refuted)) => true,
        (Ending::Spent, Some(Verdict::Spent)) => true,
        _ => false,
    }
}

/// The least peer that ended like this.
pub fn least(states: &[State], ending: Ending) -> Option<u16>
    requires { length states.now < 2 ^ 16 }
    ensures { result ≡ least (ended_as ending) 0 (map local_of states.now) }
{
    let mut peer = 0u16;
    let mut rest = states;
    while let [state, after @ ..] = rest {
        if ends_as(ending, state.verdict) {
            return Some(peer);
        }
        peer += 1;
        rest = after;
    }
    None
}

/// The least peer that ended at a bound, and the bound.
pub fn least_bound(states: &[State]) -> Option<(u16, Bound)>
    requires { length states.now < 2 ^ 16 }
    ensures { result ≡ least_bound 0 (map local_of states.now) }
{
    let mut peer = 0u16;
    let mut rest = states;
    while let [state, after @ ..] = rest {
        if let Some(Verdict::Limit(bound)) = state.verdict {
            return Some((peer, bound));
        }
        peer += 1;
        rest = after;
    }
    None
}

/// The record of an entry, where its owner holds it.
fn live_record(me: u16, known: &Known) -> Option<&Record>
    ensures { option_copied result ≡ live_record me known.now }
{
    if holds(&known.status) && known.entry.owner == me {
        Some(&known.entry)
    } else {
        None
    }
}

// The live clauses of one peer.
#[tactic(auto, using(std::proofs::Common::append_assoc))]
fn put_live<'s>(into: &mut Vec<&'s Record>, me: u16, known: &'s [Known]) -> Result<(), AllocError>
    ensures { OnOk result (map (λ r. r.now) into.new.items ≡ map (λ r. r.now) into.old.items ++ live_among me known.entry.now) }
{
    let mut rest = known;
    while let [first, after @ ..] = rest {
        if let Some(record_) = live_record(me, first) {
            into.push(record_)?;
        }
        rest = after;
    }
    Ok(())
}

// The live clauses of all peers, peer by peer.
#[tactic(auto, using(std::proofs::Common::append_assoc))]
fn all_live<'s>(alloc: Global, states: &'s [State]) -> Result<Vec<&'s Record>, AllocError>
    ensures { IfOk result (λ live. map (λ r. r.now) live.items ≡ flat_map live_records (map local_of states.entry.now)) }
{
    let mut live = Vec::new(alloc);
    let mut rest = states;
    while let [state, after @ ..] = rest {
        put_live(&mut live, state.me, state.known.as_slice())?;
        rest = after;
    }
    Ok(live)
}

/// The live clauses of all peers, in the order of names.
pub fn sorted_live<'s>(alloc: Global, states: &'s [State]) -> Result<Vec<&'s Record>, AllocError>
    ensures live { IfOk result (λ live. IsPermutation (flat_map live_records (map local_of states.entry.now)) (map (λ r. r.now) live.items)) }
    ensures sorted { IfOk result (λ live. IsSortedByKey name_of name_cmp (map (λ r. r.now) live.items)) }
{
    let mut live = all_live(alloc, states)?;
    live.sort_unstable_by_key(|record_| record_.name);
    Ok(live)
}
