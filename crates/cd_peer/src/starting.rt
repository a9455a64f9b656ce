//! The start of a peer: its share of the inputs is pending.
#![tactic(auto)]

ghost use Rattle.std.specs.Prelude.{◌≡◌, ◌<◌, ◌^◌, length, IfOk, OnOk};
ghost use Rattle.cd_acts.specs.Indexed.{IsIndexed};
ghost use Rattle.cd_acts.specs.View.{local_of};
ghost use Rattle.cd_machine.specs.World.{first_token};
ghost use Rattle.cd_peer.specs.Peers.{AddsShared, AreShared, IsStartOf};

use cd_acts::State;
use cd_acts::rewriting::item_of;
use cd_clause::Clause;
use cd_contract::Held;
use cd_ledger::{DoneList, Events, Item, Knowns, Limits, Origin, Settledness};
use cd_list::Copied;
use cd_names::{Count, Counts, Policy, Token};
use cd_read::{Input, Problem};
use cd_steps::Step;
use cd_tasks::Tasks;
use cd_waiting::Waiting;
use std::alloc::{AllocError, Global};
use std::collections::VecDeque;

/// The input as an item, behind the others, where it is in the share.
fn add_shared(
    alloc: Global,
    items: &mut VecDeque<Item>,
    index: u32,
    clause: &Clause,
    me: u16,
    peers: u16,
) -> Result<(), AllocError>
    requires { me < peers }
    ensures { OnOk result (AddsShared me peers index clause.now items.old.items items.new.items) }
{
    if index % u32::from(peers) == u32::from(me) {
        let copy = clause.copy(alloc)?;
        let item = item_of(alloc, Origin::Input(index), Step::Input { index }, copy)?;
        items.push_back(item)?;
        return Ok(());
    }
    Ok(())
}

/// The items of the inputs in a peer's share, in their order.
fn shared_items(
    alloc: Global,
    inputs: &[Input],
    me: u16,
    peers: u16,
) -> Result<VecDeque<Item>, AllocError>
    requires some { me < peers }
    requires few { length inputs.now < 2 ^ 32 }
    ensures { IfOk result (λ items. AreShared me peers inputs.now items.items) }
{
    let mut items = VecDeque::new(alloc);
    let mut index = 0u32;
    for input in inputs {
        add_shared(alloc, &mut items, index, &input.clause, me, peers)?;
        index += 1;
    }
    Ok(items)
}

/// Peer 0 begins with the token.
fn first_token(alloc: Global, me: u16) -> Option<Token>
    ensures { result ≡ first_token me }
{
    if me == 0 {
        Some(Token {
            one: Counts::new(alloc),
            two: Counts::new(alloc),
        })
    } else {
        None
    }
}

/// The state of peer `me` of `peers` at its start.
pub fn start(
    alloc: Global,
    problem: &Problem,
    me: u16,
    peers: u16,
    policy: Policy,
    limits: Limits,
) -> Result<State, AllocError>
    requires some { me < peers }
    requires few { length problem.now.inputs < 2 ^ 32 }
    ensures indexed { IfOk result (λ state. IsIndexed state) }
    ensures start { IfOk result (λ state. IsStartOf problem.now me peers policy limits (local_of state)) }
{
    let pending = shared_items(alloc, problem.inputs.as_slice(), me, peers)?;
    Ok(State {
        me,
        peers,
        policy,
        limits,
        known: Knowns::new(alloc),
        held: Held::new(alloc),
        pending,
        settled: Settledness::new(alloc),
        tasks: Tasks::new(alloc),
        done: DoneList::new(alloc),
        waiting: Waiting::new(alloc),
        token: first_token(alloc, me),
        count: Count {
            sent: 0,
            received: 0,
        },
        next_seq: 0,
        units: 0,
        clock: 0,
        verdict: None,
        journal: Events::new(alloc),
    })
}
