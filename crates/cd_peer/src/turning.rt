//! An event: an act that is done, and its entry in the journal. Its letters are put behind the others before the journal
//! grows, and taken out again where it can't.
#![tactic(auto)]

ghost use Rattle.std.specs.Prelude.{◌≡◌, ◌+◌, ◌++◌, None, IfOk, OnErr, OnOk};
ghost use Rattle.cd_acts.specs.Indexed.{IsIndexed};
ghost use Rattle.cd_acts.specs.View.{local_of};
ghost use Rattle.cd_list.specs.Lists.{tally};
ghost use Rattle.cd_machine.specs.Events.{is_token, no_token, receives};
ghost use Rattle.cd_peer.specs.Plain.{plain};
ghost use Rattle.cd_peer.specs.Turns.{HasTurned, stamped};
ghost use Rattle.cd_peer.specs.Whole.{IsWhole};

use crate::choosing::choose;
use crate::making::{Made, make};
use cd_acts::State;
use cd_kbo::Order;
use cd_ledger::{Act, Body, Event, Letter, Letters};
use cd_names::Count;
use cd_read::Problem;
use std::alloc::{AllocError, Global};

/// Whether a letter is the token.
pub fn is_token(l: &Letter) -> bool
    ensures { result ≡ is_token l.now }
{
    match &l.body {
        Body::Kept(_) => false,
        Body::Notice {
            of: _,
            by: _,
            how: _,
        } => false,
        Body::Token(_) => true,
    }
}

/// How many of the letters are no tokens.
fn count_letters(letters: &[Letter]) -> u64
    ensures { result ≡ tally no_token letters.now }
{
    let mut count = 0u64;
    for l in letters {
        if !is_token(l) {
            count += 1;
        }
    }
    count
}

/// How many letters but tokens an act receives.
fn count_received(act: &Act) -> u64
    ensures { result ≡ receives act.now }
{
    match act {
        Act::Receive { letter } => { if is_token(letter) { 0 } else { 1 } }
        Act::Rewrite { place: _ } => 0,
        Act::Keep { place: _ } => 0,
        Act::Admit { place: _ } => 0,
        Act::Reject { place: _ } => 0,
        Act::Work { task: _ } => 0,
        Act::Pass => 0,
        Act::Declare => 0,
        Act::End { verdict: _ } => 0,
    }
}

/// The sum, where it is a number.
fn raised_by(n: u64, more: u64) -> Result<u64, AllocError>
    ensures { IfOk result (λ m. m ≡ n + more) }
{
    match n.checked_add(more) {
        Some(m) => Ok(m),
        None => Err(AllocError),
    }
}

/// Enters an act, which sends so many letters but tokens, into the journal with its time.
pub fn stamp(state: &mut State, time: u64, act: Act, sent: u64) -> Result<(), AllocError>
    requires { IsIndexed state.old }
    ensures ok { OnOk result (local_of state.new ≡ stamped (local_of state.old) (record { time = time; peer = state.old.me; act = act }) sent) }
    ensures indexed { OnOk result (IsIndexed state.new) }
    ensures journal { OnErr result (state.new.journal ≡ state.old.journal) }
{
    let sent = raised_by(state.count.sent, sent)?;
    let received = raised_by(state.count.received, count_received(&act))?;
    let peer = state.me;
    state.journal.push(Event { time, peer, act })?;
    state.count = Count { sent, received };
    state.clock = time;
    Ok(())
}

/// Enters an act into the journal, and puts its letters behind the others.
fn enter(
    state: &mut State,
    time: u64,
    act: Act,
    letters: Letters,
    out: &mut Letters,
) -> Result<(), AllocError>
    requires { IsIndexed state.old }
    ensures ok { OnOk result (local_of state.new ≡ stamped (local_of state.old) (record { time = time; peer = state.old.me; act = act }) (tally no_token letters)) }
    ensures out { OnOk result (out.new ≡ out.old ++ letters) }
    ensures indexed { OnOk result (IsIndexed state.new) }
    ensures journal { OnErr result (state.new.journal ≡ state.old.journal) }
    ensures letters { OnErr result (out.new ≡ out.old) }
{
    let sent = count_letters(letters.as_slice());
    let before = out.len();
    out.append(letters)?;
    match stamp(state, time, act, sent) {
        Ok(()) => Ok(()),
        Err(error) => {
            out.truncate(before);
            Err(error)
        }
    }
}

/// Makes the first event under an order of terms, and puts its letters behind the others; false where there is none. After
/// want of memory journal and letters are as before, and nothing else is known of the state.
pub fn turn_by(
    alloc: Global,
    state: &mut State,
    order: &Order,
    problem: &Problem,
    out: &mut Letters,
) -> Result<bool, AllocError>
    requires whole { IsWhole order.now problem.now state.old }
    requires running { state.old.verdict ≡ None }
    ensures whole { OnOk result (IsWhole order.now problem.now state.new) }
    ensures ok { IfOk result (HasTurned order.now problem.now (local_of state.old) (local_of state.new) out.old out.new) }
    ensures journal { OnErr result (state.new.journal ≡ state.old.journal) }
    ensures letters { OnErr result (out.new ≡ out.old) }
{
    cd_infer::laws::usable();
    cd_premises::premises_meet();
    cd_alone::events_keep_going();
    let time = state.clock.saturating_add(1);
    let choice = choose(alloc, state, order, problem)?;
    match make(alloc, state, order, time, choice)? {
        None => Ok(false),
        Some(made) => {
            let Made { act, letters } = made;
            enter(state, time, act, letters, out)?;
            Ok(true)
        }
    }
}

/// The same under the plain order.
pub fn turn(
    alloc: Global,
    state: &mut State,
    problem: &Problem,
    out: &mut Letters,
) -> Result<bool, AllocError>
    requires whole { IsWhole plain problem.now state.old }
    requires running { state.old.verdict ≡ None }
    ensures whole { OnOk result (IsWhole plain problem.now state.new) }
    ensures ok { IfOk result (HasTurned plain problem.now (local_of state.old) (local_of state.new) out.old out.new) }
    ensures journal { OnErr result (state.new.journal ≡ state.old.journal) }
    ensures letters { OnErr result (out.new ≡ out.old) }
{
    let order = Order::plain(alloc);
    let did = turn_by(alloc, state, &order, problem, out)?;
    Ok(did)
}
