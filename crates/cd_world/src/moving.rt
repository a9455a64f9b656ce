//! A choice, done on the parts of a world.
ghost use Rattle.std.specs.Prelude.{◌≡◌, ◌<◌, length, [], IfOk, OnErr, OnOk, MatchOption};
ghost use Rattle.cd_machine.specs.Turns.{IsIdle};
ghost use Rattle.cd_world.specs.Worlds.{Breaks, DeliveryBroke, DeliveryDone, FallsPeer, MayDo, MayGive, MayGiveAt, MayTake, ReceivesPeer, StepsTo, TurnBroke, TurnDone, TurnsPeer, peer_at};

use crate::world::Turns;
use cd_ledger::{Letter, Letters};
use cd_peer::{Peer, Turned};
use std::alloc::AllocError;

/// What happens next: a turn of the peer with this number, or the delivery of the letter at this place of those that travel.
#[derive(Clone, Copy)]
pub enum Choice {
    Turn(u16),
    Deliver(u64),
}

/// The peer's next event and its letters, or `None` where it is idle.
fn turn_peer<'p>(peers: &mut Vec<Peer<'p>>, q: usize) -> Result<Option<Letters>, AllocError>
    requires { MayTake peers.old.items q }
    ensures ok { IfOk result (λ o. MatchOption o (IsIdle (peer_at peers.old.items q).local × (peers.new.items ≡ peers.old.items)) (λ letters. TurnsPeer q peers.old.items peers.new.items letters)) }
    ensures err { OnErr result (FallsPeer q peers.old.items peers.new.items) }
{
    let peer = &mut peers[q];
    match peer.turn()? {
        Turned::Idle => Ok(None),
        Turned::Did => {
            let letters = peer.take_outgoing();
            Ok(Some(letters))
        }
    }
}

/// A letter comes to its peer.
fn give_peer<'p>(peers: &mut Vec<Peer<'p>>, letter: Letter) -> Result<(), AllocError>
    requires { MayGive peers.old.items letter }
    ensures ok { OnOk result (ReceivesPeer letter peers.old.items peers.new.items) }
    ensures err { OnErr result (FallsPeer letter.to peers.old.items peers.new.items) }
{
    let peer = &mut peers[letter.to as usize];
    peer.receive(letter)?;
    Ok(())
}

/// A turn of peer q. Room in the order is had before the event, and is given back where there is none.
fn turn_one<'p>(
    peers: &mut Vec<Peer<'p>>,
    travelling: &mut Letters,
    order: &mut Turns,
    q: u16,
) -> Result<Turned, AllocError>
    requires { MayTake peers.old.items q }
    ensures ok { IfOk result (TurnDone q (record { peers = peers.old.items; travelling = travelling.old; order = order.old }) (record { peers = peers.new.items; travelling = travelling.new; order = order.new })) }
    ensures err { OnErr result (TurnBroke q (record { peers = peers.old.items; travelling = travelling.old; order = order.old }) (record { peers = peers.new.items; travelling = travelling.new; order = order.new })) }
{
    let before = order.len();
    order.push(q)?;
    match turn_peer(peers, q as usize) {
        Ok(Some(letters)) => {
            travelling.append(letters)?;
            Ok(Turned::Did)
        }
        Ok(None) => {
            order.truncate(before);
            Ok(Turned::Idle)
        }
        Err(error) => {
            order.truncate(before);
            Err(error)
        }
    }
}

/// The letter at a place of those that travel comes to its peer. Room in the order is had before the event.
fn deliver_one<'p>(
    peers: &mut Vec<Peer<'p>>,
    travelling: &mut Letters,
    order: &mut Turns,
    place: usize,
) -> Result<(), AllocError>
    requires place { place < length travelling.old }
    requires may { MayGiveAt peers.old.items travelling.old place }
    ensures ok { OnOk result (DeliveryDone place (record { peers = peers.old.items; travelling = travelling.old; order = order.old }) (record { peers = peers.new.items; travelling = travelling.new; order = order.new })) }
    ensures err { OnErr result (DeliveryBroke place (record { peers = peers.old.items; travelling = travelling.old; order = order.old }) (record { peers = peers.new.items; travelling = travelling.new; order = order.new })) }
{
    let before = order.len();
    let letter = travelling.remove(place);
    order.push(letter.to)?;
    match give_peer(peers, letter) {
        Ok(()) => Ok(()),
        Err(error) => {
            order.truncate(before);
            Err(error)
        }
    }
}

/// Does what was chosen.
pub fn do_choice<'p>(
    peers: &mut Vec<Peer<'p>>,
    travelling: &mut Letters,
    order: &mut Turns,
    choice: Choice,
) -> Result<Turned, AllocError>
    requires { MayDo (record { peers = peers.old.items; travelling = travelling.old; order = order.old }) choice }
    ensures ok { IfOk result (StepsTo (record { peers = peers.old.items; travelling = travelling.old; order = order.old }) choice (record { peers = peers.new.items; travelling = travelling.new; order = order.new })) }
    ensures err { OnErr result (Breaks (record { peers = peers.old.items; travelling = travelling.old; order = order.old }) choice (record { peers = peers.new.items; travelling = travelling.new; order = order.new })) }
{
    match choice {
        Choice::Turn(q) => {
            let turned = turn_one(peers, travelling, order, q)?;
            Ok(turned)
        }
        Choice::Deliver(place) => {
            deliver_one(peers, travelling, order, place as usize)?;
            Ok(Turned::Did)
        }
    }
}
