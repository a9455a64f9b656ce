//! Prints a world: what its peers know, how many letters wait and which travel, and derivations.
ghost use Rattle.std.specs.Prelude.{◌≡◌, false};

use cd_build::derivation;
use cd_ledger::{Body, Known, Letter, Reason, Status, Verdict};
use cd_names::{Counts, Name};
use cd_outside::Bytes;
use cd_peer::Peer;
use cd_read::Problem;
use cd_text::{line_text, put_number};
use cd_world::World;
use std::alloc::{AllocError, Global};

/// The peers in the order of their numbers, and then the letters that travel.
pub fn put_world(
    alloc: Global,
    into: &mut Bytes,
    problem: &Problem,
    world: &World,
) -> Result<(), AllocError>
    requires standing { world.now.fallen ≡ false }
    requires problem { world.now.problem ≡ problem.now }
{
    for q in 0..world.len() {
        let Ok(me) = u16::try_from(q) else {
            return Ok(());
        };
        let peer = world.peer(me);
        put_peer(into, peer)?;
        put_derivation(alloc, into, problem, peer)?;
    }
    for letter in world.travelling() {
        put_letter(into, letter)?;
    }
    Ok(())
}

fn put_peer(into: &mut Bytes, peer: &Peer) -> Result<(), AllocError> {
    into.extend(b"peer ")?;
    put_number(into, u64::from(peer.me()))?;
    into.extend(b", events ")?;
    put_number(into, peer.journal().len() as u64)?;
    into.extend(b", waiting ")?;
    put_number(into, peer.state().waiting.len() as u64)?;
    into.extend(b"\n")?;
    for known in peer.entries().as_slice() {
        put_known(into, known)?;
    }
    Ok(())
}

fn put_known(into: &mut Bytes, known: &Known) -> Result<(), AllocError> {
    put_name(into, b"  ", known.entry.name)?;
    match &known.status {
        Status::Held => into.extend(b" held")?,
        Status::Rework(by) => put_name(into, b" reworked by ", *by)?,
        Status::Dropped(Reason::Subsumed(by)) => put_name(into, b" dropped for ", *by)?,
        Status::Dropped(Reason::Replaced { by, using: _ }) => {
            put_name(into, b" replaced by ", *by)?
        }
        Status::Dropped(Reason::Simplified { using: _, end: _ }) => into.extend(b" simplified")?,
        Status::Told(by) => put_name(into, b" told for ", *by)?,
    }
    into.extend(b"\n")
}

fn put_name(into: &mut Bytes, shows: &[u8], name: Name) -> Result<(), AllocError> {
    into.extend(shows)?;
    into.extend(b"n")?;
    put_number(into, u64::from(name.peer))?;
    into.extend(b"_")?;
    put_number(into, u64::from(name.seq))
}

fn put_letter(into: &mut Bytes, letter: &Letter) -> Result<(), AllocError> {
    into.extend(b"from ")?;
    put_number(into, u64::from(letter.sender))?;
    into.extend(b" to ")?;
    put_number(into, u64::from(letter.to))?;
    match &letter.body {
        Body::Kept(entry) => put_name(into, b": ", entry.name)?,
        Body::Notice { of, by, how: _ } => {
            put_name(into, b": ", *of)?;
            put_name(into, b" superfluous for ", *by)?;
        }
        Body::Token(token) => {
            put_counts(into, b": one", &token.one)?;
            put_counts(into, b", two", &token.two)?;
        }
    }
    into.extend(b"\n")
}

fn put_counts(into: &mut Bytes, shows: &[u8], counts: &Counts) -> Result<(), AllocError> {
    into.extend(shows)?;
    for count in counts.as_slice() {
        into.extend(b" ")?;
        put_number(into, count.sent)?;
        into.extend(b"/")?;
        put_number(into, count.received)?;
    }
    Ok(())
}

/// The derivation of a peer that is refuted.
fn put_derivation(
    alloc: Global,
    into: &mut Bytes,
    problem: &Problem,
    peer: &Peer,
) -> Result<(), AllocError>
    requires standing { peer.now.fallen ≡ false }
    requires problem { peer.now.problem ≡ problem.now }
{
    let state = peer.state();
    let Some(Verdict::Refuted) = state.verdict else {
        return Ok(());
    };
    let lines = derivation(alloc, problem, state)?;
    for line in lines.as_slice() {
        line_text(&problem.symbols, line, into)?;
        into.extend(b"\n")?;
    }
    Ok(())
}
