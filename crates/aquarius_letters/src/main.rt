//! What a peer does with letters that were forged: it throws each away, and knows no more than before.
//!
//! Peer 0 of two has kept `p`, its share of the problem, when a letter of peer 1 comes. Only the first one tells what peer 1
//! might say.
#![tactic(auto)]

ghost use Rattle.std.specs.Prelude.{◌≡◌, IsTrue, IfOk, None, false};
ghost use Rattle.cd_read.specs.Formed.{IsBounded, IsFormed};

mod giving;

use crate::giving::{Told, letter_of};
use cd_ledger::{Act, Event, Letter, Limits};
use cd_list::{Sequence, Text};
use cd_names::Policy;
use cd_outside::{Bytes, Shelf};
use cd_peer::Peer;
use cd_premises::formed_inputs_fit;
use cd_read::{Problem, read_problem};
use cd_text::put_number;
use std::alloc::{AllocError, Global};
use std::io::{self, Write};

const PROBLEM: &str = "cnf(a,axiom,p).
cnf(b,axiom,~p).
";

/// The end of the times from which a clock is lifted.
const LATE: u64 = 0x8000_0000_0000_0000;

const RIGHT: Told = Told {
    shows: "the clause of its own input",
    sender: 1,
    time: 1,
    issuer: 1,
    owner: 1,
    input: 1,
    clause: 1,
    is_citing: false,
};

const ALL: [Told; 9] = [
    RIGHT,
    Told {
        shows: "a clause that isn't the input's",
        clause: 0,
        ..RIGHT
    },
    Told {
        shows: "the empty clause",
        clause: 2,
        ..RIGHT
    },
    Told {
        shows: "an input in another peer's share",
        input: 0,
        clause: 0,
        ..RIGHT
    },
    Told {
        shows: "an input that isn't there",
        input: 3,
        ..RIGHT
    },
    Told {
        shows: "a name of another peer",
        issuer: 0,
        ..RIGHT
    },
    Told {
        shows: "an owner against the policy",
        owner: 0,
        ..RIGHT
    },
    Told {
        shows: "a name cited that no step mentions",
        is_citing: true,
        ..RIGHT
    },
    Told {
        shows: "a time past the last",
        time: LATE,
        ..RIGHT
    },
];

fn main(rt: HostRuntime) -> io::Result<()> {
    for told in &ALL {
        let report = report(rt.alloc(), told)?;
        rt.stdout().write_all(report.as_slice())?;
    }
    Ok(())
}

fn report(alloc: Global, told: &Told) -> Result<Bytes, AllocError> {
    let mut report = Sequence::new(alloc);
    report.extend(told.shows.as_bytes())?;
    report.extend(b": ")?;
    let mut files = Sequence::new(alloc);
    let path = Text::of(alloc, "t.p")?;
    files.push((
        Text::of(alloc, "t.p")?,
        Sequence::from_slice(alloc, PROBLEM.as_bytes())?,
    ))?;
    let mut library = Shelf::new(alloc, files, Sequence::new(alloc));
    let Ok(problem) = read_problem(alloc, &mut library, &path) else {
        return Ok(report);
    };
    put_run(alloc, &mut report, &problem, told)?;
    report.extend(b"\n")?;
    Ok(report)
}

fn is_running(peer: &Peer) -> bool
    ensures { IsTrue result → peer.now.local.verdict ≡ None }
{
    peer.verdict().is_none()
}

/// The first of two peers after its first event.
fn first<'p>(alloc: Global, problem: &'p Problem) -> Result<Peer<'p>, AllocError>
    requires formed { IsFormed problem.now }
    requires bounded { IsBounded problem.now }
    ensures { IfOk result (λ peer. peer.fallen ≡ false) }
{
    formed_inputs_fit();
    let limits = Limits { steps: 50_000 };
    let mut peer = Peer::start(alloc, problem, 0, 2, Policy::Round, limits)?;
    let _kept = peer.turn()?;
    Ok(peer)
}

/// A letter comes, and the peer makes an event.
fn give(peer: &mut Peer, letter: Letter) -> Result<(), AllocError>
    requires { peer.old.fallen ≡ false }
{
    if !is_running(peer) || letter.to != peer.me() {
        return Ok(());
    }
    peer.receive(letter)?;
    if is_running(peer) {
        let _done = peer.turn()?;
    }
    Ok(())
}

fn put_run(
    alloc: Global,
    into: &mut Bytes,
    problem: &Problem,
    told: &Told,
) -> Result<(), AllocError>
    requires formed { IsFormed problem.now }
    requires bounded { IsBounded problem.now }
{
    let letter = letter_of(alloc, problem, told)?;
    let mut peer = first(alloc, problem)?;
    give(&mut peer, letter)?;
    put_peer(into, &peer)
}

fn put_peer(into: &mut Bytes, peer: &Peer) -> Result<(), AllocError> {
    into.extend(verb_of(peer.journal().as_slice()))?;
    into.extend(b"; known ")?;
    put_number(into, peer.entries().len() as u64)?;
    into.extend(b", waiting ")?;
    put_number(into, peer.state().waiting.len() as u64)?;
    into.extend(b", events ")?;
    put_number(into, peer.journal().len() as u64)
}

fn verb_of(journal: &[Event]) -> &'static [u8] {
    match journal.last() {
        Some(event) => match event.act {
            Act::Admit { place: _ } => b"admitted",
            Act::Reject { place: _ } => b"rejected",
            _ => b"neither",
        },
        None => b"nothing",
    }
}
