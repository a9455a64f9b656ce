//! Worlds of peers under given choices: reads rows from the file `rows`, does their choices, and prints what the peers know
//! then, the letters that travel, and the derivation of each peer that is refuted.
//!
//! A row begins with an at sign: a line with what it shows; one with the number of peers and the choices, `t` and a peer for a
//! turn, `d` and a place for the delivery of the letter there; and, up to the next at sign, the bytes of the problem.
#![tactic(auto)]

ghost use Rattle.cd_read.specs.Formed.{IsBounded, IsFormed};

mod doing;
mod printing;

use crate::doing::{all_done, choices_of};
use crate::printing::put_world;
use cd_ledger::Limits;
use cd_list::{Sequence, Text};
use cd_names::Policy;
use cd_outside::{Bytes, Shelf};
use cd_premises::formed_inputs_fit;
use cd_read::{Problem, read_problem};
use cd_world::World;
use std::alloc::{AllocError, Global};
use std::fs;
use std::io::{self, Write};

fn main(rt: HostRuntime) -> io::Result<()> {
    let text = fs::read_to_string(&rt, "rows")?;
    for part in text.as_str().split('@') {
        if let Some((shows, choices, problem)) = row_of(part) {
            let report = report(rt.alloc(), shows, choices, problem)?;
            rt.stdout().write_all(report.as_slice())?;
        }
    }
    Ok(())
}

fn row_of(part: &str) -> Option<(&str, &str, &str)> {
    let (shows, rest) = part.split_once('\n')?;
    let (choices, problem) = rest.split_once('\n')?;
    Some((shows, choices, problem))
}

fn report(alloc: Global, shows: &str, choices: &str, problem: &str) -> Result<Bytes, AllocError> {
    let mut report = Sequence::new(alloc);
    report.extend(b"== ")?;
    report.extend(shows.as_bytes())?;
    report.extend(b"\n")?;
    let mut files = Sequence::new(alloc);
    let path = Text::of(alloc, "t.p")?;
    files.push((
        Text::of(alloc, "t.p")?,
        Sequence::from_slice(alloc, problem.as_bytes())?,
    ))?;
    let mut library = Shelf::new(alloc, files, Sequence::new(alloc));
    let Ok(problem) = read_problem(alloc, &mut library, &path) else {
        return Ok(report);
    };
    put_run(alloc, &mut report, &problem, choices)?;
    Ok(report)
}

fn put_run(
    alloc: Global,
    into: &mut Bytes,
    problem: &Problem,
    choices: &str,
) -> Result<(), AllocError>
    requires formed { IsFormed problem.now }
    requires bounded { IsBounded problem.now }
{
    let (peers, choices) = choices_of(alloc, choices)?;
    formed_inputs_fit();
    if peers == 0 {
        return Ok(());
    }
    let limits = Limits { steps: 200_000 };
    let mut world = World::start(alloc, problem, peers, Policy::Round, limits)?;
    if !all_done(&mut world, &choices)? {
        into.extend(b"a choice that can't be made\n")?;
    }
    put_world(alloc, into, problem, &world)
}
