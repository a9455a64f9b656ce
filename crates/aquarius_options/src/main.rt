//! Prints what rows of words ask for, and how large each grid is. The stored output is worked out by hand from the grammar of
//! the words and the form of the grids.
#![tactic(auto)]

use cd_list::{Sequence, Text};
use cd_names::Policy;
use cd_options::{Options, Origins, WordsFault, grid_problem, read_words};
use cd_outside::Bytes;
use cd_text::put_number;
use std::alloc::{AllocError, Global};
use std::io::{self, Write};

/// The rows: words with a space between, where an underscore stands for the empty word.
const ROWS: [&str; 60] = [
    "t.p",
    "--peers 4 --schedule 7 t.p",
    "t.p --peers=64 --steps=250000 --allocate=issuer --schedule=18446744073709551615",
    "--allocate size --grid 60",
    "--grid=1",
    "--steps 1 --peers 1 --allocate round t.p",
    "--peers 01 t.p",
    "--schedule 0 t.p",
    "t.p --",
    "-- t.p",
    "-- -x",
    "-- --peers",
    "-- --",
    "--grid 4 --",
    "-",
    "_",
    "help",
    "--peers 1 2",
    "",
    "--",
    "--peers 0 t.p",
    "--peers 65 t.p",
    "--steps 0 t.p",
    "--steps 250001 t.p",
    "--grid 0",
    "--grid 61",
    "--schedule 18446744073709551616 t.p",
    "--schedule 000000000000000000000 t.p",
    "--schedule 00000000000000000000 t.p",
    "--peers= t.p",
    "--peers _ t.p",
    "--peers==2 t.p",
    "--peers=2=3 t.p",
    "--peers -5 t.p",
    "--peers=-5 t.p",
    "--peers - t.p",
    "--peers -- t.p",
    "--peers --grid 4",
    "--peers",
    "t.p --peers",
    "--peers +2 t.p",
    "--peers 1 --peers 2 t.p",
    "--peers=1 --peers=1 t.p",
    "--allocate Round t.p",
    "--allocate _ t.p",
    "-- a b",
    "a -- b",
    "a b",
    "- -",
    "-x",
    "-p 2 t.p",
    "--pee 2 t.p",
    "--PEERS 2 t.p",
    "--=2 t.p",
    "---",
    "--file t.p",
    "--help",
    "-V",
    "t.p --grid 4",
    "--peers 1x t.p",
];

fn main(rt: HostRuntime) -> io::Result<()> {
    let report = report(rt.alloc())?;
    rt.stdout().write_all(report.as_slice())
}

fn report(alloc: Global) -> Result<Bytes, AllocError> {
    let mut report = Sequence::new(alloc);
    for row in &ROWS {
        report.extend(row.as_bytes())?;
        report.extend(b" => ")?;
        put_read(alloc, &mut report, row)?;
        report.push(b'\n')?;
    }
    for n in 1..61 {
        put_grid(alloc, &mut report, n)?;
    }
    Ok(report)
}

/// The name of a grid, and how many clauses and symbols it has.
fn put_grid(alloc: Global, into: &mut Bytes, n: u32) -> Result<(), AllocError> {
    if n == 0 || n > 60 {
        return Ok(());
    }
    let problem = grid_problem(alloc, n)?;
    into.extend(problem.name.as_bytes())?;
    into.extend(b", ")?;
    put_number(into, problem.inputs.len() as u64)?;
    into.extend(b" clauses, ")?;
    put_number(into, problem.symbols.len() as u64)?;
    into.extend(b" symbols\n")
}

fn put_read(alloc: Global, into: &mut Bytes, row: &str) -> Result<(), AllocError> {
    let words = words_of(alloc, row)?;
    match read_words(alloc, words.as_slice()) {
        Ok(options) => put_options(into, &options),
        Err(WordsFault::Usage) => into.extend(b"usage"),
        Err(WordsFault::Memory) => Err(AllocError),
    }
}

fn words_of(alloc: Global, row: &str) -> Result<Sequence<Text>, AllocError> {
    let mut words = Sequence::new(alloc);
    for word in row.split(' ') {
        if !row.is_empty() {
            words.push(Text::of(alloc, if word == "_" { "" } else { word })?)?;
        }
    }
    Ok(words)
}

fn put_options(into: &mut Bytes, options: &Options) -> Result<(), AllocError> {
    put_number(into, u64::from(options.peers))?;
    into.extend(b" peers, ")?;
    put_number(into, options.steps)?;
    into.extend(b" steps, ")?;
    into.extend(policy_text(options.policy))?;
    put_schedule(into, options.schedule)?;
    put_source(into, &options.source)
}

fn policy_text(policy: Policy) -> &'static [u8] {
    match policy {
        Policy::Round => b"round",
        Policy::Issuer => b"issuer",
        Policy::Size => b"size",
    }
}

fn put_schedule(into: &mut Bytes, schedule: Option<u64>) -> Result<(), AllocError> {
    match schedule {
        None => Ok(()),
        Some(seed) => {
            into.extend(b", schedule ")?;
            put_number(into, seed)
        }
    }
}

fn put_source(into: &mut Bytes, source: &Origins) -> Result<(), AllocError> {
    match source {
        Origins::File(path) => {
            into.extend(b", file ")?;
            into.extend(path.as_bytes())
        }
        Origins::Grid(n) => {
            into.extend(b", grid ")?;
            put_number(into, u64::from(*n))
        }
    }
}
