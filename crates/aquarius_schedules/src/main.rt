//! Runs by stated schedules: for each line of the file `runs` the prover is called twice with its words, on the file `t.p`.
//! Printed are the words, the status, for a refutation what the checker's call answers to the text, and whether the second
//! call wrote the same bytes.
#![tactic(auto)]

use cd_checktop::check;
use cd_list::{Sequence, Text};
use cd_outside::{Bytes, OpenGate, Page, Shelf};
use cd_text::put_number;
use cd_top::prove;
use std::alloc::{AllocError, Global};
use std::fs;
use std::io::{self, Write};
use std::sync::Wait;
use std::thread::Threads;

fn main(rt: HostRuntime) -> io::Result<()> {
    let runs = fs::read_to_string(&rt, "runs")?;
    let problem = fs::read_to_string(&rt, "t.p")?;
    for words in runs.as_str().split('\n') {
        if !words.is_empty() {
            let report = report(&rt, rt.alloc(), words, problem.as_bytes())?;
            rt.stdout().write_all(report.as_slice())?;
        }
    }
    Ok(())
}

fn report<R: Threads + Wait + Sync>(
    rt: &R,
    alloc: Global,
    words: &str,
    problem: &[u8],
) -> Result<Bytes, AllocError> {
    let (status, page) = run(rt, alloc, words, problem)?;
    let (later, again) = run(rt, alloc, words, problem)?;
    let mut report = Sequence::new(alloc);
    report.extend(b"== ")?;
    report.extend(words.as_bytes())?;
    put_status(&mut report, b"\nstatus ", status)?;
    if status == 0 {
        let checked = checked(alloc, problem, page.bytes())?;
        put_status(&mut report, b"checked with status ", checked)?;
    }
    if status == later && page.bytes() == again.bytes() {
        report.extend(b"the same bytes again\n")?;
    }
    Ok(report)
}

fn put_status(into: &mut Bytes, shows: &[u8], status: u8) -> Result<(), AllocError> {
    into.extend(shows)?;
    put_number(into, u64::from(status))?;
    into.extend(b"\n")
}

/// The status of the prover, and what it wrote.
fn run<R: Threads + Wait + Sync>(
    rt: &R,
    alloc: Global,
    words: &str,
    problem: &[u8],
) -> Result<(u8, Page), AllocError> {
    let words = words_of(alloc, words)?;
    let mut library = shelf_of(alloc, problem, b"")?;
    let mut page = Page::new(alloc, 65_536, 1_000, Sequence::new(alloc))?;
    let outcome = prove(
        rt,
        alloc,
        words.as_slice(),
        &mut library,
        &mut page,
        &OpenGate {},
    );
    Ok((outcome.status, page))
}

/// The status of the checker on the problem and the text.
fn checked(alloc: Global, problem: &[u8], derivation: &[u8]) -> Result<u8, AllocError> {
    let words = words_of(alloc, "t.p d.p")?;
    let mut library = shelf_of(alloc, problem, derivation)?;
    let mut page = Page::new(alloc, 65_536, 1_000, Sequence::new(alloc))?;
    let outcome = check(alloc, words.as_slice(), &mut library, &mut page);
    Ok(outcome.status)
}

fn words_of(alloc: Global, text: &str) -> Result<Sequence<Text>, AllocError> {
    let mut words = Sequence::new(alloc);
    for word in text.split(' ') {
        words.push(Text::of(alloc, word)?)?;
    }
    Ok(words)
}

fn shelf_of(alloc: Global, problem: &[u8], derivation: &[u8]) -> Result<Shelf, AllocError> {
    let mut files = Sequence::new(alloc);
    files.push((
        Text::of(alloc, "t.p")?,
        Sequence::from_slice(alloc, problem)?,
    ))?;
    files.push((
        Text::of(alloc, "d.p")?,
        Sequence::from_slice(alloc, derivation)?,
    ))?;
    Ok(Shelf::new(alloc, files, Sequence::new(alloc)))
}
