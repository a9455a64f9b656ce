//! Worked runs of the checker's call: reads rows from the file `rows`, and prints the status of each and the bytes
//! that a sink took. The stored output is worked out by hand from the output format.
//!
//! A row begins with an at sign, and has five parts: a line with what it shows; one with the words; one with two digits,
//! the sink's call that fails and how many bytes it still takes, or none; up to a number sign, the bytes of the file
//! `t.p`; and, up to the next at sign, the bytes of the file `d.p`. A file `i.p` includes `t.p`.
#![tactic(auto)]

use cd_checktop::check;
use cd_list::{Sequence, Text};
use cd_outside::{Bytes, Page, Shelf};
use cd_text::put_number;
use std::alloc::{AllocError, Global};
use std::fs;
use std::io::{self, Write};

/// What a row shows, the words, the failing call, and the bytes of the two files.
#[derive(Clone, Copy)]
struct Row<'a> {
    shows: &'a str,
    words: &'a str,
    fails: &'a str,
    problem: &'a str,
    derivation: &'a str,
}

fn main(rt: HostRuntime) -> io::Result<()> {
    let text = fs::read_to_string(&rt, "rows")?;
    for part in text.as_str().split('@') {
        if let Some(row) = row_of(part) {
            let report = report(rt.alloc(), &row)?;
            rt.stdout().write_all(report.as_slice())?;
        }
    }
    Ok(())
}

fn row_of(part: &str) -> Option<Row<'_>> {
    let (shows, rest) = part.split_once('\n')?;
    let (words, rest) = rest.split_once('\n')?;
    let (fails, files) = rest.split_once('\n')?;
    let (problem, derivation) = files.split_once('#')?;
    Some(Row {
        shows,
        words,
        fails,
        problem,
        derivation,
    })
}

/// What a row shows, the status, and the bytes that a sink took.
fn report(alloc: Global, row: &Row) -> Result<Bytes, AllocError> {
    let words = words_of(alloc, row.words)?;
    let mut library = shelf_of(alloc, row)?;
    let mut page = page_of(alloc, row.fails)?;
    let outcome = check(alloc, words.as_slice(), &mut library, &mut page);
    printed(alloc, row.shows, outcome.status, page.bytes())
}

fn words_of(alloc: Global, text: &str) -> Result<Sequence<Text>, AllocError> {
    let mut words = Sequence::new(alloc);
    for word in text.split(' ') {
        words.push(Text::of(alloc, word)?)?;
    }
    Ok(words)
}

fn shelf_of(alloc: Global, row: &Row) -> Result<Shelf, AllocError> {
    let mut files = Sequence::new(alloc);
    files.push((
        Text::of(alloc, "t.p")?,
        Sequence::from_slice(alloc, row.problem.as_bytes())?,
    ))?;
    files.push((
        Text::of(alloc, "d.p")?,
        Sequence::from_slice(alloc, row.derivation.as_bytes())?,
    ))?;
    files.push((
        Text::of(alloc, "i.p")?,
        Sequence::from_slice(alloc, b"include('t.p').")?,
    ))?;
    Ok(Shelf::new(alloc, files, Sequence::new(alloc)))
}

fn page_of(alloc: Global, fails: &str) -> Result<Page, AllocError> {
    let mut failing = Sequence::new(alloc);
    if let [call, share] = fails.as_bytes() {
        failing.push((digit(*call), digit(*share)))?;
    }
    Page::new(alloc, 65_536, 1_000, failing)
}

fn digit(byte: u8) -> u64 {
    u64::from(byte.saturating_sub(b'0'))
}

fn printed(alloc: Global, shows: &str, status: u8, text: &[u8]) -> Result<Bytes, AllocError> {
    let mut report = Sequence::new(alloc);
    report.extend(b"== ")?;
    report.extend(shows.as_bytes())?;
    report.extend(b"\nstatus ")?;
    put_number(&mut report, u64::from(status))?;
    report.extend(b"\n")?;
    report.extend(text)?;
    Ok(report)
}
