//! Worked runs of the prover's call: reads rows from the file `rows`, and prints the status of each and the bytes
//! that a sink took. The stored output is worked out by hand from the output format.
//!
//! A row begins with an at sign, and has four parts: a line with what it shows; one with the words, or none; one
//! with two digits, the sink's call that fails and how many bytes it still takes, or none; and, up to the next
//! at sign, the bytes of the file `t.p`.
#![tactic(auto)]

use cd_list::{Sequence, Text};
use cd_outside::{Bytes, OpenGate, Page, Shelf};
use cd_text::put_number;
use cd_top::prove;
use std::alloc::{AllocError, Global};
use std::fs;
use std::io::{self, Write};
use std::sync::Wait;
use std::thread::Threads;

/// What a row shows, the words, the failing call, and the bytes of the file.
type Row<'a> = (&'a str, &'a str, &'a str, &'a str);

fn main(rt: HostRuntime) -> io::Result<()> {
    let text = fs::read_to_string(&rt, "rows")?;
    for part in text.as_str().split('@') {
        if let Some(row) = row_of(part) {
            let report = report(&rt, rt.alloc(), row)?;
            rt.stdout().write_all(report.as_slice())?;
        }
    }
    Ok(())
}

fn row_of(part: &str) -> Option<Row<'_>> {
    let (shows, rest) = part.split_once('\n')?;
    let (words, rest) = rest.split_once('\n')?;
    let (fails, file) = rest.split_once('\n')?;
    Some((shows, words, fails, file))
}

/// What a row shows, the status, and the bytes that a sink took.
fn report<R: Threads + Wait + Sync>(rt: &R, alloc: Global, row: Row) -> Result<Bytes, AllocError> {
    let (shows, words, fails, file) = row;
    let words = words_of(alloc, words)?;
    let mut library = shelf_of(alloc, file)?;
    let mut page = page_of(alloc, fails)?;
    let outcome = prove(
        rt,
        alloc,
        words.as_slice(),
        &mut library,
        &mut page,
        &OpenGate {},
    );
    printed(alloc, shows, outcome.status, page.bytes())
}

fn words_of(alloc: Global, text: &str) -> Result<Sequence<Text>, AllocError> {
    let mut words = Sequence::new(alloc);
    for word in text.split(' ') {
        if !word.is_empty() {
            words.push(Text::of(alloc, word)?)?;
        }
    }
    Ok(words)
}

fn shelf_of(alloc: Global, file: &str) -> Result<Shelf, AllocError> {
    let mut files = Sequence::new(alloc);
    files.push((
        Text::of(alloc, "t.p")?,
        Sequence::from_slice(alloc, file.as_bytes())?,
    ))?;
    Ok(Shelf::new(alloc, files, Sequence::new(alloc)))
}

fn page_of(alloc: Global, fails: &str) -> Result<Page, AllocError> {
    let mut failing = Sequence::new(alloc);
    if let [call, share] = fails.as_bytes() {
        failing.push((digit(*call), digit(*share)))?;
    }
    Page::new(alloc, 65_536, 1_000, failing)
}

fn digit(byte: u8) -> u64 {
    u64::from(byte.saturating_sub(b'0'))
}

fn printed(alloc: Global, shows: &str, status: u8, text: &[u8]) -> Result<Bytes, AllocError> {
    let mut report = Sequence::new(alloc);
    report.extend(b"== ")?;
    report.extend(shows.as_bytes())?;
    report.extend(b"\nstatus ")?;
    put_number(&mut report, u64::from(status))?;
    report.extend(b"\n")?;
    report.extend(text)?;
    Ok(report)
}
