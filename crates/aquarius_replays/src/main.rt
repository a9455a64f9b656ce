//! Journals that are played again: for each line of the file `runs` the prover is called with its words on the file `t.p`, and
//! the journal of each peer is replayed. Printed is what each leads to, and the first event that isn't legal in the journal
//! without its first event.
#![tactic(auto)]

ghost use Rattle.std.specs.Prelude.{◌<◌};
ghost use Rattle.cd_read.specs.Formed.{IsBounded, IsFormed};

use cd_ledger::{Event, Local};
use cd_list::{Sequence, Text};
use cd_outside::{Bytes, OpenGate, Page, Shelf};
use cd_premises::formed_inputs_fit;
use cd_read::{Problem, read_problem};
use cd_replay::{ReplayFault, replay};
use cd_text::put_number;
use cd_top::{Account, prove};
use std::alloc::{AllocError, Global};
use std::fs;
use std::io::{self, Write};
use std::sync::Wait;
use std::thread::Threads;

fn main(rt: HostRuntime) -> io::Result<()> {
    let runs = fs::read_to_string(&rt, "runs")?;
    let problem = fs::read_to_string(&rt, "t.p")?;
    for words in runs.as_str().split('\n') {
        if !words.is_empty() {
            let report = report(&rt, rt.alloc(), words, problem.as_bytes())?;
            rt.stdout().write_all(report.as_slice())?;
        }
    }
    Ok(())
}

fn report<R: Threads + Wait + Sync>(
    rt: &R,
    alloc: Global,
    words: &str,
    file: &[u8],
) -> Result<Bytes, AllocError> {
    let mut report = Sequence::new(alloc);
    report.extend(b"== ")?;
    report.extend(words.as_bytes())?;
    report.extend(b"\n")?;
    let account = account_of(rt, alloc, words, file)?;
    put_all(alloc, &mut report, &account, file)?;
    Ok(report)
}

fn shelf_of(alloc: Global, file: &[u8]) -> Result<Shelf, AllocError> {
    let mut files = Sequence::new(alloc);
    files.push((Text::of(alloc, "t.p")?, Sequence::from_slice(alloc, file)?))?;
    Ok(Shelf::new(alloc, files, Sequence::new(alloc)))
}

fn words_of(alloc: Global, line: &str) -> Result<Sequence<Text>, AllocError> {
    let mut words = Sequence::new(alloc);
    for word in line.split(' ') {
        words.push(Text::of(alloc, word)?)?;
    }
    Ok(words)
}

fn account_of<R: Threads + Wait + Sync>(
    rt: &R,
    alloc: Global,
    words: &str,
    file: &[u8],
) -> Result<Account, AllocError> {
    let words = words_of(alloc, words)?;
    let mut library = shelf_of(alloc, file)?;
    let mut page = Page::new(alloc, 65_536, 1_000, Sequence::new(alloc))?;
    let outcome = prove(
        rt,
        alloc,
        words.as_slice(),
        &mut library,
        &mut page,
        &OpenGate {},
    );
    Ok(outcome.account)
}

fn put_all(
    alloc: Global,
    into: &mut Bytes,
    account: &Account,
    file: &[u8],
) -> Result<(), AllocError> {
    let path = Text::of(alloc, "t.p")?;
    let mut library = shelf_of(alloc, file)?;
    let Ok(problem) = read_problem(alloc, &mut library, &path) else {
        return Ok(());
    };
    put_journals(alloc, into, &problem, account)
}

fn put_journals(
    alloc: Global,
    into: &mut Bytes,
    problem: &Problem,
    account: &Account,
) -> Result<(), AllocError>
    requires formed { IsFormed problem.now }
    requires bounded { IsBounded problem.now }
{
    let mut me = 0u16;
    for journal in account.journals.as_slice() {
        if me < account.peers {
            put_peer(alloc, into, problem, account, me, journal.as_slice())?;
        }
        me = me.saturating_add(1);
    }
    Ok(())
}

fn put_peer(
    alloc: Global,
    into: &mut Bytes,
    problem: &Problem,
    account: &Account,
    me: u16,
    journal: &[Event],
) -> Result<(), AllocError>
    requires formed { IsFormed problem.now }
    requires bounded { IsBounded problem.now }
    requires me { me < account.now.peers }
{
    into.extend(b"peer ")?;
    put_number(into, u64::from(me))?;
    into.extend(b", events ")?;
    put_number(into, journal.len() as u64)?;
    put_replay(alloc, into, problem, account, me, journal)?;
    if let [_, behind @ ..] = journal {
        put_replay(alloc, into, problem, account, me, behind)?;
    }
    into.extend(b"\n")
}

fn put_replay(
    alloc: Global,
    into: &mut Bytes,
    problem: &Problem,
    account: &Account,
    me: u16,
    journal: &[Event],
) -> Result<(), AllocError>
    requires formed { IsFormed problem.now }
    requires bounded { IsBounded problem.now }
    requires me { me < account.now.peers }
{
    formed_inputs_fit();
    match replay(
        alloc,
        problem,
        me,
        account.peers,
        account.policy,
        account.limits,
        journal,
    ) {
        Ok(local) => put_local(into, &local),
        Err(ReplayFault::Illegal { index }) => put_illegal(into, index),
        Err(ReplayFault::Memory) => Err(AllocError),
    }
}

fn put_local(into: &mut Bytes, local: &Local) -> Result<(), AllocError> {
    into.extend(b": known ")?;
    put_number(into, local.known.len() as u64)?;
    into.extend(b", units ")?;
    put_number(into, local.units)?;
    into.extend(b", clock ")?;
    put_number(into, local.clock)
}

fn put_illegal(into: &mut Bytes, index: u64) -> Result<(), AllocError> {
    into.extend(b"; event ")?;
    put_number(into, index)?;
    into.extend(b" isn't legal")
}
