//! The journals that a run has beside its answer.
use cd_ledger::{Act, Event};
use cd_list::{Sequence, Text};
use cd_outside::{OpenGate, Page, Shelf};
use cd_tasks::Task;
use cd_top::{ProveOutcome, prove};
use std::alloc::{AllocError, Global};
use std::sync::Wait;
use std::thread::Threads;

fn shelf_of(alloc: Global, file: &str) -> Result<Shelf, AllocError> {
    let mut files = Sequence::new(alloc);
    files.push((
        Text::of(alloc, "t.p")?,
        Sequence::from_slice(alloc, file.as_bytes())?,
    ))?;
    Ok(Shelf::new(alloc, files, Sequence::new(alloc)))
}

/// A kind of act by its first letter, and the numbers of the names of a task.
type Expected = (u8, u32, u32);

fn is_act(act: &Act, expected: Expected) -> bool {
    let (kind, first, second) = expected;
    match act {
        Act::Keep { place: _ } => kind == b'k',
        Act::Work {
            task: Task::Solo(a),
        } => kind == b's' && a.seq == first,
        Act::Work {
            task: Task::Pair(a, b),
        } => kind == b'p' && a.seq == first && b.seq == second,
        Act::Rewrite { place: _ } => kind == b'r',
        Act::Pass => kind == b't',
        Act::Declare => kind == b'd',
        Act::End { verdict: _ } => kind == b'e',
        Act::Receive { letter: _ } => false,
        Act::Admit { place: _ } => false,
        Act::Reject { place: _ } => false,
    }
}

/// Whether a journal has these acts.
fn are_acts(journal: &[Event], expected: &[Expected]) -> bool {
    if journal.len() != expected.len() {
        return false;
    }
    for i in 0..journal.len() {
        if !is_act(&journal[i].act, expected[i]) {
            return false;
        }
    }
    true
}

fn run<R: Threads + Wait + Sync>(
    rt: &R,
    alloc: Global,
    file: &str,
) -> Result<ProveOutcome, AllocError> {
    let mut words = Sequence::new(alloc);
    words.push(Text::of(alloc, "t.p")?)?;
    let mut library = shelf_of(alloc, file)?;
    let mut page = Page::new(alloc, 65_536, 1_000, Sequence::new(alloc))?;
    Ok(prove(
        rt,
        alloc,
        words.as_slice(),
        &mut library,
        &mut page,
        &OpenGate {},
    ))
}

/// Whether the run has one journal, of these acts.
fn has_acts<R: Threads + Wait + Sync>(
    rt: &R,
    alloc: Global,
    file: &str,
    expected: &[Expected],
) -> Result<bool, AllocError> {
    let outcome = run(rt, alloc, file)?;
    match outcome.account.journals.as_slice() {
        [journal] => Ok(are_acts(journal.as_slice(), expected)),
        _ => Ok(false),
    }
}

/// The inputs are kept, each with the tasks of its name behind it, and then the empty clause.
const REFUTATION: [Expected; 7] = [
    (b'k', 0, 0),
    (b'k', 0, 0),
    (b's', 0, 0),
    (b'p', 0, 0),
    (b's', 1, 0),
    (b'p', 0, 1),
    (b'k', 0, 0),
];

#[test]
fn the_journal_of_a_refutation_has_its_items_and_tasks(rt: HostRuntime) -> Result<(), AllocError> {
    let file = "cnf(a,axiom,p).\ncnf(b,axiom,~p).\n";
    assert!(rt; has_acts(&rt, rt.alloc(), file, REFUTATION.as_slice())?);
    Ok(())
}

/// An item that an equation reduces is rewritten first, the equation concludes a tautology from itself, and with nothing left
/// the token goes round twice.
const SATURATION: [Expected; 13] = [
    (b'k', 0, 0),
    (b'r', 0, 0),
    (b'k', 0, 0),
    (b's', 0, 0),
    (b'p', 0, 0),
    (b'k', 0, 0),
    (b's', 1, 0),
    (b'p', 0, 1),
    (b'p', 1, 1),
    (b'p', 1, 0),
    (b't', 0, 0),
    (b't', 0, 0),
    (b'd', 0, 0),
];

#[test]
fn the_journal_of_a_saturation_has_rewritings_passes_and_the_declaration(
    rt: HostRuntime,
) -> Result<(), AllocError> {
    let file = "cnf(a,axiom,f(a) = a).\ncnf(b,axiom,p(f(a))).\n";
    assert!(rt; has_acts(&rt, rt.alloc(), file, SATURATION.as_slice())?);
    Ok(())
}
