//! Copies of records, items, letters and events, and the name that is looked up.
use cd_clause::{Clause, Literals};
use cd_ledger::{
    Act, Body, Event, Item, Known, Letter, Origin, Outcome, Reason, Record, Settled, Status,
};
use cd_list::Copied;
use cd_names::{Counts, How, Name, Names, Token};
use cd_steps::{Step, Steps};
use cd_tasks::Task;
use std::alloc::{AllocError, Global};
use std::test::Fail;

fn name(seq: u32) -> Name {
    Name { peer: 1, seq }
}

fn empty_clause(alloc: Global) -> Clause {
    Clause {
        literals: Literals::new(alloc),
    }
}

fn copied_steps(alloc: Global, seq: u32) -> Result<Steps, AllocError> {
    let mut steps = Steps::new(alloc);
    steps.push(Step::Copy { of: name(seq) })?;
    steps.push(Step::Tidy)?;
    Ok(steps)
}

fn record(alloc: Global, seq: u32) -> Result<Record, AllocError> {
    let mut cites = Names::new(alloc);
    cites.push(name(7))?;
    Ok(Record {
        name: name(seq),
        owner: 2,
        clause: empty_clause(alloc),
        steps: copied_steps(alloc, 7)?,
        cites,
    })
}

fn letter(body: Body) -> Letter {
    Letter {
        sender: 1,
        to: 2,
        time: 5,
        body,
    }
}

fn is_replaced(status: &Status, n: Name) -> bool {
    match status {
        Status::Dropped(Reason::Replaced { by, using }) => *by == n && using.len() == 1,
        _ => false,
    }
}

fn brings(act: &Act, to: u16, n: Name) -> bool {
    match act {
        Act::Receive { letter } => letter.to == to && is_kept(&letter.body, n),
        _ => false,
    }
}

fn is_kept(body: &Body, n: Name) -> bool {
    match body {
        Body::Kept(record) => record.name == n,
        _ => false,
    }
}

fn is_notice(body: &Body, first: Name, second: Name) -> bool {
    match body {
        Body::Notice { of, by, how } => *of == first && *by == second && *how == How::Reduces,
        _ => false,
    }
}

#[test]
fn records_are_copied_with_their_statuses(rt: HostRuntime) -> Result<(), Fail> {
    let alloc = rt.alloc();
    let mut using = Names::new(alloc);
    using.push(name(8))?;
    let known = Known {
        entry: record(alloc, 3)?,
        status: Status::Dropped(Reason::Replaced { by: name(9), using }),
    };
    let copy = known.copy(alloc)?;
    assert_eq!(rt; copy.entry.name, name(3));
    assert_eq!(rt; copy.entry.owner, 2);
    assert_eq!(rt; copy.entry.steps.len(), 2);
    assert_eq!(rt; copy.entry.cites.len(), 1);
    assert!(rt; is_replaced(&copy.status, name(9)));
    Ok(())
}

#[test]
fn items_are_copied(rt: HostRuntime) -> Result<(), Fail> {
    let alloc = rt.alloc();
    let item = Item {
        origin: Origin::Rework(name(4)),
        forced: Some(name(2)),
        steps: copied_steps(alloc, 4)?,
        clause: empty_clause(alloc),
    };
    let copy = item.copy(alloc)?;
    assert_eq!(rt; copy.forced, Some(name(2)));
    assert_eq!(rt; copy.steps.len(), 2);
    let settled = Settled {
        origin: Origin::Task(Task::Solo(name(1)), 3),
        steps: copied_steps(alloc, 1)?,
        outcome: Outcome::Subsumed(name(0)),
    };
    assert_eq!(rt; settled.copy(alloc)?.steps.len(), 2);
    Ok(())
}

#[test]
fn letters_and_events_are_copied(rt: HostRuntime) -> Result<(), Fail> {
    let alloc = rt.alloc();
    let kept = letter(Body::Kept(record(alloc, 6)?));
    let event = Event {
        time: 6,
        peer: 2,
        act: Act::Receive { letter: kept },
    };
    let copy = event.copy(alloc)?;
    assert_eq!(rt; copy.time, 6);
    assert!(rt; brings(&copy.act, 2, name(6)));
    let token = Token {
        one: Counts::new(alloc),
        two: Counts::new(alloc),
    };
    assert_eq!(rt; letter(Body::Token(token)).copy(alloc)?.sender, 1);
    let notice = Body::Notice {
        of: name(1),
        by: name(2),
        how: How::Reduces,
    };
    let other = notice.copy(alloc)?;
    assert!(rt; is_notice(&other, name(1), name(2)));
    Ok(())
}
