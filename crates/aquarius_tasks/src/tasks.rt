//! The tasks of ten lists of arrivals, coverings and finished tasks.
use cd_names::Name;
use cd_tasks::{Task, Tasks};
use std::alloc::Global;
use std::process::Abort;
use std::test::Fail;

#[derive(Clone, Copy)]
enum Move {
    Resident(u32),
    Stranger(u32),
    Cover(u32),
    Finish,
}

fn name(seq: u32) -> Name {
    Name { peer: 3, seq }
}

/// Makes one move; an arrival that is there already and a finish with nothing owed are left out.
fn make(rt: &impl Abort, tasks: &mut Tasks, step: Move) -> Result<(), Fail> {
    match step {
        Move::Resident(n) => {
            let new = name(n);
            assert!(rt; tasks.place(new).is_none());
            tasks.add_arrival(new, true)?;
        }
        Move::Stranger(n) => {
            let new = name(n);
            assert!(rt; tasks.place(new).is_none());
            tasks.add_arrival(new, false)?;
        }
        Move::Cover(n) => tasks.cover(name(n)),
        Move::Finish => {
            assert!(rt; tasks.next().is_some());
            tasks.finish();
        }
    }
    Ok(())
}

/// Makes the moves, and compares what is owed with the tasks, each as its two names or one name twice with
/// `true` where it is alone.
fn expect_owed(
    rt: &impl Abort,
    alloc: Global,
    moves: &[Move],
    owed: &[(bool, u32, u32)],
) -> Result<(), Fail> {
    let mut tasks = Tasks::new(alloc);
    for step in moves {
        make(rt, &mut tasks, *step)?;
    }
    for (alone, first, second) in owed {
        let task = if *alone {
            Task::Solo(name(*first))
        } else {
            Task::Pair(name(*first), name(*second))
        };
        assert_eq!(rt; tasks.next(), Some(task));
        make(rt, &mut tasks, Move::Finish)?;
    }
    assert_eq!(rt; tasks.next(), None);
    Ok(())
}

#[test]
fn tasks_come_in_the_plain_order(rt: HostRuntime) -> Result<(), Fail> {
    let alloc = rt.alloc();
    use Move::{Cover, Finish, Resident, Stranger};
    expect_owed(&rt, alloc, &[], &[])?;
    expect_owed(&rt, alloc, &[Resident(0)], &[(true, 0, 0), (false, 0, 0)])?;
    expect_owed(&rt, alloc, &[Stranger(0), Stranger(1)], &[])?;
    expect_owed(
        &rt,
        alloc,
        &[Resident(0), Resident(1)],
        &[
            (true, 0, 0),
            (false, 0, 0),
            (true, 1, 1),
            (false, 0, 1),
            (false, 1, 1),
            (false, 1, 0),
        ],
    )?;
    expect_owed(
        &rt,
        alloc,
        &[Stranger(5), Resident(2), Stranger(7)],
        &[(true, 2, 2), (false, 5, 2), (false, 2, 2), (false, 7, 2)],
    )?;
    expect_owed(&rt, alloc, &[Resident(0), Finish, Cover(0)], &[])?;
    expect_owed(
        &rt,
        alloc,
        &[Resident(0), Stranger(1), Resident(2), Cover(1)],
        &[
            (true, 0, 0),
            (false, 0, 0),
            (true, 2, 2),
            (false, 0, 2),
            (false, 2, 2),
            (false, 2, 0),
        ],
    )?;
    expect_owed(
        &rt,
        alloc,
        &[Resident(0), Finish, Finish, Resident(1), Finish, Cover(0)],
        &[(false, 1, 1)],
    )?;
    expect_owed(
        &rt,
        alloc,
        &[
            Cover(4),
            Resident(4),
            Stranger(3),
            Resident(9),
            Finish,
            Finish,
            Cover(3),
            Finish,
            Finish,
        ],
        &[(false, 9, 9), (false, 9, 4)],
    )?;
    expect_owed(
        &rt,
        alloc,
        &[
            Resident(0),
            Resident(1),
            Resident(2),
            Finish,
            Finish,
            Cover(1),
            Stranger(6),
            Finish,
            Cover(6),
        ],
        &[(false, 0, 2), (false, 2, 2), (false, 2, 0)],
    )
}

#[test]
fn reserved_arrivals_take_no_memory(rt: HostRuntime) -> Result<(), Fail> {
    let mut tasks = Tasks::new(rt.alloc());
    tasks.reserve(2)?;
    tasks.reserve(1)?;
    let new = name(8);
    assert!(rt; tasks.place(new).is_none());
    tasks.add_arrival(new, false)?;
    assert!(rt; tasks.place(new).is_some());
    assert!(rt; tasks.next().is_none());
    Ok(())
}
