//! The bell within a thread and between threads.
ghost use Rattle.std.specs.Prelude.{◌≡◌, ◌<◌, All};
ghost use Rattle.cd_verdict.specs.Settled.{AreAll};

use cd_verdict::{Bell, BellSeat, BellSeats, declare, load, settle};
use std::sync::atomic::{AtomicU64, Ordering};
use std::test::Fail;
use std::thread;
use std::thread::Threads;

fn ring(bell: &Bell, seats: &mut BellSeats, peer: u16) -> bool
    requires seats { AreAll bell.now seats.old }
    requires peer { peer < bell.now.peers }
    ensures { AreAll bell.now seats.new }
{
    let seat = seats.at_mut(peer as usize);
    declare(bell, seat)
}

#[test]
fn the_first_peer_that_declares_is_named(rt: HostRuntime) -> Result<(), Fail> {
    for (peers, word) in [
        ([].as_slice(), 0),
        ([1, 2].as_slice(), 2),
        ([2, 0, 2].as_slice(), 3),
    ] {
        let (bell, mut seats) = Bell::new(rt.alloc(), 3)?;
        let mut first = true;
        for peer in peers {
            assert!(rt; *peer < 3);
            assert_eq!(rt; ring(&bell, &mut seats, *peer), first);
            first = false;
        }
        assert_eq!(rt; settle(&bell, seats), word);
    }
    Ok(())
}

// Declares, and then looks: the word that is found is added up, as is the number of a peer that was the first.
fn declare_and_look(
    bell: &Bell,
    named: &AtomicU64,
    found: &AtomicU64,
    peer: usize,
    seat: &mut BellSeat,
)
    requires { seat.old.bell ≡ bell.now.table }
{
    if declare(bell, seat) {
        named.fetch_add(peer as u64, Ordering::SeqCst);
    }
    let word = load(bell, seat);
    found.fetch_add(u64::from(word), Ordering::SeqCst);
}

fn declare_at_once<R: Threads + Sync>(
    rt: &R,
    bell: &Bell,
    named: &AtomicU64,
    found: &AtomicU64,
    seats: &mut [BellSeat],
)
    requires { All (λ seat. seat.bell ≡ bell.now.table) seats.old }
{
    thread::for_each_mut(
        rt,
        seats,
        4,
        &|peer, seat| declare_and_look(bell, named, found, peer, seat),
    );
}

#[test]
fn four_threads_find_the_one_that_was_first(rt: HostRuntime) -> Result<(), Fail> {
    let (bell, seats) = Bell::new(rt.alloc(), 4)?;
    let mut seats = seats.into_vec();
    let named = AtomicU64::new(0);
    let found = AtomicU64::new(0);
    declare_at_once(&rt, &bell, &named, &found, seats.as_mut_slice());
    let first = named.load(Ordering::SeqCst);
    assert!(rt; first < 4);
    assert_eq!(rt; found.load(Ordering::SeqCst), 4 * (first + 1));
    Ok(())
}
