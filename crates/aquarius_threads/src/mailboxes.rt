//! Letters within a thread and between threads, and what is left.
ghost use Rattle.std.specs.Prelude.{◌≡◌, ◌<◌, All, length};
ghost use Rattle.cd_mailbox.specs.Life.{AreAll};

use cd_letter::Addressed;
use cd_mailbox::{BoxPass, Boxes, Passes, close, collect, open_boxes, post};
use std::sync::Wait;
use std::sync::atomic::{AtomicU64, Ordering};
use std::test::Fail;
use std::thread;
use std::thread::Threads;

#[derive(Clone, Copy)]
struct Note {
    from: u16,
    to: u16,
    number: u32,
}

impl Addressed for Note {
    ghost sender = { λ note. note.from };

    ghost receiver = { λ note. note.to };

    fn receiver(&self) -> u16 {
        self.to
    }
}

fn send<R: Wait>(rt: &R, boxes: &Boxes<Note>, passes: &mut Passes<Note>, note: Note) -> bool
    requires passes { AreAll boxes.now passes.old }
    requires from { note.from < length boxes.now }
    requires to { note.to < length boxes.now }
    ensures { AreAll boxes.now passes.new }
{
    let pass = passes.at_mut(note.from as usize);
    post(rt, boxes, pass, note).is_ok()
}

fn next<R: Wait>(rt: &R, boxes: &Boxes<Note>, passes: &mut Passes<Note>, to: u16) -> Option<u32>
    requires passes { AreAll boxes.now passes.old }
    requires to { to < length boxes.now }
    ensures { AreAll boxes.now passes.new }
{
    let pass = passes.at_mut(to as usize);
    collect(rt, boxes, pass).map(|note| note.number)
}

#[test]
fn what_is_posted_is_collected_or_left(rt: HostRuntime) -> Result<(), Fail> {
    let (boxes, mut passes) = open_boxes(rt.alloc(), 2)?;
    for (from, to, number) in [(0, 1, 7), (1, 1, 8), (0, 1, 9), (1, 0, 5)] {
        assert!(rt; from < 2 && to < 2);
        assert!(rt; send(&rt, &boxes, &mut passes, Note { from, to, number }));
    }
    for (to, number) in [(1, Some(7)), (1, Some(8)), (0, Some(5)), (0, None)] {
        assert!(rt; to < 2);
        assert_eq!(rt; next(&rt, &boxes, &mut passes, to), number);
    }
    let left = close(&rt, rt.alloc(), boxes, passes)?;
    for (place, numbers) in [(0, None), (1, Some(9))] {
        let letters = left.get(place).ok_or("too few")?;
        assert_eq!(rt; letters.get(0).map(|note| note.number), numbers);
        assert!(rt; letters.len() < 2);
    }
    Ok(())
}

const SENDERS: u16 = 4;

const LETTERS: u32 = 10_000;

const LOOKS: u64 = 100_000_000;

// Sends a letter to each receiver in turn.
fn send_all<R: Wait>(rt: &R, boxes: &Boxes<Note>, pass: &mut BoxPass<Note>) -> bool
    requires { (pass.old.boxes ≡ boxes.now) × (length boxes.now ≡ 8) }
{
    let from = pass.peer();
    for number in 0..LETTERS {
        let to = SENDERS + (number % 4) as u16;
        if post(rt, boxes, pass, Note { from, to, number }).is_err() {
            return false;
        }
    }
    true
}

// Takes as many letters as one sender sends. Those of each sender have to come in order, one in four.
fn take_all<R: Wait>(rt: &R, boxes: &Boxes<Note>, pass: &mut BoxPass<Note>) -> bool
    requires { pass.old.boxes ≡ boxes.now }
{
    let first = u32::from(pass.peer().saturating_sub(SENDERS));
    let mut next = [first; 4];
    let mut taken = 0;
    for _ in 0..LOOKS {
        if taken >= LETTERS {
            return true;
        }
        match collect(rt, boxes, pass) {
            None => thread::yield_now(),
            Some(note) => {
                if note.from >= SENDERS || next[note.from as usize] != note.number {
                    return false;
                }
                next[note.from as usize] = note.number.wrapping_add(4);
                taken += 1;
            }
        }
    }
    false
}

fn work<R: Wait>(rt: &R, boxes: &Boxes<Note>, done: &AtomicU64, pass: &mut BoxPass<Note>)
    requires { (pass.old.boxes ≡ boxes.now) × (length boxes.now ≡ 8) }
{
    let all = if pass.peer() < SENDERS {
        send_all(rt, boxes, pass)
    } else {
        take_all(rt, boxes, pass)
    };
    if all {
        done.fetch_add(1, Ordering::SeqCst);
    }
}

fn work_at_once<R: Threads + Wait + Sync>(
    rt: &R,
    boxes: &Boxes<Note>,
    done: &AtomicU64,
    passes: &mut [BoxPass<Note>],
)
    requires { All (λ pass. pass.boxes ≡ boxes.now) passes.old × (length boxes.now ≡ 8) }
{
    thread::for_each_mut(rt, passes, 8, &|_, pass| work(rt, boxes, done, pass));
}

#[test]
fn letters_of_four_threads_reach_four_others_in_order(rt: HostRuntime) -> Result<(), Fail> {
    let (boxes, passes) = open_boxes(rt.alloc(), 8)?;
    let mut passes = passes.into_vec();
    let done = AtomicU64::new(0);
    work_at_once(&rt, &boxes, &done, passes.as_mut_slice());
    assert_eq!(rt; done.load(Ordering::SeqCst), 8);
    Ok(())
}
