//! Mailboxes are emptied at the end.
ghost use Rattle.std.specs.Prelude.{◌≡◌, ◌<◌, ℕ, true, length, IfOk};
ghost use Rattle.cd_mailbox.specs.Views.{has_in, joined};
ghost use Rattle.cd_mailbox.specs.Known.{seen_at};
ghost use Rattle.cd_mailbox.specs.Life.{AreAll, AreJoinable, Closes};
ghost use Rattle.cd_mailbox.specs.Closing.{IsRow, AreJoined, AreEmptied};

use crate::boxes::{BoxPass, Boxes, LeftLetters, Passes};
use crate::queue::{drain_at, join_at};
use crate::rule::MailboxPass;
use cd_letter::Addressed;
use std::alloc::{AllocError, Global};
use std::sync::Wait;

/// Takes all passes back, and empties each mailbox: its letters that nobody collected. Where memory runs out,
/// mailboxes, passes and letters are gone.
pub fn close<R: Wait, L: Addressed>(
    rt: &R,
    alloc: Global,
    boxes: Boxes<L>,
    passes: Passes<L>,
) -> Result<LeftLetters<L>, AllocError>
    requires { AreAll boxes passes }
    ensures { IfOk result (λ left. Closes L.sender L.receiver passes left) }
{
    let seats = join_all(alloc, &boxes, passes);
    empty_all(rt, alloc, &boxes, seats)
}

// Empties each mailbox.
fn empty_all<R: Wait, L: Addressed>(
    rt: &R,
    alloc: Global,
    boxes: &Boxes<L>,
    mut seats: Vec<MailboxPass<L>>,
) -> Result<LeftLetters<L>, AllocError>
    requires row { IsRow boxes.now seats.items }
    requires owners { (q : ℕ) → q < length boxes.now → has_in (seen_at seats.items q).owner (seen_at seats.items q).parts ≡ true }
    ensures { IfOk result (λ left. AreEmptied L.sender L.receiver boxes.now seats.items left) }
{
    let mut left = LeftLetters::new(alloc);
    for q in 0..boxes.queues.len() {
        let seat = &mut seats[q];
        let letters = drain_at(rt, alloc, &boxes.queues[q], seat)?;
        left.push(letters)?;
    }
    Ok(left)
}

// A seat at each mailbox, with all that the passes have.
fn join_all<L: Addressed>(
    alloc: Global,
    boxes: &Boxes<L>,
    mut passes: Passes<L>,
) -> Vec<MailboxPass<L>>
    requires { AreAll boxes.now passes }
    ensures { AreJoined boxes.now passes result.items }
{
    let Some(last) = passes.pop() else {
        return Vec::new(alloc);
    };
    let BoxPass { seats: mut all, .. } = last;
    while let Some(pass) = passes.pop() {
        let BoxPass { seats, .. } = pass;
        join_rows(boxes, &mut all, seats);
    }
    all
}

// Joins each seat with the other one of its mailbox.
fn join_rows<L: Addressed>(
    boxes: &Boxes<L>,
    all: &mut Vec<MailboxPass<L>>,
    mut seats: Vec<MailboxPass<L>>,
)
    requires all { IsRow boxes.now all.old.items }
    requires seats { IsRow boxes.now seats.items }
    requires views { (q : ℕ) → q < length boxes.now → AreJoinable (seen_at all.old.items q) (seen_at seats.items q) }
    ensures all { IsRow boxes.now all.new.items }
    ensures views { (q : ℕ) → q < length boxes.now → seen_at all.new.items q ≡ joined (seen_at all.old.items q) (seen_at seats.items q) }
{
    while let Some(seat) = seats.pop() {
        let q = seats.len();
        let one = &mut all[q];
        join_at(&boxes.queues[q], one, seat);
    }
}
