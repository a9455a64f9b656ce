//! The mailboxes of all peers, and what a peer does with them.
ghost use Rattle.std.specs.Prelude.{◌≡◌, ◌<◌, length, MatchOption, MatchResult};
ghost use Rattle.cd_mailbox.specs.Rule.{IsFor};
ghost use Rattle.cd_mailbox.specs.Known.{posting, taking, WasEmpty};

use crate::queue::{post_at, take_at};
use crate::rule::{Mailbox, MailboxPass};
use cd_letter::Addressed;
use cd_list::Sequence;
use std::marker::Model;
use std::sync::Wait;

/// The mailboxes, one for each peer. A contract sees their queues.
pub struct Boxes<L: Addressed> {
    pub(crate) queues: Vec<Mailbox<L>>,
}

impl<L: Addressed> Model for Boxes<L> {
    ghost use Rattle.std.specs.Prelude.{List};
    ghost use Rattle.std.specs.declared.alloc.Global.{Global};
    ghost use Rattle.crossbeam_queue.specs.SegTies.{SegId};

    ghost Value = { List (SegId Global) };

    ghost view = { λ it. it.queues.items };
}

/// What one peer needs to post and to collect. A contract sees whose pass it is, of which mailboxes, and what was posted
/// and collected with it.
#[derive(Drop)]
pub struct BoxPass<L: Addressed> {
    pub(crate) peer: u16,
    pub(crate) seats: Vec<MailboxPass<L>>,
}

impl<L: Addressed> Model for BoxPass<L> {
    ghost use Rattle.cd_mailbox.specs.Known.{Known, known_of, IsWhole};

    ghost Value = { Known L };

    ghost view = { λ it. known_of it.peer it.seats.items };

    ghost invariant = { λ it. IsWhole it.peer it.seats.items };
}

/// The passes of all peers, in the order of their numbers.
pub type Passes<L> = Sequence<BoxPass<L>>;

/// For each mailbox, in the order of the peers, the letters that are left in it, the oldest first.
pub type LeftLetters<L> = Sequence<Sequence<L>>;

impl<L: Addressed> Drop for Boxes<L> {
    fn drop(self) {
        let Boxes { mut queues } = self;
        while let Some(queue) = queues.pop() {
            queue.destroy();
        }
        queues.destroy_empty();
    }
}

impl<L: Addressed> BoxPass<L> {
    /// The number of the peer.
    pub fn peer(&self) -> u16
        ensures { result ≡ self.now.peer }
    {
        self.peer
    }
}

/// Puts the letter into its receiver's mailbox, in one step. It comes back where memory runs out.
pub fn post<R: Wait, L: Addressed>(
    rt: &R,
    boxes: &Boxes<L>,
    pass: &mut BoxPass<L>,
    letter: L,
) -> Result<(), L>
    requires boxes { pass.old.boxes ≡ boxes.now }
    requires sender { L.sender letter ≡ pass.old.peer }
    requires receiver { L.receiver letter < length boxes.now }
    ensures { MatchResult result (λ _. pass.new ≡ posting pass.old (L.receiver letter) letter) (λ back. (back ≡ letter) × (pass.new ≡ pass.old)) }
{
    let to = letter.receiver();
    let place = to as usize;
    let seat = &mut pass.seats[place];
    post_at(rt, &boxes.queues[place], seat, letter)
}

/// Takes the oldest letter out of the peer's own mailbox, in one step. `None` says that the mailbox was empty at a moment
/// of the call. No memory is taken.
pub fn collect<R: Wait, L: Addressed>(rt: &R, boxes: &Boxes<L>, pass: &mut BoxPass<L>) -> Option<L>
    requires { pass.old.boxes ≡ boxes.now }
    ensures { MatchOption result ((pass.new ≡ pass.old) × WasEmpty L.sender L.receiver pass.old) (λ letter. (pass.new ≡ taking pass.old letter) × IsFor L.sender L.receiver (length boxes.now) pass.old.peer letter) }
{
    let place = pass.peer as usize;
    let seat = &mut pass.seats[place];
    take_at(rt, &boxes.queues[place], seat)
}

fn moves<T: Send>(_value: &T) {}

fn shares<T: Sync>(_value: &T) {}

// A pass moves to another thread, and mailboxes are shared, where letters may move.
fn cross<L: Addressed + Send>(boxes: &Boxes<L>, pass: &BoxPass<L>) {
    moves(pass);
    shares(boxes);
}
