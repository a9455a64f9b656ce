//! The rule of one mailbox, what a pass knows of it, and the kinds of step that change what is known.
//!
//! A pass holds numbers of peers. A push is made by the pass with the sender's number, and a pop by the pass with
//! the owner's. A new mailbox has one pass, which holds every number. It is opened by splits that each give a pass
//! of no number away: they count up the owner's number and the peers, and then leave the pass with the numbers of
//! the peers alone. After that a split gives one number away, under which nothing was posted, and a join puts
//! all that two passes hold into one.

use cd_letter::Addressed;
use crossbeam_queue::protocol::{Join, Lesson, Outcome, Protocol, Split};
use crossbeam_queue::{RuledSegQueue, SegPass};
use std::collections::LinkedList;

/// A number that a pass holds, and the letters that were posted to the mailbox under it. No value of it is made.
pub struct Part<L> {
    pub number: u64,
    pub posted: LinkedList<L>,
}

/// What a pass knows of one mailbox. No value of it is made.
pub struct View<L> {
    /// The mailbox is being opened: the pass holds every number, besides those of its parts.
    pub opening: bool,
    pub peers: u64,
    pub owner: u64,
    pub parts: LinkedList<Part<L>>,
    /// What was taken out, where the pass holds the owner's number.
    pub taken: LinkedList<L>,
}

/// Nothing is lost, nothing is invented, and each sender's letters stay in order.
pub struct Mail;

impl<L: Addressed> Protocol<L, View<L>> for Mail {
    ghost use Rattle.cd_mailbox.specs.Views.{newest};
    ghost use Rattle.cd_mailbox.specs.Rule.{Delivers};

    ghost holds = { Delivers L.sender L.receiver };

    ghost first = { newest };
}

/// A push by the sender's pass.
pub struct Posts;

impl<L: Addressed> Outcome<L, View<L>> for Posts {
    ghost use Rattle.std.specs.Prelude.{◌≡◌};
    ghost use Rattle.cd_mailbox.specs.Views.{after_post};

    ghost then = { λ v x w. w ≡ after_post L.sender v x };
}

/// A pop by the owner's pass.
pub struct Takes;

impl<L: Addressed> Outcome<L, View<L>> for Takes {
    ghost use Rattle.std.specs.Prelude.{◌≡◌};
    ghost use Rattle.cd_mailbox.specs.Views.{after_take};
    ghost use Rattle.cd_mailbox.specs.Rule.{IsFor};

    ghost then = { λ v x w. (w ≡ after_take v x) × IsFor L.sender L.receiver v.peers v.owner x };
}

/// A pop that finds the mailbox empty.
impl<L: Addressed> Lesson<L, View<L>> for Takes {
    ghost use Rattle.cd_mailbox.specs.Rule.{Stood};

    ghost fact = { Stood L.sender L.receiver };
}

/// While the mailbox is opened: the owner's number is counted up by one.
pub struct Names;

impl<L> Split<View<L>> for Names {
    ghost use Rattle.cd_mailbox.specs.Views.{named, nothing};

    ghost left = { named };

    ghost right = { λ v. nothing };
}

/// While the mailbox is opened: one peer more, whose number is the next.
pub struct Grows;

impl<L> Split<View<L>> for Grows {
    ghost use Rattle.cd_mailbox.specs.Views.{grown, nothing};

    ghost left = { grown };

    ghost right = { λ v. nothing };
}

/// The last step of opening: only the numbers of the peers are held.
pub struct Seals;

impl<L> Split<View<L>> for Seals {
    ghost use Rattle.cd_mailbox.specs.Views.{sealed, nothing};

    ghost left = { sealed };

    ghost right = { λ v. nothing };
}

/// The first number goes to a pass of its own.
pub struct Gives;

impl<L> Split<View<L>> for Gives {
    ghost use Rattle.cd_mailbox.specs.Views.{others, first_alone};

    ghost left = { others };

    ghost right = { first_alone };
}

/// One pass takes all numbers of two with what goes by them, and the other is spent.
pub struct Joins;

impl<L> Join<View<L>> for Joins {
    ghost use Rattle.cd_mailbox.specs.Views.{joined, nothing};

    ghost both = { joined };

    ghost spent = { nothing };
}

/// The mailbox of one peer, an unbounded queue.
pub type Mailbox<L> = RuledSegQueue<L, View<L>, Mail>;

/// A pass of one mailbox.
pub type MailboxPass<L> = SegPass<L, View<L>>;
