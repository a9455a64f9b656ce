//! The rule of the word, what a seat knows of it, and the kinds of step that change what is known.
//!
//! A seat holds numbers of peers. The first seat holds all of them, and a split gives one number that is not marked to a
//! seat of its own. A load notes the word that it finds in its seat, where it is not 0. A compare and exchange of 0 for one
//! more than the seat's number marks that number, notes what the word then is, and lists the word that it found. A join puts
//! all that two seats have into one. Splits and joins read the word too, and note nothing.
//!
//! What was noted stays the word: once it is not 0, no step changes it.

use atomic_table::{Join, Play, Seat, Split, Table, TableRule};
use std::alloc::Global;
use std::collections::LinkedList;

/// A number that a seat holds, and whether it is marked. No value of it is made.
pub struct Mark {
    pub number: u64,
    pub marked: bool,
}

/// What a seat knows of the word. No value of it is made.
pub struct View {
    pub peers: u64,
    pub marks: LinkedList<Mark>,
    /// The words other than 0 that the seat found, and those that its declarations left.
    pub noted: LinkedList<u64>,
    /// The words that declarations found.
    pub found: LinkedList<u64>,
}

/// The word is 0, or one more than a number that is marked by the seat that holds it, and it is what each seat noted. The
/// key is the number of peers.
pub struct Rings;

impl TableRule<(), View, u64> for Rings {
    ghost use Rattle.cd_verdict.specs.Views.{newest};
    ghost use Rattle.cd_verdict.specs.Rule.{IsRung};

    ghost holds = { λ peers s. IsRung peers s };

    ghost first = { newest };
}

/// A load.
pub struct Looks;

impl Play<(), View> for Looks {
    ghost use Rattle.cd_verdict.specs.Rule.{Looked};

    ghost then = { Looked };
}

/// A compare and exchange.
pub struct Marks;

impl Play<(), View> for Marks {
    ghost use Rattle.cd_verdict.specs.Rule.{Marked};

    ghost then = { Marked };
}

/// The first number goes to a seat of its own.
pub struct Gives;

impl Split<View> for Gives {
    ghost use Rattle.cd_verdict.specs.Views.{others, first_alone};

    ghost left = { others };

    ghost right = { first_alone };
}

/// One seat gets the numbers, marks and notes of two, and the list of the second behind its own. The other is spent.
pub struct Joins;

impl Join<View> for Joins {
    ghost use Rattle.cd_verdict.specs.Views.{joined, nothing};

    ghost both = { joined };

    ghost spent = { nothing };
}

pub type WordTable = Table<(), View, u64, Rings, Global>;

pub type WordSeat = Seat<(), View>;
