//! The word, and what a peer does with it.
ghost use Rattle.std.specs.Prelude.{◌≡◌, ℕ, ◌+◌, ◌^◌, ◌<◌, ◌≤◌, true, IfOk};
ghost use Rattle.cd_verdict.specs.Views.{has, is_marked, AgreesWith, after_load, joined};
ghost use Rattle.cd_verdict.specs.Known.{known, fresh, IsRest, Opened, Declares};

use crate::rule::{Gives, Joins, Looks, Marks, WordSeat, WordTable};
use cd_list::Sequence;
use std::alloc::{AllocError, Global};
use std::marker::Model;

/// One word that peers share.
#[derive(Drop)]
pub struct Bell {
    table: WordTable,
}

impl Model for Bell {
    ghost use Rattle.std.specs.Prelude.{◌≡◌};
    ghost use Rattle.cd_verdict.specs.Known.{BellId};

    ghost Value = { BellId };

    ghost view = { λ it. record { table = it.table.shared.table_id; peers = it.table.shared.key } };

    ghost invariant = { λ it. it.table.shared.table_id.words ≡ 1 };
}

/// What one peer needs to look at the word and to declare. A contract sees of which bell it is, whose seat it is, and what
/// the peer knows.
#[derive(Drop)]
pub struct BellSeat {
    number: u16,
    seat: WordSeat,
}

impl Model for BellSeat {
    ghost use Rattle.cd_verdict.specs.Known.{Known, known, IsSeated};

    ghost Value = { Known };

    ghost view = { λ it. known it.seat.table_id it.number it.seat.me.0 };

    ghost invariant = { λ it. IsSeated it.number it.seat };
}

/// The seats of all peers, in the order of their numbers.
pub type BellSeats = Sequence<BellSeat>;

impl Bell {
    /// A bell that nobody has rung, for `peers` peers, and a seat for each of them.
    pub fn new(alloc: Global, peers: u16) -> Result<(Bell, BellSeats), AllocError>
        ensures { IfOk result (λ it. Opened peers it.0 it.1) }
    {
        let key = u64::from(peers);
        let (table, mut rest) = WordTable::of_words(alloc, &[0], &key)?;
        let mut seats = BellSeats::new(alloc);
        for number in 0..peers {
            let seat = give(&table, &mut rest, number);
            seats.push(seat)?;
        }
        Ok((Bell { table }, seats))
    }
}

// The seat of the first number that is left.
fn give(table: &WordTable, rest: &mut WordSeat, number: u16) -> BellSeat
    requires table { table.now.shared.table_id.words ≡ 1 }
    requires number { (number < table.now.shared.key) × (table.now.shared.key < 2 ^ 16) }
    requires rest { IsRest table.now.shared.table_id table.now.shared.key number rest.old }
    ensures rest { IsRest table.now.shared.table_id table.now.shared.key (number + 1) rest.new }
    ensures seat { result ≡ fresh table.now.shared.table_id table.now.shared.key number }
{
    let seat = table.shared.split_seat::<Gives>(rest);
    BellSeat { number, seat }
}

/// The word: 0, or one more than the number of a peer that declared. A word other than 0 is the one that the seat noted
/// before, and is noted.
pub fn load(bell: &Bell, seat: &mut BellSeat) -> u16
    requires { seat.old.bell ≡ bell.now.table }
    ensures seat { seat.new ≡ known seat.old.bell seat.old.number (after_load result seat.old.view) }
    ensures below { result ≤ seat.old.view.peers }
    ensures marked { (n : ℕ) → result ≡ n + 1 → has n seat.old.view.marks ≡ true → is_marked n seat.old.view.marks ≡ true }
    ensures noted { AgreesWith result seat.old.view.noted }
{
    bell.table.shared.load::<Looks>(&mut seat.seat, 0) as u16
}

/// Marks the seat's number. True where the word was 0; then it names that number from now on. Else it stays.
pub fn declare(bell: &Bell, seat: &mut BellSeat) -> bool
    requires { seat.old.bell ≡ bell.now.table }
    ensures { Declares seat.old seat.new result }
{
    let new = u64::from(seat.number) + 1;
    let found = bell
        .table
        .shared
        .compare_exchange::<Marks>(&mut seat.seat, 0, 0, new);
    found == 0
}

/// The seat gets all that both have, and keeps its own number as the one that it declares.
pub fn join_seats(bell: &Bell, seat: &mut BellSeat, other: BellSeat)
    requires bell { (seat.old.bell ≡ bell.now.table) × (other.bell ≡ bell.now.table) }
    requires peers { seat.old.view.peers ≡ other.view.peers }
    ensures { seat.new ≡ known seat.old.bell seat.old.number (joined seat.old.view other.view) }
{
    let BellSeat { seat: theirs, .. } = other;
    bell.table.shared.join_seat::<Joins>(&mut seat.seat, theirs);
}

fn moves<T: Send>(_value: &T) {}

fn shares<T: Sync>(_value: &T) {}

// A seat moves to another thread, and a bell is shared.
fn cross(bell: &Bell, seat: &BellSeat) {
    moves(seat);
    shares(bell);
}
