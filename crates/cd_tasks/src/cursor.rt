//! A place in the order of tasks.
#![tactic(auto)]

ghost use Rattle.std.specs.Prelude.{◌≡◌, ◌+◌, ◌<◌, ◌≤◌, true, length, vec_len, vec_capacity, MatchOption};
ghost use Rattle.cd_tasks.specs.Order.{owed_of, is_live, is_home};
ghost use Rattle.cd_tasks.specs.Links.{AreLinks, passes_at, IsReached, IsWithin, after, IsDue, IsSettled};
ghost use Rattle.cd_tasks.specs.declared.cursor.Stage.TheVariants.{Alone, First};

use crate::Arrival;
use crate::links::{Side, next_due};

/// Which of the tasks of an arrival is next.
#[derive(Clone, Copy, Debug)]
pub enum Stage {
    /// The arrival alone.
    Alone,
    /// The arrival as the second, with the one in this place or a later one; with itself as the last.
    Second(usize),
    /// The arrival as the first, with the one in this place or a later one.
    First(usize),
}

/// The arrival whose tasks are at hand, by its place, and the stage in them.
#[derive(Clone, Copy, Debug)]
pub struct Cursor {
    pub turn: usize,
    pub stage: Stage,
}

/// The stage of the first owed task in which the arrival at hand is the first, with the one in place `from` or
/// a later one; `None` where there is none.
fn first_due(arrivals: &[Arrival], home: &mut [usize], turn: usize, from: usize) -> Option<Stage>
    requires home { AreLinks is_home arrivals.now home.old }
    requires turn { turn < length arrivals.now }
    requires live { passes_at is_live arrivals.now turn ≡ true }
    requires from { from ≤ turn }
    ensures home { AreLinks is_home arrivals.now home.new }
    ensures next { MatchOption result (owed_of arrivals.now turn (First from) ≡ owed_of arrivals.now (turn + 1) Alone)
        (λ next. owed_of arrivals.now turn (First from) ≡ owed_of arrivals.now turn next) }
    ensures due { MatchOption result (Unit {0}) (λ next. IsDue arrivals.now turn next) }
{
    let place = next_due(arrivals, home, Side::Home, from, turn);
    if place < turn {
        Some(Stage::First(place))
    } else {
        None
    }
}

/// The stage of the first owed task of the arrival at hand, from a stage on; `None` where it has none.
fn stage_due(
    arrivals: &[Arrival],
    later: &mut [usize],
    home: &mut [usize],
    turn: usize,
    stage: Stage,
) -> Option<Stage>
    requires later { AreLinks is_live arrivals.now later.old }
    requires home { AreLinks is_home arrivals.now home.old }
    requires turn { turn < length arrivals.now }
    requires reached { IsReached turn stage }
    ensures later { AreLinks is_live arrivals.now later.new }
    ensures home { AreLinks is_home arrivals.now home.new }
    ensures next { MatchOption result (owed_of arrivals.now turn stage ≡ owed_of arrivals.now (turn + 1) Alone)
        (λ next. owed_of arrivals.now turn stage ≡ owed_of arrivals.now turn next) }
    ensures due { MatchOption result (Unit {0}) (λ next. IsDue arrivals.now turn next) }
{
    let arrival = arrivals[turn];
    if arrival.covered {
        return None;
    }
    match stage {
        Stage::Alone => {
            if arrival.resident {
                Some(Stage::Alone)
            } else {
                first_due(arrivals, home, turn, 0)
            }
        }
        Stage::Second(from) => {
            let place = next_due(arrivals, later, Side::Live, from, turn);
            Some(Stage::Second(place))
        }
        Stage::First(from) => first_due(arrivals, home, turn, from),
    }
}

/// The place of the first owed task from a place on, or the end.
fn settle(arrivals: &[Arrival], later: &mut [usize], home: &mut [usize], cursor: Cursor) -> Cursor
    requires later { AreLinks is_live arrivals.now later.old }
    requires home { AreLinks is_home arrivals.now home.old }
    requires turn { cursor.turn ≤ length arrivals.now }
    requires reached { IsReached cursor.turn cursor.stage }
    ensures later { AreLinks is_live arrivals.now later.new }
    ensures home { AreLinks is_home arrivals.now home.new }
    ensures same { owed_of arrivals.now cursor.turn cursor.stage ≡ owed_of arrivals.now result.turn result.stage }
    ensures settled { IsSettled arrivals.now result.turn result.stage }
{
    let mut stage = cursor.stage;
    for turn in cursor.turn..arrivals.len() {
        if let Some(stage) = stage_due(arrivals, later, home, turn, stage) {
            return Cursor { turn, stage };
        }
        stage = Stage::Alone;
    }
    Cursor {
        turn: arrivals.len(),
        stage: Stage::Alone,
    }
}

/// The same on the lists themselves.
pub fn settle_lists(
    arrivals: &Vec<Arrival>,
    later: &mut Vec<usize>,
    home: &mut Vec<usize>,
    cursor: Cursor,
) -> Cursor
    requires later { AreLinks is_live arrivals.now.items later.old.items }
    requires home { AreLinks is_home arrivals.now.items home.old.items }
    requires turn { cursor.turn ≤ length arrivals.now.items }
    requires reached { IsReached cursor.turn cursor.stage }
    ensures later { AreLinks is_live arrivals.now.items later.new.items }
    ensures home { AreLinks is_home arrivals.now.items home.new.items }
    ensures same { owed_of arrivals.now.items cursor.turn cursor.stage ≡ owed_of arrivals.now.items result.turn result.stage }
    ensures settled { IsSettled arrivals.now.items result.turn result.stage }
    ensures later_room { (vec_len later.new ≡ vec_len later.old) × (vec_capacity later.new ≡ vec_capacity later.old) }
    ensures home_room { (vec_len home.new ≡ vec_len home.old) × (vec_capacity home.new ≡ vec_capacity home.old) }
{
    settle(arrivals, later, home, cursor)
}

/// The place behind an owed task in the order.
pub fn advanced(cursor: Cursor) -> Cursor
    requires { IsWithin cursor.turn cursor.stage }
    ensures { result ≡ record { turn = cursor.turn; stage = after cursor.turn cursor.stage } }
{
    let stage = match cursor.stage {
        Stage::Alone => Stage::Second(0),
        Stage::Second(k) => {
            if k == cursor.turn {
                Stage::First(0)
            } else {
                Stage::Second(k + 1)
            }
        }
        Stage::First(k) => Stage::First(k + 1),
    };
    Cursor {
        turn: cursor.turn,
        stage,
    }
}
