//! Walks over the arrivals that pass over what isn't asked for.
//!
//! From each arrival a link leads up to a later place, over arrivals none of which is asked for. A walk that
//! follows links writes where it ended into the link that it began at, so what is passed over once is passed
//! over in one step from then on.
#![tactic(auto)]

ghost use Rattle.std.specs.Prelude.{◌≡◌, ◌+◌, ◌<◌, ◌≤◌, length, true, false};
ghost use Rattle.cd_tasks.specs.Order.{due};
ghost use Rattle.cd_tasks.specs.Links.{AreLinks, NonePass, passes_at};

use crate::Arrival;

/// As what an arrival is asked for.
#[derive(Clone, Copy, Debug)]
pub enum Side {
    /// One that isn't covered.
    Live,
    /// One that isn't covered and is resident.
    Home,
}

pub fn is_due(side: Side, arrival: &Arrival) -> bool
    ensures { result ≡ due side arrival.now }
{
    match side {
        Side::Live => !arrival.covered,
        Side::Home => !arrival.covered && arrival.resident,
    }
}

/// The first place behind `start` and below `end` whose arrival is asked for, or `end`.
fn follow(arrivals: &[Arrival], links: &[usize], side: Side, start: usize, end: usize) -> usize
    requires links { AreLinks (due side) arrivals.now links.now }
    requires start { start < end }
    requires end { end ≤ length arrivals.now }
    ensures above { start < result }
    ensures within { result ≤ end }
    ensures passed { NonePass (due side) arrivals.now (start + 1) result }
    ensures found { result < end → passes_at (due side) arrivals.now result ≡ true }
{
    let mut place = links[start];
    while place < end && !is_due(side, &arrivals[place]) {
        place = links[place];
    }
    if place < end { place } else { end }
}

/// The first place from `start` on and below `end` whose arrival is asked for, or `end`.
pub fn next_due(
    arrivals: &[Arrival],
    links: &mut [usize],
    side: Side,
    start: usize,
    end: usize,
) -> usize
    requires links { AreLinks (due side) arrivals.now links.old }
    requires start { start ≤ end }
    requires end { end ≤ length arrivals.now }
    ensures links { AreLinks (due side) arrivals.now links.new }
    ensures above { start ≤ result }
    ensures within { result ≤ end }
    ensures passed { NonePass (due side) arrivals.now start result }
    ensures found { result < end → passes_at (due side) arrivals.now result ≡ true }
{
    if start == end || is_due(side, &arrivals[start]) {
        return start;
    }
    let found = follow(arrivals, links, side, start, end);
    links[start] = found;
    found
}
