//! What the word tells once all peers are done.
ghost use Rattle.cd_verdict.specs.Settled.{AreAll, Settles};

use crate::word::{Bell, BellSeats, join_seats, load};

/// Joins all seats and loads the word once: 0 only where no seat noted a word, or one more than the number of a peer whose
/// seat is marked. It is the word that each seat noted.
pub fn settle(bell: &Bell, mut seats: BellSeats) -> u16
    requires { AreAll bell.now seats }
    ensures { Settles result seats }
{
    let Some(mut all) = seats.pop() else {
        return 0;
    };
    while let Some(seat) = seats.pop() {
        join_seats(bell, &mut all, seat);
    }
    load(bell, &mut all)
}
