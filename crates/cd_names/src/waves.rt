//! Counts of letters, and waves of them around the ring of peers (Mattern, Algorithms for distributed
//! termination detection, 1987: the four counter method).
#![tactic(auto)]

ghost use Rattle.std.specs.Prelude.{◌≡◌, ◌≤◌, ◌↔◌, IsTrue, length, sum_by};
ghost use Rattle.cd_names.specs.Waves.{IsWaveClosed};

use cd_list::{Copied, Equals, Sequence};
use std::alloc::{AllocError, Global};

/// How many letters a peer has sent and received.
#[derive(Clone, Copy, Debug, PartialEq, Eq)]
pub struct Count {
    pub sent: u64,
    pub received: u64,
}

pub type Counts = Sequence<Count>;

/// What goes around the ring: the counts that the peers gave in one wave, and in the wave after it.
#[derive(Debug, Drop)]
pub struct Token {
    pub one: Counts,
    pub two: Counts,
}

impl Copied for Count {
    fn copy(&self, _alloc: Global) -> Result<Count, AllocError> {
        Ok(*self)
    }
}

impl Equals for Count {
    fn equals(&self, other: &Count) -> bool {
        self.sent == other.sent && self.received == other.received
    }
}

impl Copied for Token {
    fn copy(&self, alloc: Global) -> Result<Token, AllocError> {
        Ok(Token {
            one: self.one.copy(alloc)?,
            two: self.two.copy(alloc)?,
        })
    }
}

impl Equals for Token {
    fn equals(&self, other: &Token) -> bool {
        self.one.equals(&other.one) && self.two.equals(&other.two)
    }
}

fn all_received(counts: &[Count]) -> u128
    requires { length counts.now ≤ 65535 }
    ensures { result ≡ sum_by (λ count. count.received) counts.now }
{
    let mut total: u128 = 0;
    for count in counts {
        total += u128::from(count.received);
    }
    total
}

fn all_sent(counts: &[Count]) -> u128
    requires { length counts.now ≤ 65535 }
    ensures { result ≡ sum_by (λ count. count.sent) counts.now }
{
    let mut total: u128 = 0;
    for count in counts {
        total += u128::from(count.sent);
    }
    total
}

/// Whether both waves have a count of each peer, and as many letters were received by the first wave as were
/// sent by the second. The sums are those of whole numbers, and never wrap. No memory is taken.
pub fn wave_closed(token: &Token, peers: u16) -> bool
    ensures { IsTrue result ↔ IsWaveClosed token.now peers }
{
    let one = token.one.as_slice();
    let two = token.two.as_slice();
    let full = usize::from(peers);
    if one.len() != full || two.len() != full {
        return false;
    }
    all_received(one) == all_sent(two)
}
