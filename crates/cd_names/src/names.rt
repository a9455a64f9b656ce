//! Names and stamps, and their orders.
#![tactic(auto)]

ghost use Rattle.std.specs.Prelude.{◌≡◌};
ghost use Rattle.std.proofs.Common.{rules};
ghost use Rattle.std.specs.Cmp.{partial_order_from_own_ties};
ghost use Rattle.std.specs.Cmp.Rules.{comparing};
ghost use Rattle.std.specs.Ordering.{as_partial_cmp};

use cd_list::{Copied, Equals, Sequence};
use std::alloc::{AllocError, Global};
use std::cmp::Ordering;

/// The name of a recorded clause: the peer that recorded it, and how many it had recorded before.
///
/// Names are ordered by the number of earlier records, and then by the peer.
#[derive(Clone, Copy, Debug, PartialEq, Eq)]
pub struct Name {
    pub peer: u16,
    pub seq: u32,
}

pub type Names = Sequence<Name>;

/// When an event happened: the time on the logical clock of its peer (Lamport, Time, clocks, and the ordering
/// of events in a distributed system, 1978), and the peer.
///
/// Stamps are ordered by time, and then by the peer.
#[derive(Clone, Copy, Debug, PartialEq, Eq)]
pub struct Stamp {
    pub time: u64,
    pub peer: u16,
}

impl Ord for Name {
    ghost use Rattle.cd_names.specs.Orders.{name_cmp};

    ghost cmp = { name_cmp };

    ghost total = { Prim.search (comparing, rules) };

    ghost matches_partial_cmp = { Prim.search (comparing, rules) };

    ghost matches_eq = { Prim.search (comparing, rules) };

    fn cmp(&self, other: &Name) -> Ordering {
        self.seq.cmp(&other.seq).then(self.peer.cmp(&other.peer))
    }
}

impl PartialOrd for Name {
    ghost use Rattle.cd_names.specs.Orders.{name_cmp};

    ghost partial_cmp = { as_partial_cmp name_cmp };

    ghost laws = { partial_order_from_own_ties (Prim.search (comparing, rules)) (Prim.search (comparing, rules)) };

    fn partial_cmp(&self, other: &Name) -> Option<Ordering> {
        Some(self.cmp(other))
    }
}

impl Ord for Stamp {
    ghost use Rattle.cd_names.specs.Orders.{stamp_cmp};

    ghost cmp = { stamp_cmp };

    ghost total = { Prim.search (comparing, rules) };

    ghost matches_partial_cmp = { Prim.search (comparing, rules) };

    ghost matches_eq = { Prim.search (comparing, rules) };

    fn cmp(&self, other: &Stamp) -> Ordering {
        self.time.cmp(&other.time).then(self.peer.cmp(&other.peer))
    }
}

impl PartialOrd for Stamp {
    ghost use Rattle.cd_names.specs.Orders.{stamp_cmp};

    ghost partial_cmp = { as_partial_cmp stamp_cmp };

    ghost laws = { partial_order_from_own_ties (Prim.search (comparing, rules)) (Prim.search (comparing, rules)) };

    fn partial_cmp(&self, other: &Stamp) -> Option<Ordering> {
        Some(self.cmp(other))
    }
}

impl Copied for Name {
    fn copy(&self, _alloc: Global) -> Result<Name, AllocError> {
        Ok(*self)
    }
}

impl Equals for Name {
    fn equals(&self, other: &Name) -> bool {
        self.peer == other.peer && self.seq == other.seq
    }
}

impl Copied for Stamp {
    fn copy(&self, _alloc: Global) -> Result<Stamp, AllocError> {
        Ok(*self)
    }
}

impl Equals for Stamp {
    fn equals(&self, other: &Stamp) -> bool {
        self.time == other.time && self.peer == other.peer
    }
}
