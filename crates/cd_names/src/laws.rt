//! The laws of names, stamps and owners that other crates build on. A function of this module does nothing:
//! its contract is the law, and the check of this crate proves it.
#![tactic(auto)]

ghost use Rattle.cd_names.specs.Orders.{name_cmp, stamp_cmp};
ghost use Rattle.cd_names.specs.Laws.{IsLinearOrder, OwnersArePeers};

/// Names are in a linear order, and so are stamps.
pub fn orders()
    ensures names { IsLinearOrder name_cmp }
    ensures stamps { IsLinearOrder stamp_cmp }
{}

/// The owner of what a peer records is one of the peers.
pub fn owners()
    ensures { OwnersArePeers }
{}
