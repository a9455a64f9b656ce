//! The laws of the orders that other crates build on. A function of this module does nothing: its contract is
//! the law, and the check of this crate proves it.
#![tactic(auto)]

ghost use Rattle.cd_kbo.specs.Stable.{InstancesStayGreater, GreaterHasVariables, GreaterIsOneWay, OrdersDecide};
ghost use Rattle.cd_kbo.specs.Laws.{GroundOrderHasLaws, GreaterIsAbove, GroundTermsAgree, NothingIsGreaterThanItself};

/// The ground order is a total order with `bot` least, in which contexts keep what is less.
pub fn ground_order()
    ensures { GroundOrderHasLaws }
{}

/// The Knuth-Bendix order lies within the ground order, and is the same on terms without variables.
pub fn knuth_bendix_order()
    ensures above { GreaterIsAbove }
    ensures ground { GroundTermsAgree }
    ensures irreflexive { NothingIsGreaterThanItself }
{}

/// What is greater stays greater under a substitution, has every variable of what it is greater than, and isn't smaller.
pub fn instances()
    ensures greater { InstancesStayGreater }
    ensures variables { GreaterHasVariables }
    ensures one_way { GreaterIsOneWay }
{}

/// Of two terms the first is greater, or it isn't.
pub fn decisions()
    ensures { OrdersDecide }
{}
