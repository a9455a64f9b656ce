//! The laws of contraction that runs are built on. A function of this module does nothing: its contract is the
//! law, and the check of this crate proves it.
#![tactic(auto)]

ghost use Rattle.cd_contract.specs.Laws.{ReductsFall, ReductsHaveSmallerKeys, SubsumersHaveNoGreaterKeys};

/// A reduct, tidied or not, has a smaller first part of the key, and so a smaller key, whatever the names.
pub fn reducts()
    ensures parts { ReductsFall }
    ensures keys { ReductsHaveSmallerKeys }
{}

/// The first two parts of a subsumer's key, compared in turn, aren't greater than those of what it subsumes.
pub fn subsumers()
    ensures { SubsumersHaveNoGreaterKeys }
{}
