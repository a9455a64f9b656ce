//! What is recorded of a run of any number of peers, and what such a run comes to.
//!
//! A function of this crate does nothing: its contract is the law, and the check of this crate proves it.
#![tactic(auto)]

ghost use Rattle.cd_recorded.specs.Laws.{ChosenAreRuns, LiveNamesAreOne, RunsAreJournalled, RunsSay};

/// A run by choice is a run.
pub fn chosen_are_runs()
    ensures { ChosenAreRuns }
{}

/// Each verdict has its cause, and the units that a peer counts are those of its journal. For only the event that makes an
/// empty clause known sets `Refuted`, a Declare comes only in a closed world, and a peer ends where it has reached a limit.
pub fn runs_say()
    ensures { RunsSay }
{}

/// The journals of the last world give the events in the order of their peers. For each event enters the journal of its
/// peer, and no other.
pub fn runs_are_journalled()
    ensures { RunsAreJournalled }
{}

/// No name is live twice. For a name is known once at a peer, and what is live is known to its owner.
pub fn live_names_are_one()
    ensures { LiveNamesAreOne }
{}
