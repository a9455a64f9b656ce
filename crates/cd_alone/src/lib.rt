//! The laws of one peer, whatever letters it is given: what its calls stand on, which ask nothing of letters.
//!
//! A function of this crate does nothing: its contract is the law, and the check of this crate proves it. Each law is said
//! of every order of terms, and of every run of one peer from its start by legal events, in which a letter that comes in is
//! any letter at all that is addressed to it. `specs/Going.antt` has the invariant.
#![tactic(auto)]

ghost use Rattle.cd_kbo.specs.declared.order.Order.{Order};
ghost use Rattle.cd_alone.specs.Alone.{AloneRunsAreLawful, AloneRunsTurn, RejectsChangeNothing, RunsAreAlone};
ghost use Rattle.cd_alone.specs.Derived.{AloneRunsRefute};
ghost use Rattle.cd_alone.specs.Going.{StartsGo, EventsKeepGoing, EventsKeepReady};

/// Each name is known once, and the peer's own names are below its next number; each record's and each item's steps lead
/// to its clause over what was known here before it; the peer is contracted, and knows no tautology; each known clause and
/// each item holds in every finite interpretation in which the inputs hold; and the empty clause is known where the
/// verdict is Refuted, last and once, and nowhere else. For a letter is admitted only when its steps are right over what
/// is known here, and steps are sound.
pub fn alone_runs_are_lawful()
    ensures { (order : Order) → AloneRunsAreLawful order }
{}

/// Where there is no verdict, one event is first by the choice order and legal, or the peer is idle; there are no two, and
/// none where it is idle. For what an event asks of the rules is decided, and a letter is admitted or rejected.
pub fn alone_runs_turn()
    ensures { (order : Order) → AloneRunsTurn order }
{}

/// A Reject takes its letter out, and changes nothing else but the clock and the journal; it sends nothing.
pub fn rejects_change_nothing()
    ensures { (order : Order) → RejectsChangeNothing order }
{}

/// A peer that ends Refuted has a derivation, of the empty clause and its ancestors, and each such derivation is a
/// refutation by its lines alone: each line's step is right with its input or with the clauses of earlier lines, and the
/// last clause is the empty one.
pub fn alone_runs_refute()
    ensures { (order : Order) → AloneRunsRefute order }
{}

/// Each peer of a run of many makes a run of its own, so that all of this holds of it.
pub fn runs_are_alone()
    ensures { (order : Order) → RunsAreAlone order }
{}

/// What holds at each moment holds at the start.
pub fn starts_go()
    ensures { (order : Order) → StartsGo order }
{}

/// Every event that fits keeps what holds at each moment.
pub fn events_keep_going()
    ensures { (order : Order) → EventsKeepGoing order }
{}

/// Every event that fits keeps what a turn needs of the state, with no premise on the rules.
pub fn events_keep_ready()
    ensures { (order : Order) → EventsKeepReady order }
{}
