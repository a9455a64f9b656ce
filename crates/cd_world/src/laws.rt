//! Laws of the stated schedule, and of the times of events.
//!
//! A function of this module does nothing: its contract is the law, and the check of this crate proves it.
ghost use Rattle.cd_world.specs.Draws.{DrawsAreOne, DrawsArePicks, SchedulesAreChosen, SchedulesAreOne, SchedulesEnd, TimesAreFew};

/// Each draw is one choice of a schedule: a turn's first event or a receipt, in which token choices come only by the counter.
pub fn draws_are_picks()
    ensures { DrawsArePicks }
{}

/// At a moment one choice is drawn, and no other.
pub fn draws_are_one()
    ensures { DrawsAreOne }
{}

/// No list of draws goes on for ever.
pub fn schedules_end()
    ensures { SchedulesEnd }
{}

/// The events and the end of the stated schedule from a start are a function of the problem, the policy, the limits, the
/// number of peers and the seed. For a draw names one choice, a choice one event, and a legal event has one effect.
pub fn schedules_are_one()
    ensures { SchedulesAreOne }
{}

/// A run of the stated schedule is a run by choice.
pub fn schedules_are_chosen()
    ensures { SchedulesAreChosen }
{}

/// No event's time is above the number of events so far.
pub fn times_are_few()
    ensures { TimesAreFew }
{}
