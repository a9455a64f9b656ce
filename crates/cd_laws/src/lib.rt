//! The laws over every run of any number of peers, in whatever order they infer, delete, send and receive.
//!
//! A function of this crate does nothing: its contract is the law, and the check of this crate proves it. Each law is said
//! of every order of terms, and of every world that some run from a start reaches; so it holds after every event of the
//! run. What the laws take from the rules of inference is one record, `specs/Premises.antt`; the invariant that is kept by
//! every event is another, `specs/Sound.antt`.
#![tactic(auto)]

ghost use Rattle.cd_kbo.specs.declared.order.Order.{Order};
ghost use Rattle.cd_laws.specs.Statements.{NamesAreOne, PeersAreContracted, NamesDescend, CarriedClausesKeepModels, TasksAreAccounted, TokensAreOne, LonePeersSendNothing, RunsRejectNothing};
ghost use Rattle.cd_laws.specs.Closing.{RunsEndDeclared};
ghost use Rattle.cd_laws.specs.Rooted.{RunsAreLed};
ghost use Rattle.cd_laws.specs.Measure.{RunsFall};
ghost use Rattle.cd_laws.specs.Schedule.{RunsSchedule, SchedulesEnd};
ghost use Rattle.cd_laws.specs.Turns.{RunsTurn};

/// A name has one record, wherever it is known or in a letter, and at each peer an issued name is known, or exactly one
/// letter that brings it there travels or waits. For each event moves one unit of a sum: the times that a name is known at
/// a peer, waits there, and travels to it add up to 1 once it is issued.
pub fn names_are_one()
    ensures { (order : Order) → NamesAreOne order }
{}

/// No event of a run rejects a letter. For each letter was right when it was sent, and what makes it right only grows:
/// records stay recorded, and a name that waits isn't known yet.
pub fn runs_reject_nothing()
    ensures { (order : Order) → RunsRejectNothing order }
{}

/// No clause that a peer knows is a tautology, and none that it holds is subsumed or reduced by another one that it holds
/// with a smaller key. For whatever comes to be held was tested against all that is held, and strikes what it hits.
pub fn peers_are_contracted()
    ensures { (order : Order) → PeersAreContracted order }
{}

/// Each issued name leads, along falling keys, through losses, rework and settled entries, to live clauses and pending
/// items. So equal clauses never delete each other wholly. For a name is lost only to one of smaller key, and what a
/// rework rests on has a smaller key too; so the number of known entries with a smaller key falls along the way.
pub fn names_descend()
    ensures { (order : Order) → NamesDescend order }
{}

/// The clauses of live names and of pending items have exactly the finite models of the inputs; where nothing is left to
/// be done, so have the clauses that are held at their owners. For every clause is led to from the inputs by sound
/// steps, and every input is led back to from what it rests on, along falling keys, by steps that can be taken back.
pub fn carried_clauses_keep_models()
    ensures { (order : Order) → CarriedClausesKeepModels order }
{}

/// Each task between live names is accounted for at one peer, the owner of its second name: a letter is on its way there;
/// or it is owed once; or it was done once, and each of its conclusions is one pending item or one settled entry whose
/// steps begin with it and whose outcome holds; or the first name was told away, and the notice is on its way. No other
/// peer has it. For a task becomes owed exactly when both its names are held there, and is covered only together with the
/// loss of a name, which is told to the owner.
pub fn tasks_are_accounted()
    ensures { (order : Order) → TasksAreAccounted order }
{}

/// Exactly one token is held, waits or travels. For each event keeps their number.
pub fn tokens_are_one()
    ensures { (order : Order) → TokensAreOne order }
{}

/// With one peer nothing travels and nothing waits. For a letter has a receiver other than its sender.
pub fn lone_peers_send_nothing()
    ensures { (order : Order) → LonePeersSendNothing order }
{}

/// After a Declare nothing travels, and at every peer nothing waits, is pending or is owed; no other peer has a verdict,
/// and no event follows. For the token's two waves sandwich a moment at which as many letters were received as were sent
/// (Mattern, Algorithms for distributed termination detection, 1987); from then on no peer that isn't quiet is left, and a
/// letter that waits for a name would mean an older one that could come in.
pub fn runs_end_declared()
    ensures { (order : Order) → RunsEndDeclared order }
{}

/// At each peer a record stands, by right steps, on records that were known there before it; the names that an item's
/// steps mention, and the one that forces it, are known there. For a letter is admitted only when all that it cites is
/// known.
pub fn runs_are_led()
    ensures { (order : Order) → RunsAreLed order }
{}

/// Every event but those of the token sets a verdict or lowers three numbers, compared in turn: the rewritings and tasks
/// left over all peers; the names left; and 3 for each pair of a peer and an issued name that is unknown or held there, 2
/// for each letter that travels, 1 for each that waits and for each item.
pub fn runs_fall()
    ensures { (order : Order) → RunsFall order }
{}

/// At each moment without a verdict: a token choice of the schedule leaves the three numbers, any other sets a verdict or
/// lowers them; at most four token choices a peer come in a row while another choice is there; where none is, a token
/// choice is there, at most twelve a peer come in a row, and then every other choice is a Declare.
pub fn runs_schedule()
    ensures { (order : Order) → RunsSchedule order }
{}

/// No schedule goes on for ever. For each choice sets a verdict, or lowers in turn the three numbers, the token choices
/// that may still come in a row, and the way of the token to a Declare.
pub fn schedules_end()
    ensures { (order : Order) → SchedulesEnd order }
{}

/// Where a peer has no verdict and isn't idle, one event is first by the choice order and legal, and no other; where it is
/// idle, none is.
pub fn runs_turn()
    ensures { (order : Order) → RunsTurn order }
{}
