//! What the laws over runs take from the rules, proved of the rules themselves; and the laws with nothing left assumed. A
//! function of this crate does nothing: its contract is the law, and the check of this crate proves it.
#![tactic(auto)]

ghost use Rattle.cd_premises.specs.Meets.{PremisesMeet, DecisionsMeet, SinglesMeet, TestsMeet, FormedInputsFit};
ghost use Rattle.cd_premises.specs.Runs.{RunsAreRight, SchedulesAreFinite, AloneRunsAreRight};

/// Keys are in an order, contraction lowers them and is implied; steps over registries are sound and can be taken back;
/// tidy forms, reducts and conclusions are right, within bounds and over the symbols.
pub fn premises_meet()
    ensures { PremisesMeet }
{}

/// Each relation that an event depends on holds or doesn't, and what a turn has to find is there, once.
pub fn decisions_meet()
    ensures { DecisionsMeet }
{}

/// The first reduct by a tidy equation is one, with its place and its substitution; a clause has one tidy form.
pub fn singles_meet()
    ensures { SinglesMeet }
{}

/// Whether a clause is fit and whether a step can be replayed is decided, a step gives one clause, and clauses are compared.
pub fn tests_meet()
    ensures { TestsMeet }
{}

/// The inputs of a problem that is formed and within bounds are within bounds and over its symbols.
pub fn formed_inputs_fit()
    ensures { FormedInputsFit }
{}

/// For every problem, every order of terms, and every run of any number of peers, in whatever order they infer, delete, send
/// and receive: names are one, peers are contracted, names descend, the carried clauses keep the models of the inputs, tasks
/// are accounted for, one token is there, no letter is rejected, a legal event has one effect, a turn has one event, the
/// measure falls, and a Declare comes only in a closed world.
pub fn runs_are_right()
    ensures { RunsAreRight }
{}

/// No schedule goes on for ever.
pub fn schedules_are_finite()
    ensures { SchedulesAreFinite }
{}

/// Whatever letters one peer is given: what it knows stands by right steps on what it knew before and holds where the inputs
/// hold, it is contracted, a turn has one event, and where it ends Refuted it has a derivation, and each is a refutation.
pub fn alone_runs_are_right()
    ensures { AloneRunsAreRight }
{}
