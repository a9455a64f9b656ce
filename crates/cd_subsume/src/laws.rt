//! The laws of subsumption that other crates build on. A function of this module does nothing: its contract is
//! the law, and the check of this crate proves it.
#![tactic(auto)]

ghost use Rattle.cd_subsume.specs.Laws.{SubsumersImply, SubsumptionDecides, TidyFormsSubsume, SubsumersHaveNoMore, SignsNeverFall, SizesNeverFall};

/// What subsumes a clause implies it.
pub fn implications()
    ensures { SubsumersImply }
{}

/// One clause subsumes another one, or it doesn't.
pub fn decisions()
    ensures { SubsumptionDecides }
{}

/// A tidy form subsumes its clause.
pub fn tidy_forms()
    ensures { TidyFormsSubsume }
{}

/// A number of a literal of which no instance has less: a subsumer has no more of it in sum. Counts of literals by
/// sign and sizes are such numbers.
pub fn counts()
    ensures subsumers { SubsumersHaveNoMore }
    ensures signs { SignsNeverFall }
    ensures sizes { SizesNeverFall }
{}
