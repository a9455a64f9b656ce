//! What follows from the definitions of conclusions. A function of this module does nothing: its contract is the
//! law, and the check of this crate proves it.
#![tactic(auto)]

ghost use Rattle.cd_infer.specs.Laws.{ResolventsAreMostGeneral, FactorsAreMostGeneral, ReflexivesAreMostGeneral, EqualityFactorsAreMostGeneral, ParamodulantsAreMostGeneral, SolosConcludeOnce, PairsConcludeOnce, SolosAreSteps, PairsAreSteps, SolosAreListed, PairsAreListed, SolosAreWithin, PairsAreWithin, PathsAreSymbols, AtomPathsAreSymbols, TidyClausesAreUsable};
ghost use Rattle.cd_infer.specs.RunLaws.{SolosAreInferences, PairsAreInferences, SolosStayOver, PairsStayOver, SolosExist, PairsExist, BoundsDecide};

/// Whatever follows by a rule with any substitution is an instance of what is concluded.
pub fn most_general()
    ensures resolution { ResolventsAreMostGeneral }
    ensures factoring { FactorsAreMostGeneral }
    ensures reflexivity { ReflexivesAreMostGeneral }
    ensures equality_factoring { EqualityFactorsAreMostGeneral }
    ensures paramodulation { ParamodulantsAreMostGeneral }
{}

/// One clause, or two, have one list of conclusions.
pub fn one_list()
    ensures solo { SolosConcludeOnce }
    ensures pair { PairsConcludeOnce }
{}

/// Every clause, and every two clauses, have a list of conclusions.
pub fn lists()
    ensures solo { SolosExist }
    ensures pair { PairsExist }
{}

/// Each conclusion's step is an inference on the clauses that are named, in their order.
pub fn inferences()
    ensures solo { SolosAreInferences }
    ensures pair { PairsAreInferences }
{}

/// Conclusions are over the symbols of their clauses.
pub fn symbols()
    ensures solo { SolosStayOver }
    ensures pair { PairsStayOver }
{}

/// Each conclusion is what its step gives of the clauses.
pub fn steps()
    ensures solo { SolosAreSteps }
    ensures pair { PairsAreSteps }
{}

/// Wherever a place can give anything with any substitution, its conclusion is listed.
pub fn complete()
    ensures solo { SolosAreListed }
    ensures pair { PairsAreListed }
{}

/// Where all conclusions are within bounds, no place gives one out of bounds: of a list and `OutOfBounds` at most one
/// is right. A conclusion is within bounds, or it isn't.
pub fn bounds()
    ensures solo { SolosAreWithin }
    ensures pair { PairsAreWithin }
    ensures decide { BoundsDecide }
{}

/// The paths of a term and of an atom are those that lead to a symbol, in the order of lists.
pub fn paths()
    ensures of_term { PathsAreSymbols }
    ensures of_atom { AtomPathsAreSymbols }
{}

/// A tidy clause within bounds can be used for inferences.
pub fn usable()
    ensures { TidyClausesAreUsable }
{}
