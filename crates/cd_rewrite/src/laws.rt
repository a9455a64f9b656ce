//! The laws of rewriting that other crates build on. A function of this module does nothing: its contract is the
//! law, and the check of this crate proves it.
#![tactic(auto)]

ghost use Rattle.cd_rewrite.specs.Laws.{ReductsImply, ReductsAgree, TidySubstitutionsAgree, ReductsDecide, ReductsAreSteps, ReductsAreFit};

/// With the equation, a clause and its reduct imply each other.
pub fn implications()
    ensures { ReductsImply }
{}

/// There is at most one reduct, and by a tidy equation at most one substitution. Either there is a reduct, or the
/// equation reduces the clause nowhere.
pub fn decisions()
    ensures agree { ReductsAgree }
    ensures substitutions { TidySubstitutionsAgree }
    ensures decide { ReductsDecide }
{}

/// A reduct is what a rewriting step makes of a clause. Of an equation and a clause that are tidy, within bounds and
/// over some symbols, the reduct is over these symbols, and the substitution is within bounds and over them too.
pub fn steps()
    ensures steps { ReductsAreSteps }
    ensures fit { ReductsAreFit }
{}
