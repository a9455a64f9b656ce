//! What follows from right steps. A function of this module does nothing: its contract is the law, and the check
//! of this crate proves it.
#![tactic(auto)]

ghost use Rattle.cd_steps.specs.Laws.{ResolutionsAreSound, ResolutionsAreRegular, FactoringsAreSound, FactoringsAreRegular, ReflexivitiesAreSound, ReflexivitiesAreRegular, EqualityFactoringsAreSound, EqualityFactoringsAreRegular, ParamodulationsAreSound, ParamodulationsAreRegular, RewritingsAreSound, RewritingsAreRegular, RewritingsAreReversible, RewritingsAreInPlace, StepsAreSound, StepsAreReversible, StepsGiveOne, RightStepsStayRight, RightStepsAreSound, RightStepsGiveOne};

/// Resolution is sound, and makes one inference.
pub fn resolution()
    ensures sound { ResolutionsAreSound }
    ensures regular { ResolutionsAreRegular }
{}

/// Factoring is sound, and makes one inference.
pub fn factoring()
    ensures sound { FactoringsAreSound }
    ensures regular { FactoringsAreRegular }
{}

/// Reflexivity resolution is sound, and makes one inference.
pub fn reflexivity()
    ensures sound { ReflexivitiesAreSound }
    ensures regular { ReflexivitiesAreRegular }
{}

/// Equality factoring is sound, and makes one inference.
pub fn equality_factoring()
    ensures sound { EqualityFactoringsAreSound }
    ensures regular { EqualityFactoringsAreRegular }
{}

/// Paramodulation is sound, and makes one inference.
pub fn paramodulation()
    ensures sound { ParamodulationsAreSound }
    ensures regular { ParamodulationsAreRegular }
{}

/// Rewriting is sound, also backward, makes one inference, and changes the clause before it in place.
pub fn rewriting()
    ensures sound { RewritingsAreSound }
    ensures regular { RewritingsAreRegular }
    ensures reversible { RewritingsAreReversible }
    ensures in_place { RewritingsAreInPlace }
{}

/// Right steps are sound, those that change the clause before them also backward, and a step gives at most one
/// clause of its premises.
pub fn steps()
    ensures sound { StepsAreSound }
    ensures reversible { StepsAreReversible }
    ensures one { StepsGiveOne }
{}

/// Steps that are right over a registry stay right as it grows, are sound, and give one clause.
pub fn registries()
    ensures grown { RightStepsStayRight }
    ensures sound { RightStepsAreSound }
    ensures one { RightStepsGiveOne }
{}
