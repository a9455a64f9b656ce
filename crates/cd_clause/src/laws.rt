//! The laws of clauses that other crates build on. A function of this module does nothing: its contract is
//! the law, and the check of this crate proves it.
#![tactic(auto)]

ghost use Rattle.cd_clause.specs.Laws.{AtomsDecide, TautologiesDecide, BoundsDecide, InstancesHold, TautologiesHold, TidyKeepsModels, TidyFormsAgree, RenumberingIsOneToOne, RenumberedInOrder};
ghost use Rattle.cd_clause.specs.TidyLaws.{TidyFormsExist, TidyFormsDecide, TidyFormsAreTidy, TidyFormsAreSmall, TidyFormsAreOver};

/// A clause that holds in an interpretation holds there under every substitution.
pub fn instances()
    ensures { InstancesHold }
{}

/// A tautology holds in every interpretation.
pub fn tautologies()
    ensures { TautologiesHold }
{}

/// Two atoms are the same, a clause is a tautology, or within bounds, or it isn't so.
pub fn decisions()
    ensures atoms { AtomsDecide }
    ensures tautologies { TautologiesDecide }
    ensures bounds { BoundsDecide }
{}

/// A clause and its tidy form have the same finite models.
pub fn tidying()
    ensures { TidyKeepsModels }
{}

/// A clause has one tidy form, which is tidy, no larger than the clause, and over the same symbols.
pub fn tidy_forms()
    ensures there { TidyFormsExist }
    ensures one { TidyFormsAgree }
    ensures decide { TidyFormsDecide }
    ensures tidy { TidyFormsAreTidy }
    ensures small { TidyFormsAreSmall }
    ensures over { TidyFormsAreOver }
{}

/// A clause and its renumbered clause are instances of each other by renamings that undo each other; the
/// variables of the renumbered one are 0, 1, 2 and so on in the order of first occurrence.
pub fn renumbering()
    ensures one_to_one { RenumberingIsOneToOne }
    ensures in_order { RenumberedInOrder }
{}
