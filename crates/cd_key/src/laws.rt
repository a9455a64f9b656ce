//! The laws of literals and keys that other crates build on. A function of this module does nothing: its
//! contract is the law, and the check of this crate proves it.
#![tactic(auto)]

ghost use Rattle.cd_key.specs.Parts.{FormsAreOrdered, FormsDecideKeys, FormsFall, FewerFormsFall, RenamedFormsTie};
ghost use Rattle.cd_key.specs.Eligibility.{LiteralsAreOrdered, SomeLiteralIsEligible, EligibilityDecides};
ghost use Rattle.cd_key.specs.Laws.{BoundedClausesCompare, LiteralFormsAreOrdered, KeysAreOrdered, NamesDecide, LiteralsFall, KeysFall};

/// Clauses within bounds can be compared.
pub fn bounded_clauses()
    ensures { BoundedClausesCompare }
{}

/// Ground forms of literals and keys are in total orders, and keys under different names are never equal.
pub fn orders()
    ensures forms { LiteralFormsAreOrdered }
    ensures keys { KeysAreOrdered }
    ensures names { NamesDecide }
{}

/// Where an atom or a side of an equation gets smaller in the ground order, the literal does, and with a
/// literal the key of its clause.
pub fn falling()
    ensures literals { LiteralsFall }
    ensures keys { KeysFall }
{}

/// The first part of the key, the ground forms of the literals, is a total order of its own and decides before the
/// others. It gets smaller with one of the literals and without one, and stays the same where variables are renamed.
pub fn first_parts()
    ensures ordered { FormsAreOrdered }
    ensures decide { FormsDecideKeys }
    ensures fall { FormsFall }
    ensures fewer { FewerFormsFall }
    ensures renamed { RenamedFormsTie }
{}

/// The order of literals is strict where there are no variables, and the ground forms go with it.
pub fn literal_order()
    ensures { LiteralsAreOrdered }
{}

/// A literal is eligible or not, and some literal of a clause that isn't empty is.
pub fn eligible_literals()
    ensures there { SomeLiteralIsEligible }
    ensures decide { EligibilityDecides }
{}
