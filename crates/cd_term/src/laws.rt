//! The laws of terms that other crates build on. A function of this module does nothing: its contract is
//! the law, and the check of this crate proves it.
#![tactic(auto)]

ghost use Rattle.cd_term.specs.Laws.{TermsDecide, HaveLevels, HaveVariables, SizeAfterSubstitution, DepthAfterSubstitution, VariablesAfterSubstitution, SizeAfterReplacement, DepthAfterReplacement, ReplacementsAreFound, PathsCompose, SubstitutionsCompose, AgreementDecides, AbsentVariablesDontMatter, SubtermsFollowSubstitution, RenamingsKeepSizes, RenumberingHasInverse};

/// Two terms are equal or not.
pub fn equality()
    ensures { TermsDecide }
{}

/// A term has at least one level, and no more levels than symbols and variables.
pub fn levels()
    ensures { HaveLevels }
{}

/// What occurs in a term, and its bound, are told by the list of its variables.
pub fn variables()
    ensures { HaveVariables }
{}

/// The size, the depth and the variables of a term with a substitution applied.
pub fn after_substitution()
    ensures size { SizeAfterSubstitution }
    ensures depth { DepthAfterSubstitution }
    ensures variables { VariablesAfterSubstitution }
{}

/// The size and the depth of a term with a subterm replaced, and what then stands at the path.
pub fn after_replacement()
    ensures size { SizeAfterReplacement }
    ensures depth { DepthAfterReplacement }
    ensures found { ReplacementsAreFound }
{}

/// One path after another.
pub fn paths()
    ensures { PathsCompose }
{}

/// One substitution after another, and when two of them give a term one value.
pub fn substitutions()
    ensures composed { SubstitutionsCompose }
    ensures agreeing { AgreementDecides }
    ensures absent { AbsentVariablesDontMatter }
{}

/// Subterms and replacements below a substitution.
pub fn subterms()
    ensures { SubtermsFollowSubstitution }
{}

/// Renamings, and the renaming in the order of first occurrence.
pub fn renamings()
    ensures sizes { RenamingsKeepSizes }
    ensures inverse { RenumberingHasInverse }
{}
