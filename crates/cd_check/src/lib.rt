//! What a printed derivation has to be.
//!
//! `specs/Accepted.antt` says which texts are accepted as refutations of a problem, and `specs/Verdicts.antt` what
//! is first wrong with any other. [`accepted_texts_refute`] is why that is worth anything: an accepted text exists
//! only where the problem has no finite model.
#![tactic(auto)]

ghost use Rattle.cd_check.specs.Accepted.{AcceptedTextsRefute};

mod bodies;
mod judging;
mod laws;
mod verdict;

pub use bodies::Bodies;
pub use judging::{Judgement, check_text};
pub use laws::{
    comments_are_passed_over, derivations_are_taken, lines_are_cut, printed_lines_are_taken,
    refutations_are_accepted, verdicts_are_one,
};
pub use verdict::{Verdict, Why};

/// A problem from which some text is accepted holds in no finite interpretation.
pub fn accepted_texts_refute()
    ensures { AcceptedTextsRefute }
{}
