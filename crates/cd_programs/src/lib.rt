//! The law between the two programs: what the one prints as a refutation the other accepts. The function of this crate does
//! nothing: its contract is the law, and the check of this crate proves it.
#![tactic(auto)]

ghost use Rattle.cd_programs.specs.Passing.{RefutationsPass};

/// The checker accepts each refutation that the prover printed: where its library holds the files that the prover was told,
/// and the text, within its cap, and where nothing fails and memory doesn't run out.
pub fn refutations_pass()
    ensures { RefutationsPass }
{
    cd_checktop::laws::accepted_texts_pass();
}
