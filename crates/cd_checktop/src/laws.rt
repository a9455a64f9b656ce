//! The law of the call. A function of this module does nothing: its contract is the law, and the check of this crate
//! proves it.
ghost use Rattle.cd_checktop.specs.Laws.{AcceptedTextsPass};

/// A text that is accepted of a problem passes: where the library holds the files of the problem and the text, a call
/// with their paths in which nothing fails answers `Accepted`.
pub fn accepted_texts_pass()
    ensures { AcceptedTextsPass }
{
    cd_read::laws::held();
    cd_read::laws::formed();
    cd_check::verdicts_are_one();
}
