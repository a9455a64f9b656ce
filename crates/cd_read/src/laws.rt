//! The laws of reading that other crates build on. A function of this module does nothing: its contract is
//! the law, and the check of this crate proves it.
ghost use Rattle.cd_read.specs.Laws.{OutcomesAgree, ReadingsAgree, NeedsAgree, ReadingsNeedNothing, HeldReadingsAgree, WholeFilesAreTold, FaultsAreTold, ProblemsAreFormed, ProblemsAreBounded};

/// What reading a file comes to is one thing.
pub fn one_outcome()
    ensures { OutcomesAgree }
{}

/// Files give one problem, or have one fault first, or need one file next.
pub fn one_answer()
    ensures readings { ReadingsAgree }
    ensures needs { NeedsAgree }
    ensures apart { ReadingsNeedNothing }
{}

/// Where each file is the whole of what a library holds, that decides the problem or the fault, whichever files are
/// told of it: also with a last one that is cut, since it is too long.
pub fn held()
    ensures readings { HeldReadingsAgree }
    ensures whole { WholeFilesAreTold }
    ensures faults { FaultsAreTold }
{}

/// A problem that was read is formed: its texts are printable, its symbols stand in their arity and kind. Its
/// inputs are within bounds, and there are fewer than 2^32 of them.
pub fn formed()
    ensures formed { ProblemsAreFormed }
    ensures bounded { ProblemsAreBounded }
{}
