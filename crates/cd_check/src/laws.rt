//! What is known of the lines of a text.
ghost use Rattle.cd_check.specs.Verdicts.{VerdictsAreOne};
ghost use Rattle.cd_check.specs.Lines.{LinesAreCut, PrintedLinesAreTaken, CommentsArePassedOver, DerivationsAreTaken, RefutationsAreAccepted};

/// A text of pieces without line feeds, each with a line feed behind it, is cut into these pieces.
pub fn lines_are_cut()
    ensures { LinesAreCut }
{}

/// A printed derivation line is taken.
pub fn printed_lines_are_taken()
    ensures { PrintedLinesAreTaken }
{}

/// A line that begins with a percent sign is passed over.
pub fn comments_are_passed_over()
    ensures { CommentsArePassedOver }
{}

/// What is taken of a text is its derivation, where two comment lines stand before it and one stands behind.
pub fn derivations_are_taken()
    ensures { DerivationsAreTaken }
{}

/// A refutation, printed where two comment lines stand before it and one stands behind, is an accepted text.
pub fn refutations_are_accepted()
    ensures { RefutationsAreAccepted }
{}

/// A text has one verdict.
pub fn verdicts_are_one()
    ensures { VerdictsAreOne }
{}
