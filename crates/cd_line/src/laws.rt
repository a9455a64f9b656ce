//! What is known of printed lines. A function of this module does nothing: its contract is the law.
ghost use Rattle.cd_line.specs.Laws.{LinesAreReadAgain, PrintedLinesAreOne};

/// A printed line is read again, but for what isn't printed of it.
pub fn lines_are_read_again()
    ensures { LinesAreReadAgain }
{}

/// A printed line says which line it is: two formed lines with the same text are equal, but for what isn't printed.
pub fn printed_lines_are_one()
    ensures { PrintedLinesAreOne }
{}
