//! Verdicts on a text.

/// The condition of a line that fails, in the order in which they are looked at.
#[derive(Clone, Copy)]
pub enum Why {
    /// It is no derivation line over the symbols of the problem.
    Form,
    /// Its name isn't the next one.
    Number,
    /// A parent is no earlier line.
    Parent,
    /// No input has its role, path, label and clause.
    Input,
    /// The step is wrong.
    Step,
    /// There is no line, or the last one doesn't have the empty clause.
    End,
}

/// What a text is as a refutation of a problem.
#[derive(Clone, Copy)]
pub enum Verdict {
    /// The text is accepted; it has so many derivation lines.
    Accepted { lines: u32 },
    /// The first line of the text that fails, counted from 1, and why. Where every line is right and the last one
    /// doesn't have the empty clause, it is the line behind the last.
    Refused { line: u32, why: Why },
}
