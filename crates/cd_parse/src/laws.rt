//! The laws of statements that other crates build on. A function of this module does nothing: its contract is
//! the law, and the check of this crate proves it.
ghost use Rattle.cd_parse.specs.Laws.{StatementsAgree, StatementsEnd, NamesAgree, PartsAgree};

/// Tokens spell one statement at most, and a statement is no front of another.
pub fn one_statement()
    ensures agree { StatementsAgree }
    ensures end { StatementsEnd }
{}

/// One thing is wrong with a token.
pub fn one_name()
    ensures { NamesAgree }
{}

/// From a place of a file one part alone is read: a statement, nothing, or a fault with its place.
pub fn one_part()
    ensures { PartsAgree }
{}
