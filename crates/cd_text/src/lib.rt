//! The printed texts of words, terms, clauses and derivation lines, as `specs/Texts.antt` defines them.
//!
//! What prints appends to a list of bytes. Want of memory is the only fault: after it the list holds
//! what it held and a front of the text.
#![tactic(auto)]

mod clauses;
mod laws;
mod line;
mod rule;
mod terms;
mod words;

pub use clauses::clause_text;
pub use laws::{
    printed_clauses_have_no_feed, printed_labels_have_no_feed, printed_lines_have_no_feed,
    printed_words_have_no_feed,
};
pub use line::{
    Line, LineRole, LineSource, Lines, Parents, line_text, put_given, put_label, put_name, put_role,
};
pub use rule::put_rule;
pub use words::{put_bytes, put_number, put_quoted, put_shown, put_word};
