//! Labels, roles and faults.
use cd_list::{Copied, Sequence, Text};
use std::alloc::{AllocError, Global};

/// What an input is called in its file. Labels are equal where their kinds and texts are.
#[derive(Drop, PartialEq, Eq, Hash)]
pub enum Label {
    Word(Text),
    Integer(Text),
}

pub type Labels = Sequence<Label>;

impl Copied for Label {
    fn copy(&self, alloc: Global) -> Result<Label, AllocError> {
        match self {
            Label::Word(text) => Ok(Label::Word(text.copy(alloc)?)),
            Label::Integer(digits) => Ok(Label::Integer(digits.copy(alloc)?)),
        }
    }
}

/// What an input is said to be. All roles are read as clauses of the problem.
#[derive(Clone, Copy)]
pub enum Role {
    Axiom,
    Hypothesis,
    Definition,
    Assumption,
    Lemma,
    Theorem,
    Corollary,
    NegatedConjecture,
    Plain,
}

/// What is wrong with a file.
#[derive(Clone, Copy)]
pub enum What {
    BadByte,
    OpenQuote,
    OpenComment,
    Syntax,
    Language,
    Role,
    Object,
    Number,
    Dollar,
    Deep,
    Depth,
    Cycle,
    Selected,
    TooLarge,
    Long,
}
