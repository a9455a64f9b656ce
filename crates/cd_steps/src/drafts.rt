//! Inferences before anything is built: which terms have to become equal, and what then follows, all borrowed
//! from the premises.
#![tactic(auto)]

use cd_clause::{Clause, Literal};
use cd_term::Term;

/// A part of what an inference concludes, before its substitution is applied.
#[derive(Clone, Copy)]
pub enum Part<'a> {
    /// Literals of the first premise.
    First(&'a [Literal]),
    /// Literals of the second premise.
    Second(&'a [Literal]),
    /// The negation of an equation of two terms of the first premise.
    Unequal(&'a Term, &'a Term),
    /// A literal of the second premise in which the subterm at a path is replaced by a term of the first.
    Replaced(&'a Literal, &'a [u16], &'a Term),
}

/// An inference: the terms `left` of the first premise have to become equal to the terms `right` of the second.
/// The substitution has values for `up` variables of the first premise and then for `more` of the second; a
/// rule of one premise takes it for the second, too, and has no `up`. What follows is the parts, one after
/// another.
#[derive(Clone, Copy)]
pub struct Draft<'a> {
    pub up: u64,
    pub more: u64,
    pub left: &'a [Term],
    pub right: &'a [Term],
    pub one: Part<'a>,
    pub two: Part<'a>,
    pub three: Part<'a>,
    pub four: Part<'a>,
    pub five: Part<'a>,
}

/// What a step makes of its premises.
#[derive(Clone, Copy)]
pub enum Plan<'a> {
    /// No clause is right.
    Nothing,
    /// What follows by an inference.
    Follows(Draft<'a>),
    /// The tidy form of a clause.
    Tidies(&'a Clause),
}
