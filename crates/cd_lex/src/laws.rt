//! The law of tokens that other crates build on. A function of this module does nothing: its contract is the
//! law, and the check of this crate proves it.
#![tactic(auto)]

ghost use Rattle.cd_lex.specs.Laws.{AnswersAgree};

/// What comes next in the bytes is one thing alone: the kind, the place and the bytes of one token, or
/// nothing, or one fault at one place.
pub fn answers_agree()
    ensures { AnswersAgree }
{}
