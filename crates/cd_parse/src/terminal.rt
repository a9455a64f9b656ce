//! Tokens as the grammar sees them.
use cd_list::Text;

/// The signs that the grammar names.
#[derive(Clone, Copy)]
pub enum Sign {
    Left,
    Right,
    OpenSquare,
    CloseSquare,
    Comma,
    Dot,
    Equal,
    Unequal,
    Tilde,
    Bar,
}

/// Tokens that could begin a term in other languages.
#[derive(Clone, Copy)]
pub enum Foreign {
    /// A text between `"`.
    Object,
    /// A number that isn't digits alone.
    Number,
    /// A dollar word other than `$true` and `$false`.
    Dollar,
}

/// A token, by what the grammar makes of it.
#[derive(Drop)]
pub enum Terminal {
    /// A lower word, or a quoted one; its text is without quotes and escapes.
    Word(bool, Text),
    Upper(Text),
    /// `$true` and `$false`.
    Truth(bool),
    /// A number of digits alone.
    Digits(Text),
    Foreign(Foreign),
    Sign(Sign),
    /// Any other token.
    Other,
}
