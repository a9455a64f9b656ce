//! Tokens: slices of the source, with their kinds and places.
//!
//! Nothing here takes memory. The work of a call is linear in the bytes that it passes over.
#![tactic(auto)]

ghost use Rattle.std.specs.Prelude.{◌≡◌, ◌+◌, ◌^◌, ◌<◌, ◌≤◌, ℕ, length, drop, slice_index, IfOk, IfSome, MatchOption, MatchResult};
ghost use Rattle.cd_lex.specs.Gaps.{BeginsNoGap};
ghost use Rattle.cd_lex.specs.Next.{IsNext, BeginsFault, token, nothing, fault};
ghost use Rattle.cd_lex.specs.Scans.{EndsToken, BeginsNoWord};

mod bytes;
mod gaps;
pub mod laws;
mod numbers;
mod quotes;
mod words;

pub use bytes::{is_lower, is_word_byte};
use bytes::{is_dollar, is_other, is_sign, is_upper};
use gaps::gap_end;
use numbers::number_end;
use quotes::quoted_end;
use thiserror::Error;
use words::{dollar_end, word_end};

/// The kinds of tokens. The longest token at a place is the one that stands there.
#[derive(Clone, Copy, Debug, PartialEq, Eq)]
pub enum TokenKind {
    /// A small letter, then letters, digits and `_`.
    Lower,
    /// A capital letter, then letters, digits and `_`.
    Upper,
    /// One or two `$`, then a lower word.
    Dollar,
    /// One or more characters between `'`.
    Quoted,
    /// Zero or more characters between `"`.
    Object,
    /// An optional sign, digits, an optional `.` or `/` with digits, and an optional `E` or `e` with an
    /// optional sign and digits.
    Number,
    /// `(` `)` `[` `]` `,` `.` `:` `~` `=` `!=` and the bar.
    Sign,
    /// One of `&` `@` `!` `?` `<` `>` `*` `+` `-` `^` `;` `{` `}` `/`.
    Other,
}

/// What keeps the bytes from being tokens. Places count the bytes from 0.
#[derive(Clone, Copy, Debug, PartialEq, Eq, Error)]
pub enum LexFault {
    /// The byte there begins no token, or it can't stand between the quotes around it, or it is the second
    /// quote of an empty `''`. A character between quotes is a byte 32 to 126 other than the quote and the
    /// backslash, or one of these two behind a backslash.
    #[error("bad byte at {0}")]
    BadByte(u32),
    /// The quote there isn't closed.
    #[error("open quote at {0}")]
    OpenQuote(u32),
    /// The comment `/*` that begins there isn't closed.
    #[error("open comment at {0}")]
    OpenComment(u32),
}

/// A token of the source.
#[derive(Clone, Copy, Debug)]
pub struct Token<'a> {
    pub kind: TokenKind,
    /// The place of the first byte, from 0.
    pub start: u32,
    /// The bytes in the source, with their quotes and backslashes.
    pub slice: &'a [u8],
}

/// The first token from place `from` on, behind blanks and comments; `None` where nothing else follows.
/// The next call begins behind the token, at `start` and the slice's length together. One answer alone fits
/// ([`laws::answers_agree`]).
pub fn next_token(bytes: &[u8], from: usize) -> Result<Option<Token<'_>>, LexFault>
    requires few { length bytes.now < 2 ^ 32 }
    requires within { from ≤ length bytes.now }
    ensures next { MatchResult result
        (λ next. MatchOption next (IsNext bytes.now from nothing)
        (λ t. IsNext bytes.now from (token t.kind t.start t.slice.now)))
        (λ f. IsNext bytes.now from (fault f)) }
    ensures ahead { IfOk result (λ next. IfSome next (λ t. from < t.start + length t.slice.now)) }
    ensures within { IfOk result (λ next. IfSome next (λ t. t.start + length t.slice.now ≤ length bytes.now)) }
{
    let Some(at) = gap_end(bytes, from)? else {
        return Ok(None);
    };
    let (kind, end) = token_end(bytes, at)?;
    Ok(Some(Token {
        kind,
        start: at as u32,
        slice: &bytes[at..end],
    }))
}

/// The kind and the end of the token at a place where no blank and no comment stands.
fn token_end(bytes: &[u8], at: usize) -> Result<(TokenKind, usize), LexFault>
    requires few { length bytes.now < 2 ^ 32 }
    requires within { at < length bytes.now }
    requires no_gap { BeginsNoGap (drop at bytes.now) }
    ensures token { MatchResult result (λ r. EndsToken r.0 (drop at bytes.now) at r.1)
        (BeginsFault (drop at bytes.now) at) }
    ensures within { IfOk result (λ r. r.1 ≤ length bytes.now) }
{
    let byte = bytes[at];
    if is_lower(byte) {
        return Ok((TokenKind::Lower, word_end(bytes, at + 1)));
    }
    if is_upper(byte) {
        return Ok((TokenKind::Upper, word_end(bytes, at + 1)));
    }
    if is_dollar(byte) {
        return match dollar_end(bytes, at) {
            Some(end) => Ok((TokenKind::Dollar, end)),
            None => Err(LexFault::BadByte(at as u32)),
        };
    }
    if byte == b'\'' {
        let end = quoted_end(bytes, at, byte)?;
        return Ok((TokenKind::Quoted, end));
    }
    if byte == b'"' {
        let end = quoted_end(bytes, at, byte)?;
        return Ok((TokenKind::Object, end));
    }
    short_end(bytes, at)
}

/// The same where no word and no quote begins.
fn short_end(bytes: &[u8], at: usize) -> Result<(TokenKind, usize), LexFault>
    requires few { length bytes.now < 2 ^ 32 }
    requires within { at < length bytes.now }
    requires no_gap { BeginsNoGap (drop at bytes.now) }
    requires no_word { BeginsNoWord (slice_index bytes.now at) }
    ensures token { MatchResult result (λ r. EndsToken r.0 (drop at bytes.now) at r.1)
        (BeginsFault (drop at bytes.now) at) }
    ensures within { IfOk result (λ r. r.1 ≤ length bytes.now) }
{
    if let Some(end) = number_end(bytes, at) {
        return Ok((TokenKind::Number, end));
    }
    let byte = bytes[at];
    if byte == b'!' && at + 1 < bytes.len() && bytes[at + 1] == b'=' {
        return Ok((TokenKind::Sign, at + 2));
    }
    if is_sign(byte) {
        return Ok((TokenKind::Sign, at + 1));
    }
    if is_other(byte) {
        return Ok((TokenKind::Other, at + 1));
    }
    Err(LexFault::BadByte(at as u32))
}
