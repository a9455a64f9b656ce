//! Tokens of the grammar, from those of the source.
ghost use Rattle.std.specs.Prelude.{◌≡◌, ◌<◌, ◌≤◌, ◌+◌, ◌∷◌, [], length, drop, slice_index, IfOk};
ghost use Rattle.std.specs.List.{list_all};
ghost use Rattle.std.specs.Str.{IsAscii, bytes_eq};
ghost use Rattle.cd_lex.specs.Bytes.{is_digit};
ghost use Rattle.cd_lex.specs.Tokens.{IsToken, IsSign};
ghost use Rattle.cd_parse.specs.Parts.{unescaped, content, sign_of, dollar_of, terminal_of};

use crate::terminal::{Foreign, Sign, Terminal};
use cd_lex::{Token, TokenKind};
use cd_list::Text;
use std::alloc::{AllocError, Global};

/// What stands between the quotes.
fn content(text: &[u8]) -> &[u8]
    ensures { result.now ≡ content text.now }
{
    if text.len() < 2 {
        return &text[..0];
    }
    &text[1..text.len() - 1]
}

/// The place of the byte that the character at `i` means: `i`, or the next one behind a backslash.
fn behind_backslash(text: &[u8], i: usize) -> usize
    requires within { i < length text.now }
    ensures within { result < length text.now }
    ensures later { i ≤ result }
    ensures is { unescaped (drop i text.now) ≡ slice_index text.now result ∷ unescaped (drop (result + 1) text.now) }
{
    if text[i] == b'\\' && text.len() - i > 1 {
        i + 1
    } else {
        i
    }
}

/// The text without escapes: of a backslash and a byte behind it, that byte.
fn unescaped(alloc: Global, text: &[u8]) -> Result<Text, AllocError>
    requires ascii { IsAscii text.now }
    ensures { IfOk result (λ t. t ≡ unescaped text.now) }
{
    let mut plain = Text::of(alloc, "")?;
    let mut i = 0;
    while i < text.len() {
        let place = behind_backslash(text, i);
        plain.push_ascii(text[place])?;
        i = place + 1;
    }
    Ok(plain)
}

fn is_digits(text: &[u8]) -> bool
    ensures { result ≡ list_all is_digit text.now }
{
    for byte in text {
        if *byte < b'0' || *byte > b'9' {
            return false;
        }
    }
    true
}

fn is_text(text: &[u8], spelled: &[u8]) -> bool
    ensures { result ≡ bytes_eq text.now spelled.now }
{
    text == spelled
}

fn dollar_of(text: &[u8]) -> Terminal
    ensures { result ≡ dollar_of text.now }
{
    if is_text(text, b"$true") {
        Terminal::Truth(true)
    } else if is_text(text, b"$false") {
        Terminal::Truth(false)
    } else {
        Terminal::Foreign(Foreign::Dollar)
    }
}

/// The sign of one byte.
fn one_sign(byte: u8) -> Terminal
    ensures { result ≡ sign_of (byte ∷ []) }
{
    if byte == b'(' {
        Terminal::Sign(Sign::Left)
    } else if byte == b')' {
        Terminal::Sign(Sign::Right)
    } else if byte == b'[' {
        Terminal::Sign(Sign::OpenSquare)
    } else if byte == b']' {
        Terminal::Sign(Sign::CloseSquare)
    } else if byte == b',' {
        Terminal::Sign(Sign::Comma)
    } else if byte == b'.' {
        Terminal::Sign(Sign::Dot)
    } else if byte == b'=' {
        Terminal::Sign(Sign::Equal)
    } else if byte == b'~' {
        Terminal::Sign(Sign::Tilde)
    } else if byte == b'|' {
        Terminal::Sign(Sign::Bar)
    } else {
        Terminal::Other
    }
}

fn sign_of(text: &[u8]) -> Terminal
    requires is { IsSign text.now }
    ensures { result ≡ sign_of text.now }
{
    match text {
        [byte] => one_sign(*byte),
        _ => Terminal::Sign(Sign::Unequal),
    }
}

/// A token as the grammar sees it.
pub fn terminal_of(alloc: Global, token: &Token<'_>) -> Result<Terminal, AllocError>
    requires is { IsToken token.now.kind token.now.slice.now }
    ensures { IfOk result (λ t. t ≡ terminal_of token.now.kind token.now.slice.now) }
{
    match token.kind {
        TokenKind::Lower => Ok(Terminal::Word(false, Text::of_ascii(alloc, token.slice)?)),
        TokenKind::Upper => Ok(Terminal::Upper(Text::of_ascii(alloc, token.slice)?)),
        TokenKind::Dollar => Ok(dollar_of(token.slice)),
        TokenKind::Quoted => Ok(Terminal::Word(true, unescaped(alloc, content(token.slice))?)),
        TokenKind::Object => Ok(Terminal::Foreign(Foreign::Object)),
        TokenKind::Number => {
            if is_digits(token.slice) {
                Ok(Terminal::Digits(Text::of_ascii(alloc, token.slice)?))
            } else {
                Ok(Terminal::Foreign(Foreign::Number))
            }
        }
        TokenKind::Sign => Ok(sign_of(token.slice)),
        TokenKind::Other => Ok(Terminal::Other),
    }
}
