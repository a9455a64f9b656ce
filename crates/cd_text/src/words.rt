//! Numbers and words. Where memory runs out, a front of the text stands behind what stood before.
ghost use Rattle.std.specs.Prelude.{◌≡◌, ◌++◌, ◌∷◌, [], decimal, OnOk, OnErr};
ghost use Rattle.std.specs.List.{flat_map, list_all};
ghost use Rattle.cd_lex.specs.Bytes.{is_lower, is_word_byte};
ghost use Rattle.cd_text.specs.Words.{is_word};
ghost use Rattle.cd_text.specs.Fronts.{AddsFront};
ghost use Rattle.cd_text.specs.Numerals.{numeral};
ghost use Rattle.cd_text.specs.Texts.{quoted, quoted_byte, shown, shown_byte, word_text};

use cd_lex::{is_lower, is_word_byte};
use cd_outside::Bytes;
use itoa::Buffer;
use std::alloc::AllocError;

/// Appends these bytes.
pub fn put_bytes(into: &mut Bytes, bytes: &[u8]) -> Result<(), AllocError>
    ensures text { OnOk result (into.new ≡ into.old ++ bytes.now) }
    ensures front { OnErr result (AddsFront into.old into.new bytes.now) }
{
    into.extend(bytes)
}

fn put_byte(into: &mut Bytes, b: u8) -> Result<(), AllocError>
    ensures text { OnOk result (into.new ≡ into.old ++ b ∷ []) }
    ensures front { OnErr result (AddsFront into.old into.new (b ∷ [])) }
{
    into.push(b)
}

/// Appends the decimal digits of `n`.
pub fn put_number(into: &mut Bytes, n: u64) -> Result<(), AllocError>
    ensures text { OnOk result (into.new ≡ into.old ++ numeral n) }
    ensures front { OnErr result (AddsFront into.old into.new (numeral n)) }
{
    put_decimal(into, n)
}

fn put_decimal(into: &mut Bytes, n: u64) -> Result<(), AllocError>
    ensures text { OnOk result (into.new ≡ into.old ++ decimal n) }
    ensures front { OnErr result (AddsFront into.old into.new (decimal n)) }
{
    let mut buffer = Buffer::new();
    put_bytes(into, buffer.format(n).as_bytes())
}

/// Appends a text in which each byte outside 32 to 126 is a question mark.
pub fn put_shown(into: &mut Bytes, text: &[u8]) -> Result<(), AllocError>
    ensures text { OnOk result (into.new ≡ into.old ++ shown text.now) }
    ensures front { OnErr result (AddsFront into.old into.new (shown text.now)) }
{
    for b in text {
        put_byte(into, shown_byte(*b))?;
    }
    Ok(())
}

fn shown_byte(b: u8) -> u8
    ensures { result ≡ shown_byte b }
{
    if 32 <= b && b <= 126 { b } else { b'?' }
}

/// Appends a text between single quotes, with a backslash before each quote and each backslash; any other
/// byte outside 32 to 126 is a question mark.
#[tactic(auto, using(std::proofs::Common::append_assoc, crate::proofs::Fronts::adds_first, crate::proofs::Fronts::adds_next), unfolding(crate::specs::Texts::quoted))]
pub fn put_quoted(into: &mut Bytes, text: &[u8]) -> Result<(), AllocError>
    ensures text { OnOk result (into.new ≡ into.old ++ quoted text.now) }
    ensures front { OnErr result (AddsFront into.old into.new (quoted text.now)) }
{
    put_bytes(into, b"'")?;
    put_inside(into, text)?;
    put_bytes(into, b"'")
}

fn put_inside(into: &mut Bytes, text: &[u8]) -> Result<(), AllocError>
    ensures text { OnOk result (into.new ≡ into.old ++ flat_map quoted_byte text.now) }
    ensures front { OnErr result (AddsFront into.old into.new (flat_map quoted_byte text.now)) }
{
    for b in text {
        put_quoted_byte(into, *b)?;
    }
    Ok(())
}

fn put_quoted_byte(into: &mut Bytes, b: u8) -> Result<(), AllocError>
    ensures text { OnOk result (into.new ≡ into.old ++ quoted_byte b) }
    ensures front { OnErr result (AddsFront into.old into.new (quoted_byte b)) }
{
    if b == b'\'' || b == b'\\' {
        put_byte(into, b'\\')?;
        put_byte(into, b)
    } else {
        put_byte(into, shown_byte(b))
    }
}

/// Appends a text as a word: bare where it is a lower word, and else quoted.
pub fn put_word(into: &mut Bytes, text: &[u8]) -> Result<(), AllocError>
    ensures text { OnOk result (into.new ≡ into.old ++ word_text text.now) }
    ensures front { OnErr result (AddsFront into.old into.new (word_text text.now)) }
{
    if is_word(text) {
        put_bytes(into, text)
    } else {
        put_quoted(into, text)
    }
}

fn is_word(text: &[u8]) -> bool
    ensures { result ≡ is_word text.now }
{
    match text {
        [] => false,
        [first, after @ ..] => is_lower(*first) && are_word_bytes(after),
    }
}

fn are_word_bytes(text: &[u8]) -> bool
    ensures { result ≡ list_all is_word_byte text.now }
{
    let mut rest = text;
    while let [first, after @ ..] = rest {
        if !is_word_byte(*first) {
            return false;
        }
        rest = after;
    }
    true
}
