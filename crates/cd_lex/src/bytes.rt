//! Bytes by their ASCII codes.
#![tactic(auto)]

ghost use Rattle.std.specs.Prelude.{◌≡◌};
ghost use Rattle.cd_lex.specs.Bytes as codes;

/// Whether the byte is a letter from `a` to `z`.
pub fn is_lower(b: u8) -> bool
    ensures { result ≡ codes.is_lower b }
{
    b >= b'a' && b <= b'z'
}

pub fn is_upper(b: u8) -> bool
    ensures { result ≡ codes.is_upper b }
{
    b >= b'A' && b <= b'Z'
}

pub fn is_digit(b: u8) -> bool
    ensures { result ≡ codes.is_digit b }
{
    b >= b'0' && b <= b'9'
}

/// Whether the byte is a letter, a digit or `_`.
pub fn is_word_byte(b: u8) -> bool
    ensures { result ≡ codes.is_word_byte b }
{
    is_lower(b) || is_upper(b) || is_digit(b) || b == b'_'
}

pub fn is_dollar(b: u8) -> bool
    ensures { result ≡ codes.is_dollar b }
{
    b == b'$'
}

pub fn is_plus_or_minus(b: u8) -> bool
    ensures { result ≡ codes.is_plus_or_minus b }
{
    b == b'+' || b == b'-'
}

pub fn is_point(b: u8) -> bool
    ensures { result ≡ codes.is_point b }
{
    b == b'.' || b == b'/'
}

pub fn is_exponent_letter(b: u8) -> bool
    ensures { result ≡ codes.is_exponent_letter b }
{
    b == b'E' || b == b'e'
}

pub fn is_sign(b: u8) -> bool
    ensures { result ≡ codes.is_sign b }
{
    b"()[],.:~=|".contains(&b)
}

pub fn is_other(b: u8) -> bool
    ensures { result ≡ codes.is_other b }
{
    b"&@!?<>*+-^;{}/".contains(&b)
}

pub fn is_blank(b: u8) -> bool
    ensures { result ≡ codes.is_blank b }
{
    b == b' ' || b >= b'\t' && b <= b'\r'
}
