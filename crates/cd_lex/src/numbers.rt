//! The ends of numbers and of their parts.
#![tactic(auto)]

ghost use Rattle.std.specs.Prelude.{◌≡◌, ◌≤◌, ◌<◌, length, drop, IfSome, MatchOption};
ghost use Rattle.cd_lex.specs.Bytes.{is_digit};
ghost use Rattle.cd_lex.specs.Tokens.{IsDigits, IsInteger, IsFraction, IsExponent, IsNumber, Optional, BeginsNo};
ghost use Rattle.cd_lex.specs.Scans.{EndsRun, Ends};

use crate::bytes::{is_digit, is_exponent_letter, is_plus_or_minus, is_point};

fn digit_run_end(bytes: &[u8], from: usize) -> usize
    requires { from ≤ length bytes.now }
    ensures run { EndsRun is_digit (drop from bytes.now) from result }
    ensures within { result ≤ length bytes.now }
{
    let mut at = from;
    while at < bytes.len() && is_digit(bytes[at]) {
        at += 1;
    }
    at
}

/// The end of the digits, where there is one or more.
fn digits_end(bytes: &[u8], at: usize) -> Option<usize>
    requires { at ≤ length bytes.now }
    ensures longest { MatchOption result (BeginsNo IsDigits (drop at bytes.now)) (Ends IsDigits (drop at bytes.now) at) }
    ensures within { IfSome result (λ end. end ≤ length bytes.now) }
{
    let end = digit_run_end(bytes, at);
    if end == at { None } else { Some(end) }
}

/// The end of an optional sign and digits.
fn integer_end(bytes: &[u8], at: usize) -> Option<usize>
    requires { at ≤ length bytes.now }
    ensures longest { MatchOption result (BeginsNo IsInteger (drop at bytes.now)) (Ends IsInteger (drop at bytes.now) at) }
    ensures within { IfSome result (λ end. end ≤ length bytes.now) }
{
    if at < bytes.len() && is_plus_or_minus(bytes[at]) {
        return digits_end(bytes, at + 1);
    }
    digits_end(bytes, at)
}

fn fraction_end(bytes: &[u8], at: usize) -> usize
    requires { at ≤ length bytes.now }
    ensures longest { Ends (Optional IsFraction) (drop at bytes.now) at result }
    ensures within { result ≤ length bytes.now }
{
    if at < bytes.len() && is_point(bytes[at]) {
        return match digits_end(bytes, at + 1) {
            Some(end) => end,
            None => at,
        };
    }
    at
}

fn exponent_end(bytes: &[u8], at: usize) -> usize
    requires { at ≤ length bytes.now }
    ensures longest { Ends (Optional IsExponent) (drop at bytes.now) at result }
    ensures within { result ≤ length bytes.now }
{
    if at < bytes.len() && is_exponent_letter(bytes[at]) {
        return match integer_end(bytes, at + 1) {
            Some(end) => end,
            None => at,
        };
    }
    at
}

/// The end of the number, where one begins.
pub fn number_end(bytes: &[u8], at: usize) -> Option<usize>
    requires { at ≤ length bytes.now }
    ensures longest { MatchOption result (BeginsNo IsNumber (drop at bytes.now)) (Ends IsNumber (drop at bytes.now) at) }
    ensures within { IfSome result (λ end. end ≤ length bytes.now) }
{
    let integer = integer_end(bytes, at)?;
    let fraction = fraction_end(bytes, integer);
    Some(exponent_end(bytes, fraction))
}
