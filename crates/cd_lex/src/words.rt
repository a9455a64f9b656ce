//! The ends of words.
#![tactic(auto)]

ghost use Rattle.std.specs.Prelude.{◌≡◌, true, ◌+◌, ◌≤◌, ◌<◌, length, drop, slice_index, IfSome, MatchOption};
ghost use Rattle.cd_lex.specs.Bytes.{is_word_byte, is_dollar};
ghost use Rattle.cd_lex.specs.Tokens.{IsLower, IsDollar, BeginsNo};
ghost use Rattle.cd_lex.specs.Scans.{EndsRun, Ends, IsMarked};

use crate::bytes;

/// Where the run of letters, digits and `_` ends.
pub fn word_end(bytes: &[u8], from: usize) -> usize
    requires { from ≤ length bytes.now }
    ensures run { EndsRun is_word_byte (drop from bytes.now) from result }
    ensures within { result ≤ length bytes.now }
{
    let mut at = from;
    while at < bytes.len() && bytes::is_word_byte(bytes[at]) {
        at += 1;
    }
    at
}

/// The end of the lower word, where one begins.
fn lower_end(bytes: &[u8], at: usize) -> Option<usize>
    requires { at ≤ length bytes.now }
    ensures longest { MatchOption result (BeginsNo IsLower (drop at bytes.now)) (Ends IsLower (drop at bytes.now) at) }
    ensures within { IfSome result (λ end. end ≤ length bytes.now) }
{
    if at < bytes.len() && bytes::is_lower(bytes[at]) {
        return Some(word_end(bytes, at + 1));
    }
    None
}

/// The end of an optional `$` and a lower word.
fn marked_end(bytes: &[u8], at: usize) -> Option<usize>
    requires { at ≤ length bytes.now }
    ensures longest { MatchOption result (BeginsNo IsMarked (drop at bytes.now)) (Ends IsMarked (drop at bytes.now) at) }
    ensures within { IfSome result (λ end. end ≤ length bytes.now) }
{
    if at < bytes.len() && bytes::is_dollar(bytes[at]) {
        return lower_end(bytes, at + 1);
    }
    lower_end(bytes, at)
}

/// The end of the dollar word at a `$`, where one begins.
pub fn dollar_end(bytes: &[u8], at: usize) -> Option<usize>
    requires within { at < length bytes.now }
    requires dollar { is_dollar (slice_index bytes.now at) ≡ true }
    ensures longest { MatchOption result (BeginsNo IsDollar (drop at bytes.now)) (Ends IsDollar (drop at bytes.now) at) }
    ensures within { IfSome result (λ end. end ≤ length bytes.now) }
{
    marked_end(bytes, at + 1)
}
