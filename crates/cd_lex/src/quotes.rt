//! Quoted texts and objects.
#![tactic(auto)]

ghost use Rattle.std.specs.Prelude.{◌≡◌, ◌⊎◌, ◌^◌, ◌≤◌, ◌<◌, length, drop, slice_index, IfOk, MatchResult};
ghost use Rattle.cd_lex.specs.Next.{BeginsFault, IsQuote};
ghost use Rattle.cd_lex.specs.Scans.{EndsInside, EndsQuoted, IsWithin};

use crate::LexFault;

enum InsideEnd {
    /// The closing quote stands there.
    Closed(usize),
    /// No character stands there.
    Bad(usize),
    /// The input ends.
    Unclosed,
}

/// Reads the characters behind an opening quote.
fn inside_end(bytes: &[u8], from: usize, quote: u8) -> InsideEnd
    requires start { from ≤ length bytes.now }
    requires kind { IsQuote quote }
    ensures inside { EndsInside quote (drop from bytes.now) from result }
    ensures within { IsWithin (length bytes.now) result }
{
    let mut at = from;
    while at < bytes.len() {
        let b = bytes[at];
        if b == quote {
            return InsideEnd::Closed(at);
        }
        if b == b'\\' {
            if at + 1 == bytes.len() {
                return InsideEnd::Bad(at);
            }
            if bytes[at + 1] != b'\\' && bytes[at + 1] != quote {
                return InsideEnd::Bad(at);
            }
            at += 2;
        } else if b >= 32 && b <= 126 {
            at += 1;
        } else {
            return InsideEnd::Bad(at);
        }
    }
    InsideEnd::Unclosed
}

/// The place behind the closing quote of the text that the quote at place `at` opens.
pub fn quoted_end(bytes: &[u8], at: usize, quote: u8) -> Result<usize, LexFault>
    requires few { length bytes.now < 2 ^ 32 }
    requires within { at < length bytes.now }
    requires opens { slice_index bytes.now at ≡ quote }
    requires kind { IsQuote quote }
    ensures quoted { MatchResult result (EndsQuoted quote (drop at bytes.now) at) (BeginsFault (drop at bytes.now) at) }
    ensures within { IfOk result (λ end. end ≤ length bytes.now) }
{
    match inside_end(bytes, at + 1, quote) {
        InsideEnd::Closed(end) => {
            if end == at + 1 && quote == b'\'' {
                return Err(LexFault::BadByte(end as u32));
            }
            Ok(end + 1)
        }
        InsideEnd::Bad(place) => Err(LexFault::BadByte(place as u32)),
        InsideEnd::Unclosed => Err(LexFault::OpenQuote(at as u32)),
    }
}
