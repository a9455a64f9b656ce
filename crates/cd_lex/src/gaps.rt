//! Blanks and comments.
#![tactic(auto)]

ghost use Rattle.std.specs.Prelude.{◌≡◌, ◌^◌, ◌≤◌, ◌<◌, length, drop, IfSome, MatchOption, MatchResult};
ghost use Rattle.cd_lex.specs.Gaps.{BeginsNoGap, IsGapBetween};
ghost use Rattle.cd_lex.specs.Next.{IsNext, nothing, fault};
ghost use Rattle.cd_lex.specs.Scans.{EndsLine, EndsBlock, Reaches};

use crate::LexFault;
use crate::bytes::is_blank;

/// The place behind the first line feed.
fn line_end(bytes: &[u8], from: usize) -> Option<usize>
    requires { from ≤ length bytes.now }
    ensures line { EndsLine (drop from bytes.now) from result }
    ensures within { IfSome result (λ end. end ≤ length bytes.now) }
    ensures ahead { IfSome result (λ end. from < end) }
{
    let mut at = from;
    while at < bytes.len() {
        if bytes[at] == b'\n' {
            return Some(at + 1);
        }
        at += 1;
    }
    None
}

/// The place behind the first `*/`.
fn block_end(bytes: &[u8], from: usize) -> Option<usize>
    requires { from ≤ length bytes.now }
    ensures block { EndsBlock (drop from bytes.now) from result }
    ensures within { IfSome result (λ end. end ≤ length bytes.now) }
    ensures ahead { IfSome result (λ end. from < end) }
{
    let mut at = from;
    while at + 1 < bytes.len() {
        if bytes[at] == b'*' && bytes[at + 1] == b'/' {
            return Some(at + 2);
        }
        at += 1;
    }
    None
}

/// The place behind blanks and comments, or `None` where nothing else follows.
pub fn gap_end(bytes: &[u8], from: usize) -> Result<Option<usize>, LexFault>
    requires few { length bytes.now < 2 ^ 32 }
    requires within { from ≤ length bytes.now }
    ensures { MatchResult result
        (λ next. MatchOption next (IsNext bytes.now from nothing) (Reaches bytes.now from))
        (λ f. IsNext bytes.now from (fault f)) }
{
    let mut at = from;
    while at < bytes.len() {
        let byte = bytes[at];
        if is_blank(byte) {
            at += 1;
        } else if byte == b'%' {
            let Some(end) = line_end(bytes, at + 1) else {
                return Ok(None);
            };
            at = end;
        } else if byte == b'/' && at + 1 < bytes.len() && bytes[at + 1] == b'*' {
            let Some(end) = block_end(bytes, at + 2) else {
                return Err(LexFault::OpenComment(at as u32));
            };
            at = end;
        } else {
            return Ok(Some(at));
        }
    }
    Ok(None)
}
