//! The text of each answer.
ghost use Rattle.std.specs.Prelude.{◌≡◌, ◌++◌, [], ◌∷◌, IfOk, OnOk};
ghost use Rattle.cd_checktop.specs.Texts.{answer_text, why_text, accepted_text, refused_text};

use crate::answer::CheckAnswer;
use cd_check::Why;
use cd_list::Sequence;
use cd_outside::Bytes;
use cd_report::{refused_text as wrong_text, unread_text, usage_text};
use cd_text::{put_bytes, put_number};
use std::alloc::{AllocError, Global};

/// The line that an answer prints.
pub fn answer_text(alloc: Global, answer: &CheckAnswer) -> Result<Bytes, AllocError>
    ensures { IfOk result (λ text. text ≡ answer_text answer.now) }
{
    match answer {
        CheckAnswer::Accepted { lines } => accepted_text(alloc, *lines),
        CheckAnswer::Refused { line, why } => refused_text(alloc, *line, *why),
        CheckAnswer::Usage => usage_text(alloc),
        CheckAnswer::Problem(wrong) => wrong_text(alloc, wrong),
        CheckAnswer::LibraryFault { path } => unread_text(alloc, path),
        CheckAnswer::SinkFault => Ok(Sequence::new(alloc)),
        CheckAnswer::Memory => Ok(Sequence::new(alloc)),
    }
}

#[tactic(auto, using(std::proofs::Common::append_assoc), unfolding(crate::specs::Texts::accepted_text))]
fn accepted_text(alloc: Global, lines: u32) -> Result<Bytes, AllocError>
    ensures { IfOk result (λ text. text ≡ accepted_text lines) }
{
    let mut text = Sequence::new(alloc);
    text.extend(b"% aquarius check accepted, lines ")?;
    put_number(&mut text, u64::from(lines))?;
    text.extend(b"\n")?;
    Ok(text)
}

#[tactic(auto, using(std::proofs::Common::append_assoc), unfolding(crate::specs::Texts::refused_text))]
fn refused_text(alloc: Global, line: u32, why: Why) -> Result<Bytes, AllocError>
    ensures { IfOk result (λ text. text ≡ refused_text line why) }
{
    let mut text = Sequence::new(alloc);
    text.extend(b"% aquarius check refused, line ")?;
    put_number(&mut text, u64::from(line))?;
    text.extend(b", ")?;
    put_why(&mut text, why)?;
    text.extend(b"\n")?;
    Ok(text)
}

fn put_why(into: &mut Bytes, why: Why) -> Result<(), AllocError>
    ensures { OnOk result (into.new ≡ into.old ++ why_text why) }
{
    match why {
        Why::Form => put_bytes(into, b"form"),
        Why::Number => put_bytes(into, b"number"),
        Why::Parent => put_bytes(into, b"parent"),
        Why::Input => put_bytes(into, b"input"),
        Why::Step => put_bytes(into, b"step"),
        Why::End => put_bytes(into, b"end"),
    }
}
