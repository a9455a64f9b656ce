//! The texts of answers that both programs have.
ghost use Rattle.std.specs.Prelude.{◌≡◌, ◌++◌, IfOk, OnOk};
ghost use Rattle.cd_report.specs.Texts.{usage_text, what_text, refused_text, unread_text};

use cd_list::{Sequence, Text};
use cd_outside::Bytes;
use cd_read::{What, Wrong};
use cd_text::{put_number, put_quoted};
use std::alloc::{AllocError, Global};

/// `% aquarius usage`
pub fn usage_text(alloc: Global) -> Result<Bytes, AllocError>
    ensures { IfOk result (λ text. text ≡ usage_text) }
{
    Sequence::from_slice(alloc, b"% aquarius usage\n")
}

/// `% aquarius cannot read 'PATH'`
#[tactic(auto, using(std::proofs::Common::append_assoc), unfolding(crate::specs::Texts::unread_text))]
pub fn unread_text(alloc: Global, path: &Text) -> Result<Bytes, AllocError>
    ensures { IfOk result (λ text. text ≡ unread_text path.now) }
{
    let mut text = Sequence::new(alloc);
    text.extend(b"% aquarius cannot read ")?;
    put_quoted(&mut text, path.as_bytes())?;
    text.extend(b"\n")?;
    Ok(text)
}

/// `% aquarius refused, WORD, file 'FILE', byte PLACE`
#[tactic(auto, using(std::proofs::Common::append_assoc), unfolding(crate::specs::Texts::refused_text))]
pub fn refused_text(alloc: Global, wrong: &Wrong) -> Result<Bytes, AllocError>
    ensures { IfOk result (λ text. text ≡ refused_text wrong.now) }
{
    let mut text = Sequence::new(alloc);
    text.extend(b"% aquarius refused, ")?;
    put_what(&mut text, wrong.what)?;
    text.extend(b", file ")?;
    put_quoted(&mut text, wrong.file.as_bytes())?;
    text.extend(b", byte ")?;
    put_number(&mut text, u64::from(wrong.at))?;
    text.extend(b"\n")?;
    Ok(text)
}

fn put_what(into: &mut Bytes, what: What) -> Result<(), AllocError>
    ensures { OnOk result (into.new ≡ into.old ++ what_text what) }
{
    match what {
        What::BadByte => into.extend(b"bad byte"),
        What::OpenQuote => into.extend(b"open quote"),
        What::OpenComment => into.extend(b"open comment"),
        What::Syntax => into.extend(b"syntax"),
        What::Language => into.extend(b"language"),
        What::Role => into.extend(b"role"),
        What::Object => into.extend(b"object"),
        What::Number => into.extend(b"number"),
        What::Dollar => into.extend(b"dollar"),
        What::Deep => into.extend(b"deep"),
        What::Depth => into.extend(b"depth"),
        What::Cycle => into.extend(b"cycle"),
        What::Selected => into.extend(b"selected"),
        What::TooLarge => into.extend(b"too large"),
        What::Long => into.extend(b"long"),
    }
}
