//! Prints each form of numbers and words. The stored output is worked out by hand from the output format.
#![tactic(auto)]

use cd_list::Sequence;
use cd_outside::Bytes;
use cd_text::{put_number, put_quoted, put_shown, put_word};
use std::alloc::{AllocError, Global};
use std::io::{self, Write};

/// The forms of numbers and words.
enum Form {
    Number(u64),
    Word(&'static str),
    Shown(&'static str),
    Quoted(&'static str),
}

const FORMS: [Form; 8] = [
    Form::Number(u64::MAX),
    Form::Number(0),
    Form::Word(" aB_9"),
    Form::Word("aB_9"),
    Form::Word("B"),
    Form::Word(""),
    Form::Shown("it's \n~\x7f"),
    Form::Quoted("a'b\\c\nd"),
];

fn main(rt: HostRuntime) -> io::Result<()> {
    let forms = forms(rt.alloc())?;
    rt.stdout().write_all(forms.as_slice())
}

fn forms(alloc: Global) -> Result<Bytes, AllocError> {
    let mut printed = Sequence::new(alloc);
    for form in &FORMS {
        put(&mut printed, form)?;
        printed.push(b'\n')?;
    }
    Ok(printed)
}

fn put(into: &mut Bytes, form: &Form) -> Result<(), AllocError> {
    match form {
        Form::Number(n) => put_number(into, *n),
        Form::Word(text) => put_word(into, text.as_bytes()),
        Form::Shown(text) => put_shown(into, text.as_bytes()),
        Form::Quoted(text) => put_quoted(into, text.as_bytes()),
    }
}
