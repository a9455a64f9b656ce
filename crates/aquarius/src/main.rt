//! A theorem prover: reads a file of clauses, and writes a refutation, a saturated list or why there is none.
#![tactic(auto)]

use cd_list::{Sequence, Text};
use cd_outside::{Folder, OpenGate, Standard};
use cd_top::prove;
use std::alloc::{AllocError, Global};
use std::env;
use std::io::ErrorKind;
use std::process::ExitCode;
use std::rt::Env;

/// The exit status where not even the words can be had for want of memory.
const MEMORY: u8 = 71;

fn main(rt: HostRuntime) -> ExitCode {
    let alloc = rt.alloc();
    let Ok(words) = words_of(&rt, alloc) else {
        return ExitCode::from(MEMORY);
    };
    let mut library = Folder::new(&rt);
    let mut sink = Standard::new(rt.stdout());
    let outcome = prove(
        &rt,
        alloc,
        words.as_slice(),
        &mut library,
        &mut sink,
        &OpenGate {},
    );
    ExitCode::from(outcome.status)
}

// The words behind the program's name; none where one of them isn't text.
fn words_of<R: Env + Alloc>(rt: &R, alloc: Global) -> Result<Sequence<Text>, AllocError> {
    let mut words = Sequence::new(alloc);
    let args = match env::args(rt) {
        Ok(args) => args,
        Err(error) => {
            return match error.kind() {
                ErrorKind::OutOfMemory => Err(AllocError),
                _ => Ok(words),
            };
        }
    };
    let mut first = true;
    for arg in args {
        if !first {
            words.push(Text::of(alloc, arg.as_str())?)?;
        }
        first = false;
    }
    Ok(words)
}
