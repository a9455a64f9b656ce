//! What the tests ask of a call.
use cd_list::{Sequence, Text};
use cd_outside::{Bytes, Shelf, Shelved};
use cd_read::{Problem, ReadFault, What, read_problem};
use std::alloc::{AllocError, Global};
use std::process::Abort;
use std::test::Fail;

/// An answer as a word, a path and a place: `read` with the problem's name, `library` with the path, or what is
/// wrong with its file and its place.
pub type Said<'a> = (&'a str, &'a str, u32);

fn word(what: What) -> &'static str {
    match what {
        What::BadByte => "bad byte",
        What::OpenQuote => "open quote",
        What::OpenComment => "open comment",
        What::Syntax => "syntax",
        What::Language => "language",
        What::Role => "role",
        What::Object => "object",
        What::Number => "number",
        What::Dollar => "dollar",
        What::Deep => "deep",
        What::Depth => "depth",
        What::Cycle => "cycle",
        What::Selected => "selected",
        What::TooLarge => "too large",
        What::Long => "long",
    }
}

fn answer(read: Result<Problem, ReadFault>) -> Result<(&'static str, Text, u32), AllocError> {
    match read {
        Ok(problem) => Ok(("read", problem.name, 0)),
        Err(ReadFault::Wrong(wrong)) => Ok((word(wrong.what), wrong.file, wrong.at)),
        Err(ReadFault::Library { path }) => Ok(("library", path, 0)),
        Err(ReadFault::Memory) => Err(AllocError),
    }
}

/// A file of a shelf.
pub fn push_file(
    alloc: Global,
    files: &mut Shelved,
    path: &str,
    bytes: &[u8],
) -> Result<(), AllocError> {
    files.push((Text::of(alloc, path)?, Sequence::from_slice(alloc, bytes)?))
}

/// Reads the file with this path, through a shelf of these files whose calls with these numbers fail.
pub fn expect(
    rt: &impl Abort,
    alloc: Global,
    files: Shelved,
    fails: &[u64],
    path: &str,
    said: Said<'_>,
) -> Result<(), Fail> {
    let mut library = Shelf::new(alloc, files, Sequence::from_slice(alloc, fails)?);
    let path = Text::of(alloc, path)?;
    let (what, file, at) = answer(read_problem(alloc, &mut library, &path))?;
    assert_eq!(rt; what, said.0);
    assert_eq!(rt; file.as_str(), said.1);
    assert_eq!(rt; at, said.2);
    Ok(())
}

/// The same of the one file `t.p`.
pub fn expect_alone(
    rt: &impl Abort,
    alloc: Global,
    bytes: &[u8],
    what: &str,
    at: u32,
) -> Result<(), Fail> {
    let mut files = Sequence::new(alloc);
    push_file(alloc, &mut files, "t.p", bytes)?;
    expect(rt, alloc, files, [].as_slice(), "t.p", (what, "t.p", at))
}

/// The same of the file `t.p` beside the file `u.p`.
pub fn expect_beside(
    rt: &impl Abort,
    alloc: Global,
    bytes: &[u8],
    beside: &[u8],
    fails: &[u64],
    said: Said<'_>,
) -> Result<(), Fail> {
    let mut files = Sequence::new(alloc);
    push_file(alloc, &mut files, "t.p", bytes)?;
    push_file(alloc, &mut files, "u.p", beside)?;
    expect(rt, alloc, files, fails, "t.p", said)
}

/// Appends these bytes so many times.
pub fn push_times(into: &mut Bytes, bytes: &[u8], times: usize) -> Result<(), AllocError> {
    for _ in 0..times {
        into.extend(bytes)?;
    }
    Ok(())
}
