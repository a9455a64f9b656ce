//! Limits of nesting, of clauses, of symbols and of bytes.
use crate::answers::{expect_alone, expect_beside, push_times};
use cd_list::Sequence;
use cd_outside::Bytes;
use std::alloc::{AllocError, Global};
use std::test::Fail;

/// A clause whose literals are `front` so many times, then `middle`, then `behind` so many times.
fn clause(
    alloc: Global,
    front: &[u8],
    middle: &[u8],
    behind: &[u8],
    times: usize,
) -> Result<Bytes, AllocError> {
    let mut bytes = Sequence::from_slice(alloc, b"cnf(a,axiom,".as_slice())?;
    push_times(&mut bytes, front, times)?;
    bytes.extend(middle)?;
    push_times(&mut bytes, behind, times)?;
    bytes.extend(b").".as_slice())?;
    Ok(bytes)
}

/// What stands in front, in the middle and behind; how often; the answer's word and its place.
const ROWS: [(&str, &str, &str, usize, &str, u32); 8] = [
    ("(", "p", ")", 1_000, "read", 0),
    ("(", "p", ")", 1_001, "deep", 1_012),
    ("~", "p", "", 100_000, "read", 0),
    ("f(", "c", ")", 999, "read", 0),
    ("f(", "c", ")", 1_000, "too large", 0),
    ("f(", "c", ")", 1_001, "deep", 2_013),
    ("p|", "p", "", 65_534, "read", 0),
    ("p|", "p", "", 65_535, "too large", 0),
];

#[test]
fn clauses_are_read_up_to_their_limits(rt: HostRuntime) -> Result<(), Fail> {
    for (front, middle, behind, times, what, at) in ROWS {
        let (front, behind) = (front.as_bytes(), behind.as_bytes());
        let bytes = clause(rt.alloc(), front, middle.as_bytes(), behind, times)?;
        expect_alone(&rt, rt.alloc(), bytes.as_slice(), what, at)?;
    }
    Ok(())
}

/// The letter of a number below 26.
fn letter(n: usize) -> u8 {
    b'a' + (n % 26) as u8
}

/// Clauses of 18 bytes, each with a predicate that the others don't have.
fn with_symbols(alloc: Global, count: usize) -> Result<Bytes, AllocError> {
    let mut bytes = Sequence::new(alloc);
    for n in 0..count {
        let word = [
            letter(n / 17_576),
            letter(n / 676),
            letter(n / 26),
            letter(n),
        ];
        bytes.extend(b"cnf(a,axiom,".as_slice())?;
        bytes.extend(word.as_slice())?;
        bytes.extend(b").".as_slice())?;
    }
    Ok(bytes)
}

#[test]
fn there_may_be_65_535_symbols(rt: HostRuntime) -> Result<(), Fail> {
    for (count, what, at) in [(65_535, "read", 0), (65_536, "too large", 1_179_630)] {
        let bytes = with_symbols(rt.alloc(), count)?;
        expect_alone(&rt, rt.alloc(), bytes.as_slice(), what, at)?;
    }
    Ok(())
}

/// The file `t.p` includes `u.p` and has fifteen bytes.
#[test]
fn the_bytes_of_all_files_are_counted(rt: HostRuntime) -> Result<(), Fail> {
    for (count, said) in [
        (4_194_289, ("read", "t.p", 0)),
        (4_194_290, ("long", "u.p", 0)),
    ] {
        let mut beside: Bytes = Sequence::new(rt.alloc());
        push_times(&mut beside, b" ".as_slice(), count)?;
        let text = b"include('u.p').".as_slice();
        expect_beside(
            &rt,
            rt.alloc(),
            text,
            beside.as_slice(),
            [].as_slice(),
            said,
        )?;
    }
    Ok(())
}
