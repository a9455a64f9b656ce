//! Files that include others.
use crate::answers::{Said, expect, expect_beside, push_file};
use cd_list::{Sequence, Text};
use cd_outside::Shelved;
use std::alloc::{AllocError, Global};
use std::test::Fail;

/// The texts of two files, and the answer.
const ROWS: [(&str, &str, Said<'static>); 14] = [
    ("include('u.p').", "cnf(a,axiom,p).", ("read", "t.p", 0)),
    ("include('u.p'). include('u.p').", "", ("read", "t.p", 0)),
    ("include('u.p',[a]).", "cnf(a,axiom,p).", ("read", "t.p", 0)),
    (
        "include('u.p',[x]).",
        "cnf(a,axiom,p).",
        ("selected", "t.p", 15),
    ),
    (
        "include('u.p',['7']).",
        "cnf(7,axiom,p).",
        ("selected", "t.p", 15),
    ),
    (
        "include('u.p',[a,'a',b]).",
        "cnf('a',axiom,p).",
        ("selected", "t.p", 21),
    ),
    (
        "cnf(b,axiom,p). include('u.p',[a,b]).",
        "cnf(a,axiom,p).",
        ("selected", "t.p", 33),
    ),
    (
        "include('u.p',[a]).",
        "cnf(a,axiom,p). cnf(b,axiom,p",
        ("syntax", "u.p", 29),
    ),
    ("include('u.p').", "include('t.p').", ("cycle", "u.p", 8)),
    (
        "include('u.p'). cnf(",
        "cnf(a,axiom,",
        ("syntax", "u.p", 12),
    ),
    ("include('u.p').", "fof(a,axiom,p).", ("language", "u.p", 0)),
    ("include('u.p'. ", "cnf(", ("syntax", "t.p", 13)),
    ("cnf(a,axiom,p). include('v.p').", "", ("library", "v.p", 0)),
    ("include('v.p'). cnf(", "", ("library", "v.p", 0)),
];

#[test]
fn included_files_are_read_at_their_places(rt: HostRuntime) -> Result<(), Fail> {
    for (text, beside, said) in ROWS {
        expect_beside(
            &rt,
            rt.alloc(),
            text.as_bytes(),
            beside.as_bytes(),
            [].as_slice(),
            said,
        )?;
    }
    Ok(())
}

#[test]
fn a_fetch_that_fails_is_the_librarys_fault(rt: HostRuntime) -> Result<(), Fail> {
    let text = b"include('u.p',[7]).".as_slice();
    let beside = b"cnf(7,hypothesis,'p'(b)).\ncnf(8,axiom,q).\n".as_slice();
    for (call, path) in [(0, "t.p"), (1, "u.p")] {
        let said = ("library", path, 0);
        expect_beside(&rt, rt.alloc(), text, beside, [call].as_slice(), said)?;
    }
    Ok(())
}

const PATHS: [&str; 17] = [
    "f1.p", "f2.p", "f3.p", "f4.p", "f5.p", "f6.p", "f7.p", "f8.p", "f9.p", "f10.p", "f11.p",
    "f12.p", "f13.p", "f14.p", "f15.p", "f16.p", "f17.p",
];

/// A file that includes another one.
fn push_link(
    alloc: Global,
    files: &mut Shelved,
    path: &str,
    other: &str,
) -> Result<(), AllocError> {
    let mut text = Text::of(alloc, "include('")?;
    text.push_str(other)?;
    text.push_str("').")?;
    push_file(alloc, files, path, text.as_bytes())
}

/// Sixteen files, each but the last of which includes the next one; the last one has this text.
fn chain(alloc: Global, last: &str) -> Result<Shelved, AllocError> {
    let mut files = Sequence::new(alloc);
    for i in 0..15usize {
        push_link(alloc, &mut files, PATHS[i], PATHS[i + 1])?;
    }
    push_file(alloc, &mut files, PATHS[15], last.as_bytes())?;
    Ok(files)
}

#[test]
fn sixteen_files_may_be_open(rt: HostRuntime) -> Result<(), Fail> {
    for (last, said) in [
        ("", ("read", "f1.p", 0)),
        ("include('f17.p').", ("depth", "f16.p", 8)),
        ("include('f1.p').", ("cycle", "f16.p", 8)),
    ] {
        let files = chain(rt.alloc(), last)?;
        expect(&rt, rt.alloc(), files, [].as_slice(), "f1.p", said)?;
    }
    Ok(())
}
