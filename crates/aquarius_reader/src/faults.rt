//! The first fault of a file, at its place.
use crate::answers::expect_alone;
use std::test::Fail;

/// A text, the answer's word and its place.
const ROWS: [(&str, &str, u32); 36] = [
    ("", "read", 0),
    ("% no line feed", "read", 0),
    ("cnf('ab", "open quote", 4),
    ("cnf(a,axiom,p#q).", "bad byte", 13),
    ("cnf('',axiom,p).", "bad byte", 5),
    ("cnf('a\\b',axiom,p).", "bad byte", 6),
    ("cnf('a\\", "bad byte", 6),
    ("cnf(a,axiom,p). /* x", "open comment", 16),
    ("cnf(a,axiom,p", "syntax", 13),
    ("cnf(a,axiom,X).", "syntax", 13),
    ("cnf(a,axiom,~).", "syntax", 13),
    ("cnf(a,axiom,p & q).", "syntax", 14),
    ("cnf(1.5,axiom,p).", "syntax", 4),
    ("cnf(a,Axiom,p).", "syntax", 6),
    ("cnf(a,'axiom',p).", "syntax", 6),
    ("cnf(a,axiom,p,[a(]).", "syntax", 17),
    ("cnf(a,axiom,p,).", "syntax", 14),
    ("tpp(a,axiom,p).", "syntax", 0),
    ("include(u).", "syntax", 8),
    ("include('u.p',[]).", "syntax", 15),
    ("fof(a,axiom,p).", "language", 0),
    ("cnf(a,axiom,p).\ntff(a,axiom,p).", "language", 16),
    ("'fof'(a,axiom,p).", "syntax", 0),
    ("cnf(a,conjecture,p).", "role", 6),
    ("cnf(a,axiom,p(\"x\")).", "object", 14),
    ("cnf(a,axiom,\"x\").", "object", 12),
    ("cnf(\"x\",axiom,p).", "syntax", 4),
    ("cnf(a,axiom,p(1)).", "number", 14),
    ("cnf(a,axiom,a = -1.5).", "number", 16),
    ("cnf(a,axiom,$less(a,b)).", "dollar", 12),
    ("cnf(a,axiom,p($true)).", "dollar", 14),
    ("cnf(a,axiom,~$$p).", "dollar", 13),
    ("include('t.p').", "cycle", 8),
    ("include('t.p'", "cycle", 8),
    ("cnf(7,plain,~ ~ (p | $false)).", "syntax", 19),
    (
        "cnf(7,plain,(~ ~ (p) | $false),file('x',unknown),[k]).",
        "read",
        0,
    ),
];

#[test]
fn the_first_fault_of_a_file_stands_at_its_place(rt: HostRuntime) -> Result<(), Fail> {
    for (text, what, at) in ROWS {
        expect_alone(&rt, rt.alloc(), text.as_bytes(), what, at)?;
    }
    Ok(())
}

#[test]
fn a_file_may_end_after_any_byte(rt: HostRuntime) -> Result<(), Fail> {
    let file = b"cnf(a,axiom,p).";
    for k in 0..16u32 {
        let (what, at) = match k {
            0 | 15 => ("read", 0),
            1 | 2 => ("syntax", 0),
            7..=10 => ("role", 6),
            _ => ("syntax", k),
        };
        expect_alone(&rt, rt.alloc(), &file[..k as usize], what, at)?;
    }
    Ok(())
}
