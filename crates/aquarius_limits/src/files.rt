//! Files that include others, and libraries that fail.
use cd_list::{Sequence, Text};
use cd_outside::{OpenGate, Page, Shelf};
use cd_top::prove;
use std::alloc::{AllocError, Global};
use std::sync::Wait;
use std::thread::Threads;

/// The texts of the files `t.p` and `u.p`, the library's call that fails, the status and what is printed.
type Row = (&'static str, &'static str, u64, u8, &'static str);

/// No call fails.
const NONE: u64 = 100;

const REFUTED: &str = "% SZS status Unsatisfiable for t.p
% SZS output start CNFRefutation for t.p
cnf(c1,axiom,(p),file('u.p',7)).
cnf(c2,plain,(~p),file('t.p',b)).
cnf(c3,plain,$false,inference(resolve,[status(thm),at(0,0),subst([])],[c1,c2])).
% SZS output end CNFRefutation for t.p
";

const ROWS: [Row; 9] = [
    (
        "include('u.p',[7]). cnf(b,plain,~p).",
        "cnf(7,axiom,p). cnf(8,axiom,q).",
        NONE,
        0,
        REFUTED,
    ),
    (
        "include('u.p',[x]).",
        "cnf(a,axiom,p).",
        NONE,
        65,
        "% aquarius refused, selected, file 't.p', byte 15\n",
    ),
    (
        "include('u.p').",
        "include('t.p').",
        NONE,
        65,
        "% aquarius refused, cycle, file 'u.p', byte 8\n",
    ),
    (
        "include('u.p').",
        "cnf(a,axiom,p",
        NONE,
        65,
        "% aquarius refused, syntax, file 'u.p', byte 13\n",
    ),
    (
        "include('v.p').",
        "",
        NONE,
        66,
        "% aquarius cannot read 'v.p'\n",
    ),
    (
        "include('u.p',[7]).",
        "cnf(7,axiom,p).",
        1,
        66,
        "% aquarius cannot read 'u.p'\n",
    ),
    (
        "include('u.p',[7]).",
        "cnf(7,axiom,p).",
        0,
        66,
        "% aquarius cannot read 't.p'\n",
    ),
    (
        "cnf(a,axiom,p). include('u.p').",
        "cnf(b,axiom,q(X)).",
        NONE,
        1,
        "",
    ),
    (
        "include('u.p',[7]).",
        "cnf(7,axiom,p). cnf(8,axiom,q(X)).",
        NONE,
        1,
        "",
    ),
];

fn shelf_of(alloc: Global, row: &Row) -> Result<Shelf, AllocError> {
    let mut files = Sequence::new(alloc);
    for (path, text) in [("t.p", row.0), ("u.p", row.1)] {
        files.push((
            Text::of(alloc, path)?,
            Sequence::from_slice(alloc, text.as_bytes())?,
        ))?;
    }
    let mut fails = Sequence::new(alloc);
    fails.push(row.2)?;
    Ok(Shelf::new(alloc, files, fails))
}

/// Whether a run ends as its row says.
fn ends<R: Threads + Wait + Sync>(rt: &R, alloc: Global, row: &Row) -> Result<bool, AllocError> {
    let mut words = Sequence::new(alloc);
    words.push(Text::of(alloc, "t.p")?)?;
    let mut library = shelf_of(alloc, row)?;
    let mut page = Page::new(alloc, 65_536, 1_000, Sequence::new(alloc))?;
    let outcome = prove(
        rt,
        alloc,
        words.as_slice(),
        &mut library,
        &mut page,
        &OpenGate {},
    );
    Ok(outcome.status == row.3 && (row.4.is_empty() || page.bytes() == row.4.as_bytes()))
}

#[test]
fn included_files_are_read_and_refused_at_their_places(rt: HostRuntime) -> Result<(), AllocError> {
    for row in &ROWS {
        assert!(rt; ends(&rt, rt.alloc(), row)?, "{}", row.0);
    }
    Ok(())
}
