//! Files at the limits of a run, and one past them.
use cd_list::{Sequence, Text};
use cd_outside::{Bytes, OpenGate, Page, Shelf};
use cd_text::put_number;
use cd_top::prove;
use std::alloc::{AllocError, Global};
use std::sync::Wait;
use std::thread::Threads;

fn shelf_of(alloc: Global, file: Bytes) -> Result<Shelf, AllocError> {
    let mut files = Sequence::new(alloc);
    files.push((Text::of(alloc, "t.p")?, file))?;
    Ok(Shelf::new(alloc, files, Sequence::new(alloc)))
}

/// The status of a run on a file, and the bytes that it wrote.
fn run<R: Threads + Wait + Sync>(
    rt: &R,
    alloc: Global,
    file: Bytes,
) -> Result<(u8, Page), AllocError> {
    let mut words = Sequence::new(alloc);
    words.push(Text::of(alloc, "--steps=50000")?)?;
    words.push(Text::of(alloc, "t.p")?)?;
    let mut library = shelf_of(alloc, file)?;
    let mut page = Page::new(alloc, 65_536, 1_000, Sequence::new(alloc))?;
    let outcome = prove(
        rt,
        alloc,
        words.as_slice(),
        &mut library,
        &mut page,
        &OpenGate {},
    );
    Ok((outcome.status, page))
}

/// Whether a run on a file ends with this status, and with this text where one is told.
fn ends<R: Threads + Wait + Sync>(
    rt: &R,
    alloc: Global,
    file: Bytes,
    status: u8,
    text: &str,
) -> Result<bool, AllocError> {
    let (found, page) = run(rt, alloc, file)?;
    Ok(found == status && (text.is_empty() || page.bytes() == text.as_bytes()))
}

/// A file of this many unit clauses, no two alike.
fn units(alloc: Global, count: u64) -> Result<Bytes, AllocError> {
    let mut file = Sequence::new(alloc);
    for number in 0..count {
        file.extend(b"cnf(a,axiom,p")?;
        put_number(&mut file, number)?;
        file.extend(b").\n")?;
    }
    Ok(file)
}

const SPENT: &str = "% SZS status ResourceOut for t.p
% aquarius spent, peer 0, units 50000
";

#[test]
fn a_peer_stops_at_its_fifty_thousandth_unit_and_not_before(
    rt: HostRuntime,
) -> Result<(), AllocError> {
    for (count, status, text) in [(224, 2, SPENT), (223, 1, "")] {
        let file = units(rt.alloc(), count)?;
        assert!(rt; ends(&rt, rt.alloc(), file, status, text)?, "{count}");
    }
    Ok(())
}
