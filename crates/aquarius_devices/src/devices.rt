//! What no clause says: that calls succeed where there is memory, what real files and streams do, and what
//! examples of failing calls give.
use cd_list::Sequence;
use cd_outside::{
    Bytes, FetchFault, Folder, Gate, Library, OpenGate, Page, Shelf, Sink, Standard, Text,
};
use std::alloc::{AllocError, Global};
use std::io::Write;
use std::{env, fs, io, process};

/// A path and a cap, the answer as a word, and the bytes that then stand in the buffer.
type Fetch<'a> = (&'a str, u64, &'a str, &'a str);

fn word(answer: Result<(), FetchFault>) -> &'static str {
    match answer {
        Ok(()) => "ok",
        Err(FetchFault::Failed) => "failed",
        Err(FetchFault::Memory) => "memory",
    }
}

/// Whether these fetches, one after another into a buffer that has some bytes, give what they should.
fn fetches<L: Library>(
    alloc: Global,
    library: &mut L,
    before: &str,
    rows: &[Fetch],
) -> Result<bool, AllocError> {
    let mut into: Bytes = Sequence::from_slice(alloc, before.as_bytes())?;
    let mut right = true;
    for row in rows {
        let path = Text::of(alloc, row.0)?;
        let answer = word(library.fetch(&path, row.1, &mut into));
        right = right && answer == row.2 && into.as_slice() == row.3.as_bytes();
    }
    Ok(right)
}

fn shelf_of(alloc: Global, files: &[(&str, &str)], fails: &[u64]) -> Result<Shelf, AllocError> {
    let mut all = Sequence::new(alloc);
    for (path, text) in files {
        all.push((
            Text::of(alloc, path)?,
            Sequence::from_slice(alloc, text.as_bytes())?,
        ))?;
    }
    Ok(Shelf::new(alloc, all, Sequence::from_slice(alloc, fails)?))
}

#[test]
fn shelf_gives_fronts_of_first_files(rt: HostRuntime) -> Result<(), AllocError> {
    let files = [("t.p", "cnf(a)."), ("t.p", "other"), ("u.p", "")];
    let mut shelf = shelf_of(rt.alloc(), files.as_slice(), [].as_slice())?;
    let rows: [Fetch; 3] = [
        ("t.p", 3, "ok", "<cnf"),
        ("t.p", 100, "ok", "<cnfcnf(a)."),
        ("u.p", 100, "ok", "<cnfcnf(a)."),
    ];
    assert!(rt; fetches(rt.alloc(), &mut shelf, "<", rows.as_slice())?);
    Ok(())
}

#[test]
fn shelf_fails_on_numbered_calls_and_missing_paths(rt: HostRuntime) -> Result<(), AllocError> {
    let mut shelf = shelf_of(rt.alloc(), [("t.p", "ab")].as_slice(), [1, 3].as_slice())?;
    let rows: [Fetch; 5] = [
        ("t.p", 9, "ok", "ab"),
        ("t.p", 9, "failed", "ab"),
        ("v.p", 9, "failed", "ab"),
        ("t.p", 9, "failed", "ab"),
        ("t.p", 1, "ok", "aba"),
    ];
    assert!(rt; fetches(rt.alloc(), &mut shelf, "", rows.as_slice())?);
    Ok(())
}

/// Whether these pieces, each with whether it is taken whole and the bytes that the page then has, are taken so.
fn writes(page: &mut Page, rows: &[(&str, bool, &str)]) -> bool {
    let mut right = true;
    for row in rows {
        let whole = page.write(row.0.as_bytes()).is_ok();
        right = right && whole == row.1 && page.bytes() == row.2.as_bytes();
    }
    right
}

#[test]
fn page_takes_pieces_and_shares_of_failing_calls(rt: HostRuntime) -> Result<(), AllocError> {
    let fails = Sequence::from_slice(rt.alloc(), [(1, 2), (1, 9), (2, 9)].as_slice())?;
    let mut page = Page::new(rt.alloc(), 12, 7, fails)?;
    let rows = [
        ("ab", true, "ab"),
        ("cdef", false, "abcd"),
        ("gh", false, "abcdgh"),
        ("ijklmno", false, "abcdgh"),
        ("ijklmn", true, "abcdghijklmn"),
        ("o", false, "abcdghijklmn"),
        ("", true, "abcdghijklmn"),
        ("", false, "abcdghijklmn"),
    ];
    assert!(rt; writes(&mut page, rows.as_slice()));
    assert!(rt; page.lengths() == [2, 2, 2, 0, 6, 0, 0].as_slice());
    Ok(())
}

/// A path for a file of this process.
fn scratch(rt: &HostRuntime, name: &str) -> io::Result<String> {
    let folder = env::temp_dir(rt)?;
    let number = process::id(rt.process());
    Ok(format!(in rt.alloc(); "{}/{name}_{number}", folder.as_str())?)
}

/// A text of 20,000 bytes.
fn long_text(alloc: Global) -> Result<String, AllocError> {
    let mut text = String::new(alloc);
    for _ in 0u64..20_000 {
        text.push('x')?;
    }
    Ok(text)
}

#[test]
fn folder_reads_the_files_of_the_machine(rt: HostRuntime) -> io::Result<()> {
    let name = scratch(&rt, "cd_outside_folder")?;
    let content = long_text(rt.alloc())?;
    fs::write(&rt, name.as_str(), content.as_str())?;
    let mut folder = Folder::new(&rt);
    let rows: [Fetch; 1] = [(name.as_str(), 1_000_000, "ok", content.as_str())];
    assert!(rt; fetches(rt.alloc(), &mut folder, "", rows.as_slice())?);
    let rows: [Fetch; 2] = [
        (name.as_str(), 3, "ok", "<xxx"),
        (name.as_str(), 0, "ok", "<xxx"),
    ];
    assert!(rt; fetches(rt.alloc(), &mut folder, "<", rows.as_slice())?);
    fs::remove_file(&rt, name.as_str())?;
    let rows: [Fetch; 2] = [
        (name.as_str(), 3, "failed", "<xxx"),
        ("/", 3, "failed", "<xxx"),
    ];
    assert!(rt; fetches(rt.alloc(), &mut folder, "<xxx", rows.as_slice())?);
    Ok(())
}

/// Whether all pieces are taken whole.
fn takes_all<K: Sink>(mut sink: K, pieces: &[&str]) -> bool
where
    K: Drop,
{
    let mut right = true;
    for piece in pieces {
        right = sink.write(piece.as_bytes()).is_ok() && right;
    }
    right
}

#[test]
fn standard_writes_to_a_stream(rt: HostRuntime) -> io::Result<()> {
    let name = scratch(&rt, "cd_outside_standard")?;
    let file = Standard::new(fs::create(&rt, name.as_str())?);
    assert!(rt; takes_all(file, ["% SZS ", "", "status\n"].as_slice()));
    let written = fs::read_to_string(&rt, name.as_str())?;
    assert!(rt; written.as_str() == "% SZS status\n");
    fs::remove_file(&rt, name.as_str())?;
    assert!(rt; takes_all(Standard::new(rt.stdout()), ["one line\n"].as_slice()));
    Ok(())
}

/// A writer that takes three bytes at a time, and then nothing or an error.
#[derive(Drop)]
struct Narrow {
    taken: Vec<u8>,
    room: usize,
    fails: bool,
}

impl Write for Narrow {
    fn write(&mut self, buf: &[u8]) -> io::Result<usize> {
        if self.fails && self.room == 0 {
            return Err(io::Error::from(io::ErrorKind::Other));
        }
        let n = buf.len().min(self.room).min(3);
        self.taken.extend_from_slice(&buf[..n])?;
        self.room -= n;
        Ok(n)
    }

    fn flush(&mut self) -> io::Result<()> {
        Ok(())
    }
}

#[test]
fn standard_fails_where_the_writer_stops(rt: HostRuntime) {
    for fails in [false, true] {
        let mut narrow = Narrow {
            taken: Vec::new(rt.alloc()),
            room: 10,
            fails,
        };
        assert!(rt; takes_all(Standard::new(&mut narrow), ["abcdefgh"].as_slice()));
        assert!(rt; narrow.taken.as_slice() == "abcdefgh".as_bytes());
        assert!(rt; !takes_all(Standard::new(&mut narrow), ["ijkl"].as_slice()));
        assert!(rt; narrow.taken.as_slice() == "abcdefghij".as_bytes());
    }
}

fn passes<G: Gate + Sync>(gate: &G) {
    gate.enter(1, 0);
}

#[test]
fn open_gate_lets_pass() {
    passes(&OpenGate);
}
