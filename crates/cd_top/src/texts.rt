//! The text of each answer.
ghost use Rattle.std.specs.Prelude.{◌≡◌, ◌++◌, map, IfOk, OnOk};
ghost use Rattle.std.specs.List.{flat_map};
ghost use Rattle.cd_text.specs.Texts.{shown};
ghost use Rattle.cd_top.specs.Texts.{with_feed, lines_text, refuted_text, refuted_by, held_line, counts_line, saturated_text, saturated_by, spent_line, spent_text, spent_by, bound_word, limit_line, limit_text, limit_by, grid_line, grid_text};

use cd_ledger::{Bound, Record};
use cd_list::Sequence;
use cd_outside::Bytes;
use cd_read::Problem;
use cd_symbols::Symbols;
use cd_text::{Line, clause_text, line_text, put_number, put_shown};
use std::alloc::{AllocError, Global};

/// The lines of a derivation between the lines that say what they are; of a generated problem, that it is refuted.
pub fn refuted_by(
    alloc: Global,
    grid: Option<u32>,
    problem: &Problem,
    lines: &[Line],
) -> Result<Bytes, AllocError>
    ensures { IfOk result (λ text. text ≡ refuted_by grid problem.now lines.now) }
{
    match grid {
        None => refuted_text(alloc, problem, lines),
        Some(n) => grid_text(
            alloc,
            problem,
            n,
            b"% SZS status Unsatisfiable for ",
            b"refuted",
        ),
    }
}

// The lines of a derivation between the lines that say what they are.
#[tactic(auto, using(std::proofs::Common::append_assoc), unfolding(crate::specs::Texts::refuted_text))]
fn refuted_text(alloc: Global, problem: &Problem, lines: &[Line]) -> Result<Bytes, AllocError>
    ensures { IfOk result (λ text. text ≡ refuted_text problem.now lines.now) }
{
    let mut text = Sequence::new(alloc);
    put_named(&mut text, b"% SZS status Unsatisfiable for ", problem)?;
    put_named(&mut text, b"% SZS output start CNFRefutation for ", problem)?;
    put_lines(&mut text, &problem.symbols, lines)?;
    put_named(&mut text, b"% SZS output end CNFRefutation for ", problem)?;
    Ok(text)
}

// A line of these words and the problem's name.
#[tactic(auto, using(std::proofs::Common::append_assoc))]
fn put_named(into: &mut Bytes, words: &[u8], problem: &Problem) -> Result<(), AllocError>
    ensures { OnOk result (into.new ≡ into.old ++ with_feed (words.now ++ shown problem.now.name)) }
{
    into.extend(words)?;
    put_shown(into, problem.name.as_bytes())?;
    into.extend(b"\n")
}

#[tactic(auto, using(std::proofs::Common::append_assoc))]
fn put_lines(into: &mut Bytes, symbols: &Symbols, lines: &[Line]) -> Result<(), AllocError>
    ensures { OnOk result (into.new ≡ into.old ++ lines_text symbols.now lines.now) }
{
    let mut rest = lines;
    while let [line, after @ ..] = rest {
        line_text(symbols, line, into)?;
        into.extend(b"\n")?;
        rest = after;
    }
    Ok(())
}

/// These clauses by their names, in their order; of a generated problem, that the peers are saturated.
pub fn saturated_by(
    alloc: Global,
    grid: Option<u32>,
    problem: &Problem,
    peers: u16,
    live: &[&Record],
) -> Result<Bytes, AllocError>
    ensures { IfOk result (λ text. text ≡ saturated_by grid problem.now peers (map (λ r. r.now) live.now)) }
{
    match grid {
        None => saturated_text(alloc, problem, peers, live),
        Some(n) => grid_text(alloc, problem, n, b"% SZS status GaveUp for ", b"saturated"),
    }
}

// These clauses by their names, in their order.
#[tactic(auto, using(std::proofs::Common::append_assoc), unfolding(crate::specs::Texts::saturated_text))]
fn saturated_text(
    alloc: Global,
    problem: &Problem,
    peers: u16,
    live: &[&Record],
) -> Result<Bytes, AllocError>
    ensures { IfOk result (λ text. text ≡ saturated_text problem.now peers (map (λ r. r.now) live.now)) }
{
    let mut text = Sequence::new(alloc);
    put_named(&mut text, b"% SZS status GaveUp for ", problem)?;
    put_counts(&mut text, u64::from(peers), live.len() as u64)?;
    text.extend(b"% aquarius list start\n")?;
    put_held(&mut text, &problem.symbols, live)?;
    text.extend(b"% aquarius list end\n")?;
    Ok(text)
}

#[tactic(auto, using(std::proofs::Common::append_assoc), unfolding(crate::specs::Texts::counts_line))]
fn put_counts(into: &mut Bytes, peers: u64, clauses: u64) -> Result<(), AllocError>
    ensures { OnOk result (into.new ≡ into.old ++ with_feed (counts_line peers clauses)) }
{
    into.extend(b"% aquarius saturated, peers ")?;
    put_number(into, peers)?;
    into.extend(b", clauses ")?;
    put_number(into, clauses)?;
    into.extend(b"\n")
}

#[tactic(auto, using(std::proofs::Common::append_assoc))]
fn put_held(into: &mut Bytes, symbols: &Symbols, live: &[&Record]) -> Result<(), AllocError>
    ensures { OnOk result (into.new ≡ into.old ++ flat_map (λ r. with_feed (held_line symbols.now r)) (map (λ r. r.now) live.now)) }
{
    let mut rest = live;
    while let [first, after @ ..] = rest {
        put_record(into, symbols, first)?;
        rest = after;
    }
    Ok(())
}

#[tactic(auto, using(std::proofs::Common::append_assoc), unfolding(crate::specs::Texts::held_line))]
fn put_record(into: &mut Bytes, symbols: &Symbols, record_: &Record) -> Result<(), AllocError>
    ensures { OnOk result (into.new ≡ into.old ++ with_feed (held_line symbols.now record_.now)) }
{
    into.extend(b"cnf(n")?;
    put_number(into, u64::from(record_.name.peer))?;
    into.extend(b"_")?;
    put_number(into, u64::from(record_.name.seq))?;
    into.extend(b",plain,")?;
    clause_text(symbols, &record_.clause, into)?;
    into.extend(b").\n")
}

/// That the peer made as many rewritings and tasks as it may; of a generated problem, that a peer did.
pub fn spent_by(
    alloc: Global,
    grid: Option<u32>,
    problem: &Problem,
    peer: u16,
    units: u64,
) -> Result<Bytes, AllocError>
    ensures { IfOk result (λ text. text ≡ spent_by grid problem.now peer units) }
{
    match grid {
        None => spent_text(alloc, problem, peer, units),
        Some(n) => grid_text(
            alloc,
            problem,
            n,
            b"% SZS status ResourceOut for ",
            b"spent",
        ),
    }
}

// That the peer made as many rewritings and tasks as it may.
#[tactic(auto, using(std::proofs::Common::append_assoc), unfolding(crate::specs::Texts::spent_text))]
fn spent_text(alloc: Global, problem: &Problem, peer: u16, units: u64) -> Result<Bytes, AllocError>
    ensures { IfOk result (λ text. text ≡ spent_text problem.now peer units) }
{
    let mut text = Sequence::new(alloc);
    put_named(&mut text, b"% SZS status ResourceOut for ", problem)?;
    put_spent(&mut text, u64::from(peer), units)?;
    Ok(text)
}

#[tactic(auto, using(std::proofs::Common::append_assoc), unfolding(crate::specs::Texts::spent_line))]
fn put_spent(into: &mut Bytes, peer: u64, units: u64) -> Result<(), AllocError>
    ensures { OnOk result (into.new ≡ into.old ++ with_feed (spent_line peer units)) }
{
    into.extend(b"% aquarius spent, peer ")?;
    put_number(into, peer)?;
    into.extend(b", units ")?;
    put_number(into, units)?;
    into.extend(b"\n")
}

/// That the peer met a bound; of a generated problem, that a peer did.
pub fn limit_by(
    alloc: Global,
    grid: Option<u32>,
    problem: &Problem,
    peer: u16,
    bound: Bound,
) -> Result<Bytes, AllocError>
    ensures { IfOk result (λ text. text ≡ limit_by grid problem.now peer bound) }
{
    match grid {
        None => limit_text(alloc, problem, peer, bound),
        Some(n) => grid_text(
            alloc,
            problem,
            n,
            b"% SZS status ResourceOut for ",
            b"limit",
        ),
    }
}

// That the peer met a bound.
#[tactic(auto, using(std::proofs::Common::append_assoc), unfolding(crate::specs::Texts::limit_text))]
fn limit_text(
    alloc: Global,
    problem: &Problem,
    peer: u16,
    bound: Bound,
) -> Result<Bytes, AllocError>
    ensures { IfOk result (λ text. text ≡ limit_text problem.now peer bound) }
{
    let mut text = Sequence::new(alloc);
    put_named(&mut text, b"% SZS status ResourceOut for ", problem)?;
    put_limit(&mut text, u64::from(peer), bound)?;
    Ok(text)
}

#[tactic(auto, using(std::proofs::Common::append_assoc), unfolding(crate::specs::Texts::limit_line))]
fn put_limit(into: &mut Bytes, peer: u64, bound: Bound) -> Result<(), AllocError>
    ensures { OnOk result (into.new ≡ into.old ++ with_feed (limit_line peer bound)) }
{
    into.extend(b"% aquarius limit, peer ")?;
    put_number(into, peer)?;
    into.extend(b", ")?;
    put_bound(into, bound)?;
    into.extend(b"\n")
}

fn put_bound(into: &mut Bytes, bound: Bound) -> Result<(), AllocError>
    ensures { OnOk result (into.new ≡ into.old ++ bound_word bound) }
{
    match bound {
        Bound::Bounds => into.extend(b"bounds"),
        Bound::Names => into.extend(b"names"),
    }
}

// Of a generated problem, the status and a word.
#[tactic(auto, using(std::proofs::Common::append_assoc), unfolding(crate::specs::Texts::grid_text))]
fn grid_text(
    alloc: Global,
    problem: &Problem,
    n: u32,
    status: &[u8],
    word: &[u8],
) -> Result<Bytes, AllocError>
    ensures { IfOk result (λ text. text ≡ grid_text problem.now n status.now word.now) }
{
    let mut text = Sequence::new(alloc);
    put_named(&mut text, status, problem)?;
    put_grid(&mut text, u64::from(n), word)?;
    Ok(text)
}

#[tactic(auto, using(std::proofs::Common::append_assoc), unfolding(crate::specs::Texts::grid_line))]
fn put_grid(into: &mut Bytes, n: u64, word: &[u8]) -> Result<(), AllocError>
    ensures { OnOk result (into.new ≡ into.old ++ with_feed (grid_line n word.now)) }
{
    into.extend(b"% aquarius grid ")?;
    put_number(into, n)?;
    into.extend(b", answer ")?;
    into.extend(word)?;
    into.extend(b"\n")
}
