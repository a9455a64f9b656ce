//! Names of lines, and whole lines, read exactly.
ghost use Rattle.std.specs.Prelude.{◌≡◌, ◌<◌, ◌-◌, ◌^◌, ◌++◌, ◌∷◌, [], ℕ, List, codes, IfOk, OnOk};
ghost use Rattle.cd_line.specs.Reading.{Gives, body_read};
ghost use Rattle.cd_line.specs.Lines.{capped, digits_from, numeral_read, name_read, has_two, second_read, parents_read, is_end, file_end, rule_end, origin_end, exactly, body_text, origin_role, origin_text, line_read};

use crate::reading::{Body, Origin, ReadFault, expect, is_digit, read_body};
use cd_clause::Clause;
use cd_list::{Sequence, Text};
use cd_outside::Bytes;
use cd_read::{Label, Role};
use cd_steps::Step;
use cd_symbols::Symbols;
use cd_text::{
    Line, LineRole, LineSource, Parents, clause_text, put_bytes, put_given, put_label, put_quoted,
    put_rule,
};
use std::alloc::{AllocError, Global};

// The number that the digits at the front go on to, up to the greatest of 64 bits.
fn read_digits_from(start: u64, text: &[u8]) -> (u64, &[u8])
    ensures { digits_from capped start text.now ≡ (result.0, result.1.now) }
{
    let mut value = start;
    let mut rest = text;
    while let [byte, after @ ..] = rest {
        if !is_digit(*byte) {
            break;
        }
        value = with_digit(value, *byte - b'0');
        rest = after;
    }
    (value, rest)
}

fn with_digit(value: u64, digit: u8) -> u64
    ensures { result ≡ capped value digit }
{
    value.saturating_mul(10).saturating_add(u64::from(digit))
}

fn read_numeral(text: &[u8]) -> Result<(u64, &[u8]), ReadFault>
    ensures { Gives (λ x. (x.0, x.1.now)) result (numeral_read capped text.now) }
{
    match text {
        [] => Err(ReadFault::Form),
        [first, after @ ..] => {
            if *first < b'1' || *first > b'9' {
                return Err(ReadFault::Form);
            }
            Ok(read_digits_from(u64::from(*first - b'0'), after))
        }
    }
}

#[tactic(auto, unfolding(crate::specs::Lines::name_read))]
fn read_name(text: &[u8]) -> Result<(u64, &[u8]), ReadFault>
    ensures { Gives (λ x. (x.0, x.1.now)) result (name_read capped text.now) }
{
    let rest = expect(text, b"c")?;
    read_numeral(rest)
}

// Whether a step has two parents; else it has one.
fn has_two(step: &Step) -> bool
    ensures { result ≡ has_two step.now }
{
    match step.premises() {
        (_, None) => false,
        (_, Some(_)) => true,
    }
}

fn one_parent(alloc: Global, first: u64) -> Result<Parents, AllocError>
    ensures { IfOk result (λ ps. ps ≡ first ∷ []) }
{
    let mut parents = Sequence::new(alloc);
    parents.push(first)?;
    Ok(parents)
}

fn two_parents(alloc: Global, first: u64, second: u64) -> Result<Parents, AllocError>
    ensures { IfOk result (λ ps. ps ≡ first ∷ second ∷ []) }
{
    let mut parents = one_parent(alloc, first)?;
    parents.push(second)?;
    Ok(parents)
}

#[tactic(auto, unfolding(crate::specs::Lines::second_read))]
fn read_second(alloc: Global, first: u64, text: &[u8]) -> Result<(Parents, &[u8]), ReadFault>
    ensures { Gives (λ x. (x.0, x.1.now)) result (second_read capped first text.now) }
{
    let rest = expect(text, b",")?;
    let (second, rest) = read_name(rest)?;
    let parents = two_parents(alloc, first, second)?;
    Ok((parents, rest))
}

#[tactic(auto, unfolding(crate::specs::Lines::parents_read))]
fn read_parents(alloc: Global, two: bool, text: &[u8]) -> Result<(Parents, &[u8]), ReadFault>
    ensures { Gives (λ x. (x.0, x.1.now)) result (parents_read capped two text.now) }
{
    let (first, rest) = read_name(text)?;
    if two {
        read_second(alloc, first, rest)
    } else {
        let parents = one_parent(alloc, first)?;
        Ok((parents, rest))
    }
}

fn expect_end(text: &[u8]) -> Result<(), ReadFault>
    ensures { Gives (λ x. tt) result (is_end text.now) }
{
    match text {
        [] => Ok(()),
        [_, ..] => Err(ReadFault::Form),
    }
}

#[tactic(auto, unfolding(crate::specs::Lines::file_end))]
fn read_file_end(
    number: u64,
    clause: Clause,
    role: Role,
    path: Text,
    label: Label,
    text: &[u8],
) -> Result<Line, ReadFault>
    ensures { Gives (λ l. l) result (file_end number clause role path label text.now) }
{
    let rest = expect(text, b").")?;
    expect_end(rest)?;
    let source = LineSource::File { path, label };
    Ok(Line {
        number,
        role: LineRole::Given(role),
        clause,
        source,
    })
}

#[tactic(auto, unfolding(crate::specs::Lines::rule_end))]
fn read_rule_end(
    alloc: Global,
    number: u64,
    clause: Clause,
    step: Step,
    text: &[u8],
) -> Result<Line, ReadFault>
    ensures { Gives (λ l. l) result (rule_end capped number clause step text.now) }
{
    let (parents, rest) = read_parents(alloc, has_two(&step), text)?;
    let rest = expect(rest, b"])).")?;
    expect_end(rest)?;
    let source = LineSource::Inference { step, parents };
    Ok(Line {
        number,
        role: LineRole::Plain,
        clause,
        source,
    })
}

fn read_origin_end(alloc: Global, number: u64, body: Body, text: &[u8]) -> Result<Line, ReadFault>
    ensures { Gives (λ l. l) result (origin_end capped number body.clause body.origin text.now) }
{
    let Body { clause, origin } = body;
    match origin {
        Origin::File { role, path, label } => {
            read_file_end(number, clause, role, path, label, text)
        }
        Origin::Rule { step } => read_rule_end(alloc, number, clause, step, text),
    }
}

fn put_origin_role(origin: &Origin, into: &mut Bytes) -> Result<(), AllocError>
    ensures { OnOk result (into.new ≡ into.old ++ origin_role origin.now) }
{
    match origin {
        Origin::File {
            role,
            path: _,
            label: _,
        } => put_given(*role, into),
        Origin::Rule { step: _ } => put_bytes(into, b"plain"),
    }
}

#[tactic(auto, using(std::proofs::Common::append_assoc), unfolding(cd_text::specs::Texts::source_text))]
fn put_origin(symbols: &Symbols, origin: &Origin, into: &mut Bytes) -> Result<(), AllocError>
    ensures { OnOk result (into.new ≡ into.old ++ origin_text symbols.now origin.now) }
{
    match origin {
        Origin::File {
            role: _,
            path,
            label,
        } => {
            put_bytes(into, b"file(")?;
            put_quoted(into, path.as_bytes())?;
            put_bytes(into, b",")?;
            put_label(label, into)?;
            put_bytes(into, b")")
        }
        Origin::Rule { step } => {
            put_bytes(into, b"inference(")?;
            put_rule(symbols, step, into)?;
            put_bytes(into, b",[")
        }
    }
}

#[tactic(auto, using(std::proofs::Common::append_assoc), unfolding(crate::specs::Lines::body_text))]
fn put_body(symbols: &Symbols, body: &Body, into: &mut Bytes) -> Result<(), AllocError>
    ensures { OnOk result (into.new ≡ into.old ++ body_text symbols.now body.now) }
{
    put_origin_role(&body.origin, into)?;
    put_bytes(into, b",")?;
    clause_text(symbols, &body.clause, into)?;
    put_bytes(into, b",")?;
    put_origin(symbols, &body.origin, into)
}

fn read_exact_body<'a>(
    alloc: Global,
    symbols: &Symbols,
    levels: u32,
    text: &'a [u8],
) -> Result<(Body, &'a [u8]), ReadFault>
    requires { levels < 65536 }
    ensures { Gives (λ x. (x.0, x.1.now)) result (exactly (body_text symbols.now) text.now (body_read symbols.now levels text.now)) }
{
    let (body, _) = read_body(alloc, symbols, levels, text)?;
    let mut printed = Sequence::new(alloc);
    put_body(symbols, &body, &mut printed)?;
    let rest = expect(text, printed.as_slice())?;
    Ok((body, rest))
}

/// Reads a whole line. A number of a name that passes 64 bits is read as the greatest; the bounds of the clause
/// and of the substitution are left to be looked at.
#[tactic(auto, unfolding(crate::specs::Lines::line_read))]
pub fn read_line(
    alloc: Global,
    symbols: &Symbols,
    levels: u32,
    text: &[u8],
) -> Result<Line, ReadFault>
    requires { levels < 65536 }
    ensures { Gives (λ l. l) result (line_read capped symbols.now levels text.now) }
{
    let rest = expect(text, b"cnf(")?;
    let (number, rest) = read_name(rest)?;
    let rest = expect(rest, b",")?;
    let (body, rest) = read_exact_body(alloc, symbols, levels, rest)?;
    read_origin_end(alloc, number, body, rest)
}
