//! One line after another is judged.
ghost use Rattle.std.specs.Prelude.{◌≡◌, ◌<◌, ◌≤◌, ◌↔◌, ◌+◌, ◌-◌, ◌^◌, ◌++◌, ◌∷◌, [], ℕ, List, true, false, None, Some, length, map, IfOk, OnOk, IfSome, IfNone, IsTrue};
ghost use Rattle.std.specs.Prelude.{bytes_eq};
ghost use Rattle.std.specs.Option.{option_copied};
ghost use Rattle.cd_text.specs.Texts.{source_text};
ghost use Rattle.cd_text.specs.declared.line.LineSource.TheVariants.{File};
ghost use Rattle.cd_line.specs.Lines.{body_text};
ghost use Rattle.cd_check.specs.Inputs.{file_body, input_text, is_among, from_input, IsIndexOf, AreAdded};
ghost use Rattle.cd_check.specs.Bodies.{IsAdded};
ghost use Rattle.cd_check.specs.Conditions.{JudgesLine};
ghost use Rattle.cd_steps.specs.Premises.{premises, is_before, goes_on, IsRightWith};
ghost use Rattle.cd_read.specs.Formed.{IsFormed, IsBounded};
ghost use Rattle.cd_check.specs.Accepted.{clause_of_line, are_earlier, AreEarlier, IsInferred, EndsEmpty, is_taken, lines_of};
ghost use Rattle.cd_check.specs.Verdicts.{Judges};
ghost use Rattle.cd_check.specs.Judged.{JudgesPiece, Judged, feed_at, skipped};
ghost use Rattle.cd_check.specs.declared.verdict.Verdict.{Verdict as VerdictValue};

use crate::bodies::Bodies;
use crate::verdict::{Verdict, Why};
use cd_clause::Clause;
use cd_line::read_exact;
use cd_list::{Sequence, Text};
use cd_outside::Bytes;
use cd_read::{Input, Label, Problem, Role};
use cd_steps::{Premise, Step, step_ok};
use cd_symbols::Symbols;
use cd_text::{
    Line, LineRole, LineSource, clause_text, put_bytes, put_given, put_label, put_quoted,
};
use std::alloc::{AllocError, Global};

/// What is found of one line.
#[derive(Drop)]
pub enum Judgement {
    Right(Clause),
    Wrong(Why),
}

// The body of a line that takes an input.
#[tactic(auto, using(std::proofs::Common::append_assoc), unfolding(cd_line::specs::Lines::body_text))]
fn put_file_body(
    symbols: &Symbols,
    role: Role,
    clause: &Clause,
    path: &Text,
    label: &Label,
    into: &mut Bytes,
) -> Result<(), AllocError>
    ensures { OnOk result (into.new ≡ into.old ++ body_text symbols.now (file_body role clause.now path.now label.now)) }
{
    put_given(role, into)?;
    put_bytes(into, b",")?;
    clause_text(symbols, clause, into)?;
    put_bytes(into, b",")?;
    put_file(symbols, path, label, into)
}

#[tactic(auto, using(std::proofs::Common::append_assoc), unfolding(cd_text::specs::Texts::source_text))]
fn put_file(
    symbols: &Symbols,
    path: &Text,
    label: &Label,
    into: &mut Bytes,
) -> Result<(), AllocError>
    ensures { OnOk result (into.new ≡ into.old ++ source_text symbols.now (File path.now label.now)) }
{
    let _symbols = symbols.len();
    put_bytes(into, b"file(")?;
    put_quoted(into, path.as_bytes())?;
    put_bytes(into, b",")?;
    put_label(label, into)?;
    put_bytes(into, b")")
}

// Puts the body of an input in.
#[tactic(auto, unfolding(crate::specs::Inputs::input_text))]
fn add_body(
    alloc: Global,
    symbols: &Symbols,
    input: &Input,
    bodies: &mut Bodies,
) -> Result<(), AllocError>
    ensures { OnOk result (IsAdded bodies.old bodies.new (input_text symbols.now input.now)) }
{
    let mut printed = Sequence::new(alloc);
    put_file_body(
        symbols,
        input.role,
        &input.clause,
        input.file.text(),
        &input.label,
        &mut printed,
    )?;
    bodies.add(printed)
}

fn add_bodies(
    alloc: Global,
    symbols: &Symbols,
    inputs: &[Input],
    bodies: &mut Bodies,
) -> Result<(), AllocError>
    ensures { OnOk result (AreAdded symbols.now inputs.now bodies.old bodies.new) }
{
    let mut rest = inputs;
    while let [first, after @ ..] = rest {
        add_body(alloc, symbols, first, bodies)?;
        rest = after;
    }
    Ok(())
}

// The bodies of a problem's inputs.
fn index(alloc: Global, problem: &Problem) -> Result<Bodies, AllocError>
    ensures { IfOk result (IsIndexOf problem.now) }
{
    let mut bodies = Bodies::new(alloc);
    add_bodies(
        alloc,
        &problem.symbols,
        problem.inputs.as_slice(),
        &mut bodies,
    )?;
    Ok(bodies)
}

fn takes_input(
    alloc: Global,
    problem: &Problem,
    bodies: &Bodies,
    role: Role,
    clause: &Clause,
    path: &Text,
    label: &Label,
) -> Result<bool, AllocError>
    requires { IsIndexOf problem.now bodies.now }
    ensures { IfOk result (λ yes. yes ≡ is_among problem.now.symbols problem.now.inputs (body_text problem.now.symbols (file_body role clause.now path.now label.now))) }
{
    let mut wanted = Sequence::new(alloc);
    put_file_body(&problem.symbols, role, clause, path, label, &mut wanted)?;
    Ok(bodies.has(wanted.as_slice()))
}

fn from_input(
    alloc: Global,
    problem: &Problem,
    bodies: &Bodies,
    line: &Line,
) -> Result<bool, AllocError>
    requires { IsIndexOf problem.now bodies.now }
    ensures { IfOk result (λ yes. yes ≡ from_input problem.now line.now.clause line.now.role line.now.source) }
{
    match &line.source {
        LineSource::File { path, label } => match line.role {
            LineRole::Given(role) => takes_input(
                alloc,
                problem,
                bodies,
                role,
                &line.clause,
                path,
                label,
            ),
            LineRole::Plain => Ok(false),
        },
        LineSource::Inference {
            step: _,
            parents: _,
        } => Ok(true),
    }
}

fn clause_of_line(clauses: &[Clause], n: u64) -> Option<&Clause>
    ensures { option_copied result ≡ clause_of_line clauses.now n }
{
    if n == 0 {
        None
    } else {
        clauses.get((n - 1) as usize)
    }
}

fn are_parents_earlier(clauses: &[Clause], parents: &[u64]) -> bool
    ensures { result ≡ are_earlier clauses.now parents.now }
{
    let mut rest = parents;
    while let [first, after @ ..] = rest {
        if clause_of_line(clauses, *first).is_none() {
            return false;
        }
        rest = after;
    }
    true
}

fn are_earlier(clauses: &[Clause], source: &LineSource) -> bool
    ensures { IsTrue result ↔ AreEarlier clauses.now source.now }
{
    match source {
        LineSource::File { path: _, label: _ } => true,
        LineSource::Inference { step: _, parents } => are_parents_earlier(
            clauses,
            parents.as_slice(),
        ),
    }
}

fn is_before(premise: Premise) -> bool
    ensures { result ≡ is_before premise }
{
    match premise {
        Premise::Before => true,
        Premise::Given(_) => false,
        Premise::Named(_) => false,
    }
}

// Whether a step changes the clause before it, which is its first parent.
fn goes_on(step: &Step) -> bool
    ensures { result ≡ goes_on step.now }
{
    match step.premises() {
        (one, None) => is_before(one),
        (one, Some(two)) => is_before(one) || is_before(two),
    }
}

fn premise_count(step: &Step) -> usize
    ensures { result ≡ length (premises step.now) }
{
    match step.premises() {
        (_, None) => 1,
        (_, Some(_)) => 2,
    }
}

// Whether a step is right with the clause of its one parent.
fn is_right_with_one(step: &Step, parent: &Clause, conclusion: &Clause) -> bool
    ensures { IsTrue result ↔ IsRightWith (Some parent.now ∷ []) step.now conclusion.now }
{
    if premise_count(step) != 1 {
        return false;
    }
    if goes_on(step) {
        step_ok(step, Some(parent), None, None, conclusion)
    } else {
        step_ok(step, None, Some(parent), None, conclusion)
    }
}

// Whether a step is right with the clauses of its two parents.
fn is_right_with_two(step: &Step, first: &Clause, second: &Clause, conclusion: &Clause) -> bool
    ensures { IsTrue result ↔ IsRightWith (Some first.now ∷ Some second.now ∷ []) step.now conclusion.now }
{
    if premise_count(step) != 2 {
        return false;
    }
    if goes_on(step) {
        step_ok(step, Some(first), Some(second), None, conclusion)
    } else {
        step_ok(step, None, Some(first), Some(second), conclusion)
    }
}

fn is_right_from_one(clauses: &[Clause], step: &Step, n: u64, conclusion: &Clause) -> bool
    ensures { IsTrue result ↔ IsRightWith (clause_of_line clauses.now n ∷ []) step.now conclusion.now }
{
    match clause_of_line(clauses, n) {
        Some(parent) => is_right_with_one(step, parent, conclusion),
        None => false,
    }
}

fn is_right_from_two(clauses: &[Clause], step: &Step, m: u64, n: u64, conclusion: &Clause) -> bool
    ensures { IsTrue result ↔ IsRightWith (clause_of_line clauses.now m ∷ clause_of_line clauses.now n ∷ []) step.now conclusion.now }
{
    let Some(first) = clause_of_line(clauses, m) else {
        return false;
    };
    let Some(second) = clause_of_line(clauses, n) else {
        return false;
    };
    is_right_with_two(step, first, second, conclusion)
}

// Whether a step is right with the clauses of its parents.
fn is_step_right(clauses: &[Clause], step: &Step, parents: &[u64], conclusion: &Clause) -> bool
    ensures { IsTrue result ↔ IsRightWith (map (clause_of_line clauses.now) parents.now) step.now conclusion.now }
{
    if parents.len() == 1 {
        return is_right_from_one(clauses, step, parents[0], conclusion);
    }
    if parents.len() == 2 {
        return is_right_from_two(clauses, step, parents[0], parents[1], conclusion);
    }
    false
}

fn is_inferred(clauses: &[Clause], clause: &Clause, source: &LineSource) -> bool
    ensures { IsTrue result ↔ IsInferred clauses.now clause.now source.now }
{
    match source {
        LineSource::File { path: _, label: _ } => true,
        LineSource::Inference { step, parents } => is_step_right(
            clauses,
            step,
            parents.as_slice(),
            clause,
        ),
    }
}

fn judge_line(
    alloc: Global,
    problem: &Problem,
    bodies: &Bodies,
    clauses: &[Clause],
    line: Line,
) -> Result<Judgement, AllocError>
    requires indexed { IsIndexOf problem.now bodies.now }
    requires few { length clauses.now < 2 ^ 32 }
    ensures { IfOk result (JudgesLine problem.now clauses.now line) }
{
    if line.number != clauses.len() as u64 + 1 {
        return Ok(Judgement::Wrong(Why::Number));
    }
    if !are_earlier(clauses, &line.source) {
        return Ok(Judgement::Wrong(Why::Parent));
    }
    if !from_input(alloc, problem, bodies, &line)? {
        return Ok(Judgement::Wrong(Why::Input));
    }
    if !is_inferred(clauses, &line.clause, &line.source) {
        return Ok(Judgement::Wrong(Why::Step));
    }
    let Line {
        number: _,
        role: _,
        clause,
        source: _,
    } = line;
    Ok(Judgement::Right(clause))
}

fn judge(
    alloc: Global,
    problem: &Problem,
    bodies: &Bodies,
    clauses: &[Clause],
    piece: &[u8],
) -> Result<Judgement, AllocError>
    requires indexed { IsIndexOf problem.now bodies.now }
    requires formed { IsFormed problem.now }
    requires bounded { IsBounded problem.now }
    requires few { length clauses.now < 2 ^ 32 }
    ensures { IfOk result (JudgesPiece problem.now clauses.now piece.now) }
{
    match read_exact(alloc, &problem.symbols, piece)? {
        None => Ok(Judgement::Wrong(Why::Form)),
        Some(line) => judge_line(alloc, problem, bodies, clauses, line),
    }
}

fn feed_at(text: &[u8]) -> usize
    ensures place { result ≡ feed_at text.now }
    ensures within { result ≤ length text.now }
{
    let mut at: usize = 0;
    let mut rest = text;
    while let [byte, after @ ..] = rest {
        if *byte == b'\n' {
            break;
        }
        at += 1;
        rest = after;
    }
    at
}

fn is_taken(piece: &[u8]) -> bool
    ensures { result ≡ is_taken piece.now }
{
    match piece {
        [] => false,
        [first, ..] => *first != b'%',
    }
}

fn skip_feed(text: &[u8]) -> &[u8]
    ensures { result.now ≡ skipped text.now }
{
    match text {
        [] => text,
        [_, after @ ..] => after,
    }
}

#[tactic(auto, using(crate::proofs::Pieces::last_none))]
fn ends_empty(clauses: &Sequence<Clause>) -> bool
    ensures { IsTrue result ↔ EndsEmpty clauses.now }
{
    match clauses.last() {
        Some(clause) => clause.is_empty(),
        None => false,
    }
}

/// Judges a text exactly: it is accepted where it is a refutation of the problem, and else refused with the first line
/// that fails and why (`specs/Accepted.antt`).
pub fn check_text(alloc: Global, problem: &Problem, text: &[u8]) -> Result<Verdict, AllocError>
    requires formed { IsFormed problem.now }
    requires bounded { IsBounded problem.now }
    requires size { length text.now < 2 ^ 32 - 1 }
    ensures judges { IfOk result (Judges problem.now text.now) }
    ensures only { IfOk result (λ v. (w : VerdictValue) → Judges problem.now text.now w → w ≡ v) }
{
    judge_text(alloc, problem, text)
}

fn judge_text(alloc: Global, problem: &Problem, text: &[u8]) -> Result<Verdict, AllocError>
    requires formed { IsFormed problem.now }
    requires bounded { IsBounded problem.now }
    requires size { length text.now < 2 ^ 32 - 1 }
    ensures { IfOk result (Judged problem.now [] 0 (lines_of text.now)) }
{
    let bodies = index(alloc, problem)?;
    let mut clauses: Sequence<Clause> = Sequence::new(alloc);
    let mut line: u32 = 0;
    let mut rest = text;
    while !rest.is_empty() {
        let (piece, after) = rest.split_at(feed_at(rest));
        if is_taken(piece) {
            match judge(alloc, problem, &bodies, clauses.as_slice(), piece)? {
                Judgement::Wrong(why) => return Ok(Verdict::Refused {
                    line: line + 1,
                    why,
                }),
                Judgement::Right(clause) => clauses.push(clause)?,
            }
        }
        line += 1;
        rest = skip_feed(after);
    }
    if ends_empty(&clauses) {
        Ok(Verdict::Accepted {
            lines: clauses.len() as u32,
        })
    } else {
        Ok(Verdict::Refused {
            line: line + 1,
            why: Why::End,
        })
    }
}
