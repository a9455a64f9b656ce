//! The lines of a derivation.
#![tactic(auto)]

ghost use Rattle.std.specs.Prelude.{◌≡◌, ◌++◌, ◌∷◌, [], length, map, true, false, IfOk, OnOk, MatchOption, None, Some, slice_index};
ghost use Rattle.std.specs.Option.{option_copied};
ghost use Rattle.cd_acts.specs.Indexed.{AreNamesOf, AreOnce, IsIndexed};
ghost use Rattle.cd_acts.specs.View.{local_of};
ghost use Rattle.cd_alone.specs.Derived.{parents_of, picked};
ghost use Rattle.cd_alone.specs.Going.{Going};
ghost use Rattle.cd_clause.specs.declared.Clause.{Clause};
ghost use Rattle.cd_kbo.specs.declared.order.Order.{Order};
ghost use Rattle.cd_laws.specs.Rooted.{AreLed};
ghost use Rattle.cd_ledger.specs.Records.{is_copy, recorded};
ghost use Rattle.cd_ledger.specs.declared.events.Verdict.{Verdict};
ghost use Rattle.cd_machine.specs.Right.{IsReplayed, Lead};
ghost use Rattle.cd_steps.specs.declared.Step.{Step};
ghost use Rattle.cd_build.specs.Derivation.{IsDerivation};
ghost use Rattle.cd_build.specs.Building.{AreAdded, AreAddedIf, AreLinesOf, IsAdded, IsPassed, clause_before, number_before, number_of, parents_in};

use crate::chosen::{is_marked, marks};
use crate::printing::line_of;
use cd_acts::State;
use cd_acts::state::entry_in;
use cd_clause::Clause;
use cd_fineness::replayed;
use cd_ledger::Knowns;
use cd_list::Sequence;
use cd_names::Name;
use cd_read::Problem;
use cd_steps::{Premise, Step};
use cd_tasks::Tasks;
use cd_text::{Lines, Parents};
use std::alloc::{AllocError, Global};

/// The lines of the empty clause's record and of the records that it stands on, in the order in which they became known: a
/// line for each step but a copy, numbered from 1. Each step's clause is computed anew. The time is linear in the number of
/// all records, in the names that they cite, and in the sizes of what each step takes and gives, where a name is found in
/// constant time on the average; only a step that tidies compares each two literals of its clause. The error is want of
/// memory.
pub fn derivation(alloc: Global, problem: &Problem, state: &State) -> Result<Lines, AllocError>
    requires indexed { IsIndexed state.now }
    requires going { (order : Order) × Going order problem.now (local_of state.now) }
    requires refuted { state.now.verdict ≡ Some Verdict.Refuted }
    ensures { IfOk result (IsDerivation problem.now (local_of state.now)) }
{
    let marks = marks(alloc, &state.tasks, &state.known)?;
    lines_of(alloc, problem, &state.tasks, &state.known, &marks)
}

// The lines of the records that are marked.
fn lines_of(
    alloc: Global,
    problem: &Problem,
    tasks: &Tasks,
    known: &Knowns,
    marks: &Sequence<bool>,
) -> Result<Lines, AllocError>
    requires names { AreNamesOf tasks.now.arrivals known.now }
    requires once { AreOnce known.now }
    requires marks { length marks.now ≡ length known.now }
    requires led { AreLed problem.now [] (picked marks.now known.now) }
    ensures { IfOk result (AreLinesOf problem.now (picked marks.now known.now)) }
{
    let entries = known.as_slice();
    let mut numbers = Sequence::new(alloc);
    let mut lines = Sequence::new(alloc);
    for i in 0..entries.len() {
        let marked = is_marked(marks, i);
        let steps = entries[i].entry.steps.as_slice();
        let number = add_marked(
            alloc,
            problem,
            tasks,
            known,
            numbers.as_slice(),
            marked,
            steps,
            &mut lines,
        )?;
        numbers.push(number)?;
    }
    Ok(lines)
}

// Adds the lines of a record that is marked. The result is the number of the last, or 0.
fn add_marked(
    alloc: Global,
    problem: &Problem,
    tasks: &Tasks,
    known: &Knowns,
    numbers: &[u64],
    marked: bool,
    steps: &[Step],
    lines: &mut Lines,
) -> Result<u64, AllocError>
    requires names { AreNamesOf tasks.now.arrivals known.now }
    requires once { AreOnce known.now }
    requires leads { marked ≡ true → (c : Clause) × Lead problem.now (λ n. recorded n known.now) None steps.now c }
    ensures { IfOk result (AreAddedIf marked problem.now known.now numbers.now steps.now lines.old lines.new) }
{
    if !marked {
        return Ok(0);
    }
    add_lines(alloc, problem, tasks, known, numbers, steps, lines)
}

/// Where the clause before a step stands: there is none, it is that of a record, or that of the last line.
#[derive(Clone, Copy)]
enum Before {
    Nothing,
    Copied(Name),
    Printed,
}

// Adds the lines of steps. The result is the number of the line with the last clause.
fn add_lines(
    alloc: Global,
    problem: &Problem,
    tasks: &Tasks,
    known: &Knowns,
    numbers: &[u64],
    steps: &[Step],
    lines: &mut Lines,
) -> Result<u64, AllocError>
    requires names { AreNamesOf tasks.now.arrivals known.now }
    requires once { AreOnce known.now }
    requires leads { (c : Clause) × Lead problem.now (λ n. recorded n known.now) None steps.now c }
    ensures { IfOk result (AreAdded problem.now known.now numbers.now steps.now lines.old lines.new) }
{
    let mut before = Before::Nothing;
    for step in steps {
        before = add_step(alloc, problem, tasks, known, numbers, before, step, lines)?;
    }
    Ok(number_before(tasks, known, numbers, lines, before))
}

// Adds the line of a step that isn't a copy. The result is where the step's clause stands.
fn add_step(
    alloc: Global,
    problem: &Problem,
    tasks: &Tasks,
    known: &Knowns,
    numbers: &[u64],
    before: Before,
    step: &Step,
    lines: &mut Lines,
) -> Result<Before, AllocError>
    requires names { AreNamesOf tasks.now.arrivals known.now }
    requires once { AreOnce known.now }
    requires given { (c : Clause) × IsReplayed problem.now (λ n. recorded n known.now) (clause_before known.now lines.old before) step.now c }
    ensures { IfOk result (IsPassed problem.now known.now numbers.now before step.now lines.old lines.new) }
{
    match copied(step) {
        Some(n) => Ok(Before::Copied(n)),
        None => {
            add_line(alloc, problem, tasks, known, numbers, before, step, lines)?;
            Ok(Before::Printed)
        }
    }
}

/// The name that a step copies, if it is a copy.
fn copied(step: &Step) -> Option<Name>
    ensures { MatchOption result (is_copy step.now ≡ false) (λ n. step.now ≡ Step.Copy n) }
{
    match step {
        Step::Copy { of } => Some(*of),
        Step::Input { index: _ } => None,
        Step::Resolve {
            pos: _,
            i: _,
            neg: _,
            j: _,
            subst: _,
        } => None,
        Step::Factor {
            of: _,
            i: _,
            j: _,
            subst: _,
        } => None,
        Step::Refl {
            of: _,
            i: _,
            subst: _,
        } => None,
        Step::EqFac {
            of: _,
            i: _,
            s: _,
            j: _,
            z: _,
            subst: _,
        } => None,
        Step::Para {
            giver: _,
            i: _,
            s: _,
            taker: _,
            j: _,
            at: _,
            subst: _,
        } => None,
        Step::Rewrite {
            by: _,
            s: _,
            j: _,
            at: _,
            subst: _,
        } => None,
        Step::Tidy => None,
    }
}

// Adds the line of a step, with the clause that it gives behind the clause before it.
fn add_line(
    alloc: Global,
    problem: &Problem,
    tasks: &Tasks,
    known: &Knowns,
    numbers: &[u64],
    before: Before,
    step: &Step,
    lines: &mut Lines,
) -> Result<(), AllocError>
    requires names { AreNamesOf tasks.now.arrivals known.now }
    requires once { AreOnce known.now }
    requires given { (c : Clause) × IsReplayed problem.now (λ n. recorded n known.now) (clause_before known.now lines.old before) step.now c }
    requires makes { is_copy step.now ≡ false }
    ensures { OnOk result (IsAdded problem.now known.now numbers.now before step.now lines.old lines.new) }
{
    let behind = clause_before(tasks, known, lines, before);
    let clause = given(alloc, problem, tasks, known, behind, step)?;
    let last = number_before(tasks, known, numbers, lines, before);
    let parents = parents_of(alloc, tasks, known, numbers, last, step)?;
    let number = lines.len() as u64 + 1;
    lines.push(line_of(alloc, problem, number, step, clause, parents)?)
}

/// The clause that a step gives behind the clause before it.
fn given(
    alloc: Global,
    problem: &Problem,
    tasks: &Tasks,
    known: &Knowns,
    behind: Option<&Clause>,
    step: &Step,
) -> Result<Clause, AllocError>
    requires names { AreNamesOf tasks.now.arrivals known.now }
    requires once { AreOnce known.now }
    requires given { (c : Clause) × IsReplayed problem.now (λ n. recorded n known.now) (option_copied behind) step.now c }
    ensures { IfOk result (IsReplayed problem.now (λ n. recorded n known.now) (option_copied behind.entry) step.now) }
{
    match replayed(alloc, problem, tasks, known, behind, step)? {
        Some(clause) => Ok(clause),
        None => unreachable!(),
    }
}

fn clause_before<'a>(
    tasks: &Tasks,
    known: &'a Knowns,
    lines: &'a Lines,
    before: Before,
) -> Option<&'a Clause>
    requires names { AreNamesOf tasks.now.arrivals known.now }
    requires once { AreOnce known.now }
    ensures { option_copied result ≡ clause_before known.entry.now lines.entry.now before }
{
    match before {
        Before::Nothing => None,
        Before::Copied(n) => match entry_in(tasks, known, n) {
            None => None,
            Some(found) => Some(&found.1.entry.clause),
        },
        Before::Printed => match lines.last() {
            None => None,
            Some(line) => Some(&line.clause),
        },
    }
}

fn number_before(
    tasks: &Tasks,
    known: &Knowns,
    numbers: &[u64],
    lines: &Lines,
    before: Before,
) -> u64
    requires names { AreNamesOf tasks.now.arrivals known.now }
    requires once { AreOnce known.now }
    ensures { result ≡ number_before known.now numbers.now lines.now before }
{
    match before {
        Before::Nothing => 0,
        Before::Copied(n) => number_of(tasks, known, numbers, n),
        Before::Printed => lines.len() as u64,
    }
}

// The number of a name's last line.
fn number_of(tasks: &Tasks, known: &Knowns, numbers: &[u64], n: Name) -> u64
    requires names { AreNamesOf tasks.now.arrivals known.now }
    requires once { AreOnce known.now }
    ensures { result ≡ number_of known.now numbers.now n }
{
    match entry_in(tasks, known, n) {
        None => 0,
        Some(found) => number_at(numbers, found.0),
    }
}

fn number_at(numbers: &[u64], place: usize) -> u64
    ensures { result ≡ slice_index numbers.now place }
{
    match numbers.get(place) {
        Some(number) => *number,
        None => 0,
    }
}

// The lines that a step stands on, where `last` is that of the clause before it.
fn parents_of(
    alloc: Global,
    tasks: &Tasks,
    known: &Knowns,
    numbers: &[u64],
    last: u64,
    step: &Step,
) -> Result<Parents, AllocError>
    requires names { AreNamesOf tasks.now.arrivals known.now }
    requires once { AreOnce known.now }
    requires makes { is_copy step.now ≡ false }
    ensures { IfOk result (λ parents. parents ≡ parents_of (number_of known.now numbers.now) last step.now) }
{
    let (first, second) = step.premises();
    let mut parents = Sequence::new(alloc);
    push_parent(tasks, known, numbers, last, first, &mut parents)?;
    match second {
        None => Ok(parents),
        Some(second) => {
            push_parent(tasks, known, numbers, last, second, &mut parents)?;
            Ok(parents)
        }
    }
}

// Adds the line of a premise; an input has none.
fn push_parent(
    tasks: &Tasks,
    known: &Knowns,
    numbers: &[u64],
    last: u64,
    premise: Premise,
    parents: &mut Parents,
) -> Result<(), AllocError>
    requires names { AreNamesOf tasks.now.arrivals known.now }
    requires once { AreOnce known.now }
    ensures { OnOk result (parents.new ≡ parents.old ++ parents_in (number_of known.now numbers.now) last (premise ∷ [])) }
{
    match premise {
        Premise::Before => parents.push(last),
        Premise::Given(_) => Ok(()),
        Premise::Named(n) => parents.push(number_of(tasks, known, numbers, n)),
    }
}
