//! The printed form of a line.
#![tactic(auto)]

ghost use Rattle.std.specs.Prelude.{◌≡◌, IfOk};
ghost use Rattle.std.specs.Option.{option_copied};
ghost use Rattle.cd_build.specs.Derivation.{input_role, input_source, printed, role_of, source_of};
ghost use Rattle.cd_build.specs.Building.{plain_line};

use cd_clause::Clause;
use cd_list::{Copied, Text};
use cd_read::{Input, Label, Problem};
use cd_steps::{Premise, Step};
use cd_text::{Line, LineRole, LineSource, Parents};
use std::alloc::{AllocError, Global};

/// The line with this number, of a step from parents to a clause.
pub fn line_of(
    alloc: Global,
    problem: &Problem,
    number: u64,
    step: &Step,
    clause: Clause,
    parents: Parents,
) -> Result<Line, AllocError>
    ensures { IfOk result (λ line. line ≡ printed problem.now (plain_line number step.now clause parents)) }
{
    let role = role_of(problem, step);
    let source = source_of(alloc, problem, step, parents)?;
    Ok(Line {
        number,
        role,
        clause,
        source,
    })
}

fn role_of(problem: &Problem, step: &Step) -> LineRole
    ensures { result ≡ role_of problem.now step.now }
{
    match step.premises() {
        (Premise::Given(index), _) => input_role(problem.inputs.get(index as usize)),
        _ => LineRole::Plain,
    }
}

fn input_role(input: Option<&Input>) -> LineRole
    ensures { result ≡ input_role (option_copied input.entry) }
{
    match input {
        Some(input) => LineRole::Given(input.role),
        None => LineRole::Plain,
    }
}

fn source_of(
    alloc: Global,
    problem: &Problem,
    step: &Step,
    parents: Parents,
) -> Result<LineSource, AllocError>
    ensures { IfOk result (λ source. source ≡ source_of problem.now step.now parents) }
{
    match step.premises() {
        (Premise::Given(index), _) => input_source(alloc, problem.inputs.get(index as usize)),
        _ => Ok(LineSource::Inference {
            step: step.copy(alloc)?,
            parents,
        }),
    }
}

fn input_source(alloc: Global, input: Option<&Input>) -> Result<LineSource, AllocError>
    ensures { IfOk result (λ source. source ≡ input_source (option_copied input.entry)) }
{
    match input {
        Some(input) => Ok(LineSource::File {
            path: input.file.text().copy(alloc)?,
            label: input.label.copy(alloc)?,
        }),
        None => Ok(LineSource::File {
            path: Text::of(alloc, "")?,
            label: Label::Word(Text::of(alloc, "")?),
        }),
    }
}
