//! The end of an item: what its steps mention, and what becomes of a record whose place it took.
#![tactic(auto)]

ghost use Rattle.std.specs.Prelude.{◌≡◌, ◌++◌, ◌∷◌, [], ◌↔◌, IsTrue, IfOk, OnOk, if◌then◌else◌, map};
ghost use Rattle.std.specs.List.{flat_map, list_any};
ghost use Rattle.cd_ledger.specs.Records.{cites_of, equations_of, used_in};
ghost use Rattle.cd_machine.specs.Acts.{resolution, resolve_one, resolved};
ghost use Rattle.cd_names.specs.Names.{add_once, each_once, name_eq};
ghost use Rattle.cd_steps.specs.Premises.{listed, names_in, names_of};
ghost use Rattle.cd_acts.specs.Acts.{settled_by};
ghost use Rattle.cd_acts.specs.Indexed.{AreNamesOf, AreOnce, IsIndexed};
ghost use Rattle.cd_acts.specs.View.{local_of};

use crate::state::{State, entry_in, reworks, set_status};
use cd_ledger::{End, Knowns, Origin, Outcome, Reason, Settled, Status};
use cd_list::Equals;
use cd_names::{Name, Names};
use cd_steps::{Premise, Step, Steps};
use cd_tasks::Tasks;
use std::alloc::{AllocError, Global};

fn is_among(names: &[Name], n: Name) -> bool
    ensures { result ≡ list_any (λ m. name_eq m n) names.now }
{
    names.iter().any(|m| m.peer == n.peer && m.seq == n.seq)
}

fn add_name(names: &mut Names, n: Name) -> Result<(), AllocError>
    ensures { OnOk result (names.new ≡ add_once names.old n) }
{
    if is_among(names.as_slice(), n) {
        return Ok(());
    }
    names.push(n)
}

fn add_premise(names: &mut Names, premise: Premise) -> Result<(), AllocError>
    ensures { OnOk result (names.new ≡ each_once names.old (names_of premise)) }
{
    match premise {
        Premise::Before => Ok(()),
        Premise::Given(_) => Ok(()),
        Premise::Named(n) => add_name(names, n),
    }
}

fn add_names(names: &mut Names, step: &Step) -> Result<(), AllocError>
    ensures { OnOk result (names.new ≡ each_once names.old (names_in step.now)) }
{
    let (first, second) = step.premises();
    add_premise(names, first)?;
    match second {
        None => Ok(()),
        Some(second) => add_premise(names, second),
    }
}

fn add_used(names: &mut Names, step: &Step) -> Result<(), AllocError>
    ensures { OnOk result (names.new ≡ each_once names.old (used_in step.now)) }
{
    match step {
        Step::Rewrite {
            by,
            s: _,
            j: _,
            at: _,
            subst: _,
        } => add_name(names, *by),
        Step::Input { index: _ } => Ok(()),
        Step::Copy { of: _ } => Ok(()),
        Step::Resolve {
            pos: _,
            i: _,
            neg: _,
            j: _,
            subst: _,
        } => Ok(()),
        Step::Factor {
            of: _,
            i: _,
            j: _,
            subst: _,
        } => Ok(()),
        Step::Refl {
            of: _,
            i: _,
            subst: _,
        } => Ok(()),
        Step::EqFac {
            of: _,
            i: _,
            s: _,
            j: _,
            z: _,
            subst: _,
        } => Ok(()),
        Step::Para {
            giver: _,
            i: _,
            s: _,
            taker: _,
            j: _,
            at: _,
            subst: _,
        } => Ok(()),
        Step::Tidy => Ok(()),
    }
}

/// The names in steps, each once, in the order of first mention.
#[tactic(auto, unfolding(cd_ledger::specs::Records::cites_of))]
pub fn cites_of(alloc: Global, steps: &[Step]) -> Result<Names, AllocError>
    ensures { IfOk result (λ names. names ≡ cites_of steps.now) }
{
    let mut names = Names::new(alloc);
    let mut rest = steps;
    while let [step, after @ ..] = rest {
        add_names(&mut names, step)?;
        rest = after;
    }
    Ok(names)
}

/// The equations that steps rewrite by, each once, in the order of first use.
pub fn equations_of(alloc: Global, steps: &[Step]) -> Result<Names, AllocError>
    ensures { IfOk result (λ names. names ≡ equations_of steps.now) }
{
    let mut names = Names::new(alloc);
    let mut rest = steps;
    while let [step, after @ ..] = rest {
        add_used(&mut names, step)?;
        rest = after;
    }
    Ok(names)
}

/// What becomes of a record whose place an item took that ended so.
pub fn resolution(alloc: Global, outcome: Outcome, steps: &[Step]) -> Result<Status, AllocError>
    ensures { IfOk result (λ status. status ≡ resolution outcome (equations_of steps.now)) }
{
    let using = equations_of(alloc, steps)?;
    let reason = match outcome {
        Outcome::Named(by) => Reason::Replaced { by, using },
        Outcome::Trivial => Reason::Simplified {
            using,
            end: End::Trivial,
        },
        Outcome::Subsumed(by) => Reason::Simplified {
            using,
            end: End::Subsumed(by),
        },
    };
    Ok(Status::Dropped(reason))
}

/// A name that was reworked has its end.
fn resolve_name(
    alloc: Global,
    tasks: &Tasks,
    known: &mut Knowns,
    n: Name,
    outcome: Outcome,
    steps: &[Step],
) -> Result<(), AllocError>
    requires names { AreNamesOf tasks.now.arrivals known.old }
    requires once { AreOnce known.old }
    ensures { OnOk result (known.new ≡ map (resolve_one n (resolution outcome (equations_of steps.now))) known.old) }
{
    match entry_in(tasks, known, n) {
        None => Ok(()),
        Some(found) => {
            let place = found.0;
            let e = found.1;
            if !reworks(&e.status) {
                return Ok(());
            }
            let status = resolution(alloc, outcome, steps)?;
            set_status(known, place, status);
            Ok(())
        }
    }
}

/// What an item was a rework of has its end.
fn resolve(
    alloc: Global,
    tasks: &Tasks,
    known: &mut Knowns,
    origin: Origin,
    outcome: Outcome,
    steps: &[Step],
) -> Result<(), AllocError>
    requires names { AreNamesOf tasks.now.arrivals known.old }
    requires once { AreOnce known.old }
    ensures { OnOk result (known.new ≡ resolved origin (resolution outcome (equations_of steps.now)) known.old) }
{
    match origin {
        Origin::Input(_) => Ok(()),
        Origin::Task(_, _) => Ok(()),
        Origin::Rework(n) => resolve_name(alloc, tasks, known, n, outcome, steps),
    }
}

impl State {
    /// An item that was taken out is settled, and what it was a rework of has its end.
    pub fn settle(
        &mut self,
        alloc: Global,
        origin: Origin,
        steps: Steps,
        outcome: Outcome,
    ) -> Result<(), AllocError>
        requires indexed { IsIndexed self.old }
        requires once { AreOnce self.old.known }
        ensures state { OnOk result (local_of self.new ≡ settled_by (local_of self.old) origin steps outcome) }
        ensures indexed { OnOk result (IsIndexed self.new) }
        ensures journal { self.new.journal ≡ self.old.journal }
    {
        resolve(
            alloc,
            &self.tasks,
            &mut self.known,
            origin,
            outcome,
            steps.as_slice(),
        )?;
        self.settled.push(Settled {
            origin,
            steps,
            outcome,
        })?;
        Ok(())
    }
}
