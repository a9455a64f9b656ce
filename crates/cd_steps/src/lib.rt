//! The steps of a derivation, and what makes a step right.
//!
//! This crate and its `specs/` are all that a reader has to trust of inference: whatever a derivation claims is
//! accepted by [`step_ok`] or not at all, and what it accepts is sound ([`laws`]). It asks nothing of how a step
//! was found. A rule is a record of `specs/Rules.antt`, an equation of `specs/Steps.antt`, and an arm of
//! [`plan_of`]; all else is said once for all rules.
#![tactic(auto)]

ghost use Rattle.std.specs.Prelude.{◌≡◌, ◌↔◌, [], IsTrue, MatchOption};
ghost use Rattle.std.specs.Option.{option_copied};
ghost use Rattle.std.specs.Borrow.{Bor};
ghost use Rattle.cd_steps.specs.Steps.{StepOk};
ghost use Rattle.cd_steps.specs.Premises.{premises, listed};
ghost use Rattle.cd_steps.specs.Bounds.{AnswersGiven, IsStepWithin, subst_of};
ghost use Rattle.cd_steps.specs.Drafts.{IsPlan, GivenBy};
ghost use Rattle.cd_steps.specs.declared.drafts.Plan.TheVariants.{Nothing, Follows, Tidies};
ghost use Rattle.cd_clause.specs.declared.Clause.{Clause};
ghost use Rattle.cd_clause.specs.Clauses.{IsTidied};

mod building;
pub mod drafts;
mod following;
pub mod laws;
pub mod rules;

pub use building::{gives, is_subst_within};
use cd_clause::{Clause, is_tidied, measure_tidied, tidy};
use cd_list::{Copied, Sequence};
use cd_names::Name;
use cd_term::{Path, Subst, Term, TermFault};
use drafts::{Draft, Part, Plan};
use following::follows;
use rules::{equality_factoring, factoring, paramodulation, reflexivity, resolution, rewriting};
use std::alloc::{AllocError, Global};

/// One step of a derivation. Places of literals count from 0; side 0 of an equation is the left one, side 1 the
/// right one. A substitution has a term for each variable of the premises; those of a second premise are moved up
/// past those of the first.
#[derive(Drop)]
pub enum Step {
    /// The problem's input with this index.
    Input {
        index: u32,
    },
    /// The named clause.
    Copy {
        of: Name,
    },
    /// Binary resolution on the positive literal `i` of `pos` and the negative literal `j` of `neg`
    /// (Robinson, A machine-oriented logic based on the resolution principle, 1965).
    Resolve {
        pos: Name,
        i: u16,
        neg: Name,
        j: u16,
        subst: Subst,
    },
    /// Factoring of two positive literals: `j`, the later one, goes.
    Factor {
        of: Name,
        i: u16,
        j: u16,
        subst: Subst,
    },
    /// Reflexivity resolution on the negative equation `i`.
    Refl {
        of: Name,
        i: u16,
        subst: Subst,
    },
    /// Equality factoring: side `s` of the positive equation `i` and side `z` of the positive equation `j` become equal, and
    /// equation `i` gives way to the negation of an equation of the other sides (Bachmair and Ganzinger,
    /// Rewrite-based equational theorem proving with selection and simplification, 1994).
    EqFac {
        of: Name,
        i: u16,
        s: u8,
        j: u16,
        z: u8,
        subst: Subst,
    },
    /// Paramodulation from side `s` of the positive equation `i` of `giver` into the subterm at `at` of the literal `j` of
    /// `taker` (Robinson and Wos, Paramodulation and theorem-proving in first-order theories with equality, 1969).
    Para {
        giver: Name,
        i: u16,
        s: u8,
        taker: Name,
        j: u16,
        at: Path,
        subst: Subst,
    },
    /// Rewriting of the clause before it, at `at` in literal `j`, by side `s` of the one equation of `by`; the
    /// substitution has a term for each variable of `by`.
    Rewrite {
        by: Name,
        s: u8,
        j: u16,
        at: Path,
        subst: Subst,
    },
    /// The clause before it, without what makes no difference.
    Tidy,
}

pub type Steps = Sequence<Step>;

impl Copied for Step {
    fn copy(&self, alloc: Global) -> Result<Step, AllocError> {
        match self {
            Step::Input { index } => Ok(Step::Input { index: *index }),
            Step::Copy { of } => Ok(Step::Copy { of: *of }),
            Step::Resolve {
                pos,
                i,
                neg,
                j,
                subst,
            } => Ok(Step::Resolve {
                pos: *pos,
                i: *i,
                neg: *neg,
                j: *j,
                subst: subst.copy(alloc)?,
            }),
            Step::Factor { of, i, j, subst } => Ok(Step::Factor {
                of: *of,
                i: *i,
                j: *j,
                subst: subst.copy(alloc)?,
            }),
            Step::Refl { of, i, subst } => Ok(Step::Refl {
                of: *of,
                i: *i,
                subst: subst.copy(alloc)?,
            }),
            Step::EqFac {
                of,
                i,
                s,
                j,
                z,
                subst,
            } => Ok(Step::EqFac {
                of: *of,
                i: *i,
                s: *s,
                j: *j,
                z: *z,
                subst: subst.copy(alloc)?,
            }),
            Step::Para {
                giver,
                i,
                s,
                taker,
                j,
                at,
                subst,
            } => Ok(Step::Para {
                giver: *giver,
                i: *i,
                s: *s,
                taker: *taker,
                j: *j,
                at: at.copy(alloc)?,
                subst: subst.copy(alloc)?,
            }),
            Step::Rewrite {
                by,
                s,
                j,
                at,
                subst,
            } => Ok(Step::Rewrite {
                by: *by,
                s: *s,
                j: *j,
                at: at.copy(alloc)?,
                subst: subst.copy(alloc)?,
            }),
            Step::Tidy => Ok(Step::Tidy),
        }
    }
}

/// What a step stands on.
#[derive(Clone, Copy)]
pub enum Premise {
    /// The clause before the step.
    Before,
    /// The problem's input with this index.
    Given(u32),
    /// The clause of this name.
    Named(Name),
}

impl Step {
    /// What the step stands on, the clause before it first.
    pub fn premises(&self) -> (Premise, Option<Premise>)
        ensures { listed result ≡ premises self.now }
    {
        match self {
            Step::Input { index } => (Premise::Given(*index), None),
            Step::Copy { of } => (Premise::Named(*of), None),
            Step::Resolve {
                pos,
                i: _,
                neg,
                j: _,
                subst: _,
            } => (Premise::Named(*pos), Some(Premise::Named(*neg))),
            Step::Factor {
                of,
                i: _,
                j: _,
                subst: _,
            } => (Premise::Named(*of), None),
            Step::Refl { of, i: _, subst: _ } => (Premise::Named(*of), None),
            Step::EqFac {
                of,
                i: _,
                s: _,
                j: _,
                z: _,
                subst: _,
            } => (Premise::Named(*of), None),
            Step::Para {
                giver,
                i: _,
                s: _,
                taker,
                j: _,
                at: _,
                subst: _,
            } => (Premise::Named(*giver), Some(Premise::Named(*taker))),
            Step::Rewrite {
                by,
                s: _,
                j: _,
                at: _,
                subst: _,
            } => (Premise::Before, Some(Premise::Named(*by))),
            Step::Tidy => (Premise::Before, None),
        }
    }

    /// The step's substitution; none where it has none.
    pub fn subst(&self) -> &[Term]
        ensures { result.now ≡ subst_of self.now }
    {
        match self {
            Step::Input { index: _ } => &[],
            Step::Copy { of: _ } => &[],
            Step::Resolve {
                pos: _,
                i: _,
                neg: _,
                j: _,
                subst,
            } => subst.as_slice(),
            Step::Factor {
                of: _,
                i: _,
                j: _,
                subst,
            } => subst.as_slice(),
            Step::Refl { of: _, i: _, subst } => subst.as_slice(),
            Step::EqFac {
                of: _,
                i: _,
                s: _,
                j: _,
                z: _,
                subst,
            } => subst.as_slice(),
            Step::Para {
                giver: _,
                i: _,
                s: _,
                taker: _,
                j: _,
                at: _,
                subst,
            } => subst.as_slice(),
            Step::Rewrite {
                by: _,
                s: _,
                j: _,
                at: _,
                subst,
            } => subst.as_slice(),
            Step::Tidy => &[],
        }
    }
}

/// What follows is the clause as it stands.
fn standing(c: &Clause) -> Draft<'_>
    ensures { (d : Clause) → (c.now ≡ d) ↔ GivenBy result [] d }
{
    Draft {
        up: 0,
        more: 0,
        left: &[],
        right: &[],
        one: Part::First(c.literals.as_slice()),
        two: Part::First(&[]),
        three: Part::First(&[]),
        four: Part::First(&[]),
        five: Part::First(&[]),
    }
}

/// What follows by the inference of a rule, if the rule makes one.
fn planned(draft: Option<Draft>) -> Plan
    ensures { MatchOption draft.entry (result ≡ Nothing) (λ d. result ≡ Follows d) }
{
    match draft {
        None => Plan::Nothing,
        Some(draft) => Plan::Follows(draft),
    }
}

/// What a step makes of its premises: `current` is the clause before it in a record, `first` and `second` are the
/// clauses of the names in the step, in the order of its fields, or the input's clause.
fn plan_of<'a>(
    step: &'a Step,
    current: Option<&'a Clause>,
    first: Option<&'a Clause>,
    second: Option<&'a Clause>,
) -> Plan<'a>
    ensures plan { IsPlan (StepOk step.now (option_copied current.entry) (option_copied first.entry) (option_copied second.entry)) (subst_of step.now) result }
    ensures tidies { (clause : Bor Clause) → result ≡ Tidies clause → subst_of step.now ≡ [] }
{
    match (step, current, first, second) {
        (Step::Input { index: _ }, _, Some(c), _) => Plan::Follows(standing(c)),
        (Step::Copy { of: _ }, _, Some(c), _) => Plan::Follows(standing(c)),
        (
            Step::Resolve {
                pos: _,
                i,
                neg: _,
                j,
                subst: _,
            },
            _,
            Some(a),
            Some(b),
        ) => planned(resolution(a, *i as usize, b, *j as usize)),
        (
            Step::Factor {
                of: _,
                i,
                j,
                subst: _,
            },
            _,
            Some(c),
            _,
        ) => planned(factoring(c, *i as usize, *j as usize)),
        (Step::Refl { of: _, i, subst: _ }, _, Some(c), _) => planned(reflexivity(c, *i as usize)),
        (
            Step::EqFac {
                of: _,
                i,
                s,
                j,
                z,
                subst: _,
            },
            _,
            Some(c),
            _,
        ) => planned(equality_factoring(c, *i as usize, *s, *j as usize, *z)),
        (
            Step::Para {
                giver: _,
                i,
                s,
                taker: _,
                j,
                at,
                subst: _,
            },
            _,
            Some(a),
            Some(b),
        ) => planned(paramodulation(a, *i as usize, *s, b, *j as usize, at.as_slice())),
        (
            Step::Rewrite {
                by: _,
                s,
                j,
                at,
                subst: _,
            },
            Some(c),
            Some(e),
            _,
        ) => planned(rewriting(e, *s, c, *j as usize, at.as_slice())),
        (Step::Tidy, Some(c), _, _) => Plan::Tidies(c),
        _ => Plan::Nothing,
    }
}

/// Whether `conclusion` is what the step gives of its premises: `current` is the clause before it in a record,
/// `first` and `second` are the clauses of the names in the step, in the order of its fields, or the input's
/// clause. A premise that the step needs and that is missing gives false. No memory is taken.
pub fn step_ok(
    step: &Step,
    current: Option<&Clause>,
    first: Option<&Clause>,
    second: Option<&Clause>,
    conclusion: &Clause,
) -> bool
    ensures { IsTrue result ↔ StepOk step.now (option_copied current.entry) (option_copied first.entry) (option_copied second.entry) conclusion.now }
{
    match plan_of(step, current, first, second) {
        Plan::Nothing => false,
        Plan::Follows(draft) => follows(&draft, step.subst(), conclusion),
        Plan::Tidies(clause) => is_tidied(clause, conclusion),
    }
}

/// The tidy form of a clause, or `OutOfBounds` where it isn't within bounds; this is found before anything is
/// built.
fn tidied(alloc: Global, clause: &Clause) -> Result<Option<Clause>, TermFault>
    ensures { AnswersGiven (IsTidied clause.now) (IsStepWithin []) result }
{
    let Some(_) = measure_tidied(clause) else {
        return Err(TermFault::OutOfBounds);
    };
    Ok(Some(tidy(alloc, clause)?))
}

/// The one clause that is what the step gives of its premises, as [`step_ok`] tells; `None` exactly where there
/// is none. `OutOfBounds` exactly where there is one, and it or the step's substitution is out of bounds; this is
/// found before anything is built.
pub fn step_gives(
    alloc: Global,
    step: &Step,
    current: Option<&Clause>,
    first: Option<&Clause>,
    second: Option<&Clause>,
) -> Result<Option<Clause>, TermFault>
    ensures { AnswersGiven (StepOk step.now (option_copied current.entry) (option_copied first.entry) (option_copied second.entry)) (IsStepWithin (subst_of step.now)) result }
{
    match plan_of(step, current, first, second) {
        Plan::Nothing => Ok(None),
        Plan::Follows(draft) => gives(alloc, &draft, step.subst()),
        Plan::Tidies(clause) => tidied(alloc, clause),
    }
}
