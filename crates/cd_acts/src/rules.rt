//! What a peer asks of the rules of inference.
#![tactic(auto)]

ghost use Rattle.std.specs.Prelude.{◌≡◌, ◌↔◌, IsTrue, IfOk, List, filter_map};
ghost use Rattle.cd_clause.specs.Clauses.{IsWithinBounds};
ghost use Rattle.cd_infer.specs.Conclusions.{IsUsable};
ghost use Rattle.cd_ledger.specs.declared.records.Known.{Known};
ghost use Rattle.cd_machine.specs.Hits.{AreHits, HowHolds, IsBelow, IsForward};
ghost use Rattle.cd_machine.specs.Rules.{IsTautology, IsTidied, Reduces, is_empty};
ghost use Rattle.cd_acts.specs.Answers.{IsAlone, IsReduction, IsSearched, IsStanding, IsSubsumedStanding, IsTogether};
ghost use Rattle.cd_acts.specs.Hits.{AreAmong, by_name};
ghost use Rattle.cd_acts.specs.Indexed.{AreOnce, held_entry};

use cd_clause::Clause;
use cd_contract::{Held, Hit, Hits, backward, forward, reducer};
use cd_infer::Conclusions;
use cd_kbo::Order;
use cd_key::key_cmp;
use cd_ledger::Record;
use cd_names::{How, Name};
use cd_rewrite::{ReductAt, reduces, reduct};
use cd_subsume::subsumes;
use cd_term::TermFault;
use std::alloc::{AllocError, Global};

/// Whether a clause has no literal.
#[tactic(auto, unfolding(cd_machine::specs::Rules::is_empty))]
pub fn is_empty(c: &Clause) -> bool
    ensures { result ≡ is_empty c.now }
{
    match c.literals.as_slice() {
        [] => true,
        [_, ..] => false,
    }
}

#[tactic(auto, unfolding(cd_machine::specs::Rules::IsTautology))]
pub fn is_tautology(c: &Clause) -> bool
    ensures { IsTrue result ↔ IsTautology c.now }
{
    cd_clause::is_tautology(c)
}

/// Whether a clause is its own tidy form.
#[tactic(auto, unfolding(cd_machine::specs::Rules::IsTidied))]
pub fn is_tidy(c: &Clause) -> bool
    ensures { IsTrue result ↔ IsTidied c.now c.now }
{
    cd_clause::is_tidied(c, c)
}

#[tactic(auto, unfolding(cd_machine::specs::Rules::IsTidied))]
pub fn tidy(alloc: Global, c: &Clause) -> Result<Clause, AllocError>
    ensures { IfOk result (λ d. IsTidied c.now d) }
{
    cd_clause::tidy(alloc, c)
}

/// How a clause without a name stands to those that are held.
#[derive(Clone, Copy, Debug)]
pub enum Standing {
    /// The equation with this name, the first of smaller key, reduces it.
    Reduced(Name),
    /// No equation of smaller key reduces it, and the clause with this name, the first, subsumes it.
    Subsumed(Name),
    /// Neither.
    Free,
}

/// The same of a clause that one with a name subsumes.
fn subsumed_standing(
    alloc: Global,
    held: &Held,
    c: &Clause,
    order: &Order,
    subsumer: Name,
) -> Result<Standing, AllocError>
    requires { IsWithinBounds c.now }
    ensures { IfOk result (IsSubsumedStanding order.now c.now held.now subsumer) }
{
    match reducer(alloc, held, c, None, order)? {
        Some(by) => Ok(Standing::Reduced(by)),
        None => Ok(Standing::Subsumed(subsumer)),
    }
}

/// How a clause without a name stands to those that are held.
pub fn standing_of(
    alloc: Global,
    held: &Held,
    c: &Clause,
    order: &Order,
) -> Result<Standing, AllocError>
    requires { IsWithinBounds c.now }
    ensures { IfOk result (λ s. (es : List Known) → held.now ≡ filter_map held_entry es → IsStanding order.now c.now es s) }
{
    cd_contract::laws::subsumers();
    let found = forward(alloc, held, c, None, order)?;
    match found {
        None => Ok(Standing::Free),
        Some(hit) => match hit.how {
            How::Reduces => Ok(Standing::Reduced(hit.by)),
            How::Subsumes => {
                let standing = subsumed_standing(alloc, held, c, order, hit.by)?;
                Ok(standing)
            }
        },
    }
}

/// What makes a record superfluous as it comes: the first held clause of smaller key that subsumes it, or else the first
/// such equation that reduces it.
pub fn forward_hit(
    alloc: Global,
    held: &Held,
    r: &Record,
    order: &Order,
) -> Result<Option<Hit>, AllocError>
    requires { IsWithinBounds r.now.clause }
    ensures { IfOk result (λ hit. (es : List Known) → held.now ≡ filter_map held_entry es → IsForward order.now r.now es hit) }
{
    let hit = forward(alloc, held, &r.clause, Some(r.name), order)?;
    Ok(hit)
}

/// The held clauses that a record makes superfluous, in their order.
pub fn backward_hits(
    alloc: Global,
    held: &Held,
    r: &Record,
    order: &Order,
) -> Result<Hits, AllocError>
    requires { IsWithinBounds r.now.clause }
    ensures hits { IfOk result (λ hits. (es : List Known) → held.now ≡ filter_map held_entry es → AreOnce es → AreHits order.now r.now es (by_name hits)) }
    ensures among { IfOk result (λ hits. (es : List Known) → held.now ≡ filter_map held_entry es → AreAmong es hits) }
{
    let hits = backward(alloc, held, &r.clause, r.name, order)?;
    Ok(hits)
}

/// What an equation makes of a clause.
#[derive(Debug, Drop)]
pub enum Reduction {
    To(ReductAt),
    /// It would be out of bounds.
    TooLarge,
}

/// What an equation makes of a clause that it reduces.
#[tactic(auto, unfolding(cd_machine::specs::Rules::ReductAt, cd_machine::specs::Rules::IsWithin, cd_machine::specs::Rules::Reduces))]
pub fn reduction_of(
    alloc: Global,
    e: &Clause,
    c: &Clause,
    order: &Order,
) -> Result<Reduction, AllocError>
    requires within { IsWithinBounds c.now }
    requires reduces { Reduces order.now e.now c.now }
    ensures { IfOk result (IsReduction order.now e.now c.now) }
{
    match reduct(alloc, e, c, order) {
        Ok(Some(r)) => Ok(Reduction::To(r)),
        Ok(None) => unreachable!(),
        Err(TermFault::OutOfBounds) => Ok(Reduction::TooLarge),
        Err(TermFault::Memory) => Err(AllocError),
    }
}

/// The conclusions of a task.
#[derive(Drop)]
pub enum Concluded {
    Found(Conclusions),
    /// One of them would be out of bounds.
    TooLarge,
}

/// The same from what a search for conclusions answers.
fn concluded_by(found: Result<Conclusions, TermFault>) -> Result<Concluded, AllocError>
    ensures { IfOk result (IsSearched found) }
{
    match found {
        Ok(found) => Ok(Concluded::Found(found)),
        Err(TermFault::OutOfBounds) => Ok(Concluded::TooLarge),
        Err(TermFault::Memory) => Err(AllocError),
    }
}

/// The conclusions of one clause alone.
pub fn solo(alloc: Global, name: Name, c: &Clause, order: &Order) -> Result<Concluded, AllocError>
    requires { IsUsable c.now }
    ensures { IfOk result (IsAlone order.now name c.now) }
{
    cd_infer::laws::bounds();
    let found = concluded_by(cd_infer::solo(alloc, name, c, order))?;
    Ok(found)
}

/// The conclusions of two clauses.
pub fn pair(
    alloc: Global,
    a_name: Name,
    a: &Clause,
    b_name: Name,
    b: &Clause,
    order: &Order,
) -> Result<Concluded, AllocError>
    requires first { IsUsable a.now }
    requires second { IsUsable b.now }
    ensures { IfOk result (IsTogether order.now a_name a.now b_name b.now) }
{
    cd_infer::laws::bounds();
    let found = concluded_by(cd_infer::pair(alloc, a_name, a, b_name, b, order))?;
    Ok(found)
}

/// Whether the clause of one record makes that of another superfluous in a way.
#[tactic(auto, unfolding(cd_machine::specs::Rules::Subsumes, cd_machine::specs::Rules::Reduces))]
fn contracts(
    alloc: Global,
    how: How,
    d: &Clause,
    c: &Clause,
    order: &Order,
) -> Result<bool, AllocError>
    requires { IsWithinBounds c.now }
    ensures { IfOk result (λ b. IsTrue b ↔ HowHolds order.now how d.now c.now) }
{
    match how {
        How::Subsumes => {
            let Some(_subst) = subsumes(alloc, d, c)? else {
                return Ok(false);
            };
            Ok(true)
        }
        How::Reduces => {
            let found = reduces(alloc, d, c, order)?;
            Ok(found)
        }
    }
}

/// Whether the first record has the smaller key.
#[tactic(auto, unfolding(cd_machine::specs::Rules::KeyLess))]
fn is_below(d: &Record, c: &Record, order: &Order) -> bool
    requires first { IsWithinBounds d.now.clause }
    requires second { IsWithinBounds c.now.clause }
    ensures { IsTrue result ↔ IsBelow order.now d.now c.now }
{
    cd_key::laws::bounded_clauses();
    key_cmp(&d.clause, Some(d.name), &c.clause, Some(c.name), order).is_lt()
}

/// Whether the first record has the smaller key, and makes the second superfluous in a way.
pub fn holds_over(
    alloc: Global,
    how: How,
    d: &Record,
    c: &Record,
    order: &Order,
) -> Result<bool, AllocError>
    requires first { IsWithinBounds d.now.clause }
    requires second { IsWithinBounds c.now.clause }
    ensures { IfOk result (λ b. IsTrue b ↔ (IsBelow order.now d.now c.now × HowHolds order.now how d.now.clause c.now.clause)) }
{
    if !is_below(d, c, order) {
        return Ok(false);
    }
    let found = contracts(alloc, how, &d.clause, &c.clause, order)?;
    Ok(found)
}
