//! Paramodulation: a walk through the subterms of each literal, in the order of their paths.
#![tactic(auto)]

ghost use Rattle.std.specs.Prelude.{◌≡◌, ◌<◌, ◌≤◌, ◌+◌, ◌∷◌, ◌++◌, [], ℕ, List, length, sum_by, take, IfOk, OnOk, IsTrue};
ghost use Rattle.cd_term.specs.Terms.{size_of};
ghost use Rattle.cd_steps.specs.declared.Step.TheVariants.{Para};
ghost use Rattle.cd_steps.specs.Rules.{IsParamodulation};
ghost use Rattle.cd_infer.specs.Listed.{Gathers};
ghost use Rattle.cd_infer.specs.Paths.{walked, paths_from};
ghost use Rattle.cd_infer.specs.Conclusions.{PairGives, PairCan, IsWithin, IsGiving, Enters, CanConclude, para};

use crate::clashing::clash;
use crate::concluding::conclude;
use crate::resolving::Two;
use crate::{Conclusion, Conclusions};
use cd_clause::{at_atom, sides_of};
use cd_list::Sequence;
use cd_steps::Step;
use cd_steps::rules::paramodulation;
use cd_term::{Path, Subst, Term, TermFault};
use std::alloc::{AllocError, Global};

/// The places of a paramodulation: side `s` of literal `i` of the first clause, and literal `j` of the second.
#[derive(Clone, Copy)]
pub struct Places {
    pub i: usize,
    pub s: u8,
    pub j: usize,
}

fn path_of(alloc: Global, steps: &[u16]) -> Result<Path, AllocError>
    ensures { IfOk result (λ path. path ≡ steps.now) }
{
    let mut path = Path::new(alloc);
    for step in steps {
        path.push(*step)?;
    }
    Ok(path)
}

fn para_step(
    alloc: Global,
    two: &Two,
    places: Places,
    steps: &[u16],
    subst: Subst,
) -> Result<Step, AllocError>
    requires in_a { places.i < 65536 }
    requires in_b { places.j < 65536 }
    ensures { IfOk result (λ step. step ≡ Para two.now.a_name places.i places.s two.now.b_name places.j steps.now subst) }
{
    let at = path_of(alloc, steps)?;
    Ok(Step::Para {
        giver: two.a_name,
        i: places.i as u16,
        s: places.s,
        taker: two.b_name,
        j: places.j as u16,
        at,
        subst,
    })
}

/// Whether the side of the first clause and the subterm at a path have different symbols somewhere, so that nothing
/// makes them equal.
fn clashes_at(two: &Two, places: Places, steps: &[u16]) -> bool
    ensures { IsTrue result → CanConclude (IsParamodulation two.now.a.now places.i places.s two.now.b.now places.j steps.now) → ⊥ }
{
    let Some(giver) = two.a.literals.get(places.i) else {
        return false;
    };
    let Some((side, _)) = sides_of(&giver.atom, places.s) else {
        return false;
    };
    let Some(taker) = two.b.literals.get(places.j) else {
        return false;
    };
    let Some(inner) = at_atom(&taker.atom, steps) else {
        return false;
    };
    clash(side, inner)
}

/// Paramodulation into the subterm at a path.
fn para_at(
    alloc: Global,
    two: &Two,
    places: Places,
    steps: &[u16],
    found: &mut Conclusions,
) -> Result<(), TermFault>
    requires giving { IsGiving two.now.order.now two.now.a.now two.now.b.now places.i places.s places.j }
    requires enters { Enters two.now.order.now two.now.b.now places.j steps.now }
    ensures { Gathers (PairGives two.now.order.now two.now.a_name two.now.a.now two.now.b_name two.now.b.now) (PairCan two.now.order.now two.now.a.now two.now.b.now) IsWithin (para places.i places.s places.j steps.now ∷ []) found.old found.new result }
{
    if clashes_at(two, places, steps) {
        return Ok(());
    }
    let Some(draft) = paramodulation(two.a, places.i, places.s, two.b, places.j, steps) else {
        return Ok(());
    };
    match conclude(alloc, &draft) {
        Err(fault) => Err(fault),
        Ok(None) => Ok(()),
        Ok(Some(concluded)) => {
            let step = para_step(alloc, two, places, steps, concluded.subst)?;
            let clause = concluded.clause;
            match found.push(Conclusion { step, clause }) {
                Ok(()) => Ok(()),
                Err(_) => Err(TermFault::Memory),
            }
        }
    }
}

/// Paramodulation into the subterms of several terms, which stand one behind another from place `first` on behind a
/// path.
/// Recurs to the depth of its terms: see 'How deep terms may be' in docs/ARCHITECTURE.md.
pub fn walk(
    alloc: Global,
    two: &Two,
    places: Places,
    terms: &[Term],
    first: u16,
    path: &mut Sequence<u16>,
    found: &mut Conclusions,
) -> Result<(), TermFault>
    requires giving { IsGiving two.now.order.now two.now.a.now two.now.b.now places.i places.s places.j }
    requires enters { (k : ℕ) (rest : List ℕ) → k < length terms.now → Enters two.now.order.now two.now.b.now places.j (path.old ++ (first + k) ∷ rest) }
    requires few { first + length terms.now ≤ 65536 }
    requires small { sum_by size_of terms.now ≤ 65535 }
    ensures found { Gathers (PairGives two.now.order.now two.now.a_name two.now.a.now two.now.b_name two.now.b.now) (PairCan two.now.order.now two.now.a.now two.now.b.now) IsWithin (walked (para places.i places.s places.j) path.old (paths_from first terms.now)) found.old found.new result }
    ensures path { OnOk result (path.new ≡ path.old) }
{
    let length = path.len();
    for (k, term) in terms.iter().enumerate() {
        let Term::App(_, args) = term else {
            continue;
        };
        path.push(first + k as u16)?;
        if let Err(fault) = para_at(alloc, two, places, path.as_slice(), found) {
            return Err(fault);
        }
        if let Err(fault) = walk(alloc, two, places, args.as_slice(), 0, path, found) {
            return Err(fault);
        }
        path.truncate(length);
    }
    Ok(())
}
