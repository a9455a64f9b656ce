//! Reflexivity and equality factoring, and all conclusions of one clause alone.
#![tactic(auto)]

ghost use Rattle.std.specs.Prelude.{◌≡◌, ◌<◌, ◌≤◌, ◌↔◌, ◌∷◌, [], length, IsTrue};
ghost use Rattle.cd_key.specs.Literals.{IsEligible};
ghost use Rattle.cd_infer.specs.Listed.{Gathers};
ghost use Rattle.cd_infer.specs.Conclusions.{SoloGives, SoloCan, SoloAnswers, IsWithin, IsUsable, IsNotLesser, refl_at, refl_places, eqfac, eqfacs_with, eqfacs_of_side, eqfacs_from, eqfac_places};

use crate::concluding::conclude;
use crate::factoring::{One, factor_all};
use crate::pairing::is_not_lesser;
use crate::{Conclusion, Conclusions};
use cd_key::eligible;
use cd_list::Sequence;
use cd_steps::Step;
use cd_steps::rules::{equality_factoring, reflexivity};
use cd_term::TermFault;
use std::alloc::Global;

/// Reflexivity of literal `i`.
fn reflect_at(alloc: Global, one: &One, i: usize, found: &mut Conclusions) -> Result<(), TermFault>
    requires usable { IsUsable one.now.c.now }
    requires place { i < length one.now.c.now.literals }
    ensures { Gathers (SoloGives one.now.order.now one.now.name one.now.c.now) (SoloCan one.now.order.now one.now.c.now) IsWithin (refl_at i ∷ []) found.old found.new result }
{
    let Some(draft) = reflexivity(one.c, i) else {
        return Ok(());
    };
    if !eligible(one.c, i as u16, one.order) {
        return Ok(());
    }
    match conclude(alloc, &draft) {
        Err(fault) => Err(fault),
        Ok(None) => Ok(()),
        Ok(Some(concluded)) => {
            let step = Step::Refl {
                of: one.name,
                i: i as u16,
                subst: concluded.subst,
            };
            let clause = concluded.clause;
            match found.push(Conclusion { step, clause }) {
                Ok(()) => Ok(()),
                Err(_) => Err(TermFault::Memory),
            }
        }
    }
}

fn reflect_all(alloc: Global, one: &One, found: &mut Conclusions) -> Result<(), TermFault>
    requires { IsUsable one.now.c.now }
    ensures { Gathers (SoloGives one.now.order.now one.now.name one.now.c.now) (SoloCan one.now.order.now one.now.c.now) IsWithin (refl_places one.now.c.now) found.old found.new result }
{
    for i in 0..one.c.literals.len() {
        if let Err(fault) = reflect_at(alloc, one, i, found) {
            return Err(fault);
        }
    }
    Ok(())
}

/// Equality factoring of side `s` of literal `i` with side `z` of literal `j`.
fn equate_at(
    alloc: Global,
    one: &One,
    i: usize,
    s: u8,
    j: usize,
    z: u8,
    found: &mut Conclusions,
) -> Result<(), TermFault>
    requires usable { IsUsable one.now.c.now }
    requires in_first { i < length one.now.c.now.literals }
    requires in_second { j < length one.now.c.now.literals }
    requires is_eligible { IsEligible one.now.order.now one.now.c.now i }
    requires side { IsNotLesser one.now.order.now one.now.c.now i s }
    ensures { Gathers (SoloGives one.now.order.now one.now.name one.now.c.now) (SoloCan one.now.order.now one.now.c.now) IsWithin (eqfac i s j z ∷ []) found.old found.new result }
{
    let Some(draft) = equality_factoring(one.c, i, s, j, z) else {
        return Ok(());
    };
    match conclude(alloc, &draft) {
        Err(fault) => Err(fault),
        Ok(None) => Ok(()),
        Ok(Some(concluded)) => {
            let step = Step::EqFac {
                of: one.name,
                i: i as u16,
                s,
                j: j as u16,
                z,
                subst: concluded.subst,
            };
            let clause = concluded.clause;
            match found.push(Conclusion { step, clause }) {
                Ok(()) => Ok(()),
                Err(_) => Err(TermFault::Memory),
            }
        }
    }
}

fn equate_with(
    alloc: Global,
    one: &One,
    i: usize,
    s: u8,
    j: usize,
    found: &mut Conclusions,
) -> Result<(), TermFault>
    requires usable { IsUsable one.now.c.now }
    requires in_first { i < length one.now.c.now.literals }
    requires in_second { j < length one.now.c.now.literals }
    requires is_eligible { IsEligible one.now.order.now one.now.c.now i }
    requires side { IsNotLesser one.now.order.now one.now.c.now i s }
    ensures { Gathers (SoloGives one.now.order.now one.now.name one.now.c.now) (SoloCan one.now.order.now one.now.c.now) IsWithin (eqfacs_with i s j) found.old found.new result }
{
    if let Err(fault) = equate_at(alloc, one, i, s, j, 0, found) {
        return Err(fault);
    }
    equate_at(alloc, one, i, s, j, 1, found)
}

fn equate_from_side(
    alloc: Global,
    one: &One,
    i: usize,
    s: u8,
    found: &mut Conclusions,
) -> Result<(), TermFault>
    requires usable { IsUsable one.now.c.now }
    requires place { i < length one.now.c.now.literals }
    requires is_eligible { IsEligible one.now.order.now one.now.c.now i }
    requires side { IsNotLesser one.now.order.now one.now.c.now i s }
    ensures { Gathers (SoloGives one.now.order.now one.now.name one.now.c.now) (SoloCan one.now.order.now one.now.c.now) IsWithin (eqfacs_of_side one.now.c.now i s) found.old found.new result }
{
    for j in 0..one.c.literals.len() {
        if let Err(fault) = equate_with(alloc, one, i, s, j, found) {
            return Err(fault);
        }
    }
    Ok(())
}

fn equate_of_side(
    alloc: Global,
    one: &One,
    i: usize,
    s: u8,
    found: &mut Conclusions,
) -> Result<(), TermFault>
    requires usable { IsUsable one.now.c.now }
    requires place { i < length one.now.c.now.literals }
    requires is_eligible { IsEligible one.now.order.now one.now.c.now i }
    ensures { Gathers (SoloGives one.now.order.now one.now.name one.now.c.now) (SoloCan one.now.order.now one.now.c.now) IsWithin (eqfacs_of_side one.now.c.now i s) found.old found.new result }
{
    if !is_not_lesser(one.c, i, s, one.order) {
        return Ok(());
    }
    equate_from_side(alloc, one, i, s, found)
}

fn equate_from(alloc: Global, one: &One, i: usize, found: &mut Conclusions) -> Result<(), TermFault>
    requires usable { IsUsable one.now.c.now }
    requires place { i < length one.now.c.now.literals }
    ensures { Gathers (SoloGives one.now.order.now one.now.name one.now.c.now) (SoloCan one.now.order.now one.now.c.now) IsWithin (eqfacs_from one.now.c.now i) found.old found.new result }
{
    if !eligible(one.c, i as u16, one.order) {
        return Ok(());
    }
    if let Err(fault) = equate_of_side(alloc, one, i, 0, found) {
        return Err(fault);
    }
    equate_of_side(alloc, one, i, 1, found)
}

fn equate_all(alloc: Global, one: &One, found: &mut Conclusions) -> Result<(), TermFault>
    requires { IsUsable one.now.c.now }
    ensures { Gathers (SoloGives one.now.order.now one.now.name one.now.c.now) (SoloCan one.now.order.now one.now.c.now) IsWithin (eqfac_places one.now.c.now) found.old found.new result }
{
    for i in 0..one.c.literals.len() {
        if let Err(fault) = equate_from(alloc, one, i, found) {
            return Err(fault);
        }
    }
    Ok(())
}

/// All conclusions of one clause alone, in their order.
pub fn conclude_alone(alloc: Global, one: &One) -> Result<Conclusions, TermFault>
    requires { IsUsable one.now.c.now }
    ensures { SoloAnswers one.now.order.now one.now.name one.now.c.now result }
{
    let mut found = Sequence::new(alloc);
    if let Err(fault) = factor_all(alloc, one, &mut found) {
        return Err(fault);
    }
    if let Err(fault) = reflect_all(alloc, one, &mut found) {
        return Err(fault);
    }
    if let Err(fault) = equate_all(alloc, one, &mut found) {
        return Err(fault);
    }
    Ok(found)
}
