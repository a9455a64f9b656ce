//! All conclusions of two clauses.
#![tactic(auto)]

ghost use Rattle.std.specs.Prelude.{◌≡◌, ◌<◌, ◌≤◌, ◌↔◌, [], ◌∷◌, length, IsTrue};
ghost use Rattle.cd_term.specs.declared.Term.{Term};
ghost use Rattle.cd_key.specs.Literals.{AreComparable, IsEligible};
ghost use Rattle.cd_infer.specs.Listed.{Gathers};
ghost use Rattle.cd_infer.specs.Marks.{AreMarked};
ghost use Rattle.cd_infer.specs.Paths.{walked, paths_from};
ghost use Rattle.cd_infer.specs.Conclusions.{PairGives, PairCan, IsWithin, IsGiving, IsPairable, IsNotLesser, HasSideAt, PairAnswers, para, paras_into, paras_of_side, paras_from, para_places};

use crate::Conclusions;
use crate::marks::{Marks, eligible, is_used};
use crate::paramodulating::{Places, walk};
use crate::resolving::{Two, resolve_all};
use cd_clause::{Atom, Clause, sides_of};
use cd_kbo::{Order, greater};
use cd_list::Sequence;
use cd_term::{Term, TermFault};
use std::alloc::Global;
use std::slice::from_ref;

/// Whether literal `i` is an equation with a side `s` than which the other side isn't greater.
pub fn is_not_lesser(c: &Clause, i: usize, s: u8, order: &Order) -> bool
    requires place { i < length c.now.literals }
    requires literals { AreComparable c.now.literals }
    ensures { IsTrue result ↔ IsNotLesser order.now c.now i s }
{
    let Some(literal) = c.literals.get(i) else {
        return false;
    };
    let Some((side, other)) = sides_of(&literal.atom, s) else {
        return false;
    };
    !greater(other, side, order)
}

/// Paramodulation into one side of literal `j` of the second clause.
fn para_into_side(
    alloc: Global,
    two: &Two,
    marks: &Marks,
    places: Places,
    z: u8,
    side: &Term,
    found: &mut Conclusions,
) -> Result<(), TermFault>
    requires giving { IsGiving two.now.order.now two.now.a.now two.now.b.now places.i places.s places.j }
    requires stands { (other : Term) × HasSideAt two.now.b.now places.j z side.now other }
    requires marks { AreMarked two.now.order.now two.now.a.now two.now.b.now marks.now }
    ensures { Gathers (PairGives two.now.order.now two.now.a_name two.now.a.now two.now.b_name two.now.b.now) (PairCan two.now.order.now two.now.a.now two.now.b.now) IsWithin (walked (para places.i places.s places.j) [] (paths_from z (side.now ∷ []))) found.old found.new result }
{
    if !is_used(two.b, places.j, z, two.order, marks.second) {
        return Ok(());
    }
    let mut path = Sequence::new(alloc);
    walk(
        alloc,
        two,
        places,
        from_ref(side),
        u16::from(z),
        &mut path,
        found,
    )
}

/// Paramodulation into literal `j` of the second clause.
fn para_into(
    alloc: Global,
    two: &Two,
    marks: &Marks,
    places: Places,
    found: &mut Conclusions,
) -> Result<(), TermFault>
    requires giving { IsGiving two.now.order.now two.now.a.now two.now.b.now places.i places.s places.j }
    requires marks { AreMarked two.now.order.now two.now.a.now two.now.b.now marks.now }
    ensures { Gathers (PairGives two.now.order.now two.now.a_name two.now.a.now two.now.b_name two.now.b.now) (PairCan two.now.order.now two.now.a.now two.now.b.now) IsWithin (paras_into two.now.b.now places.i places.s places.j) found.old found.new result }
{
    let Some(taker) = two.b.literals.get(places.j) else {
        return Ok(());
    };
    match &taker.atom {
        Atom::Truth => Ok(()),
        Atom::Pred(_, args) => {
            let mut path = Sequence::new(alloc);
            walk(alloc, two, places, args.as_slice(), 0, &mut path, found)
        }
        Atom::Equal(left, right) => {
            if let Err(fault) = para_into_side(alloc, two, marks, places, 0, left, found) {
                return Err(fault);
            }
            para_into_side(alloc, two, marks, places, 1, right, found)
        }
    }
}

/// Paramodulation from side `s` of literal `i` of the first clause, which isn't the lesser one.
fn para_from_side(
    alloc: Global,
    two: &Two,
    marks: &Marks,
    i: usize,
    s: u8,
    found: &mut Conclusions,
) -> Result<(), TermFault>
    requires pairable { IsPairable two.now.a.now two.now.b.now }
    requires place { i < 65536 }
    requires giver { IsEligible two.now.order.now two.now.a.now i }
    requires side { IsNotLesser two.now.order.now two.now.a.now i s }
    requires marks { AreMarked two.now.order.now two.now.a.now two.now.b.now marks.now }
    ensures { Gathers (PairGives two.now.order.now two.now.a_name two.now.a.now two.now.b_name two.now.b.now) (PairCan two.now.order.now two.now.a.now two.now.b.now) IsWithin (paras_of_side two.now.b.now i s) found.old found.new result }
{
    for j in 0..two.b.literals.len() {
        if !eligible(two.b, j, two.order, marks.second) {
            continue;
        }
        if let Err(fault) = para_into(alloc, two, marks, Places { i, s, j }, found) {
            return Err(fault);
        }
    }
    Ok(())
}

/// Paramodulation from side `s` of literal `i` of the first clause.
fn para_of_side(
    alloc: Global,
    two: &Two,
    marks: &Marks,
    i: usize,
    s: u8,
    found: &mut Conclusions,
) -> Result<(), TermFault>
    requires pairable { IsPairable two.now.a.now two.now.b.now }
    requires place { i < length two.now.a.now.literals }
    requires small { s < 2 }
    requires giver { IsEligible two.now.order.now two.now.a.now i }
    requires marks { AreMarked two.now.order.now two.now.a.now two.now.b.now marks.now }
    ensures { Gathers (PairGives two.now.order.now two.now.a_name two.now.a.now two.now.b_name two.now.b.now) (PairCan two.now.order.now two.now.a.now two.now.b.now) IsWithin (paras_of_side two.now.b.now i s) found.old found.new result }
{
    if !is_used(two.a, i, s, two.order, marks.first) {
        return Ok(());
    }
    para_from_side(alloc, two, marks, i, s, found)
}

/// Paramodulation from literal `i` of the first clause.
fn para_from(
    alloc: Global,
    two: &Two,
    marks: &Marks,
    i: usize,
    found: &mut Conclusions,
) -> Result<(), TermFault>
    requires pairable { IsPairable two.now.a.now two.now.b.now }
    requires place { i < length two.now.a.now.literals }
    requires marks { AreMarked two.now.order.now two.now.a.now two.now.b.now marks.now }
    ensures { Gathers (PairGives two.now.order.now two.now.a_name two.now.a.now two.now.b_name two.now.b.now) (PairCan two.now.order.now two.now.a.now two.now.b.now) IsWithin (paras_from two.now.b.now i) found.old found.new result }
{
    if !eligible(two.a, i, two.order, marks.first) {
        return Ok(());
    }
    if let Err(fault) = para_of_side(alloc, two, marks, i, 0, found) {
        return Err(fault);
    }
    para_of_side(alloc, two, marks, i, 1, found)
}

/// Paramodulation from each literal of the first clause.
fn para_all(
    alloc: Global,
    two: &Two,
    marks: &Marks,
    found: &mut Conclusions,
) -> Result<(), TermFault>
    requires pairable { IsPairable two.now.a.now two.now.b.now }
    requires marks { AreMarked two.now.order.now two.now.a.now two.now.b.now marks.now }
    ensures { Gathers (PairGives two.now.order.now two.now.a_name two.now.a.now two.now.b_name two.now.b.now) (PairCan two.now.order.now two.now.a.now two.now.b.now) IsWithin (para_places two.now.a.now two.now.b.now) found.old found.new result }
{
    for i in 0..two.a.literals.len() {
        if let Err(fault) = para_from(alloc, two, marks, i, found) {
            return Err(fault);
        }
    }
    Ok(())
}

/// All conclusions of two clauses, in their order.
pub fn conclude_both(alloc: Global, two: &Two, marks: &Marks) -> Result<Conclusions, TermFault>
    requires pairable { IsPairable two.now.a.now two.now.b.now }
    requires marks { AreMarked two.now.order.now two.now.a.now two.now.b.now marks.now }
    ensures { PairAnswers two.now.order.now two.now.a_name two.now.a.now two.now.b_name two.now.b.now result }
{
    let mut found = Sequence::new(alloc);
    if let Err(fault) = resolve_all(alloc, two, marks, &mut found) {
        return Err(fault);
    }
    if let Err(fault) = para_all(alloc, two, marks, &mut found) {
        return Err(fault);
    }
    Ok(found)
}
