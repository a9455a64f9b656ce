//! The search for picks, one literal after another.
//!
//! The picks that are made stand on a stack, and the values that they bind on a trail, so that a pick is taken back
//! without a copy of the values. No call recurs, however many literals there are. A literal with few partners goes
//! first, and one without any ends the search at once. All the same the time is exponential in the number of literals
//! at worst, as that of each known search for subsumption.
#![tactic(auto)]

ghost use Rattle.std.specs.Prelude.{◌≡◌, ◌≤◌, ◌<◌, ℕ, length, replicate, [], IfOk, MatchOption, OnOk, false, true, List};
ghost use Rattle.cd_term.specs.declared.Term.{Term};
ghost use Rattle.cd_unify.specs.Unifiers.{Fits};
ghost use Rattle.cd_unify.specs.Bindings.{values_in, room_in, trail_in};
ghost use Rattle.cd_subsume.specs.declared.picks.Pick.{Pick};
ghost use Rattle.cd_subsume.specs.Picks.{code_of};
ghost use Rattle.cd_subsume.specs.Subsumption.{ArePicked, IsSubsumption};
ghost use Rattle.cd_subsume.specs.Search.{Searches, AreBounded, AreGoals, left_of};

use crate::literals::bind_literal;
use crate::partners::{Goal, fewest, goals_of};
use crate::picks::Pick;
use cd_clause::{Clause, Literal, variables};
use cd_term::Subst;
use cd_unify::Bindings;
use std::alloc::{AllocError, Global};

/// A literal with its pick, and how long the trail was before it.
#[derive(Clone, Copy, Debug)]
pub struct Chosen {
    pub literal: usize,
    pub pick: Pick,
    pub mark: usize,
}

/// Where a search stands: the values of the variables, the literals in the order in which they get their picks, the
/// picks of the first ones, the places of these picks, and the pick that is tried for the next literal.
#[derive(Drop)]
struct Search<'c> {
    bindings: Bindings<'c>,
    goals: Vec<Goal>,
    chosen: Vec<Chosen>,
    taken: Vec<bool>,
    next: Pick,
}

impl<'c> Search<'c> {
    /// Puts a literal with few partners in the place of the next one.
    fn choose(&mut self, ls: &[Literal], ms: &'c [Literal]) -> Result<(), AllocError>
        requires start { code_of self.old.next ≡ 0 }
        requires searching { Searches ls.now ms.now self.old }
        ensures covers { room_in self.new.bindings ≡ room_in self.old.bindings }
        ensures searching { OnOk result (Searches ls.now ms.entry.now self.new) }
        ensures same { (self.new.chosen.items ≡ self.old.chosen.items) × (self.new.next ≡ self.old.next) }
    {
        let from = self.chosen.len();
        if ls.len() <= from + 1 {
            return Ok(());
        }
        let best = fewest(
            self.goals.as_slice(),
            from,
            ls,
            ms,
            self.taken.as_slice(),
            &mut self.bindings,
        )?;
        self.goals.swap(from, best);
        Ok(())
    }

    /// Tries the next pick for the next literal.
    fn forth(&mut self, ls: &[Literal], ms: &'c [Literal]) -> Result<(), AllocError>
        requires literal { length self.old.chosen.items < length ls.now }
        requires place { self.old.next.place < length ms.now }
        requires searching { Searches ls.now ms.now self.old }
        ensures covers { room_in self.new.bindings ≡ room_in self.old.bindings }
        ensures searching { OnOk result (Searches ls.now ms.entry.now self.new) }
        ensures shorter { OnOk result (left_of (length ls.now) (length ms.entry.now) self.new.chosen.items self.new.next
            < left_of (length ls.now) (length ms.entry.now) self.old.chosen.items self.old.next) }
    {
        let next = self.next;
        let literal = self.goals[self.chosen.len()].literal;
        if self.taken[next.place] {
            self.next = next.next();
            return Ok(());
        }
        let mark = self.bindings.mark();
        if !bind_literal(
            &ls[literal],
            &ms[next.place],
            next.is_exchanged,
            &mut self.bindings,
        )? {
            self.next = next.next();
            return Ok(());
        }
        self.taken[next.place] = true;
        self.chosen.push(Chosen {
            literal,
            pick: next,
            mark,
        })?;
        self.next = Pick::first();
        self.choose(ls, ms)?;
        Ok(())
    }

    /// Takes back the last pick, where the next literal has none left; whether there was one.
    fn back(&mut self, ls: &[Literal], ms: &[Literal]) -> bool
        requires literal { length self.old.chosen.items < length ls.now }
        requires place { length ms.now ≤ self.old.next.place }
        requires searching { Searches ls.now ms.now self.old }
        ensures covers { room_in self.new.bindings ≡ room_in self.old.bindings }
        ensures searching { result ≡ true → Searches ls.now ms.now self.new }
        ensures shorter { result ≡ true → left_of (length ls.now) (length ms.now) self.new.chosen.items self.new.next
            < left_of (length ls.now) (length ms.now) self.old.chosen.items self.old.next }
        ensures over { result ≡ false → (g : ℕ → Term) (picks : List Pick) → ¬ ArePicked g ls.now ms.now picks }
    {
        let Some(last) = self.chosen.pop() else {
            return false;
        };
        self.bindings.undo(last.mark);
        self.taken[last.pick.place] = false;
        self.next = last.pick.next();
        true
    }
}

/// So many places that aren't taken.
fn untaken(alloc: Global, places: usize) -> Result<Vec<bool>, AllocError>
    ensures { IfOk result (λ taken. taken.items ≡ replicate places false) }
{
    let mut taken: Vec<bool> = Vec::new(alloc);
    for _ in 0..places {
        taken.push(false)?;
    }
    Ok(taken)
}

/// The values that make literals instances of others, where they can be.
fn picked_values<'c>(
    alloc: Global,
    ls: &[Literal],
    ms: &'c [Literal],
    goals: Vec<Goal>,
    bindings: Bindings<'c>,
) -> Result<Option<Bindings<'c>>, AllocError>
    requires goals { AreGoals (length ls.now) goals.items }
    requires free { (g : ℕ → Term) → Fits g (values_in bindings) }
    requires trail { trail_in bindings ≡ [] }
    requires bounded { AreBounded ls.now (room_in bindings) }
    ensures { IfOk result (λ o. MatchOption o ((g : ℕ → Term) (picks : List Pick) → ¬ ArePicked g ls.now ms.entry.now picks)
        (λ b. (room_in b ≡ room_in bindings.entry)
        × ((picks : List Pick) × ((g : ℕ → Term) → Fits g (values_in b) → ArePicked g ls.now ms.entry.now picks)))) }
{
    let mut search = Search {
        bindings,
        goals,
        chosen: Vec::new(alloc),
        taken: untaken(alloc, ms.len())?,
        next: Pick::first(),
    };
    search.choose(ls, ms)?;
    while search.chosen.len() < ls.len() {
        if search.next.place < ms.len() {
            search.forth(ls, ms)?;
            continue;
        }
        if !search.back(ls, ms) {
            return Ok(None);
        }
    }
    Ok(Some(search.bindings))
}

/// A substitution by which clause `d` subsumes clause `c`, with a term for each variable of `d`, or `None` exactly
/// where there is none. The variables of `c` stay as they are, also where their numbers are those of variables of `d`.
pub fn subsumes(alloc: Global, d: &Clause, c: &Clause) -> Result<Option<Subst>, AllocError>
    ensures { IfOk result (IsSubsumption d.now c.now) }
{
    let ls = d.literals.as_slice();
    let ms = c.literals.as_slice();
    let Some(goals) = goals_of(alloc, ls, ms)? else {
        return Ok(None);
    };
    let bindings = Bindings::new(alloc, variables(d))?;
    let Some(values) = picked_values(alloc, ls, ms, goals, bindings)? else {
        return Ok(None);
    };
    Ok(Some(values.subst(alloc)?))
}
