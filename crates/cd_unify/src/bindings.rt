//! Values bound to the variables of terms one after another, and taken back along a trail.
#![tactic(auto)]

ghost use Rattle.std.specs.Prelude.{◌≡◌, ◌≤◌, [], ℕ, length, map, take, drop, slice_index_or, None, IfOk};
ghost use Rattle.std.specs.Option.{option_copied};
ghost use Rattle.cd_term.specs.declared.Term.{Term};
ghost use Rattle.cd_term.specs.Terms.{bound_of, greatest, value_of};
ghost use Rattle.cd_unify.specs.Unifiers.{Fits};
ghost use Rattle.cd_unify.specs.Bindings.{values_in, room_in, trail_in, unbound, IsNoted, Binds, TermBinds, ListBinds};

use cd_list::{Copied, Equals};
use cd_term::{Subst, Term};
use std::alloc::{AllocError, Global};

/// The values of some variables, and the order in which they got them. A value is borrowed from a term that an
/// instance has to be equal to.
///
/// Where a search goes back, [`Bindings::undo`] takes back the last values, and nothing is copied.
#[derive(Drop)]
pub struct Bindings<'a> {
    values: Vec<Option<&'a Term>>,
    trail: Vec<u32>,
}

impl<'a> Bindings<'a> {
    /// A place for each variable below a number, with no value yet.
    pub fn new(alloc: Global, vars: u64) -> Result<Bindings<'a>, AllocError>
        ensures covers { IfOk result (λ b. room_in b ≡ vars) }
        ensures free { IfOk result (λ b. (g : ℕ → Term) → Fits g (values_in b)) }
        ensures trail { IfOk result (λ b. trail_in b ≡ []) }
    {
        let values = no_values(alloc, vars)?;
        Ok(Bindings {
            values,
            trail: Vec::new(alloc),
        })
    }

    /// How many variables have values: where [`Bindings::undo`] goes back to.
    pub fn mark(&self) -> usize
        ensures { result ≡ length (trail_in self.now) }
    {
        self.trail.len()
    }

    /// Binds the variables of a term so that it becomes another one. Where there is no way, some variables may have
    /// got values all the same.
    pub fn bind(&mut self, general: &Term, special: &'a Term) -> Result<bool, AllocError>
        ensures covers { room_in self.new ≡ room_in self.old }
        ensures fits { IfOk result (λ answer. bound_of general.now ≤ room_in self.old →
            Binds (TermBinds general.now special.now) (values_in self.old) (values_in self.new) answer) }
        ensures noted { IfOk result (λ answer. IsNoted self.old self.new) }
    {
        match (general, special) {
            (Term::Var(k), _) => {
                let place = *k as usize;
                if place >= self.values.len() {
                    return Ok(false);
                }
                match self.values[place] {
                    None => {
                        self.trail.push(*k)?;
                        self.values[place] = Some(special);
                        Ok(true)
                    }
                    Some(value) => Ok(value.equals(special)),
                }
            }
            (Term::App(f, args), Term::App(g, others)) => {
                if *f != *g || args.len() != others.len() {
                    return Ok(false);
                }
                let others = others.as_slice();
                for (i, arg) in args.as_slice().iter().enumerate() {
                    if !self.bind(arg, &others[i])? {
                        return Ok(false);
                    }
                }
                Ok(true)
            }
            _ => Ok(false),
        }
    }

    /// The same of several terms.
    pub fn bind_all(&mut self, general: &[Term], special: &'a [Term]) -> Result<bool, AllocError>
        ensures covers { room_in self.new ≡ room_in self.old }
        ensures fits { IfOk result (λ answer. greatest (map bound_of general.now) ≤ room_in self.old →
            Binds (ListBinds general.now special.entry.now) (values_in self.old) (values_in self.new) answer) }
        ensures noted { IfOk result (λ answer. IsNoted self.old self.new) }
    {
        if general.len() != special.len() {
            return Ok(false);
        }
        for (i, term) in general.iter().enumerate() {
            if !self.bind(term, &special[i])? {
                return Ok(false);
            }
        }
        Ok(true)
    }

    /// Takes back the values of all variables but the first `mark` that got theirs.
    pub fn undo(&mut self, mark: usize)
        ensures covers { room_in self.new ≡ room_in self.old }
        ensures back { values_in self.new ≡ unbound (drop mark (trail_in self.old)) (values_in self.old) }
        ensures shorter { trail_in self.new ≡ take mark (trail_in self.old) }
    {
        while self.trail.len() > mark {
            if let Some(k) = self.trail.pop() {
                let place = k as usize;
                if place < self.values.len() {
                    self.values[place] = None;
                }
            }
        }
    }

    /// Copies of the values. A variable without one gets any term.
    pub fn subst(&self, alloc: Global) -> Result<Subst, AllocError>
        ensures covers { IfOk result (λ s. length s ≡ room_in self.now) }
        ensures fits { IfOk result (λ s. Fits (value_of s) (values_in self.now)) }
    {
        let mut terms = Subst::new(alloc);
        for value in self.values.as_slice() {
            match value {
                None => terms.push(Term::Var(0))?,
                Some(term) => terms.push(term.copy(alloc)?)?,
            }
        }
        Ok(terms)
    }
}

/// A place for each variable below a number, with no value yet.
fn no_values<'a>(alloc: Global, vars: u64) -> Result<Vec<Option<&'a Term>>, AllocError>
    ensures covers { IfOk result (λ values. length values.items ≡ vars) }
    ensures none { IfOk result (λ values. (k : ℕ) → slice_index_or (map option_copied values.items) k None ≡ None) }
{
    let mut values: Vec<Option<&'a Term>> = Vec::new(alloc);
    for _ in 0..vars {
        values.push(None)?;
    }
    Ok(values)
}
