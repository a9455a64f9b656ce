//! Subterms looked at and replaced.
#![tactic(auto)]

ghost use Rattle.std.specs.Prelude.{◌≡◌, ◌↔◌, ◌≤◌, Some, IfOk, IfSome, IsSomeAnd, IsTrue};
ghost use Rattle.std.specs.Option.{option_copied};
ghost use Rattle.cd_term.specs.Terms.{subterm, replaced, IsMeasureOf, IsWithinLimits};
ghost use Rattle.cd_term.specs.Instances.{replaced_under};

use crate::instances::{apply_around, is_applied, is_beside, measure_around};
use crate::limits::{MAX_LEVELS, MAX_SYMBOLS};
use crate::substitution::{measure_applied, substitute};
use crate::{Path, Term, TermFault};
use std::alloc::{AllocError, Global};

/// The subterm at a path, or `None` exactly where the path leads out of the term. No memory is taken.
pub fn at<'a>(t: &'a Term, path: &Path) -> Option<&'a Term>
    ensures { option_copied result ≡ subterm path.now t.now }
{
    at_steps(t, path.as_slice())
}

/// The same where the path is a list of steps.
#[tactic(auto, using(crate::proofs::Paths::place_rules))]
pub fn at_steps<'a>(t: &'a Term, path: &[u16]) -> Option<&'a Term>
    ensures { option_copied result ≡ subterm path.now t.now }
{
    let mut here = t;
    for step in path {
        match here {
            Term::Var(_) => return None,
            Term::App(_, args) => match args.get(usize::from(*step)) {
                None => return None,
                Some(arg) => here = arg,
            },
        }
    }
    Some(here)
}

/// Whether `u` is `t` with `r` applied, but for the subterm of `t` at a path, which gave way to `new` with `s`
/// applied. No memory is taken.
pub fn is_replaced(t: &Term, r: &[Term], path: &[u16], new: &Term, s: &[Term], u: &Term) -> bool
    ensures { IsTrue result ↔ (replaced_under r.now s.now path.now new.now t.now ≡ Some u.now) }
{
    let Some((first, rest)) = path.split_first() else {
        return is_applied(new, s, u);
    };
    match (t, u) {
        (Term::App(f, args), Term::App(g, others)) => {
            let place = usize::from(*first);
            let args = args.as_slice();
            let others = others.as_slice();
            if *f != *g {
                return false;
            }
            if !is_beside(args, r, place, others) {
                return false;
            }
            is_replaced(&args[place], r, rest, new, s, &others[place])
        }
        _ => false,
    }
}

/// The size of `t` with `r` applied, but with the subterm of `t` at a path replaced by `new` with `s` applied,
/// as [`crate::measure`] would tell of the result, which isn't built; `None` also where the path leads out of
/// the term.
pub fn measure_replaced(
    t: &Term,
    r: &[Term],
    path: &[u16],
    new: &Term,
    s: &[Term],
    symbols: u64,
    levels: u64,
) -> Option<u64>
    ensures measure { IsMeasureOf symbols levels (replaced_under r.now s.now path.now new.now t.now) result }
    ensures few { IfSome result (λ n. n ≤ symbols) }
{
    let Some((first, rest)) = path.split_first() else {
        return measure_applied(new, s, symbols, levels);
    };
    if symbols == 0 || levels == 0 {
        return None;
    }
    match t {
        Term::Var(_) => None,
        Term::App(_, args) => {
            let place = usize::from(*first);
            let Some(arg) = args.get(place) else {
                return None;
            };
            let room = symbols - 1;
            let Some(inner) = measure_replaced(arg, r, rest, new, s, room, levels - 1) else {
                return None;
            };
            let items = args.as_slice();
            let Some(all) = measure_around(items, r, place, inner, room, levels - 1) else {
                return None;
            };
            Some(1 + all)
        }
    }
}

/// The term `t` with `r` applied, but with the subterm of `t` at a path replaced by `new` with `s` applied, of
/// whatever size; `None` exactly where the path leads out of the term.
pub fn substitute_replaced(
    alloc: Global,
    t: &Term,
    r: &[Term],
    path: &[u16],
    new: &Term,
    s: &[Term],
) -> Result<Option<Term>, AllocError>
    ensures { IfOk result (λ v. v ≡ replaced_under r.now s.now path.now new.now t.now) }
{
    let Some((first, rest)) = path.split_first() else {
        return Ok(Some(substitute(alloc, new, s)?));
    };
    match t {
        Term::Var(_) => Ok(None),
        Term::App(f, args) => {
            let place = usize::from(*first);
            let Some(arg) = args.get(place) else {
                return Ok(None);
            };
            let Some(inner) = substitute_replaced(alloc, arg, r, rest, new, s)? else {
                return Ok(None);
            };
            Ok(Some(Term::App(*f, apply_around(alloc, args.as_slice(), r, place, inner)?)))
        }
    }
}

/// The term with another subterm at a path, or `None` exactly where the path leads out of the term.
/// `OutOfBounds` exactly where the result would have more than 65,535 symbols and variables or more than
/// 1,000 levels; this is found before anything is built. The subterm that is taken out doesn't count.
/// Recurs to the depth of its terms: see 'How deep terms may be' in docs/ARCHITECTURE.md.
pub fn replace(alloc: Global, t: &Term, path: &Path, new: &Term) -> Result<Option<Term>, TermFault>
    ensures value { IfOk result (λ v. v ≡ replaced path.now new.now t.now) }
    ensures within { IfOk result (λ v. IfSome v IsWithinLimits) }
    ensures outside { (result ≡ Ok None) ↔ (subterm path.now t.now ≡ None) }
    ensures refused { (result ≡ Err TermFault.OutOfBounds)
        ↔ IsSomeAnd (replaced path.now new.now t.now) (λ v. ¬ IsWithinLimits v) }
{
    let Some(_) = at(t, path) else {
        return Ok(None);
    };
    let none: [Term; 0] = [];
    let none = none.as_slice();
    let steps = path.as_slice();
    let Some(_) = measure_replaced(t, none, steps, new, none, MAX_SYMBOLS, MAX_LEVELS) else {
        return Err(TermFault::OutOfBounds);
    };
    Ok(substitute_replaced(alloc, t, none, steps, new, none)?)
}
