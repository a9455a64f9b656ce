//! Substitutions applied to terms.
#![tactic(auto)]

ghost use Rattle.std.specs.Prelude.{◌≡◌, ◌≤◌, ◌↔◌, length, slice_get, IfOk};
ghost use Rattle.std.specs.Option.{option_copied};
ghost use Rattle.cd_term.specs.Terms.{applied, bound_of, IsMeasure, IsWithinLimits};

use crate::limits::{MAX_LEVELS, MAX_SYMBOLS, measure};
use crate::{Args, Subst, Term, TermFault};
use cd_list::Copied;
use std::alloc::{AllocError, Global};

/// The value of a variable, or `None` past the substitution.
pub(crate) fn value_at(s: &[Term], k: u32) -> Option<&Term>
    ensures { option_copied result ≡ slice_get s.now k }
{
    s.get(k as usize)
}

/// The size that a term has once a substitution is applied, as [`measure`] would tell of the result. The
/// result isn't built, no memory is taken, and of a large one no more than `symbols` symbols and `levels`
/// levels are looked at. A variable past the substitution stays as it is.
/// Recurs to the depth of its terms: see 'How deep terms may be' in docs/ARCHITECTURE.md.
pub fn measure_applied(t: &Term, s: &[Term], symbols: u64, levels: u64) -> Option<u64>
    ensures { IsMeasure symbols levels (applied s.now t.now) result }
{
    if symbols == 0 || levels == 0 {
        return None;
    }
    match t {
        Term::Var(k) => match value_at(s, *k) {
            Some(value) => measure(value, symbols, levels),
            None => Some(1),
        },
        Term::App(_, args) => {
            let mut total: u64 = 1;
            for arg in args.as_slice() {
                let Some(more) = measure_applied(arg, s, symbols - total, levels - 1) else {
                    return None;
                };
                total += more;
            }
            Some(total)
        }
    }
}

/// The term with each variable replaced by its value, of whatever size. A variable past the substitution
/// stays as it is.
/// Recurs to the depth of its terms: see 'How deep terms may be' in docs/ARCHITECTURE.md.
pub fn substitute(alloc: Global, t: &Term, s: &[Term]) -> Result<Term, AllocError>
    ensures { IfOk result (λ u. u ≡ applied s.now t.now) }
{
    match t {
        Term::Var(k) => match value_at(s, *k) {
            Some(value) => value.copy(alloc),
            None => Ok(Term::Var(*k)),
        },
        Term::App(f, args) => {
            let mut values = Args::new(alloc);
            for arg in args.as_slice() {
                values.push(substitute(alloc, arg, s)?)?;
            }
            Ok(Term::App(*f, values))
        }
    }
}

/// The term with each variable replaced by its value. `OutOfBounds` exactly where the result would have more
/// than 65,535 symbols and variables or more than 1,000 levels; this is found before anything is built.
/// Recurs to the depth of its terms: see 'How deep terms may be' in docs/ARCHITECTURE.md.
pub fn apply(alloc: Global, t: &Term, s: &Subst) -> Result<Term, TermFault>
    requires covered { bound_of t.now ≤ length s.now }
    ensures value { IfOk result (λ u. u ≡ applied s.now t.now) }
    ensures within { IfOk result IsWithinLimits }
    ensures refused { (result ≡ Err TermFault.OutOfBounds) ↔ (¬ IsWithinLimits (applied s.now t.now)) }
{
    let Some(_) = measure_applied(t, s.as_slice(), MAX_SYMBOLS, MAX_LEVELS) else {
        return Err(TermFault::OutOfBounds);
    };
    Ok(substitute(alloc, t, s.as_slice())?)
}
