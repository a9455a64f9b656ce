//! Variables in the order of first occurrence, and terms renamed by such an order.
#![tactic(auto)]

ghost use Rattle.std.specs.Prelude.{◌≡◌, ◌<◌, ◌^◌, ◌++◌, ℕ, List, length, IfOk, OnOk, OnErr};
ghost use Rattle.cd_term.specs.Terms.{variables_of, firsts_after, rank, ranked, substituted};

use crate::{Args, Term};
use cd_list::Sequence;
use std::alloc::{AllocError, Global};

/// Notes variables as `note_variables` does; where memory runs out, some may have been noted.
fn note(t: &Term, seen: &mut Sequence<u32>) -> Result<(), AllocError>
    ensures ok { OnOk result (seen.new ≡ firsts_after seen.old (variables_of t.now)) }
    ensures kept { (more : List ℕ) × (seen.new ≡ seen.old ++ more) }
{
    match t {
        Term::Var(k) => {
            if !seen.as_slice().contains(k) {
                seen.push(*k)?;
            }
            Ok(())
        }
        Term::App(_, args) => {
            for arg in args.as_slice() {
                note(arg, seen)?;
            }
            Ok(())
        }
    }
}

/// Adds to a list the variables of a term that aren't in it, each once, in the order of first occurrence
/// from left to right. Where memory runs out the list is as before.
/// Recurs to the depth of its terms: see 'How deep terms may be' in docs/ARCHITECTURE.md.
pub fn note_variables(t: &Term, seen: &mut Sequence<u32>) -> Result<(), AllocError>
    ensures ok { OnOk result (seen.new ≡ firsts_after seen.old (variables_of t.now)) }
    ensures err { OnErr result (seen.new ≡ seen.old) }
{
    let before = seen.len();
    let noted = note(t, seen);
    if noted.is_err() {
        seen.truncate(before);
    }
    noted
}

/// The place of a variable in a list, or the length where it isn't there.
pub fn rank_of(order: &[u32], k: u32) -> usize
    ensures { result ≡ rank order.now k }
{
    for (i, x) in order.iter().enumerate() {
        if *x == k {
            return i;
        }
    }
    order.len()
}

/// The term with each variable renamed to its place in a list, those that aren't there to the length.
/// Recurs to the depth of its terms: see 'How deep terms may be' in docs/ARCHITECTURE.md.
pub fn renamed(alloc: Global, t: &Term, order: &[u32]) -> Result<Term, AllocError>
    requires few { length order.now < 2 ^ 32 }
    ensures { IfOk result (λ u. u ≡ substituted (ranked order.now) t.now) }
{
    match t {
        Term::Var(k) => Ok(Term::Var(rank_of(order, *k) as u32)),
        Term::App(f, args) => {
            let mut values = Args::new(alloc);
            for arg in args.as_slice() {
                values.push(renamed(alloc, arg, order)?)?;
            }
            Ok(Term::App(*f, values))
        }
    }
}
