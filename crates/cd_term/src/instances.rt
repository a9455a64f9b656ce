//! Terms with substitutions applied, compared and measured without being built, and built in lists.
#![tactic(auto)]

ghost use Rattle.std.specs.Prelude.{◌≡◌, ◌↔◌, ◌++◌, ◌<◌, ◌≤◌, length, map, slice_set, IfOk, IfSome, IsTrue, OnOk};
ghost use Rattle.cd_term.specs.declared.Term.TheVariants.{Var};
ghost use Rattle.cd_term.specs.Terms.{applied, AreMeasured};
ghost use Rattle.cd_term.specs.Instances.{IsBeside, MeasuresAround};

use crate::substitution::{measure_applied, substitute, value_at};
use crate::{Args, Term};
use cd_list::Equals;
use std::alloc::{AllocError, Global};

fn is_variable(t: &Term, k: u32) -> bool
    ensures { IsTrue result ↔ (t.now ≡ Var k) }
{
    match t {
        Term::Var(m) => *m == k,
        Term::App(_, _) => false,
    }
}

/// Whether a term with a substitution applied is another term. A variable past the substitution stays as it
/// is. No memory is taken.
pub fn is_applied(t: &Term, s: &[Term], u: &Term) -> bool
    ensures { IsTrue result ↔ (applied s.now t.now ≡ u.now) }
{
    match (t, u) {
        (Term::Var(k), _) => match value_at(s, *k) {
            Some(value) => value.equals(u),
            None => is_variable(u, *k),
        },
        (Term::App(f, args), Term::App(g, others)) => {
            let args = args.as_slice();
            let others = others.as_slice();
            if *f != *g {
                return false;
            }
            if args.len() != others.len() {
                return false;
            }
            for i in 0..args.len() {
                if !is_applied(&args[i], s, &others[i]) {
                    return false;
                }
            }
            true
        }
        _ => false,
    }
}

/// The same of two lists of terms.
pub fn are_applied(ts: &[Term], s: &[Term], us: &[Term]) -> bool
    ensures { IsTrue result ↔ (map (applied s.now) ts.now ≡ us.now) }
{
    if ts.len() != us.len() {
        return false;
    }
    for i in 0..ts.len() {
        if !is_applied(&ts[i], s, &us[i]) {
            return false;
        }
    }
    true
}

/// Whether two terms are equal, each with a substitution of its own applied. No memory is taken.
pub fn same_applied(t: &Term, s: &[Term], u: &Term, r: &[Term]) -> bool
    ensures { IsTrue result ↔ (applied s.now t.now ≡ applied r.now u.now) }
{
    match (t, u) {
        (Term::Var(k), _) => match value_at(s, *k) {
            Some(value) => is_applied(u, r, value),
            None => is_applied(u, r, t),
        },
        (Term::App(_, _), Term::Var(m)) => match value_at(r, *m) {
            Some(value) => is_applied(t, s, value),
            None => false,
        },
        (Term::App(f, args), Term::App(g, others)) => {
            let args = args.as_slice();
            let others = others.as_slice();
            if *f != *g {
                return false;
            }
            if args.len() != others.len() {
                return false;
            }
            for i in 0..args.len() {
                if !same_applied(&args[i], s, &others[i], r) {
                    return false;
                }
            }
            true
        }
    }
}

/// The same of two lists of terms.
pub fn all_same_applied(ts: &[Term], s: &[Term], us: &[Term], r: &[Term]) -> bool
    ensures { IsTrue result ↔ (map (applied s.now) ts.now ≡ map (applied r.now) us.now) }
{
    if ts.len() != us.len() {
        return false;
    }
    for i in 0..ts.len() {
        if !same_applied(&ts[i], s, &us[i], r) {
            return false;
        }
    }
    true
}

/// Whether two lists of terms are the same, the first with a substitution applied, but for what stands in a
/// place of both. No memory is taken.
pub fn is_beside(ts: &[Term], s: &[Term], place: usize, us: &[Term]) -> bool
    ensures { IsTrue result ↔ IsBeside place s.now ts.now us.now }
{
    if ts.len() != us.len() {
        return false;
    }
    if place >= ts.len() {
        return false;
    }
    if !are_applied(&ts[..place], s, &us[..place]) {
        return false;
    }
    are_applied(&ts[place + 1..], s, &us[place + 1..])
}

/// The sizes together that several terms have once a substitution is applied, as [`crate::measure_all`] would
/// tell of the results.
pub fn measure_all_applied(ts: &[Term], s: &[Term], symbols: u64, levels: u64) -> Option<u64>
    ensures { AreMeasured symbols levels (map (applied s.now) ts.now) result }
{
    let mut total: u64 = 0;
    for t in ts {
        let Some(more) = measure_applied(t, s, symbols - total, levels) else {
            return None;
        };
        total += more;
    }
    Some(total)
}

/// The same where the term in a place gave way to another one, of which the size is known.
pub fn measure_around(
    ts: &[Term],
    s: &[Term],
    place: usize,
    inner: u64,
    symbols: u64,
    levels: u64,
) -> Option<u64>
    requires place { place < length ts.now }
    requires room { inner ≤ symbols }
    ensures measure { MeasuresAround symbols levels (map (applied s.now) ts.now) place inner result }
    ensures few { IfSome result (λ n. n ≤ symbols) }
{
    let Some(front) = measure_all_applied(&ts[..place], s, symbols - inner, levels) else {
        return None;
    };
    let room = symbols - inner - front;
    let Some(back) = measure_all_applied(&ts[place + 1..], s, room, levels) else {
        return None;
    };
    Some(inner + front + back)
}

/// Adds terms with a substitution applied to a list, of whatever size.
pub fn push_applied(
    alloc: Global,
    into: &mut Args,
    ts: &[Term],
    s: &[Term],
) -> Result<(), AllocError>
    ensures { OnOk result (into.new ≡ into.old ++ map (applied s.now) ts.now) }
{
    for t in ts {
        into.push(substitute(alloc, t, s)?)?;
    }
    Ok(())
}

/// Several terms with a substitution applied, but with another term in a place, of whatever size.
pub fn apply_around(
    alloc: Global,
    ts: &[Term],
    s: &[Term],
    place: usize,
    inner: Term,
) -> Result<Args, AllocError>
    requires { place < length ts.now }
    ensures { IfOk result (λ us. us ≡ slice_set (map (applied s.now) ts.now) place inner) }
{
    let mut values = Args::new(alloc);
    push_applied(alloc, &mut values, &ts[..place], s)?;
    values.push(inner)?;
    push_applied(alloc, &mut values, &ts[place + 1..], s)?;
    Ok(values)
}
