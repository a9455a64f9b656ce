//! Terms compared up to the names of their variables, one variable at a time. No memory is taken.
#![tactic(auto)]

ghost use Rattle.std.specs.Prelude.{◌≡◌, ◌↔◌, ℕ, map, option_map, IsTrue};
ghost use Rattle.std.specs.List.{flat_map};
ghost use Rattle.cd_term.specs.Terms.{variables_of, renamed_by, marked, first_from};

use crate::Term;

/// Whether two terms have one shape, and variable `k` stands in the first exactly where variable `m` stands
/// in the second.
/// Recurs to the depth of its terms: see 'How deep terms may be' in docs/ARCHITECTURE.md.
pub fn same_places(t: &Term, k: u32, u: &Term, m: u64) -> bool
    ensures { IsTrue result ↔ (marked k t.now ≡ marked m u.now) }
{
    match (t, u) {
        (Term::Var(a), Term::Var(b)) => (*a == k) == (u64::from(*b) == m),
        (Term::App(f, args), Term::App(g, others)) => {
            let args = args.as_slice();
            let others = others.as_slice();
            if *f != *g {
                return false;
            }
            if args.len() != others.len() {
                return false;
            }
            for i in 0..args.len() {
                if !same_places(&args[i], k, &others[i], m) {
                    return false;
                }
            }
            true
        }
        _ => false,
    }
}

/// The same of two lists of terms.
/// Recurs to the depth of its terms: see 'How deep terms may be' in docs/ARCHITECTURE.md.
pub fn same_places_all(ts: &[Term], k: u32, us: &[Term], m: u64) -> bool
    ensures { IsTrue result ↔ (map (marked k) ts.now ≡ map (marked m) us.now) }
{
    if ts.len() != us.len() {
        return false;
    }
    for i in 0..ts.len() {
        if !same_places(&ts[i], k, &us[i], m) {
            return false;
        }
    }
    true
}

/// The variable of the first term at the first place where the second one, whose shape is the same, has a
/// variable of at least `n`; `None` where there is no such place.
/// Recurs to the depth of its terms: see 'How deep terms may be' in docs/ARCHITECTURE.md.
pub fn beside(t: &Term, u: &Term, n: u64) -> Option<u32>
    ensures { (q : ℕ → ℕ) → t.now ≡ renamed_by q u.now → result ≡ option_map q (first_from n (variables_of u.now)) }
{
    match (t, u) {
        (Term::Var(k), Term::Var(m)) => { if u64::from(*m) < n { None } else { Some(*k) } }
        (Term::App(_, args), Term::App(_, others)) => {
            let args = args.as_slice();
            let others = others.as_slice();
            if args.len() != others.len() {
                return None;
            }
            for i in 0..args.len() {
                if let Some(k) = beside(&args[i], &others[i], n) {
                    return Some(k);
                }
            }
            None
        }
        _ => None,
    }
}

/// The same of two lists of terms.
/// Recurs to the depth of its terms: see 'How deep terms may be' in docs/ARCHITECTURE.md.
pub fn beside_all(ts: &[Term], us: &[Term], n: u64) -> Option<u32>
    ensures { (q : ℕ → ℕ) → ts.now ≡ map (renamed_by q) us.now → result ≡ option_map q (first_from n (flat_map variables_of us.now)) }
{
    if ts.len() != us.len() {
        return None;
    }
    for i in 0..ts.len() {
        if let Some(k) = beside(&ts[i], &us[i], n) {
            return Some(k);
        }
    }
    None
}
