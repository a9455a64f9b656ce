//! Whether a clause is the tidy form of another. No memory is taken.
#![tactic(auto)]

ghost use Rattle.std.specs.Prelude.{◌≡◌, ◌<◌, ◌↔◌, ℕ, [], length, option_map, IsTrue};
ghost use Rattle.std.specs.List.{flat_map};
ghost use Rattle.cd_term.specs.Terms.{variables_of, renamed_by, marked, first_from};
ghost use Rattle.cd_clause.specs.Clauses.{terms_of, atom_changed, literal_changed, IsTidied};
ghost use Rattle.cd_clause.specs.Tidiness.{IsLeftOut, IsClearFrom, AreMarks, AreMarkedAlike, IsBeside};

use crate::sizes::variables;
use crate::tidying::is_superfluous;
use crate::{Atom, Clause, Literal};
use cd_term::{beside, beside_all, same_places, same_places_all};

/// The place behind the last superfluous literal, 0 where there is none.
fn clear_from(literals: &[Literal]) -> usize
    ensures { IsClearFrom result literals.now }
{
    let mut clear = 0;
    for (i, literal) in literals.iter().enumerate() {
        if is_superfluous(&literals[..i], literal) {
            clear = i + 1;
        }
    }
    clear
}

/// The most literals that are marked. A clause within bounds has no more.
const MOST_MARKS: usize = 65_536;

/// Marks which of the first literals are superfluous.
fn mark(literals: &[Literal], marks: &mut [bool])
    ensures { AreMarks marks.new literals.now }
{
    for i in 0..marks.len() {
        marks[i] = i < literals.len() && is_superfluous(&literals[..i], &literals[i]);
    }
}

/// Whether the literal in place `i` is superfluous, where the first ones are marked and none from place `clear`
/// on is.
fn is_left_out(literals: &[Literal], marks: &[bool], i: usize, clear: usize) -> bool
    requires within { i < length literals.now }
    requires marked { AreMarks marks.now literals.now }
    requires rest { IsClearFrom clear literals.now }
    ensures { IsTrue result ↔ (IsLeftOut literals.now i) }
{
    match marks.get(i) {
        Some(is_out) => *is_out,
        None => i < clear && is_superfluous(&literals[..i], &literals[i]),
    }
}

/// Whether two atoms have one shape, and variable `k` stands in the first exactly where variable `n` stands
/// in the second.
fn are_atoms_alike(a: &Atom, k: u32, b: &Atom, n: u64) -> bool
    ensures { IsTrue result ↔ (atom_changed (marked k) a.now ≡ atom_changed (marked n) b.now) }
{
    match (a, b) {
        (Atom::Truth, Atom::Truth) => true,
        (Atom::Pred(p, args), Atom::Pred(q, others)) => *p == *q
            && same_places_all(args.as_slice(), k, others.as_slice(), n),
        (Atom::Equal(s, t), Atom::Equal(u, v)) => same_places(s, k, u, n)
            && same_places(t, k, v, n),
        _ => false,
    }
}

/// The same of two literals.
fn are_literals_alike(l: &Literal, k: u32, m: &Literal, n: u64) -> bool
    ensures { IsTrue result ↔ (literal_changed (marked k) l.now ≡ literal_changed (marked n) m.now) }
{
    l.positive == m.positive && are_atoms_alike(&l.atom, k, &m.atom, n)
}

/// The same of what is left of a list of literals, where the first ones are marked and none from place `clear`
/// on is superfluous, and another list.
fn are_alike(
    literals: &[Literal],
    marks: &[bool],
    clear: usize,
    k: u32,
    others: &[Literal],
    n: u64,
) -> bool
    requires marked { AreMarks marks.now literals.now }
    requires rest { IsClearFrom clear literals.now }
    ensures { IsTrue result ↔ (AreMarkedAlike k n [] literals.now others.now) }
{
    let mut j = 0;
    for (i, literal) in literals.iter().enumerate() {
        if is_left_out(literals, marks, i, clear) {
            continue;
        }
        if j == others.len() {
            return false;
        }
        if !are_literals_alike(literal, k, &others[j], n) {
            return false;
        }
        j += 1;
    }
    j == others.len()
}

/// The variable of an atom at the first place where another one, of which it is a renaming, has a variable of
/// at least `n`; `None` where there is no such place.
fn beside_atom(a: &Atom, b: &Atom, n: u64) -> Option<u32>
    ensures { (q : ℕ → ℕ) → a.now ≡ atom_changed (renamed_by q) b.now → result ≡ option_map q (first_from n (flat_map variables_of (terms_of b.now))) }
{
    match (a, b) {
        (Atom::Pred(_, args), Atom::Pred(_, others)) => beside_all(
            args.as_slice(),
            others.as_slice(),
            n,
        ),
        (Atom::Equal(s, t), Atom::Equal(u, v)) => match beside(s, u, n) {
            Some(k) => Some(k),
            None => beside(t, v, n),
        },
        _ => None,
    }
}

/// The same of what is left of a list of literals, where the first ones are marked and none from place `clear`
/// on is superfluous, and another list.
fn beside_kept(
    literals: &[Literal],
    marks: &[bool],
    clear: usize,
    others: &[Literal],
    n: u64,
) -> Option<u32>
    requires marked { AreMarks marks.now literals.now }
    requires rest { IsClearFrom clear literals.now }
    ensures { IsBeside n literals.now others.now result }
{
    let mut j = 0;
    for (i, literal) in literals.iter().enumerate() {
        if is_left_out(literals, marks, i, clear) {
            continue;
        }
        if j == others.len() {
            return None;
        }
        if let Some(k) = beside_atom(&literal.atom, &others[j].atom, n) {
            return Some(k);
        }
        j += 1;
    }
    None
}

/// Whether `d` is the tidy form of `c`, of whose literals the first ones are marked and none from place `clear`
/// on is superfluous.
fn is_tidied_to(c: &Clause, marks: &[bool], clear: usize, d: &Clause) -> bool
    requires marked { AreMarks marks.now c.now.literals }
    requires rest { IsClearFrom clear c.now.literals }
    ensures { IsTrue result ↔ (IsTidied c.now d.now) }
{
    let literals = c.literals.as_slice();
    let others = d.literals.as_slice();
    let count = variables(d);
    if count == 0 {
        return are_alike(literals, marks, clear, 0, others, 0);
    }
    for n in 0..count {
        let Some(k) = beside_kept(literals, marks, clear, others, n) else {
            return false;
        };
        if !are_alike(literals, marks, clear, k, others, n) {
            return false;
        }
    }
    true
}

/// The same where no literal is marked yet.
fn is_tidied_marked(c: &Clause, clear: usize, d: &Clause) -> bool
    requires { IsClearFrom clear c.now.literals }
    ensures { IsTrue result ↔ (IsTidied c.now d.now) }
{
    let mut marks = [false; MOST_MARKS];
    let literals = c.literals.as_slice();
    if clear >= MOST_MARKS {
        mark(literals, &mut marks);
        return is_tidied_to(c, &marks, clear, d);
    }
    let marks = &mut marks[..clear];
    mark(literals, marks);
    is_tidied_to(c, marks, clear, d)
}

/// Whether `d` is the tidy form of `c`; so a clause is tidy where it is the tidy form of itself.
///
/// No memory is taken. Each literal of `c` is compared with the earlier ones, twice where it stands in front of
/// a superfluous one, and then what is left of `c` with `d`, twice for each variable of `d` and once where it
/// has none.
/// Recurs to the depth of its terms: see 'How deep terms may be' in docs/ARCHITECTURE.md.
pub fn is_tidied(c: &Clause, d: &Clause) -> bool
    ensures { IsTrue result ↔ (IsTidied c.now d.now) }
{
    let clear = clear_from(c.literals.as_slice());
    if clear == 0 {
        return is_tidied_to(c, &[], 0, d);
    }
    is_tidied_marked(c, clear, d)
}
