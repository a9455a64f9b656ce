//! How often the variables of a clause occur again.
#![tactic(auto)]

ghost use Rattle.std.specs.Prelude.{◌≡◌, ◌-◌, ◌^◌, min, sum_by};
ghost use Rattle.cd_term.specs.Terms.{size_of};
ghost use Rattle.cd_kbo.specs.Kbo.{occurrences};
ghost use Rattle.cd_kbo.specs.Sides.{term_of};
ghost use Rattle.cd_kbo.specs.Blocks.{IsNext};
ghost use Rattle.cd_key.specs.Literals.{sides, AreComparable};
ghost use Rattle.cd_key.specs.Repeats.{variable_count, clause_sides, occurrences_in, distinct_of, repeats_of};

use cd_clause::{Atom, Clause};
use cd_kbo::{Side, least_variable, next_variable};

/// The number of occurrences of variables in a term or an atom, which stops at the greatest u64.
fn side_variables(s: Side) -> u64
    ensures { result ≡ min (variable_count (term_of s.entry)) (2 ^ 64 - 1) }
{
    match s {
        Side::Variable(_) => 1,
        Side::Symbol(_, args) => {
            let mut total: u64 = 0;
            for arg in args {
                total = total.saturating_add(side_variables(Side::of(arg)));
            }
            total
        }
    }
}

fn atom_variables(a: &Atom) -> u64
    ensures { result ≡ min (sum_by variable_count (sides a.now)) (2 ^ 64 - 1) }
{
    match a {
        Atom::Truth => 0,
        Atom::Pred(p, args) => side_variables(Side::Symbol(*p, args.as_slice())),
        Atom::Equal(s, t) => {
            side_variables(Side::of(s)).saturating_add(side_variables(Side::of(t)))
        }
    }
}

/// The number of occurrences of variables in a clause.
fn clause_variables(c: &Clause) -> u128
    requires { AreComparable c.now.literals }
    ensures { result ≡ sum_by variable_count (clause_sides c.now.literals) }
{
    let mut total: u128 = 0;
    for literal in c.literals.as_slice() {
        total += u128::from(atom_variables(&literal.atom));
    }
    total
}

/// The least variable of an atom that is no less than `from`.
fn next_in_atom(a: &Atom, from: u64) -> Option<u32>
    ensures { IsNext from (λ k. sum_by (occurrences k) (sides a.now)) result }
{
    match a {
        Atom::Truth => None,
        Atom::Pred(p, args) => next_variable(Side::Symbol(*p, args.as_slice()), from),
        Atom::Equal(s, t) => {
            least_variable(
                next_variable(Side::of(s), from),
                next_variable(Side::of(t), from),
            )
        }
    }
}

/// The least variable of a clause that is no less than `from`.
fn next_in_clause(c: &Clause, from: u64) -> Option<u32>
    ensures { IsNext from (λ k. occurrences_in k c.now.literals) result }
{
    let mut found: Option<u32> = None;
    for literal in c.literals.as_slice() {
        found = least_variable(found, next_in_atom(&literal.atom, from));
    }
    found
}

/// The number of different variables of a clause.
fn distinct_variables(c: &Clause) -> u64
    ensures { result ≡ distinct_of c.now.literals }
{
    let mut from: u64 = 0;
    let mut count: u64 = 0;
    while let Some(n) = next_in_clause(c, from) {
        count += 1;
        from = u64::from(n) + 1;
    }
    count
}

/// The number of occurrences of variables in a clause minus the number of different ones.
pub fn repeats(c: &Clause) -> u128
    requires { AreComparable c.now.literals }
    ensures { result ≡ repeats_of c.now.literals }
{
    clause_variables(c).saturating_sub(u128::from(distinct_variables(c)))
}
