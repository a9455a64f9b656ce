//! The deletion key.
#![tactic(auto)]

ghost use Rattle.std.specs.Prelude.{◌≡◌};
ghost use Rattle.cd_key.specs.Literals.{AreComparable};
ghost use Rattle.cd_key.specs.Keys.{name_key_cmp, key_of, key_compare};

use crate::multisets::sorted_cmp;
use crate::repeats::repeats;
use cd_clause::Clause;
use cd_kbo::Order;
use cd_names::Name;
use std::cmp::Ordering;

/// Compares names, where a missing one is greater than every name.
fn optional_name_cmp(n: Option<Name>, m: Option<Name>) -> Ordering
    ensures { result ≡ name_key_cmp n m }
{
    match (n, m) {
        (None, None) => Ordering::Equal,
        (None, Some(_)) => Ordering::Greater,
        (Some(_), None) => Ordering::Less,
        (Some(n), Some(m)) => n.cmp(&m),
    }
}

/// Compares the key of clause `c` under the name `n` with that of `d` under `m`, by three parts in turn: the
/// ground forms of the literals, sorted downwards, as lists; the number of occurrences of variables minus the
/// number of different ones; and the name, where a missing one is greater than every name. The ground form of
/// a literal is its greater side in the ground order, its sign with negative greater, and its lesser side.
///
/// A clause may delete another only where its key is smaller. Keys under different names are never equal, so of
/// two clauses that could delete each other one stays.
/// Recurs to the depth of its terms: see 'How deep terms may be' in docs/ARCHITECTURE.md.
pub fn key_cmp(c: &Clause, n: Option<Name>, d: &Clause, m: Option<Name>, order: &Order) -> Ordering
    requires left { AreComparable c.now.literals }
    requires right { AreComparable d.now.literals }
    ensures { result ≡ key_compare order.now (key_of c.now n) (key_of d.now m) }
{
    let by_literals = sorted_cmp(c.literals.as_slice(), d.literals.as_slice(), order);
    if by_literals.is_ne() {
        return by_literals;
    }
    let by_repeats = repeats(c).cmp(&repeats(d));
    if by_repeats.is_ne() {
        return by_repeats;
    }
    optional_name_cmp(n, m)
}
