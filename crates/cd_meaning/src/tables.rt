//! Whether tables are those of an interpretation, and what stands in them.
#![tactic(auto)]

ghost use Rattle.std.specs.Prelude.{◌≡◌, ◌<◌, ◌≤◌, ◌^◌, ◌↔◌, MatchOption, All, map, length, slice_get, slice_index, IsTrue};
ghost use Rattle.std.specs.List.{AllByRecursion};
ghost use Rattle.cd_clause.specs.Truth.{IsTable, function_values, predicate_values};
ghost use Rattle.cd_meaning.specs.Interps.{table_of};

use crate::Table;
use cd_symbols::Kind;

/// The size to the power of the arity, or `None` where that is 2^64 or more.
fn power(size: u32, arity: u16) -> Option<u64>
    requires { 0 < size }
    ensures { MatchOption result (2 ^ 64 ≤ size ^ arity) (λ n. n ≡ size ^ arity) }
{
    let mut total: u64 = 1;
    for _k in 0..arity {
        match total.checked_mul(u64::from(size)) {
            None => return None,
            Some(more) => total = more,
        }
    }
    Some(total)
}

fn are_below(limit: u32, values: &[u32]) -> bool
    ensures { IsTrue result ↔ All (λ v. v < limit) values.now }
{
    for value in values {
        if *value >= limit {
            return false;
        }
    }
    true
}

fn is_table(size: u32, t: &Table) -> bool
    requires { 0 < size }
    ensures { IsTrue result ↔ IsTable size (table_of t.now) }
{
    let length = t.values.len() as u64;
    match power(size, t.arity) {
        None => false,
        Some(count) => {
            if length != count {
                return false;
            }
            match t.kind {
                Kind::Function => are_below(size, t.values.as_slice()),
                Kind::Predicate => are_below(2, t.values.as_slice()),
            }
        }
    }
}

/// Whether each table is full and has values in range.
pub fn are_tables(size: u32, tables: &[Table]) -> bool
    requires { 0 < size }
    ensures { IsTrue result ↔ AllByRecursion (IsTable size) (map table_of tables.now) }
{
    for table in tables {
        if !is_table(size, table) {
            return false;
        }
    }
    true
}

/// A function's values; none where the symbol is no function.
pub fn values_of_function(tables: &[Table], f: u16) -> &[u32]
    ensures value { result.now ≡ function_values (slice_get (map table_of tables.now) f) }
    ensures small { length result.now < 2 ^ 62 }
{
    match tables.get(f as usize) {
        None => &[],
        Some(table) => match table.kind {
            Kind::Function => table.values.as_slice(),
            Kind::Predicate => &[],
        },
    }
}

/// A predicate's values; none where the symbol is no predicate.
pub fn values_of_predicate(tables: &[Table], p: u16) -> &[u32]
    ensures value { result.now ≡ predicate_values (slice_get (map table_of tables.now) p) }
    ensures small { length result.now < 2 ^ 62 }
{
    match tables.get(p as usize) {
        None => &[],
        Some(table) => match table.kind {
            Kind::Function => &[],
            Kind::Predicate => table.values.as_slice(),
        },
    }
}

/// The value in a place, or 0 past the end.
pub fn value_in(values: &[u32], place: u64) -> u32
    ensures { result ≡ slice_index values.now place }
{
    match values.get(place as usize) {
        None => 0,
        Some(value) => *value,
    }
}
