//! Sizes and variables of clauses.
#![tactic(auto)]

ghost use Rattle.std.specs.Prelude.{◌≡◌, ◌+◌, ◌-◌, ◌^◌, min, map, sum_by};
ghost use Rattle.cd_term.specs.Terms.{greatest, size_of, bound_of};
ghost use Rattle.cd_clause.specs.Clauses.{terms_of, literal_size, clause_size, variable_bound_of};

use crate::{Atom, Clause, Literal};
use cd_term::{Term, size as term_size, variable_bound};

fn terms_size(terms: &[Term]) -> u64
    ensures { result ≡ min (1 + sum_by size_of terms.now) (2 ^ 64 - 1) }
{
    let mut total: u64 = 1;
    for term in terms {
        total = total.saturating_add(term_size(term));
    }
    total
}

fn size_of_literal(literal: &Literal) -> u64
    ensures { result ≡ min (literal_size literal.now) (2 ^ 64 - 1) }
{
    match &literal.atom {
        Atom::Truth => 1,
        Atom::Pred(_, args) => terms_size(args.as_slice()),
        Atom::Equal(left, right) => term_size(left)
            .saturating_add(term_size(right))
            .saturating_add(1),
    }
}

/// The sum of the sizes of the literals, each 1 and the sizes of its terms. It stops at the greatest u64.
/// Recurs to the depth of its terms: see 'How deep terms may be' in docs/ARCHITECTURE.md.
pub fn size(c: &Clause) -> u64
    ensures { result ≡ min (clause_size c.now) (2 ^ 64 - 1) }
{
    let mut total: u64 = 0;
    for literal in c.literals.as_slice() {
        total = total.saturating_add(size_of_literal(literal));
    }
    total
}

fn terms_bound(terms: &[Term]) -> u64
    ensures { result ≡ greatest (map bound_of terms.now) }
{
    let mut bound: u64 = 0;
    for term in terms {
        bound = bound.max(variable_bound(term));
    }
    bound
}

fn bound_of_literal(literal: &Literal) -> u64
    ensures { result ≡ greatest (map bound_of (terms_of literal.now.atom)) }
{
    match &literal.atom {
        Atom::Truth => 0,
        Atom::Pred(_, args) => terms_bound(args.as_slice()),
        Atom::Equal(left, right) => variable_bound(left).max(variable_bound(right)),
    }
}

/// One more than the greatest variable of a clause, or 0 where it has none.
/// Recurs to the depth of its terms: see 'How deep terms may be' in docs/ARCHITECTURE.md.
pub fn variables(c: &Clause) -> u64
    ensures { result ≡ variable_bound_of c.now }
{
    let mut bound: u64 = 0;
    for literal in c.literals.as_slice() {
        bound = bound.max(bound_of_literal(literal));
    }
    bound
}
