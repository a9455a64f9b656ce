//! Whether terms and clauses have symbols of the problem alone, each with as many arguments as it has there.
#![tactic(auto)]

ghost use Rattle.std.specs.Prelude.{◌≡◌, ◌↔◌, IsTrue, slice_get};
ghost use Rattle.cd_clause.specs.Over.{AtomOver, LiteralsOver};
ghost use Rattle.cd_machine.specs.Rules.{IsFit, IsSubstFit};
ghost use Rattle.cd_read.specs.Formed.{is_function, is_predicate};
ghost use Rattle.cd_term.specs.Symbols.{AreOver, is_over};
ghost use Rattle.cd_fineness.specs.Over.{symbols_in};

use cd_clause::{Atom, Clause, Literal, within};
use cd_read::Problem;
use cd_steps::is_subst_within;
use cd_symbols::{Kind, Symbols};
use cd_term::Term;

/// Whether a number is that of a function with so many arguments.
fn is_function(symbols: &Symbols, id: u16, count: usize) -> bool
    ensures { result ≡ is_function count (slice_get symbols.now id) }
{
    if usize::from(id) >= symbols.len() {
        return false;
    }
    match symbols.kind(id) {
        Kind::Function => usize::from(symbols.arity(id)) == count,
        Kind::Predicate => false,
    }
}

/// Whether a number is that of a predicate with so many arguments.
fn is_predicate(symbols: &Symbols, id: u16, count: usize) -> bool
    ensures { result ≡ is_predicate count (slice_get symbols.now id) }
{
    if usize::from(id) >= symbols.len() {
        return false;
    }
    match symbols.kind(id) {
        Kind::Function => false,
        Kind::Predicate => usize::from(symbols.arity(id)) == count,
    }
}

/// Whether a term has function symbols of the table alone.
/// Recurs to the depth of its terms: see 'How deep terms may be' in docs/ARCHITECTURE.md.
fn is_term_over(symbols: &Symbols, t: &Term) -> bool
    ensures { IsTrue result ↔ IsTrue (is_over (symbols_in symbols.now) t.now) }
{
    match t {
        Term::Var(_) => true,
        Term::App(f, args) => {
            if !is_function(symbols, *f, args.len()) {
                return false;
            }
            for arg in args.as_slice() {
                if !is_term_over(symbols, arg) {
                    return false;
                }
            }
            true
        }
    }
}

fn are_terms_over(symbols: &Symbols, terms: &[Term]) -> bool
    ensures { IsTrue result ↔ AreOver (symbols_in symbols.now) terms.now }
{
    for t in terms {
        if !is_term_over(symbols, t) {
            return false;
        }
    }
    true
}

fn is_atom_over(symbols: &Symbols, atom: &Atom) -> bool
    ensures { IsTrue result ↔ AtomOver (symbols_in symbols.now) atom.now }
{
    match atom {
        Atom::Truth => true,
        Atom::Pred(p, args) => {
            is_predicate(symbols, *p, args.len()) && are_terms_over(symbols, args.as_slice())
        }
        Atom::Equal(left, right) => is_term_over(symbols, left) && is_term_over(symbols, right),
    }
}

fn are_literals_over(symbols: &Symbols, literals: &[Literal]) -> bool
    ensures { IsTrue result ↔ LiteralsOver (symbols_in symbols.now) literals.now }
{
    for literal in literals {
        if !is_atom_over(symbols, &literal.atom) {
            return false;
        }
    }
    true
}

/// Whether a clause is within bounds and over the symbols of the problem. No memory is taken.
/// Recurs to the depth of its terms: see 'How deep terms may be' in docs/ARCHITECTURE.md.
pub fn is_fit(problem: &Problem, c: &Clause) -> bool
    ensures { IsTrue result ↔ IsFit problem.now c.now }
{
    within(c) && are_literals_over(&problem.symbols, c.literals.as_slice())
}

/// The same of a substitution.
/// Recurs to the depth of its terms: see 'How deep terms may be' in docs/ARCHITECTURE.md.
pub fn is_subst_fit(problem: &Problem, s: &[Term]) -> bool
    ensures { IsTrue result ↔ IsSubstFit problem.now s.now }
{
    is_subst_within(s) && are_terms_over(&problem.symbols, s)
}
