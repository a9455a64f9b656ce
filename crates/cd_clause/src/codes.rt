//! Codes of literals: lists of numbers, by which a literal is looked up among others.
ghost use Rattle.std.specs.Prelude.{◌≡◌, ◌++◌, ◌∷◌, ◌⊎◌, ◌↔◌, [], List, IsTrue, IfOk, OnOk};
ghost use Rattle.std.specs.List.{flat_map};
ghost use Rattle.cd_clause.specs.declared.Literal.{Literal};
ghost use Rattle.cd_clause.specs.Clauses.{exchanged, IsAbsurd, IsSuperfluous};
ghost use Rattle.cd_clause.specs.Codes.{term_code, atom_code, sign_code, literal_code, is_met, AreMet};

use crate::tidying::is_absurd;
use crate::{Atom, Literal};
use cd_list::Sequence;
use cd_term::Term;
use indexmap::IndexSet;
use std::alloc::{AllocError, Global};

/// A code of a literal.
pub(crate) type Code = Sequence<u32>;

fn put_term(term: &Term, into: &mut Code) -> Result<(), AllocError>
    ensures { OnOk result (into.new ≡ into.old ++ term_code term.now) }
{
    match term {
        Term::Var(n) => {
            into.push(0)?;
            into.push(*n)
        }
        Term::App(f, args) => {
            into.push(1)?;
            into.push(u32::from(*f))?;
            for arg in args.as_slice() {
                put_term(arg, into)?;
            }
            into.push(2)
        }
    }
}

fn put_terms(terms: &[Term], into: &mut Code) -> Result<(), AllocError>
    ensures { OnOk result (into.new ≡ into.old ++ flat_map term_code terms.now) }
{
    for term in terms {
        put_term(term, into)?;
    }
    Ok(())
}

fn put_predicate(p: u16, args: &[Term], into: &mut Code) -> Result<(), AllocError>
    ensures { OnOk result (into.new ≡ into.old ++ 1 ∷ p ∷ (flat_map term_code args.now ++ 2 ∷ [])) }
{
    into.push(1)?;
    into.push(u32::from(p))?;
    put_terms(args, into)?;
    into.push(2)
}

fn put_equation(left: &Term, right: &Term, into: &mut Code) -> Result<(), AllocError>
    ensures { OnOk result (into.new ≡ into.old ++ 2 ∷ (term_code left.now ++ term_code right.now)) }
{
    into.push(2)?;
    put_term(left, into)?;
    put_term(right, into)
}

fn put_atom(atom: &Atom, into: &mut Code) -> Result<(), AllocError>
    ensures { OnOk result (into.new ≡ into.old ++ atom_code atom.now) }
{
    match atom {
        Atom::Truth => into.push(0),
        Atom::Pred(p, args) => put_predicate(*p, args.as_slice(), into),
        Atom::Equal(left, right) => put_equation(left, right, into),
    }
}

/// The same of the atom with its sides exchanged, where it is an equation.
fn put_exchanged(atom: &Atom, into: &mut Code) -> Result<(), AllocError>
    ensures { OnOk result (into.new ≡ into.old ++ atom_code (exchanged atom.now)) }
{
    match atom {
        Atom::Equal(left, right) => put_equation(right, left, into),
        _ => put_atom(atom, into),
    }
}

fn sign(positive: bool) -> u32
    ensures { result ≡ sign_code positive }
{
    if positive { 1 } else { 0 }
}

fn signed(alloc: Global, positive: bool) -> Result<Code, AllocError>
    ensures { IfOk result (λ code. code ≡ sign_code positive ∷ []) }
{
    let mut code = Sequence::new(alloc);
    code.push(sign(positive))?;
    Ok(code)
}

fn code_of(alloc: Global, literal: &Literal) -> Result<Code, AllocError>
    ensures { IfOk result (λ code. code ≡ literal_code literal.now.positive literal.now.atom) }
{
    let mut code = signed(alloc, literal.positive)?;
    put_atom(&literal.atom, &mut code)?;
    Ok(code)
}

fn exchanged_code_of(alloc: Global, literal: &Literal) -> Result<Code, AllocError>
    ensures { IfOk result (λ code. code ≡ literal_code literal.now.positive (exchanged literal.now.atom)) }
{
    let mut code = signed(alloc, literal.positive)?;
    put_exchanged(&literal.atom, &mut code)?;
    Ok(code)
}

fn is_met(met: &IndexSet<Code>, code: &Code) -> bool
    ensures { result ≡ is_met met.now.keys code.now }
{
    met.contains(code)
}

fn is_either_met(met: &IndexSet<Code>, code: &Code, other: &Code) -> bool
    ensures { IsTrue result ↔ (IsTrue (is_met met.now.keys code.now) ⊎ IsTrue (is_met met.now.keys other.now)) }
{
    is_met(met, code) || is_met(met, other)
}

fn is_left_out(literal: &Literal, met: &IndexSet<Code>, code: &Code, other: &Code) -> bool
    ensures { IsTrue result ↔ (IsAbsurd literal.now ⊎ (IsTrue (is_met met.now.keys code.now) ⊎ IsTrue (is_met met.now.keys other.now))) }
{
    is_absurd(literal) || is_either_met(met, code, other)
}

/// Whether a literal is superfluous behind those whose codes were met. Its code joins them.
pub(crate) fn is_superfluous_behind(
    alloc: Global,
    met: &mut IndexSet<Code>,
    literal: &Literal,
) -> Result<bool, AllocError>
    ensures { IfOk result (λ out. (earlier : List Literal) → AreMet met.old.keys earlier
        → (IsTrue out ↔ IsSuperfluous earlier literal.now) × AreMet met.new.keys (earlier ++ literal.now ∷ [])) }
{
    let code = code_of(alloc, literal)?;
    let other = exchanged_code_of(alloc, literal)?;
    let out = is_left_out(literal, met, &code, &other);
    met.insert(code)?;
    Ok(out)
}
