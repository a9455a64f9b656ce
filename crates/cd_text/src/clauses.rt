//! Literals and clauses.
ghost use Rattle.std.specs.Prelude.{◌≡◌, ◌++◌, ◌∷◌, if◌then◌else◌, codes, map, slice_get, OnOk, OnErr};
ghost use Rattle.std.specs.List.{flat_map};
ghost use Rattle.cd_text.specs.Fronts.{AddsFront};
ghost use Rattle.cd_text.specs.Texts.{arguments_text, clause_text, separated, literal_text, symbol_text, term_text};

use crate::terms::{put_arguments, put_symbol, put_term};
use crate::words::put_bytes;
use cd_clause::{Atom, Clause, Literal};
use cd_outside::Bytes;
use cd_symbols::Symbols;
use cd_term::Term;
use std::alloc::AllocError;

/// Appends a clause as it is printed: `$false` for the empty clause, and else its literals between parentheses,
/// joined by bars (TPTP; Sutcliffe, The TPTP World, 2010). Variable `k` is printed as `X` and `k`; a symbol that
/// isn't in the table has no word. Where memory runs out, `into` holds what it held and a front of the text.
#[tactic(auto, using(std::proofs::Common::append_assoc, crate::proofs::Fronts::adds_first, crate::proofs::Fronts::adds_next), unfolding(crate::specs::Texts::clause_text))]
pub fn clause_text(symbols: &Symbols, c: &Clause, into: &mut Bytes) -> Result<(), AllocError>
    ensures text { OnOk result (into.new ≡ into.old ++ clause_text symbols.now c.now) }
    ensures front { OnErr result (AddsFront into.old into.new (clause_text symbols.now c.now)) }
{
    match c.literals.as_slice() {
        [] => put_bytes(into, b"$false"),
        [first, others @ ..] => {
            put_bytes(into, b"(")?;
            put_literals(symbols, first, others, into)?;
            put_bytes(into, b")")
        }
    }
}

#[tactic(auto, using(std::proofs::Common::append_assoc, crate::proofs::Fronts::adds_first, crate::proofs::Fronts::adds_next, crate::proofs::Separated::separated_first))]
fn put_literals(
    symbols: &Symbols,
    first: &Literal,
    others: &[Literal],
    into: &mut Bytes,
) -> Result<(), AllocError>
    ensures text { OnOk result (into.new ≡ into.old ++ separated (codes " | ") (literal_text symbols.now) (first.now ∷ others.now)) }
    ensures front { OnErr result (AddsFront into.old into.new (separated (codes " | ") (literal_text symbols.now) (first.now ∷ others.now))) }
{
    put_literal(symbols, first, into)?;
    put_further(symbols, others, into)
}

#[tactic(auto, using(std::proofs::Common::append_assoc))]
fn put_further(symbols: &Symbols, literals: &[Literal], into: &mut Bytes) -> Result<(), AllocError>
    ensures text { OnOk result (into.new ≡ into.old ++ flat_map (λ l. codes " | " ++ literal_text symbols.now l) literals.now) }
    ensures front { OnErr result (AddsFront into.old into.new (flat_map (λ l. codes " | " ++ literal_text symbols.now l) literals.now)) }
{
    for literal in literals {
        put_bytes(into, b" | ")?;
        put_literal(symbols, literal, into)?;
    }
    Ok(())
}

fn put_literal(symbols: &Symbols, literal: &Literal, into: &mut Bytes) -> Result<(), AllocError>
    ensures text { OnOk result (into.new ≡ into.old ++ literal_text symbols.now literal.now) }
    ensures front { OnErr result (AddsFront into.old into.new (literal_text symbols.now literal.now)) }
{
    match &literal.atom {
        Atom::Truth => put_truth(literal.positive, into),
        Atom::Pred(p, args) => put_predicate(symbols, literal.positive, *p, args.as_slice(), into),
        Atom::Equal(left, right) => put_equation(symbols, literal.positive, left, right, into),
    }
}

fn put_truth(positive: bool, into: &mut Bytes) -> Result<(), AllocError>
    ensures text { OnOk result (into.new ≡ into.old ++ (if positive then codes "$true" else codes "$false")) }
    ensures front { OnErr result (AddsFront into.old into.new (if positive then codes "$true" else codes "$false")) }
{
    if positive {
        put_bytes(into, b"$true")
    } else {
        put_bytes(into, b"$false")
    }
}

#[tactic(auto, using(std::proofs::Common::append_assoc, crate::proofs::Fronts::adds_first, crate::proofs::Fronts::adds_next))]
fn put_predicate(
    symbols: &Symbols,
    positive: bool,
    p: u16,
    args: &[Term],
    into: &mut Bytes,
) -> Result<(), AllocError>
    ensures text { OnOk result (into.new ≡ into.old ++ ((if positive then codes "" else codes "~")
        ++ (symbol_text (slice_get symbols.now p) ++ arguments_text (map (term_text symbols.now) args.now)))) }
    ensures front { OnErr result (AddsFront into.old into.new ((if positive then codes "" else codes "~")
        ++ (symbol_text (slice_get symbols.now p) ++ arguments_text (map (term_text symbols.now) args.now)))) }
{
    put_sign(positive, into)?;
    put_symbol(symbols, p, into)?;
    put_arguments(symbols, args, into)
}

fn put_sign(positive: bool, into: &mut Bytes) -> Result<(), AllocError>
    ensures text { OnOk result (into.new ≡ into.old ++ (if positive then codes "" else codes "~")) }
    ensures front { OnErr result (AddsFront into.old into.new (if positive then codes "" else codes "~")) }
{
    if positive {
        Ok(())
    } else {
        put_bytes(into, b"~")
    }
}

#[tactic(auto, using(std::proofs::Common::append_assoc, crate::proofs::Fronts::adds_first, crate::proofs::Fronts::adds_next))]
fn put_equation(
    symbols: &Symbols,
    positive: bool,
    left: &Term,
    right: &Term,
    into: &mut Bytes,
) -> Result<(), AllocError>
    ensures text { OnOk result (into.new ≡ into.old ++ (term_text symbols.now left.now
        ++ ((if positive then codes " = " else codes " != ") ++ term_text symbols.now right.now))) }
    ensures front { OnErr result (AddsFront into.old into.new (term_text symbols.now left.now
        ++ ((if positive then codes " = " else codes " != ") ++ term_text symbols.now right.now))) }
{
    put_term(symbols, left, into)?;
    put_relation(positive, into)?;
    put_term(symbols, right, into)
}

fn put_relation(positive: bool, into: &mut Bytes) -> Result<(), AllocError>
    ensures text { OnOk result (into.new ≡ into.old ++ (if positive then codes " = " else codes " != ")) }
    ensures front { OnErr result (AddsFront into.old into.new (if positive then codes " = " else codes " != ")) }
{
    if positive {
        put_bytes(into, b" = ")
    } else {
        put_bytes(into, b" != ")
    }
}
