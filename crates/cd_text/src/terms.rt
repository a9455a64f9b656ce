//! Terms.
ghost use Rattle.std.specs.Prelude.{◌≡◌, ◌++◌, ◌∷◌, if◌then◌else◌, codes, map, slice_get, OnOk, OnErr};
ghost use Rattle.std.specs.List.{flat_map};
ghost use Rattle.cd_text.specs.Fronts.{AddsFront};
ghost use Rattle.cd_text.specs.Numerals.{numeral};
ghost use Rattle.cd_text.specs.Texts.{arguments_text, separated, symbol_text, term_text};

use crate::words::{put_bytes, put_number, put_word};
use cd_outside::Bytes;
use cd_symbols::Symbols;
use cd_term::Term;
use std::alloc::AllocError;

/// Appends the word of a symbol, and nothing where the table has no such symbol.
pub(crate) fn put_symbol(symbols: &Symbols, symbol: u16, into: &mut Bytes) -> Result<(), AllocError>
    ensures text { OnOk result (into.new ≡ into.old ++ symbol_text (slice_get symbols.now symbol)) }
    ensures front { OnErr result (AddsFront into.old into.new (symbol_text (slice_get symbols.now symbol))) }
{
    if usize::from(symbol) < symbols.len() {
        put_word(into, symbols.text(symbol).as_bytes())
    } else {
        Ok(())
    }
}

/// Appends a term: a variable as `X` and its number, a symbol as its word and its arguments.
pub(crate) fn put_term(symbols: &Symbols, term: &Term, into: &mut Bytes) -> Result<(), AllocError>
    ensures text { OnOk result (into.new ≡ into.old ++ term_text symbols.now term.now) }
    ensures front { OnErr result (AddsFront into.old into.new (term_text symbols.now term.now)) }
{
    match term {
        Term::Var(k) => put_variable(*k, into),
        Term::App(f, args) => {
            put_symbol(symbols, *f, into)?;
            let mut first = true;
            for arg in args.as_slice() {
                put_front(first, into)?;
                put_term(symbols, arg, into)?;
                first = false;
            }
            put_end(first, into)
        }
    }
}

fn put_variable(k: u32, into: &mut Bytes) -> Result<(), AllocError>
    ensures text { OnOk result (into.new ≡ into.old ++ (codes "X" ++ numeral k)) }
    ensures front { OnErr result (AddsFront into.old into.new (codes "X" ++ numeral k)) }
{
    put_bytes(into, b"X")?;
    put_number(into, u64::from(k))
}

// What stands before an argument.
fn put_front(first: bool, into: &mut Bytes) -> Result<(), AllocError>
    ensures text { OnOk result (into.new ≡ into.old ++ (if first then codes "(" else codes ",")) }
    ensures front { OnErr result (AddsFront into.old into.new (if first then codes "(" else codes ",")) }
{
    if first {
        put_bytes(into, b"(")
    } else {
        put_bytes(into, b",")
    }
}

// What stands behind the arguments, if there are any.
fn put_end(none: bool, into: &mut Bytes) -> Result<(), AllocError>
    ensures text { OnOk result (into.new ≡ into.old ++ (if none then codes "" else codes ")")) }
    ensures front { OnErr result (AddsFront into.old into.new ((if none then codes "" else codes ")"))) }
{
    if none { Ok(()) } else { put_bytes(into, b")") }
}

/// Appends the arguments of a predicate.
pub(crate) fn put_arguments(
    symbols: &Symbols,
    args: &[Term],
    into: &mut Bytes,
) -> Result<(), AllocError>
    ensures text { OnOk result (into.new ≡ into.old ++ arguments_text (map (term_text symbols.now) args.now)) }
    ensures front { OnErr result (AddsFront into.old into.new (arguments_text (map (term_text symbols.now) args.now))) }
{
    match args {
        [] => Ok(()),
        [first, others @ ..] => {
            put_bytes(into, b"(")?;
            put_joined(symbols, first, others, into)?;
            put_bytes(into, b")")
        }
    }
}

/// Appends terms with commas between them.
pub(crate) fn put_terms(
    symbols: &Symbols,
    terms: &[Term],
    into: &mut Bytes,
) -> Result<(), AllocError>
    ensures text { OnOk result (into.new ≡ into.old ++ separated (codes ",") (term_text symbols.now) terms.now) }
    ensures front { OnErr result (AddsFront into.old into.new (separated (codes ",") (term_text symbols.now) terms.now)) }
{
    match terms {
        [] => Ok(()),
        [first, others @ ..] => put_joined(symbols, first, others, into),
    }
}

#[tactic(auto, using(std::proofs::Common::append_assoc, crate::proofs::Fronts::adds_first, crate::proofs::Fronts::adds_next, crate::proofs::Separated::separated_first))]
fn put_joined(
    symbols: &Symbols,
    first: &Term,
    others: &[Term],
    into: &mut Bytes,
) -> Result<(), AllocError>
    ensures text { OnOk result (into.new ≡ into.old ++ separated (codes ",") (term_text symbols.now) (first.now ∷ others.now)) }
    ensures front { OnErr result (AddsFront into.old into.new (separated (codes ",") (term_text symbols.now) (first.now ∷ others.now))) }
{
    put_term(symbols, first, into)?;
    put_further(symbols, others, into)
}

#[tactic(auto, using(std::proofs::Common::append_assoc))]
fn put_further(symbols: &Symbols, terms: &[Term], into: &mut Bytes) -> Result<(), AllocError>
    ensures text { OnOk result (into.new ≡ into.old ++ flat_map (λ t. codes "," ++ term_text symbols.now t) terms.now) }
    ensures front { OnErr result (AddsFront into.old into.new (flat_map (λ t. codes "," ++ term_text symbols.now t) terms.now)) }
{
    for term in terms {
        put_bytes(into, b",")?;
        put_term(symbols, term, into)?;
    }
    Ok(())
}
