//! The rule of a step and its entries.
ghost use Rattle.std.specs.Prelude.{◌≡◌, ◌++◌, ◌∷◌, [], ℕ, List, codes, OnOk, OnErr};
ghost use Rattle.std.specs.List.{flat_map};
ghost use Rattle.cd_text.specs.Fronts.{AddsFront};
ghost use Rattle.cd_text.specs.Numerals.{numeral};
ghost use Rattle.cd_text.specs.Texts.{entries_text, numbers_text, path_text, rule_text, separated, term_text};

use crate::terms::put_terms;
use crate::words::{put_bytes, put_number};
use cd_outside::Bytes;
use cd_steps::Step;
use cd_symbols::Symbols;
use cd_term::Term;
use std::alloc::AllocError;

/// Appends the rule of a step, its places and its substitution.
#[tactic(auto, unfolding(crate::specs::Texts::rule_text))]
pub fn put_rule(symbols: &Symbols, step: &Step, into: &mut Bytes) -> Result<(), AllocError>
    ensures text { OnOk result (into.new ≡ into.old ++ rule_text symbols.now step.now) }
    ensures front { OnErr result (AddsFront into.old into.new (rule_text symbols.now step.now)) }
{
    match step {
        Step::Input { index: _ } => Ok(()),
        Step::Copy { of: _ } => Ok(()),
        Step::Resolve {
            pos: _,
            i,
            neg: _,
            j,
            subst,
        } => put_pair(symbols, b"resolve", *i, *j, subst.as_slice(), into),
        Step::Factor { of: _, i, j, subst } => put_pair(
            symbols,
            b"factor",
            *i,
            *j,
            subst.as_slice(),
            into,
        ),
        Step::Refl { of: _, i, subst } => put_refl(symbols, *i, subst.as_slice(), into),
        Step::EqFac {
            of: _,
            i,
            s,
            j,
            z,
            subst,
        } => put_eqfac(symbols, *i, *s, *j, *z, subst.as_slice(), into),
        Step::Para {
            giver: _,
            i,
            s,
            taker: _,
            j,
            at,
            subst,
        } => put_para(symbols, *i, *s, *j, at.as_slice(), subst.as_slice(), into),
        Step::Rewrite {
            by: _,
            s,
            j,
            at,
            subst,
        } => put_rewrite(symbols, *s, *j, at.as_slice(), subst.as_slice(), into),
        Step::Tidy => put_bytes(into, b"tidy,[status(thm)]"),
    }
}

fn put_pair(
    symbols: &Symbols,
    word: &[u8],
    i: u16,
    j: u16,
    subst: &[Term],
    into: &mut Bytes,
) -> Result<(), AllocError>
    ensures text { OnOk result (into.new ≡ into.old ++ entries_text symbols.now word.now (numbers_text (i ∷ j ∷ [])) subst.now) }
    ensures front { OnErr result (AddsFront into.old into.new (entries_text symbols.now word.now (numbers_text (i ∷ j ∷ [])) subst.now)) }
{
    put_entries(symbols, word, [i, j].as_slice(), subst, into)
}

fn put_refl(symbols: &Symbols, i: u16, subst: &[Term], into: &mut Bytes) -> Result<(), AllocError>
    ensures text { OnOk result (into.new ≡ into.old ++ entries_text symbols.now (codes "refl") (numbers_text (i ∷ [])) subst.now) }
    ensures front { OnErr result (AddsFront into.old into.new (entries_text symbols.now (codes "refl") (numbers_text (i ∷ [])) subst.now)) }
{
    put_entries(symbols, b"refl", [i].as_slice(), subst, into)
}

fn put_eqfac(
    symbols: &Symbols,
    i: u16,
    s: u8,
    j: u16,
    z: u8,
    subst: &[Term],
    into: &mut Bytes,
) -> Result<(), AllocError>
    ensures text { OnOk result (into.new ≡ into.old ++ entries_text symbols.now (codes "eqfac") (numbers_text (i ∷ s ∷ j ∷ z ∷ [])) subst.now) }
    ensures front { OnErr result (AddsFront into.old into.new (entries_text symbols.now (codes "eqfac") (numbers_text (i ∷ s ∷ j ∷ z ∷ [])) subst.now)) }
{
    put_entries(
        symbols,
        b"eqfac",
        [i, u16::from(s), j, u16::from(z)].as_slice(),
        subst,
        into,
    )
}

fn put_para(
    symbols: &Symbols,
    i: u16,
    s: u8,
    j: u16,
    at: &[u16],
    subst: &[Term],
    into: &mut Bytes,
) -> Result<(), AllocError>
    ensures text { OnOk result (into.new ≡ into.old ++ entries_text symbols.now (codes "para") (numbers_text (i ∷ s ∷ j ∷ []) ++ path_text at.now) subst.now) }
    ensures front { OnErr result (AddsFront into.old into.new (entries_text symbols.now (codes "para") (numbers_text (i ∷ s ∷ j ∷ []) ++ path_text at.now) subst.now)) }
{
    put_entries_at(
        symbols,
        b"para",
        [i, u16::from(s), j].as_slice(),
        at,
        subst,
        into,
    )
}

fn put_rewrite(
    symbols: &Symbols,
    s: u8,
    j: u16,
    at: &[u16],
    subst: &[Term],
    into: &mut Bytes,
) -> Result<(), AllocError>
    ensures text { OnOk result (into.new ≡ into.old ++ entries_text symbols.now (codes "rewrite") (numbers_text (s ∷ j ∷ []) ++ path_text at.now) subst.now) }
    ensures front { OnErr result (AddsFront into.old into.new (entries_text symbols.now (codes "rewrite") (numbers_text (s ∷ j ∷ []) ++ path_text at.now) subst.now)) }
{
    put_entries_at(
        symbols,
        b"rewrite",
        [u16::from(s), j].as_slice(),
        at,
        subst,
        into,
    )
}

#[tactic(auto, using(std::proofs::Common::append_assoc, crate::proofs::Fronts::adds_first, crate::proofs::Fronts::adds_next))]
fn put_entries(
    symbols: &Symbols,
    word: &[u8],
    places: &[u16],
    subst: &[Term],
    into: &mut Bytes,
) -> Result<(), AllocError>
    ensures text { OnOk result (into.new ≡ into.old ++ entries_text symbols.now word.now (numbers_text places.now) subst.now) }
    ensures front { OnErr result (AddsFront into.old into.new (entries_text symbols.now word.now (numbers_text places.now) subst.now)) }
{
    put_front(word, into)?;
    put_numbers(places, into)?;
    put_subst(symbols, subst, into)
}

#[tactic(auto, using(std::proofs::Common::append_assoc, crate::proofs::Fronts::adds_first, crate::proofs::Fronts::adds_next))]
fn put_entries_at(
    symbols: &Symbols,
    word: &[u8],
    places: &[u16],
    at: &[u16],
    subst: &[Term],
    into: &mut Bytes,
) -> Result<(), AllocError>
    ensures text { OnOk result (into.new ≡ into.old ++ entries_text symbols.now word.now (numbers_text places.now ++ path_text at.now) subst.now) }
    ensures front { OnErr result (AddsFront into.old into.new (entries_text symbols.now word.now (numbers_text places.now ++ path_text at.now) subst.now)) }
{
    put_front(word, into)?;
    put_numbers(places, into)?;
    put_path(at, into)?;
    put_subst(symbols, subst, into)
}

fn put_front(word: &[u8], into: &mut Bytes) -> Result<(), AllocError>
    ensures text { OnOk result (into.new ≡ into.old ++ (word.now ++ codes ",[status(thm),at(")) }
    ensures front { OnErr result (AddsFront into.old into.new (word.now ++ codes ",[status(thm),at(")) }
{
    put_both(word, b",[status(thm),at(", into)
}

#[tactic(auto, using(std::proofs::Common::append_assoc, crate::proofs::Fronts::adds_first, crate::proofs::Fronts::adds_next))]
fn put_both(first: &[u8], second: &[u8], into: &mut Bytes) -> Result<(), AllocError>
    ensures text { OnOk result (into.new ≡ into.old ++ (first.now ++ second.now)) }
    ensures front { OnErr result (AddsFront into.old into.new (first.now ++ second.now)) }
{
    put_bytes(into, first)?;
    put_bytes(into, second)
}

#[tactic(auto, using(std::proofs::Common::append_assoc, crate::proofs::Fronts::adds_first, crate::proofs::Fronts::adds_next))]
fn put_path(path: &[u16], into: &mut Bytes) -> Result<(), AllocError>
    ensures text { OnOk result (into.new ≡ into.old ++ path_text path.now) }
    ensures front { OnErr result (AddsFront into.old into.new (path_text path.now)) }
{
    put_bytes(into, b",[")?;
    put_numbers(path, into)?;
    put_bytes(into, b"]")
}

// The end of a rule: its substitution.
#[tactic(auto, using(std::proofs::Common::append_assoc, crate::proofs::Fronts::adds_first, crate::proofs::Fronts::adds_next))]
fn put_subst(symbols: &Symbols, subst: &[Term], into: &mut Bytes) -> Result<(), AllocError>
    ensures text { OnOk result (into.new ≡ into.old ++ (codes "),subst([" ++ (separated (codes ",") (term_text symbols.now) subst.now ++ codes "])]"))) }
    ensures front { OnErr result (AddsFront into.old into.new ((codes "),subst([" ++ (separated (codes ",") (term_text symbols.now) subst.now ++ codes "])]")))) }
{
    put_bytes(into, b"),subst([")?;
    put_terms(symbols, subst, into)?;
    put_bytes(into, b"])]")
}

fn put_numbers(numbers: &[u16], into: &mut Bytes) -> Result<(), AllocError>
    ensures text { OnOk result (into.new ≡ into.old ++ numbers_text numbers.now) }
    ensures front { OnErr result (AddsFront into.old into.new (numbers_text numbers.now)) }
{
    match numbers {
        [] => Ok(()),
        [first, others @ ..] => put_some_numbers(*first, others, into),
    }
}

#[tactic(auto, using(std::proofs::Common::append_assoc, crate::proofs::Fronts::adds_first, crate::proofs::Fronts::adds_next, crate::proofs::Separated::separated_first))]
fn put_some_numbers(first: u16, others: &[u16], into: &mut Bytes) -> Result<(), AllocError>
    ensures text { OnOk result (into.new ≡ into.old ++ numbers_text (first ∷ others.now)) }
    ensures front { OnErr result (AddsFront into.old into.new (numbers_text (first ∷ others.now))) }
{
    put_number(into, u64::from(first))?;
    put_further(others, into)
}

#[tactic(auto, using(std::proofs::Common::append_assoc))]
fn put_further(numbers: &[u16], into: &mut Bytes) -> Result<(), AllocError>
    ensures text { OnOk result (into.new ≡ into.old ++ flat_map (λ n. codes "," ++ numeral n) numbers.now) }
    ensures front { OnErr result (AddsFront into.old into.new (flat_map (λ n. codes "," ++ numeral n) numbers.now)) }
{
    for number in numbers {
        put_bytes(into, b",")?;
        put_number(into, u64::from(*number))?;
    }
    Ok(())
}
