//! The lines of a derivation.
ghost use Rattle.std.specs.Prelude.{◌≡◌, ◌++◌, ◌∷◌, codes, OnOk, OnErr};
ghost use Rattle.std.specs.List.{flat_map};
ghost use Rattle.cd_text.specs.Fronts.{AddsFront};
ghost use Rattle.cd_text.specs.Texts.{clause_text, given_text, separated, label_text, line_text, name_text, quoted, role_text, rule_text, source_text};

use crate::clauses::clause_text;
use crate::rule::put_rule;
use crate::words::{put_bytes, put_number, put_quoted, put_word};
use cd_clause::Clause;
use cd_list::{Sequence, Text};
use cd_outside::Bytes;
use cd_read::{Label, Role};
use cd_steps::Step;
use cd_symbols::Symbols;
use std::alloc::AllocError;

/// The numbers of the lines that a line stands on.
pub type Parents = Sequence<u64>;

/// What a line is said to be: what its input is said to be, or a plain consequence.
#[derive(Clone, Copy)]
pub enum LineRole {
    Given(Role),
    Plain,
}

/// Where a line comes from: an input of a file, or a step from earlier lines.
#[derive(Drop)]
pub enum LineSource {
    File { path: Text, label: Label },
    Inference { step: Step, parents: Parents },
}

/// A line of a derivation (TSTP; Sutcliffe, The TPTP World, 2010). Its name is `c` and its number.
#[derive(Drop)]
pub struct Line {
    pub number: u64,
    pub role: LineRole,
    pub clause: Clause,
    pub source: LineSource,
}

/// Lines, each with a number one greater than that of the line before.
pub type Lines = Sequence<Line>;

/// Appends a derivation line as it is printed, without a line feed. Where memory runs out, `into` holds what it held
/// and a front of the text.
#[tactic(auto, using(std::proofs::Common::append_assoc), unfolding(crate::specs::Texts::line_text))]
pub fn line_text(symbols: &Symbols, line: &Line, into: &mut Bytes) -> Result<(), AllocError>
    ensures text { OnOk result (into.new ≡ into.old ++ line_text symbols.now line.now) }
    ensures front { OnErr result (AddsFront into.old into.new (line_text symbols.now line.now)) }
{
    put_bytes(into, b"cnf(")?;
    put_name(line.number, into)?;
    put_bytes(into, b",")?;
    put_role(line.role, into)?;
    put_bytes(into, b",")?;
    put_body(symbols, line, into)
}

// The clause of a line, its source, and what ends it.
#[tactic(auto, using(std::proofs::Common::append_assoc))]
fn put_body(symbols: &Symbols, line: &Line, into: &mut Bytes) -> Result<(), AllocError>
    ensures text { OnOk result (into.new ≡ into.old ++ (clause_text symbols.now line.now.clause
        ++ (codes "," ++ (source_text symbols.now line.now.source ++ codes ").")))) }
    ensures front { OnErr result (AddsFront into.old into.new ((clause_text symbols.now line.now.clause
        ++ (codes "," ++ (source_text symbols.now line.now.source ++ codes ")."))))) }
{
    clause_text(symbols, &line.clause, into)?;
    put_bytes(into, b",")?;
    put_source(symbols, &line.source, into)?;
    put_bytes(into, b").")
}

/// Appends a line's name: `c` and its number.
pub fn put_name(number: u64, into: &mut Bytes) -> Result<(), AllocError>
    ensures text { OnOk result (into.new ≡ into.old ++ name_text number) }
    ensures front { OnErr result (AddsFront into.old into.new (name_text number)) }
{
    put_bytes(into, b"c")?;
    put_number(into, number)
}

/// Appends the role of a line.
pub fn put_role(role: LineRole, into: &mut Bytes) -> Result<(), AllocError>
    ensures text { OnOk result (into.new ≡ into.old ++ role_text role) }
    ensures front { OnErr result (AddsFront into.old into.new (role_text role)) }
{
    match role {
        LineRole::Given(given) => put_given(given, into),
        LineRole::Plain => put_bytes(into, b"plain"),
    }
}

/// Appends the role of an input.
pub fn put_given(role: Role, into: &mut Bytes) -> Result<(), AllocError>
    ensures text { OnOk result (into.new ≡ into.old ++ given_text role) }
    ensures front { OnErr result (AddsFront into.old into.new (given_text role)) }
{
    match role {
        Role::Axiom => put_bytes(into, b"axiom"),
        Role::Hypothesis => put_bytes(into, b"hypothesis"),
        Role::Definition => put_bytes(into, b"definition"),
        Role::Assumption => put_bytes(into, b"assumption"),
        Role::Lemma => put_bytes(into, b"lemma"),
        Role::Theorem => put_bytes(into, b"theorem"),
        Role::Corollary => put_bytes(into, b"corollary"),
        Role::NegatedConjecture => put_bytes(into, b"negated_conjecture"),
        Role::Plain => put_bytes(into, b"plain"),
    }
}

#[tactic(auto, unfolding(crate::specs::Texts::source_text))]
fn put_source(symbols: &Symbols, source: &LineSource, into: &mut Bytes) -> Result<(), AllocError>
    ensures text { OnOk result (into.new ≡ into.old ++ source_text symbols.now source.now) }
    ensures front { OnErr result (AddsFront into.old into.new (source_text symbols.now source.now)) }
{
    match source {
        LineSource::File { path, label } => put_file(path.as_bytes(), label, into),
        LineSource::Inference { step, parents } => put_inference(
            symbols,
            step,
            parents.as_slice(),
            into,
        ),
    }
}

#[tactic(auto, using(std::proofs::Common::append_assoc))]
fn put_file(path: &[u8], label: &Label, into: &mut Bytes) -> Result<(), AllocError>
    ensures text { OnOk result (into.new ≡ into.old ++ (codes "file(" ++ (quoted path.now ++ (codes "," ++ (label_text label.now ++ codes ")"))))) }
    ensures front { OnErr result (AddsFront into.old into.new (codes "file(" ++ (quoted path.now ++ (codes "," ++ (label_text label.now ++ codes ")"))))) }
{
    put_bytes(into, b"file(")?;
    put_quoted(into, path)?;
    put_bytes(into, b",")?;
    put_label(label, into)?;
    put_bytes(into, b")")
}

#[tactic(auto, using(std::proofs::Common::append_assoc))]
fn put_inference(
    symbols: &Symbols,
    step: &Step,
    parents: &[u64],
    into: &mut Bytes,
) -> Result<(), AllocError>
    ensures text { OnOk result (into.new ≡ into.old ++ (codes "inference("
        ++ (rule_text symbols.now step.now ++ (codes ",[" ++ (separated (codes ",") name_text parents.now ++ codes "])"))))) }
    ensures front { OnErr result (AddsFront into.old into.new (codes "inference("
        ++ (rule_text symbols.now step.now ++ (codes ",[" ++ (separated (codes ",") name_text parents.now ++ codes "])"))))) }
{
    put_bytes(into, b"inference(")?;
    put_rule(symbols, step, into)?;
    put_bytes(into, b",[")?;
    put_parents(parents, into)?;
    put_bytes(into, b"])")
}

/// Appends a label: a word, or an integer by its digits.
pub fn put_label(label: &Label, into: &mut Bytes) -> Result<(), AllocError>
    ensures text { OnOk result (into.new ≡ into.old ++ label_text label.now) }
    ensures front { OnErr result (AddsFront into.old into.new (label_text label.now)) }
{
    match label {
        Label::Word(word) => put_word(into, word.as_bytes()),
        Label::Integer(digits) => put_bytes(into, digits.as_bytes()),
    }
}

fn put_parents(parents: &[u64], into: &mut Bytes) -> Result<(), AllocError>
    ensures text { OnOk result (into.new ≡ into.old ++ separated (codes ",") name_text parents.now) }
    ensures front { OnErr result (AddsFront into.old into.new (separated (codes ",") name_text parents.now)) }
{
    match parents {
        [] => Ok(()),
        [first, others @ ..] => put_names(*first, others, into),
    }
}

#[tactic(auto, using(std::proofs::Common::append_assoc, crate::proofs::Separated::separated_first))]
fn put_names(first: u64, others: &[u64], into: &mut Bytes) -> Result<(), AllocError>
    ensures text { OnOk result (into.new ≡ into.old ++ separated (codes ",") name_text (first ∷ others.now)) }
    ensures front { OnErr result (AddsFront into.old into.new (separated (codes ",") name_text (first ∷ others.now))) }
{
    put_name(first, into)?;
    put_further(others, into)
}

#[tactic(auto, using(std::proofs::Common::append_assoc))]
fn put_further(parents: &[u64], into: &mut Bytes) -> Result<(), AllocError>
    ensures text { OnOk result (into.new ≡ into.old ++ flat_map (λ n. codes "," ++ name_text n) parents.now) }
    ensures front { OnErr result (AddsFront into.old into.new (flat_map (λ n. codes "," ++ name_text n) parents.now)) }
{
    for parent in parents {
        put_bytes(into, b",")?;
        put_name(*parent, into)?;
    }
    Ok(())
}
