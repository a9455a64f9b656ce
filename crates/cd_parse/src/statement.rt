//! Statements, and how far one is read.
ghost use Rattle.std.specs.Prelude.{◌≡◌, ◌≢◌, ◌↔◌, IsTrue, true, None, IfOk, OnOk, MatchOption, []};
ghost use Rattle.std.specs.Str.{bytes_eq};
ghost use Rattle.cd_parse.specs.Stages.{advance, close_round, close_square, formula_end, role_of, is_language, begin_step, role_step};
ghost use Rattle.cd_parse.specs.Bare.{bare_stage};
ghost use Rattle.cd_parse.specs.Code.{Advances, AdvancesTo, IsFormula, HasRoom, StageFits, stage_of, statement_in};

use crate::label::{Label, Labels, Role, What};
use crate::machine::{Held, Mode, StepFault, forget_trees, step};
use crate::stack::Stack;
use crate::terminal::{Sign, Terminal};
use crate::tree::TreeLiterals;
use cd_list::Text;
use std::alloc::{AllocError, Global};

/// A statement as it is written.
#[derive(Drop)]
pub enum Statement {
    Clause(Label, Role, TreeLiterals),
    /// A path, and the labels that are wanted, where they are listed.
    Include(Text, Option<Labels>),
}

/// What of a statement was read.
#[derive(Drop)]
pub enum Stage {
    Begin,
    ClauseOpen,
    ClauseLabel,
    BehindLabel(Label),
    ClauseRole(Label),
    BehindRole(Label, Role),
    Formula(Label, Role, Mode, Held),
    /// The open brackets of the notes, and whether there was a token.
    Notes(Statement, Stack<bool>, bool),
    WantDot(Statement),
    Done(Statement),
    IncludeOpen,
    Path,
    BehindPath(Text),
    ListOpen(Text),
    ListLabel(Text, Labels),
    BehindItem(Text, Labels),
    ListClosed(Text, Labels),
}

fn is_word(word: &Text, text: &[u8]) -> bool
    ensures { result ≡ bytes_eq word.now text.now }
{
    word.as_bytes() == text
}

fn is_language(word: &Text) -> bool
    ensures { result ≡ is_language word.now }
{
    is_word(word, b"fof")
        || (is_word(word, b"tff")
            || (is_word(word, b"tcf") || (is_word(word, b"thf") || is_word(word, b"tpi"))))
}

fn role_of(word: &Text) -> Option<Role>
    ensures { result ≡ role_of word.now }
{
    if is_word(word, b"axiom") {
        Some(Role::Axiom)
    } else if is_word(word, b"hypothesis") {
        Some(Role::Hypothesis)
    } else if is_word(word, b"definition") {
        Some(Role::Definition)
    } else if is_word(word, b"assumption") {
        Some(Role::Assumption)
    } else if is_word(word, b"lemma") {
        Some(Role::Lemma)
    } else if is_word(word, b"theorem") {
        Some(Role::Theorem)
    } else if is_word(word, b"corollary") {
        Some(Role::Corollary)
    } else if is_word(word, b"negated_conjecture") {
        Some(Role::NegatedConjecture)
    } else if is_word(word, b"plain") {
        Some(Role::Plain)
    } else {
        None
    }
}

fn begin(word: &Text) -> Result<Stage, StepFault>
    ensures advances { Advances result (begin_step word.now) }
    ensures fits { IfOk result StageFits }
{
    if is_word(word, b"cnf") {
        Ok(Stage::ClauseOpen)
    } else if is_word(word, b"include") {
        Ok(Stage::IncludeOpen)
    } else if is_language(word) {
        Err(StepFault::Wrong(What::Language))
    } else {
        Err(StepFault::Wrong(What::Syntax))
    }
}

fn behind_role(label: Label, word: &Text) -> Result<Stage, StepFault>
    ensures advances { Advances result (role_step label (role_of word.now)) }
    ensures fits { IfOk result StageFits }
{
    match role_of(word) {
        Some(role) => Ok(Stage::BehindRole(label, role)),
        None => Err(StepFault::Wrong(What::Role)),
    }
}

fn started(alloc: Global) -> Held
    ensures { result ≡ record { groups = []; frames = []; sign = true; left = None; room = 1000; out = [] } }
{
    Held {
        groups: Stack::new(alloc),
        frames: Stack::new(alloc),
        sign: true,
        left: None,
        room: 1000,
        out: TreeLiterals::new(alloc),
    }
}

fn syntax() -> StepFault
    ensures { result ≡ StepFault.Wrong What.Syntax }
{
    StepFault::Wrong(What::Syntax)
}

fn at_begin(token: &Terminal) -> Result<Stage, StepFault>
    ensures advances { Advances result (advance 1000 (stage_of Stage.Begin) token.now) }
    ensures fits { IfOk result StageFits }
{
    match token {
        Terminal::Word(false, word) => begin(word),
        _ => Err(syntax()),
    }
}

fn open_clause(token: &Terminal) -> Result<Stage, StepFault>
    ensures advances { Advances result (advance 1000 (stage_of Stage.ClauseOpen) token.now) }
    ensures fits { IfOk result StageFits }
{
    match token {
        Terminal::Sign(Sign::Left) => Ok(Stage::ClauseLabel),
        _ => Err(syntax()),
    }
}

fn clause_label(token: Terminal) -> Result<Stage, StepFault>
    ensures advances { Advances result (advance 1000 (stage_of Stage.ClauseLabel) token) }
    ensures fits { IfOk result StageFits }
{
    match token {
        Terminal::Word(_, word) => Ok(Stage::BehindLabel(Label::Word(word))),
        Terminal::Digits(digits) => Ok(Stage::BehindLabel(Label::Integer(digits))),
        _ => Err(syntax()),
    }
}

fn behind_label(label: Label, token: &Terminal) -> Result<Stage, StepFault>
    ensures advances { Advances result (advance 1000 (stage_of (Stage.BehindLabel label)) token.now) }
    ensures fits { IfOk result StageFits }
{
    match token {
        Terminal::Sign(Sign::Comma) => Ok(Stage::ClauseRole(label)),
        _ => Err(syntax()),
    }
}

fn clause_role(label: Label, token: &Terminal) -> Result<Stage, StepFault>
    ensures advances { Advances result (advance 1000 (stage_of (Stage.ClauseRole label)) token.now) }
    ensures fits { IfOk result StageFits }
{
    match token {
        Terminal::Word(false, word) => behind_role(label, word),
        _ => Err(syntax()),
    }
}

fn open_formula(
    alloc: Global,
    label: Label,
    role: Role,
    token: &Terminal,
) -> Result<Stage, StepFault>
    ensures advances { Advances result (advance 1000 (stage_of (Stage.BehindRole label role)) token.now) }
    ensures fits { IfOk result StageFits }
{
    match token {
        Terminal::Sign(Sign::Comma) => Ok(Stage::Formula(
            label,
            role,
            Mode::WantLiteral,
            started(alloc),
        )),
        _ => Err(syntax()),
    }
}

/// The sign of a token that may end a formula.
fn sign_of(token: &Terminal) -> Option<Sign>
    ensures { MatchOption result ((s : Sign) → token.now ≢ Terminal.Sign s) (λ s. token.now ≡ Terminal.Sign s) }
{
    match token {
        Terminal::Sign(sign) => Some(*sign),
        _ => None,
    }
}

fn end_formula(alloc: Global, statement: Statement, sign: Option<Sign>) -> Result<Stage, StepFault>
    ensures advances { (t : Terminal) → MatchOption sign ((s : Sign) → t ≢ Terminal.Sign s) (λ s. t ≡ Terminal.Sign s)
        → Advances result (formula_end statement t) }
    ensures fits { IfOk result StageFits }
{
    match sign {
        Some(Sign::Comma) => Ok(Stage::Notes(statement, Stack::new(alloc), false)),
        Some(Sign::Right) => Ok(Stage::WantDot(statement)),
        _ => Err(syntax()),
    }
}

/// Ends a formula before the token that had this sign.
fn close_formula(alloc: Global, stage: &mut Stage, sign: Option<Sign>) -> Result<(), StepFault>
    requires formula { IsFormula stage.old }
    ensures advances { (t : Terminal) → MatchOption sign ((s : Sign) → t ≢ Terminal.Sign s) (λ s. t ≡ Terminal.Sign s)
        → AdvancesTo stage.new result (formula_end (statement_in stage.old) t) }
    ensures fits { OnOk result (StageFits stage.new) }
{
    let taken = std::mem::replace(stage, Stage::Begin);
    let Stage::Formula(label, role, _, held) = taken else {
        unreachable!()
    };
    *stage = end_formula(alloc, Statement::Clause(label, role, held.out), sign)?;
    Ok(())
}

/// One token of a formula, or the first behind it.
fn in_formula(alloc: Global, stage: &mut Stage, token: Terminal) -> Result<(), StepFault>
    requires formula { IsFormula stage.old }
    requires fits { StageFits stage.old }
    ensures advances { AdvancesTo stage.new result (advance 1000 (stage_of stage.old) token) }
    ensures fits { OnOk result (StageFits stage.new) }
{
    let Stage::Formula(_, _, mode, held) = stage else {
        unreachable!()
    };
    let sign = sign_of(&token);
    let taken = std::mem::replace(mode, Mode::WantLiteral);
    if let Some(next) = step(alloc, taken, held, token)? {
        *mode = next;
        return Ok(());
    }
    close_formula(alloc, stage, sign)
}

fn close_round(
    statement: Statement,
    mut brackets: Stack<bool>,
    some: bool,
) -> Result<Stage, StepFault>
    ensures advances { Advances result (close_round statement brackets some) }
    ensures fits { IfOk result StageFits }
{
    match brackets.pop() {
        None => {
            if some {
                Ok(Stage::WantDot(statement))
            } else {
                Err(syntax())
            }
        }
        Some(true) => Ok(Stage::Notes(statement, brackets, true)),
        Some(false) => Err(syntax()),
    }
}

fn close_square(statement: Statement, mut brackets: Stack<bool>) -> Result<Stage, StepFault>
    ensures advances { Advances result (close_square statement brackets) }
    ensures fits { IfOk result StageFits }
{
    match brackets.pop() {
        Some(false) => Ok(Stage::Notes(statement, brackets, true)),
        _ => Err(syntax()),
    }
}

fn in_notes(
    statement: Statement,
    mut brackets: Stack<bool>,
    some: bool,
    token: &Terminal,
) -> Result<Stage, StepFault>
    ensures advances { Advances result (advance 1000 (stage_of (Stage.Notes statement brackets some)) token.now) }
    ensures fits { IfOk result StageFits }
{
    match token {
        Terminal::Sign(Sign::Left) => {
            brackets.push(true)?;
            Ok(Stage::Notes(statement, brackets, true))
        }
        Terminal::Sign(Sign::OpenSquare) => {
            brackets.push(false)?;
            Ok(Stage::Notes(statement, brackets, true))
        }
        Terminal::Sign(Sign::Right) => close_round(statement, brackets, some),
        Terminal::Sign(Sign::CloseSquare) => close_square(statement, brackets),
        _ => Ok(Stage::Notes(statement, brackets, true)),
    }
}

fn want_dot(statement: Statement, token: &Terminal) -> Result<Stage, StepFault>
    ensures advances { Advances result (advance 1000 (stage_of (Stage.WantDot statement)) token.now) }
    ensures fits { IfOk result StageFits }
{
    match token {
        Terminal::Sign(Sign::Dot) => Ok(Stage::Done(statement)),
        _ => Err(syntax()),
    }
}

fn open_include(token: &Terminal) -> Result<Stage, StepFault>
    ensures advances { Advances result (advance 1000 (stage_of Stage.IncludeOpen) token.now) }
    ensures fits { IfOk result StageFits }
{
    match token {
        Terminal::Sign(Sign::Left) => Ok(Stage::Path),
        _ => Err(syntax()),
    }
}

fn include_path(token: Terminal) -> Result<Stage, StepFault>
    ensures advances { Advances result (advance 1000 (stage_of Stage.Path) token) }
    ensures fits { IfOk result StageFits }
{
    match token {
        Terminal::Word(true, path) => Ok(Stage::BehindPath(path)),
        _ => Err(syntax()),
    }
}

fn behind_path(path: Text, token: &Terminal) -> Result<Stage, StepFault>
    ensures advances { Advances result (advance 1000 (stage_of (Stage.BehindPath path)) token.now) }
    ensures fits { IfOk result StageFits }
{
    match token {
        Terminal::Sign(Sign::Right) => Ok(Stage::WantDot(Statement::Include(path, None))),
        Terminal::Sign(Sign::Comma) => Ok(Stage::ListOpen(path)),
        _ => Err(syntax()),
    }
}

fn open_list(alloc: Global, path: Text, token: &Terminal) -> Result<Stage, StepFault>
    ensures advances { Advances result (advance 1000 (stage_of (Stage.ListOpen path)) token.now) }
    ensures fits { IfOk result StageFits }
{
    match token {
        Terminal::Sign(Sign::OpenSquare) => Ok(Stage::ListLabel(path, Labels::new(alloc))),
        _ => Err(syntax()),
    }
}

fn list_label(path: Text, mut labels: Labels, token: Terminal) -> Result<Stage, StepFault>
    ensures advances { Advances result (advance 1000 (stage_of (Stage.ListLabel path labels)) token) }
    ensures fits { IfOk result StageFits }
{
    match token {
        Terminal::Word(_, word) => {
            labels.push(Label::Word(word))?;
            Ok(Stage::BehindItem(path, labels))
        }
        Terminal::Digits(digits) => {
            labels.push(Label::Integer(digits))?;
            Ok(Stage::BehindItem(path, labels))
        }
        _ => Err(syntax()),
    }
}

fn behind_item(path: Text, labels: Labels, token: &Terminal) -> Result<Stage, StepFault>
    ensures advances { Advances result (advance 1000 (stage_of (Stage.BehindItem path labels)) token.now) }
    ensures fits { IfOk result StageFits }
{
    match token {
        Terminal::Sign(Sign::Comma) => Ok(Stage::ListLabel(path, labels)),
        Terminal::Sign(Sign::CloseSquare) => Ok(Stage::ListClosed(path, labels)),
        _ => Err(syntax()),
    }
}

fn close_include(path: Text, labels: Labels, token: &Terminal) -> Result<Stage, StepFault>
    ensures advances { Advances result (advance 1000 (stage_of (Stage.ListClosed path labels)) token.now) }
    ensures fits { IfOk result StageFits }
{
    match token {
        Terminal::Sign(Sign::Right) => Ok(Stage::WantDot(Statement::Include(path, Some(labels)))),
        _ => Err(syntax()),
    }
}

/// One token outside of a formula.
fn outside(alloc: Global, stage: Stage, token: Terminal) -> Result<Stage, StepFault>
    requires outside { ¬ IsFormula stage }
    ensures advances { Advances result (advance 1000 (stage_of stage) token) }
    ensures fits { IfOk result StageFits }
{
    match stage {
        Stage::Begin => at_begin(&token),
        Stage::ClauseOpen => open_clause(&token),
        Stage::ClauseLabel => clause_label(token),
        Stage::BehindLabel(label) => behind_label(label, &token),
        Stage::ClauseRole(label) => clause_role(label, &token),
        Stage::BehindRole(label, role) => open_formula(alloc, label, role, &token),
        Stage::Formula(_, _, _, _) => unreachable!(),
        Stage::Notes(statement, brackets, some) => in_notes(statement, brackets, some, &token),
        Stage::WantDot(statement) => want_dot(statement, &token),
        Stage::Done(_) => Err(syntax()),
        Stage::IncludeOpen => open_include(&token),
        Stage::Path => include_path(token),
        Stage::BehindPath(path) => behind_path(path, &token),
        Stage::ListOpen(path) => open_list(alloc, path, &token),
        Stage::ListLabel(path, labels) => list_label(path, labels, token),
        Stage::BehindItem(path, labels) => behind_item(path, labels, &token),
        Stage::ListClosed(path, labels) => close_include(path, labels, &token),
    }
}

pub fn is_formula(stage: &Stage) -> bool
    ensures { IsTrue result ↔ IsFormula stage.now }
{
    match stage {
        Stage::Formula(_, _, _, _) => true,
        _ => false,
    }
}

/// One token of a statement. A formula is read where it stands, so that nothing of it moves.
pub fn advance(alloc: Global, stage: &mut Stage, token: Terminal) -> Result<(), StepFault>
    requires { StageFits stage.old }
    ensures advances { AdvancesTo stage.new result (advance 1000 (stage_of stage.old) token) }
    ensures fits { OnOk result (StageFits stage.new) }
{
    if is_formula(stage) {
        return in_formula(alloc, stage, token);
    }
    let taken = std::mem::replace(stage, Stage::Begin);
    *stage = outside(alloc, taken, token)?;
    Ok(())
}

/// Lets the texts and trees of a formula go that no step looks at.
pub fn forget(stage: &mut Stage) -> Result<(), AllocError>
    requires fits { StageFits stage.old }
    ensures fits { OnOk result (StageFits stage.new) }
    ensures bare { OnOk result (bare_stage (stage_of stage.new) ≡ bare_stage (stage_of stage.old)) }
{
    if let Stage::Formula(_, _, _, held) = stage {
        forget_trees(held)?;
    }
    Ok(())
}
