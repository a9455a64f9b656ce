//! The machine that reads a formula, one token at a time.
ghost use Rattle.std.specs.Prelude.{true, ◌≡◌, ◌++◌, ◌∷◌, ◌+◌, ◌≤◌, length, Ok, Some, None, IfOk, OnOk, OnSome, []};
ghost use Rattle.cd_parse.specs.Steps.{fault, with_atom, right_side, step, after_step, literal_step, negated_step, term_step, word_step, var_step, app_step, in_frame, opened, arguments, foreign_fault};
ghost use Rattle.cd_parse.specs.Grammar.{literal};
ghost use Rattle.cd_parse.specs.Bare.{bare};
ghost use Rattle.cd_parse.specs.Code.{Turns, HasRoom, state_of};

use crate::label::What;
use crate::stack::Stack;
use crate::terminal::{Foreign, Sign, Terminal};
use crate::tree::{Side, Tree, TreeAtom, TreeLiteral, TreeLiterals, Trees};
use crate::word::Word;
use cd_list::Text;
use std::alloc::{AllocError, Global};

/// What is wanted next, or what was read last.
#[derive(Drop)]
pub enum Mode {
    WantLiteral,
    /// An atom behind `~`, whose sign is given.
    WantNegated(bool),
    WantTerm,
    AfterWord(Text),
    AfterVar(Text),
    AfterApp(Word, Trees),
    AfterLiteral,
}

/// An open list of arguments: its word, and the arguments so far.
#[derive(Drop)]
pub struct Frame {
    pub word: Word,
    pub done: Trees,
}

/// What the reader of a formula holds.
#[derive(Drop)]
pub struct Held {
    /// The open parentheses around literals: whether a formula stands in each.
    pub groups: Stack<bool>,
    /// The open lists of arguments of the atom.
    pub frames: Stack<Frame>,
    /// The sign of the atom, and its left side where it is known to be an equation.
    pub sign: bool,
    pub left: Option<Tree>,
    /// How many more parentheses may be opened.
    pub room: u32,
    pub out: TreeLiterals,
}

/// Why a token isn't taken.
#[derive(Drop)]
pub enum StepFault {
    Wrong(What),
    Memory,
}

impl From<AllocError> for StepFault {
    ghost use Rattle.std.specs.Prelude.{◌≡◌};
    ghost use Rattle.cd_parse.specs.declared.machine.StepFault.TheVariants.{Memory};

    ghost from_gives = { λ _ fault. fault ≡ Memory };

    fn from(_error: AllocError) -> StepFault {
        StepFault::Memory
    }
}

/// Behind a literal. `None` where the formula ended before the token.
fn after_literal(held: &mut Held, token: &Terminal) -> Result<Option<Mode>, StepFault>
    requires room { HasRoom held.old }
    ensures turns { Turns held.new result (after_step (state_of Mode.AfterLiteral held.old) token.now) }
    ensures room { OnOk result (HasRoom held.new) }
{
    match token {
        Terminal::Sign(Sign::Bar) => behind_bar(held),
        Terminal::Sign(Sign::Right) => Ok(closed(held)),
        Terminal::Sign(Sign::Comma) => {
            match held.groups.pop() {
                None => Ok(None),
                Some(_) => Err(StepFault::Wrong(What::Syntax)),
            }
        }
        _ => Err(StepFault::Wrong(What::Syntax)),
    }
}

fn behind_bar(held: &mut Held) -> Result<Option<Mode>, StepFault>
    requires room { HasRoom held.old }
    ensures turns { Turns held.new result (after_step (state_of Mode.AfterLiteral held.old) (Terminal.Sign Sign.Bar)) }
    ensures room { OnOk result (HasRoom held.new) }
{
    match held.groups.pop() {
        None => Ok(Some(Mode::WantLiteral)),
        Some(true) => {
            held.groups.push(true)?;
            Ok(Some(Mode::WantLiteral))
        }
        Some(false) => Err(StepFault::Wrong(What::Syntax)),
    }
}

fn closed(held: &mut Held) -> Option<Mode>
    requires room { HasRoom held.old }
    ensures turns { Turns held.new (Ok result) (after_step (state_of Mode.AfterLiteral held.old) (Terminal.Sign Sign.Right)) }
    ensures room { HasRoom held.new }
{
    match held.groups.pop() {
        None => None,
        Some(_) => {
            held.room += 1;
            Some(Mode::AfterLiteral)
        }
    }
}

fn foreign(kind: Foreign) -> What
    ensures { foreign_fault kind ≡ fault result }
{
    match kind {
        Foreign::Object => What::Object,
        Foreign::Number => What::Number,
        Foreign::Dollar => What::Dollar,
    }
}

/// A parenthesis around literals is opened.
fn open_group(held: &mut Held, mode: Mode, formula: bool) -> Result<Option<Mode>, StepFault>
    requires room { HasRoom held.old }
    ensures turns { (m : Mode) → Turns held.new result (opened (state_of m held.old) mode formula held.old.room) }
    ensures room { OnOk result (HasRoom held.new) }
{
    if held.room == 0 {
        return Err(StepFault::Wrong(What::Deep));
    }
    held.room -= 1;
    held.groups.push(formula)?;
    Ok(Some(mode))
}

/// An atom of this sign begins.
fn begin_atom(held: &mut Held, sign: bool)
    requires room { HasRoom held.old }
    ensures begins { held.new ≡ record held.old { frames = []; left = None; sign = sign } }
    ensures room { HasRoom held.new }
{
    held.frames.clear();
    held.left = None;
    held.sign = sign;
}

/// An atom was read.
fn end_atom(held: &mut Held, positive: bool, atom: TreeAtom) -> Result<(), AllocError>
    requires room { HasRoom held.old }
    ensures ends { OnOk result (held.new ≡ record held.old {
      frames = [];
      left = None;
      sign = true;
      out = held.old.out ++ literal positive atom ∷ [];
    }) }
    ensures room { OnOk result (HasRoom held.new) }
{
    held.frames.clear();
    held.left = None;
    held.sign = true;
    held.out.push(TreeLiteral { positive, atom })
}

/// Where a literal is wanted.
fn want_literal(held: &mut Held, token: Terminal) -> Result<Option<Mode>, StepFault>
    requires room { HasRoom held.old }
    ensures turns { Turns held.new result (literal_step (state_of Mode.WantLiteral held.old) token) }
    ensures room { OnOk result (HasRoom held.new) }
{
    match token {
        Terminal::Word(_, word) => {
            begin_atom(held, true);
            Ok(Some(Mode::AfterWord(word)))
        }
        Terminal::Upper(name) => {
            begin_atom(held, true);
            Ok(Some(Mode::AfterVar(name)))
        }
        Terminal::Truth(positive) => {
            end_atom(held, positive, TreeAtom::Truth)?;
            Ok(Some(Mode::AfterLiteral))
        }
        Terminal::Digits(_) => Err(StepFault::Wrong(What::Number)),
        Terminal::Foreign(kind) => Err(StepFault::Wrong(foreign(kind))),
        Terminal::Sign(Sign::Left) => open_group(held, Mode::WantLiteral, true),
        Terminal::Sign(Sign::Tilde) => Ok(Some(Mode::WantNegated(false))),
        _ => Err(StepFault::Wrong(What::Syntax)),
    }
}

/// Where an atom behind `~` is wanted.
fn want_negated(held: &mut Held, sign: bool, token: Terminal) -> Result<Option<Mode>, StepFault>
    requires room { HasRoom held.old }
    ensures turns { Turns held.new result (negated_step (state_of (Mode.WantNegated sign) held.old) sign token) }
    ensures room { OnOk result (HasRoom held.new) }
{
    match token {
        Terminal::Word(_, word) => {
            begin_atom(held, sign);
            Ok(Some(Mode::AfterWord(word)))
        }
        Terminal::Upper(name) => {
            begin_atom(held, sign);
            Ok(Some(Mode::AfterVar(name)))
        }
        Terminal::Truth(positive) => {
            end_atom(
                held,
                if sign { positive } else { !positive },
                TreeAtom::Truth,
            )?;
            Ok(Some(Mode::AfterLiteral))
        }
        Terminal::Digits(_) => Err(StepFault::Wrong(What::Number)),
        Terminal::Foreign(kind) => Err(StepFault::Wrong(foreign(kind))),
        Terminal::Sign(Sign::Left) => open_group(held, Mode::WantNegated(sign), false),
        Terminal::Sign(Sign::Tilde) => Ok(Some(Mode::WantNegated(!sign))),
        _ => Err(StepFault::Wrong(What::Syntax)),
    }
}

/// Where a term is wanted.
fn want_term(held: &Held, token: Terminal) -> Result<Option<Mode>, StepFault>
    ensures turns { Turns held.now result (term_step (state_of Mode.WantTerm held.now) token) }
{
    match token {
        Terminal::Word(_, word) => Ok(Some(Mode::AfterWord(word))),
        Terminal::Upper(name) => Ok(Some(Mode::AfterVar(name))),
        Terminal::Truth(_) => Err(StepFault::Wrong(What::Dollar)),
        Terminal::Digits(_) => Err(StepFault::Wrong(What::Number)),
        Terminal::Foreign(kind) => Err(StepFault::Wrong(foreign(kind))),
        _ => Err(StepFault::Wrong(What::Syntax)),
    }
}

/// The arguments with one more. There is room for one at first, and then for twice as many whenever it is full.
fn with_term(args: Trees, term: Tree) -> Result<Trees, AllocError>
    ensures { IfOk result (λ more. more ≡ args ++ term ∷ []) }
{
    let mut items = args.into_vec();
    let count = items.len();
    if count == items.capacity() {
        items.reserve_exact(if count == 0 { 1 } else { count })?;
    }
    let mut more = Trees::from_vec(items);
    more.push(term)?;
    Ok(more)
}

/// Behind a term in a list of arguments.
fn in_frame(
    held: &mut Held,
    term: Tree,
    frame: Frame,
    token: &Terminal,
) -> Result<Option<Mode>, StepFault>
    requires room { held.old.room + (length held.old.groups + (length held.old.frames + 1)) ≤ 1000 }
    ensures turns { (m : Mode) → Turns held.new result
        (in_frame (state_of m held.old) term frame held.old.frames token.now) }
    ensures room { OnOk result (HasRoom held.new) }
{
    match token {
        Terminal::Sign(Sign::Comma) => {
            let Frame { word, done } = frame;
            let done = with_term(done, term)?;
            held.frames.push(Frame { word, done })?;
            Ok(Some(Mode::WantTerm))
        }
        Terminal::Sign(Sign::Right) => {
            let Frame { word, done } = frame;
            let done = with_term(done, term)?;
            held.room += 1;
            Ok(Some(Mode::AfterApp(word, done)))
        }
        _ => Err(StepFault::Wrong(What::Syntax)),
    }
}

/// Behind the left side of an equation.
fn right_side(held: &mut Held, left: Tree, sign: bool) -> Mode
    requires room { HasRoom held.old }
    requires alone { held.old.frames ≡ [] }
    ensures turns { (m : Mode) → Turns held.new (Ok (Some result)) (right_side (state_of m held.old) left sign) }
    ensures room { HasRoom held.new }
{
    held.left = Some(left);
    held.sign = sign;
    Mode::WantTerm
}

/// An equation was read.
fn end_equation(
    alloc: Global,
    held: &mut Held,
    left: Tree,
    right: Tree,
    token: &Terminal,
) -> Result<Option<Mode>, StepFault>
    requires room { HasRoom held.old }
    ensures turns { (m : Mode) → Turns held.new result
        (after_step (with_atom (state_of m held.old) held.old.sign (TreeAtom.Equal left right)) token.now) }
    ensures room { OnOk result (HasRoom held.new) }
{
    let sign = held.sign;
    let right = Side::of(alloc, right)?;
    end_atom(held, sign, TreeAtom::Equal(left, right))?;
    after_literal(held, token)
}

/// Behind a variable.
fn after_var(
    alloc: Global,
    held: &mut Held,
    name: Word,
    token: &Terminal,
) -> Result<Option<Mode>, StepFault>
    requires room { HasRoom held.old }
    ensures turns { (m : Mode) → Turns held.new result (var_step (state_of m held.old) name held.old.frames token.now) }
    ensures room { OnOk result (HasRoom held.new) }
{
    if let Some(frame) = held.frames.pop() {
        return in_frame(held, Tree::Var(name), frame, token);
    }
    if let Some(left) = held.left.take() {
        return end_equation(alloc, held, left, Tree::Var(name), token);
    }
    let sign = held.sign;
    match token {
        Terminal::Sign(Sign::Equal) => Ok(Some(right_side(held, Tree::Var(name), sign))),
        Terminal::Sign(Sign::Unequal) => Ok(Some(right_side(held, Tree::Var(name), !sign))),
        _ => Err(StepFault::Wrong(What::Syntax)),
    }
}

/// Behind a word with its arguments.
fn after_app(
    alloc: Global,
    held: &mut Held,
    word: Word,
    args: Trees,
    token: &Terminal,
) -> Result<Option<Mode>, StepFault>
    requires room { HasRoom held.old }
    ensures turns { (m : Mode) → Turns held.new result (app_step (state_of m held.old) word args held.old.frames token.now) }
    ensures room { OnOk result (HasRoom held.new) }
{
    if let Some(frame) = held.frames.pop() {
        return in_frame(held, Tree::App(word, args), frame, token);
    }
    if let Some(left) = held.left.take() {
        return end_equation(alloc, held, left, Tree::App(word, args), token);
    }
    let sign = held.sign;
    match token {
        Terminal::Sign(Sign::Equal) => Ok(Some(right_side(held, Tree::App(word, args), sign))),
        Terminal::Sign(Sign::Unequal) => Ok(Some(right_side(held, Tree::App(word, args), !sign))),
        _ => {
            end_atom(held, sign, TreeAtom::Pred(word, args))?;
            after_literal(held, token)
        }
    }
}

/// Behind a word, where a list of arguments may begin.
fn after_word(
    alloc: Global,
    held: &mut Held,
    word: Word,
    token: &Terminal,
) -> Result<Option<Mode>, StepFault>
    requires room { HasRoom held.old }
    ensures turns { (m : Mode) → Turns held.new result (word_step (state_of m held.old) word token.now) }
    ensures room { OnOk result (HasRoom held.new) }
{
    match token {
        Terminal::Sign(Sign::Left) => {
            if held.room == 0 {
                return Err(StepFault::Wrong(What::Deep));
            }
            held.room -= 1;
            held.frames.push(Frame {
                word,
                done: Trees::new(alloc),
            })?;
            Ok(Some(Mode::WantTerm))
        }
        _ => after_app(alloc, held, word, Trees::new(alloc), token),
    }
}

/// One token. `None` where the formula ended before it.
pub fn step(
    alloc: Global,
    mode: Mode,
    held: &mut Held,
    token: Terminal,
) -> Result<Option<Mode>, StepFault>
    requires room { HasRoom held.old }
    ensures turns { Turns held.new result (step (state_of mode held.old) token) }
    ensures room { OnOk result (HasRoom held.new) }
{
    match mode {
        Mode::WantLiteral => want_literal(held, token),
        Mode::WantNegated(sign) => want_negated(held, sign, token),
        Mode::WantTerm => want_term(held, token),
        Mode::AfterWord(word) => after_word(alloc, held, Word::of(alloc, word)?, &token),
        Mode::AfterVar(name) => after_var(alloc, held, Word::of(alloc, name)?, &token),
        Mode::AfterApp(word, args) => after_app(alloc, held, word, args, &token),
        Mode::AfterLiteral => after_literal(held, &token),
    }
}

/// Lets the literals go, and the last arguments of the innermost list.
pub fn forget_trees(held: &mut Held) -> Result<(), AllocError>
    requires room { HasRoom held.old }
    ensures room { OnOk result (HasRoom held.new) }
    ensures bare { OnOk result ((m : Mode) → bare (state_of m held.new) ≡ bare (state_of m held.old)) }
{
    held.out.clear();
    if let Some(mut frame) = held.frames.pop() {
        frame.done.clear();
        held.frames.push(frame)?;
    }
    Ok(())
}
