//! What is read from a place on: a statement, nothing, or a fault.
ghost use Rattle.std.specs.Prelude.{◌≡◌, ◌<◌, ◌≤◌, ◌^◌, ◌+◌, length, IfOk, OnOk, MatchOption, if◌then◌else◌};
ghost use Rattle.cd_parse.specs.Bare.{counted};
ghost use Rattle.cd_parse.specs.Parts.{MayInclude, IsWrongPath, what_of};
ghost use Rattle.cd_parse.specs.Reading.{Counts, Takes, Ends, TakesToken, EndsWith, Goes, IsRead, Begun, IsOpen};
ghost use Rattle.cd_parse.specs.Code.{StageFits, stage_of};

use crate::label::What;
use crate::machine::StepFault;
use crate::statement::{Stage, Statement, advance, forget};
use crate::terminal::Terminal;
use crate::terminals::terminal_of;
use cd_lex::{LexFault, next_token};
use cd_list::{Sequence, Text};
use std::alloc::{AllocError, Global};

/// What stands behind the tokens so far.
#[derive(Drop)]
pub enum Found {
    /// More of the statement.
    More,
    /// The end of the statement.
    Statement(Statement),
    /// The end of a clause with more words than a clause may have. Its literals were let go.
    Oversized,
    /// Nothing, and no statement has begun.
    Over,
}

/// Why nothing was read.
#[derive(Drop)]
pub enum PartFault {
    Wrong(What, u32),
    Memory,
}

impl From<AllocError> for PartFault {
    ghost use Rattle.std.specs.Prelude.{◌≡◌};
    ghost use Rattle.cd_parse.specs.declared.part.PartFault.TheVariants.{Memory};

    ghost from_gives = { λ _ fault. fault ≡ Memory };

    fn from(_error: AllocError) -> PartFault {
        PartFault::Memory
    }
}

/// Why a path may not be included, if it may not.
fn path_fault(opens: &[Text], path: &Text) -> Option<What>
    ensures { MatchOption result (MayInclude opens.now path.now) (IsWrongPath opens.now path.now) }
{
    if opens.contains(path) {
        return Some(What::Cycle);
    }
    if opens.len() >= 16 {
        return Some(What::Depth);
    }
    None
}

fn what_of(fault: LexFault) -> (What, u32)
    ensures { result ≡ what_of fault }
{
    match fault {
        LexFault::BadByte(at) => (What::BadByte, at),
        LexFault::OpenQuote(at) => (What::OpenQuote, at),
        LexFault::OpenComment(at) => (What::OpenComment, at),
    }
}

/// One token of a statement, which begins at `start`. A path is tested where it is read.
fn take(
    alloc: Global,
    stage: &mut Stage,
    terminal: Terminal,
    start: u32,
    opens: &[Text],
) -> Result<(), PartFault>
    requires { StageFits stage.old }
    ensures takes { Takes opens.now (stage_of stage.old) terminal start (stage_of stage.new) result }
    ensures fits { OnOk result (StageFits stage.new) }
{
    match advance(alloc, stage, terminal) {
        Ok(()) => {}
        Err(StepFault::Wrong(what)) => return Err(PartFault::Wrong(what, start)),
        Err(StepFault::Memory) => return Err(PartFault::Memory),
    }
    if let Stage::BehindPath(path) = stage {
        if let Some(what) = path_fault(opens, path) {
            return Err(PartFault::Wrong(what, start));
        }
    }
    Ok(())
}

/// How far a statement is read: where it was looked for, its stage, the places of its tokens, where the next
/// one is looked for, and how many words of a formula were read.
#[derive(Drop)]
pub struct Progress {
    pub from: usize,
    pub stage: Stage,
    pub starts: Sequence<u32>,
    pub at: usize,
    pub words: u32,
}

/// The most words of a clause.
const MAX_WORDS: u32 = 65_535;

/// Whether a token is a word of a formula.
fn is_counted(stage: &Stage, terminal: &Terminal) -> bool
    ensures { counted (stage_of stage.now) terminal.now ≡ (if result then 1 else 0) }
{
    match stage {
        Stage::Formula(_, _, _, _) => match terminal {
            Terminal::Word(_, _) => true,
            Terminal::Upper(_) => true,
            _ => false,
        },
        _ => false,
    }
}

/// Counts a word of a formula. Once a clause has too many, its trees are let go.
fn count(progress: &mut Progress, terminal: &Terminal) -> Result<(), AllocError>
    requires fits { StageFits progress.old.stage }
    ensures fits { OnOk result (StageFits progress.new.stage) }
    ensures same { OnOk result
        (progress.new ≡ record progress.old { stage = progress.new.stage; words = progress.new.words }) }
    ensures counts { OnOk result (Counts progress.old.words progress.new.words
        (stage_of progress.old.stage) (stage_of progress.new.stage) terminal.now) }
{
    if !is_counted(&progress.stage, terminal) {
        return Ok(());
    }
    if progress.words <= MAX_WORDS {
        progress.words += 1;
    }
    if progress.words > MAX_WORDS {
        forget(&mut progress.stage)?;
    }
    Ok(())
}

/// Whether the statement ended; if so, what it is.
fn ended(progress: &mut Progress) -> Found
    ensures { Ends progress.old progress.new result }
{
    match &progress.stage {
        Stage::Done(_) => {}
        _ => return Found::More,
    }
    let stage = std::mem::replace(&mut progress.stage, Stage::Begin);
    let Stage::Done(statement) = stage else {
        unreachable!()
    };
    if progress.words > MAX_WORDS {
        return Found::Oversized;
    }
    Found::Statement(statement)
}

/// A token behind a statement's front.
fn with_token(
    alloc: Global,
    progress: &mut Progress,
    terminal: Terminal,
    start: u32,
    end: usize,
    opens: &[Text],
) -> Result<Found, PartFault>
    requires { StageFits progress.old.stage }
    ensures turns { TakesToken opens.now progress.old progress.new terminal start end result }
{
    progress.starts.push(start)?;
    progress.at = end;
    count(progress, &terminal)?;
    take(alloc, &mut progress.stage, terminal, start, opens)?;
    Ok(ended(progress))
}

/// No token behind a statement's front.
fn with_nothing(starts: &[u32], length: u32) -> Result<Found, PartFault>
    ensures { EndsWith starts.now length result }
{
    if starts.is_empty() {
        return Ok(Found::Over);
    }
    Err(PartFault::Wrong(What::Syntax, length))
}

fn read_token(
    alloc: Global,
    bytes: &[u8],
    progress: &mut Progress,
    opens: &[Text],
) -> Result<Found, PartFault>
    requires few { length bytes.now < 2 ^ 32 }
    requires within { progress.old.at ≤ length bytes.now }
    requires open { IsOpen (stage_of progress.old.stage) }
    requires fits { StageFits progress.old.stage }
    requires begun { Begun opens.now bytes.now progress.old.from progress.old.starts
        (stage_of progress.old.stage) progress.old.words progress.old.at }
    ensures { Goes opens.now bytes.now progress.old progress.new result }
{
    let next = match next_token(bytes, progress.at) {
        Ok(next) => next,
        Err(fault) => {
            let (what, place) = what_of(fault);
            return Err(PartFault::Wrong(what, place));
        }
    };
    let Some(token) = next else {
        return with_nothing(progress.starts.as_slice(), bytes.len() as u32);
    };
    let Ok(terminal) = terminal_of(alloc, &token) else {
        return Err(PartFault::Memory);
    };
    let end = token.start as usize + token.slice.len();
    with_token(alloc, progress, terminal, token.start, end, opens)
}

/// Reads a statement, where one begins. The places of its tokens and its end are left in `progress`.
pub fn read_part(
    alloc: Global,
    bytes: &[u8],
    progress: &mut Progress,
    opens: &[Text],
) -> Result<Found, PartFault>
    requires few { length bytes.now < 2 ^ 32 }
    requires within { progress.old.at ≤ length bytes.now }
    requires begin { progress.old.stage ≡ Stage.Begin }
    ensures { IsRead opens.now bytes.now progress.old.at progress.new result }
{
    progress.from = progress.at;
    progress.starts.clear();
    progress.words = 0;
    loop {
        match read_token(alloc, bytes, progress, opens)? {
            Found::More => {}
            found => return Ok(found),
        }
    }
}
