//! Lines within bounds, read exactly.
ghost use Rattle.std.specs.Prelude.{◌≡◌, ◌↔◌, IfOk, IfSome, IfNone, IsTrue};
ghost use Rattle.cd_term.specs.Terms.{AreWithin};
ghost use Rattle.cd_text.specs.declared.line.Line.{Line as LineValue};
ghost use Rattle.cd_text.specs.Formed.{ArePrintable, IsLine};
ghost use Rattle.cd_line.specs.Lines.{source_subst};
ghost use Rattle.cd_line.specs.Held.{IsHeld, IsWithin};

use crate::names::read_line;
use crate::reading::ReadFault;
use cd_clause::within;
use cd_symbols::Symbols;
use cd_term::{MAX_LEVELS, MAX_SYMBOLS, Term, measure_all};
use cd_text::{Line, LineSource};
use std::alloc::{AllocError, Global};

/// The most levels of the arguments of an atom.
const LEVELS: u32 = 999;

fn are_within(terms: &[Term]) -> bool
    ensures { IsTrue result ↔ AreWithin 65535 1000 terms.now }
{
    measure_all(terms, MAX_SYMBOLS, MAX_LEVELS).is_some()
}

fn source_within(source: &LineSource) -> bool
    ensures { IsTrue result ↔ AreWithin 65535 1000 (source_subst source.now) }
{
    match source {
        LineSource::File { path: _, label: _ } => true,
        LineSource::Inference { step, parents: _ } => are_within(step.subst()),
    }
}

fn is_within(line: &Line) -> bool
    ensures { IsTrue result ↔ IsWithin line.now }
{
    within(&line.clause) && source_within(&line.source)
}

/// The line that the piece is, if it is one. A number of a name beyond 64 bits is held as the greatest of 64 bits.
pub fn read_exact(
    alloc: Global,
    symbols: &Symbols,
    piece: &[u8],
) -> Result<Option<Line>, AllocError>
    requires { ArePrintable symbols.now }
    ensures some { IfOk result (λ o. IfSome o (IsHeld symbols.now piece.now)) }
    ensures none { IfOk result (λ o. IfNone o ((l : LineValue) → IsLine symbols.now l piece.now → ⊥)) }
{
    let _distinct = symbols.len();
    match read_line(alloc, symbols, LEVELS, piece) {
        Err(ReadFault::Memory) => Err(AllocError),
        Err(ReadFault::Form) => Ok(None),
        Ok(line) => {
            if is_within(&line) {
                Ok(Some(line))
            } else {
                Ok(None)
            }
        }
    }
}
