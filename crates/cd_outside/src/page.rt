//! A sink in memory.
ghost use Rattle.std.specs.Prelude.{◌≡◌, ℕ, ◌+◌, ◌^◌, ◌<◌, ◌≤◌, [], ◌∷◌, length, take, sum, Option, Some, None, List, nat_lt, IfOk, IfNone, IfSome, OnOk, OnErr, IsOk, IsErr, MatchOption};
ghost use Rattle.std.specs.Io.KnownBytes.{Appends};
ghost use Rattle.cd_outside.specs.Outside.{HasCause, AppendsFront, Gives, FallsShort, counted};
ghost use Rattle.cd_outside.specs.Page.{share_of, shortened, failing_take, wrote, fell_short, pieces_told};

use crate::{Sink, SinkFailed};
use cd_list::Sequence;
use std::alloc::{AllocError, Global};
use std::marker::Model;

/// Numbers of failing calls, from 0, each with how many bytes that call still takes.
pub type Fails = Sequence<(u64, u64)>;

/// A sink in memory that takes all its memory at once, and whose calls fail as a list says. It tells the bytes
/// that it took, and the pieces of its calls until a call doesn't fit.
#[derive(Drop)]
pub struct Page {
    room: u64,
    limit: u32,
    fails: Fails,
    calls: u64,
    faults: u64,
    bytes: Vec<u8>,
    lengths: Vec<usize>,
}

impl Model for Page {
    ghost use Rattle.std.specs.Prelude.{◌≡◌, ◌≤◌, min, sum};
    ghost use Rattle.std.specs.Vec.{vec_len, vec_capacity};
    ghost use Rattle.cd_outside.specs.Page.{PageState};

    ghost Value = { PageState };

    ghost view = { λ it. record { room = it.room; limit = it.limit; fails = it.fails; calls = it.calls; faults = it.faults; bytes = it.bytes.items; lengths = it.lengths.items } };

    ghost invariant = { λ it. (vec_len it.bytes ≤ it.room) × (it.room ≤ vec_capacity it.bytes)
        × (vec_len it.lengths ≡ min it.calls it.limit) × (it.limit ≤ vec_capacity it.lengths) × (sum it.lengths.items ≡ vec_len it.bytes) };
}

impl Page {
    /// An empty page with room for so many bytes, in so many calls.
    pub fn new(alloc: Global, room: u64, limit: u32, fails: Fails) -> Result<Page, AllocError>
        ensures { IfOk result (λ page. page ≡ record { room = room; limit = limit; fails = fails; calls = 0; faults = 0; bytes = []; lengths = [] }) }
    {
        let bytes = Vec::with_capacity(alloc, room as usize)?;
        let lengths = Vec::with_capacity(alloc, limit as usize)?;
        Ok(Page {
            room,
            limit,
            fails,
            calls: 0,
            faults: 0,
            bytes,
            lengths,
        })
    }

    /// The bytes that the page took.
    pub fn bytes(&self) -> &[u8]
        ensures { result.now ≡ self.now.bytes }
    {
        self.bytes.as_slice()
    }

    /// How many bytes each call took, of the calls that fit.
    pub fn lengths(&self) -> &[usize]
        ensures { result.now ≡ self.now.lengths }
    {
        self.lengths.as_slice()
    }

    fn is_noted(&self) -> bool
        ensures { result ≡ nat_lt self.now.calls self.now.limit }
    {
        self.calls < u64::from(self.limit)
    }

    /// How many bytes the next call takes, if it fails.
    fn failing(&self, size: usize) -> Option<usize>
        ensures exact { result ≡ failing_take self.now size }
        ensures whole { IfNone result (size + length self.now.bytes ≤ self.now.room) }
        ensures fits { IfNone result (self.now.calls < self.now.limit) }
        ensures part { IfSome result (λ taken. (taken ≤ size) × (taken + length self.now.bytes ≤ self.now.room)) }
    {
        let left = self.room as usize - self.bytes.len();
        if self.is_noted() {
            shorten(share(self.fails.as_slice(), self.calls), size, left)
        } else {
            Some(0)
        }
    }

    /// Takes these bytes, and notes the call where it fits.
    fn take_in(&mut self, bytes: &[u8])
        requires room { length bytes.now + length self.old.bytes ≤ self.old.room }
        requires noted { self.old.limit ≤ self.old.calls → length bytes.now ≡ 0 }
        ensures state { self.new ≡ wrote self.old bytes.now }
        ensures limit { self.old.limit < 2 ^ 32 }
        ensures cut { sum self.old.lengths ≡ length self.old.bytes }
    {
        if self.is_noted() {
            self.lengths.push(bytes.len()).unwrap();
        }
        self.calls = self.calls.saturating_add(1);
        self.bytes.extend_from_slice(bytes).unwrap();
    }

    fn count_fault(&mut self)
        ensures state { self.new ≡ record self.old { faults = counted self.old.faults } }
        ensures later { self.old.faults ≤ self.new.faults }
    {
        self.faults = self.faults.saturating_add(1);
    }
}

fn share(fails: &[(u64, u64)], call: u64) -> Option<u64>
    ensures { result ≡ share_of fails.now call }
{
    let mut rest = fails;
    while let [pair, after @ ..] = rest {
        if pair.0 == call {
            return Some(pair.1);
        }
        rest = after;
    }
    None
}

/// How many bytes a call takes, if it fails.
fn shorten(share: Option<u64>, length: usize, left: usize) -> Option<usize>
    ensures { result ≡ shortened share length left }
{
    match share {
        Some(share) => Some((share as usize).min(length).min(left)),
        None => { if length <= left { None } else { Some(0) } }
    }
}

impl Sink for Page {
    ghost faults = { λ it. it.faults };

    ghost taken = { λ it. Some it.bytes };

    ghost pieces = { pieces_told };

    /// A call fails exactly where its number stands in a pair, or its piece doesn't fit into what is left of
    /// the room, or it is one call too many. Calls past number 2^64 - 1 have this number.
    fn write(&mut self, piece: &[u8]) -> Result<(), SinkFailed>
        ensures cause { HasCause self.old.faults self.new.faults result }
        ensures whole { OnOk result (Appends (Some self.old.bytes) (Some self.new.bytes) piece.now) }
        ensures front { OnErr result (AppendsFront (Some self.old.bytes) (Some self.new.bytes) piece.now) }
        ensures piece { OnOk result (Gives (pieces_told self.old) (pieces_told self.new) (piece.now ∷ [])) }
        ensures short { OnErr result (FallsShort (Some self.old.bytes) (Some self.new.bytes) (pieces_told self.old) (pieces_told self.new) piece.now) }

        ensures exact { MatchOption (failing_take self.old (length piece.now))
            (IsOk result × (self.new ≡ wrote self.old piece.now))
            (λ taken. IsErr result × (self.new ≡ fell_short self.old (take taken piece.now))) }
    {
        match self.failing(piece.len()) {
            None => {
                self.take_in(piece);
                Ok(())
            }
            Some(taken) => {
                self.take_in(&piece[..taken]);
                self.count_fault();
                Err(SinkFailed)
            }
        }
    }
}
