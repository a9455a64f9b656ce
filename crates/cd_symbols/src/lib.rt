//! The table of function and predicate symbols, each known by its number.
#![tactic(auto)]

ghost use Rattle.std.specs.Prelude.{◌≡◌, ◌≢◌, ◌≤◌, ◌<◌, ◌↔◌, ◌++◌, ◌∷◌, [], ℕ, Some, length, slice_get, IsTrue, IfSome, IfOk, OnOk, OnErr, IsErrOf, MatchOption};
ghost use Rattle.cd_symbols.specs.Symbol.{symbol_of, Lacks, AreDistinct, Interns};

use cd_list::{Copied, Text};
use indexmap::IndexSet;
use std::alloc::{AllocError, Global};
use std::marker::Model;
use thiserror::Error;

/// What a symbol makes of its arguments.
#[derive(Clone, Copy, Debug, PartialEq, Eq, Hash)]
pub enum Kind {
    /// A term; without arguments a constant.
    Function,
    /// An atom.
    Predicate,
}

/// Why a symbol has no number. The table is as it was.
#[derive(Clone, Copy, Debug, PartialEq, Eq, Error)]
pub enum SymbolFault {
    /// The symbol is new, and 65,535 symbols are there.
    #[error("too many symbols")]
    Full,
    /// Memory ran out.
    #[error("out of memory")]
    Memory,
}

/// The greatest number of symbols.
pub const MAX_SYMBOLS: usize = 65_535;

/// A symbol, with its text by the text's place.
#[derive(Clone, Copy, Debug, PartialEq, Eq, Hash)]
struct Key {
    text: usize,
    arity: u16,
    kind: Kind,
}

/// The symbols in the order in which they were interned first. A symbol's number is its place there, from 0.
///
/// A contract sees the list of the symbols. There are at most 65,535, and no two of them are the same: the
/// same text with another number of arguments, or of the other kind, is another symbol.
#[derive(Debug, Drop)]
pub struct Symbols {
    alloc: Global,
    /// Each text once, whatever the number of its symbols.
    texts: IndexSet<Text>,
    keys: IndexSet<Key>,
}

impl Model for Symbols {
    ghost use Rattle.std.specs.Prelude.{List, map, length, ◌≤◌};
    ghost use Rattle.cd_symbols.specs.Symbol.{Symbol};

    ghost Value = { List Symbol };

    ghost use Rattle.cd_symbols.specs.Table.{shown, AreWithin};

    ghost view = { λ s. map (shown s.texts.keys) s.keys.keys };

    ghost invariant = { λ s. (length s.keys.keys ≤ 65535) × AreWithin (length s.texts.keys) s.keys.keys };
}

impl Symbols {
    /// The empty table. No memory is taken.
    pub fn new(alloc: Global) -> Symbols
        ensures { result ≡ [] }
    {
        Symbols {
            alloc,
            texts: IndexSet::new(alloc),
            keys: IndexSet::new(alloc),
        }
    }

    /// How many symbols there are. Their numbers are those below.
    pub fn len(&self) -> usize
        ensures value { result ≡ length self.now }
        ensures most { length self.now ≤ 65535 }
        ensures distinct { AreDistinct self.now }
    {
        let _texts = self.texts.len();
        self.keys.len()
    }

    pub fn is_empty(&self) -> bool
        ensures { IsTrue result ↔ (self.now ≡ []) }
    {
        self.keys.len() == 0
    }

    /// The number of a symbol, or `None` where it isn't there. No memory is taken.
    pub fn find(&self, text: &Text, arity: u16, kind: Kind) -> Option<u16>
        ensures { MatchOption result (Lacks self.now (symbol_of text.now arity kind))
            (λ n. slice_get self.now n ≡ Some (symbol_of text.now arity kind)) }
    {
        let _count = self.texts.len();
        let place = self.texts.get_index_of(text)?;
        let key = Key {
            text: place,
            arity,
            kind,
        };
        let number = self.keys.get_index_of(&key)?;
        Some(number as u16)
    }

    /// The number of a symbol, which is put at the end where it isn't there. Only a new symbol takes memory.
    pub fn intern(&mut self, text: &Text, arity: u16, kind: Kind) -> Result<u16, SymbolFault>
        ensures ok { IfOk result (Interns self.old self.new (symbol_of text.now arity kind)) }
        ensures number { IfOk result (λ n. slice_get self.new n ≡ Some (symbol_of text.now arity kind)) }
        ensures full { IsErrOf result SymbolFault.Full
            ↔ ((length self.old ≡ 65535) × Lacks self.old (symbol_of text.now arity kind)) }
        ensures err { OnErr result (self.new ≡ self.old) }
    {
        if let Some(number) = self.find(text, arity, kind) {
            return Ok(number);
        }
        let number = self.keys.len();
        if number == MAX_SYMBOLS {
            return Err(SymbolFault::Full);
        }
        match self.append(text, arity, kind) {
            Ok(()) => Ok(number as u16),
            Err(_) => Err(SymbolFault::Memory),
        }
    }

    /// Puts a new symbol at the end.
    fn append(&mut self, text: &Text, arity: u16, kind: Kind) -> Result<(), AllocError>
        requires room { length self.old < 65535 }
        requires new { Lacks self.old (symbol_of text.now arity kind) }
        ensures ok { OnOk result (self.new ≡ self.old ++ symbol_of text.now arity kind ∷ []) }
        ensures err { OnErr result (self.new ≡ self.old) }
    {
        let copy = text.copy(self.alloc)?;
        let (place, _) = self.texts.insert_full(copy)?;
        let key = Key {
            text: place,
            arity,
            kind,
        };
        self.keys.insert(key)?;
        Ok(())
    }

    /// The text of the symbol with number `id`.
    pub fn text(&self, id: u16) -> &Text
        requires { id < length self.now }
        ensures { IfSome (slice_get self.now id) (λ s. result.now ≡ s.text) }
    {
        let place = key_at(&self.keys, id).text;
        match self.texts.get_index(place) {
            Some(text) => text,
            None => unreachable!(),
        }
    }

    /// How many arguments the symbol with number `id` takes.
    pub fn arity(&self, id: u16) -> u16
        requires { id < length self.now }
        ensures { IfSome (slice_get self.now id) (λ s. result ≡ s.arity) }
    {
        key_at(&self.keys, id).arity
    }

    /// Whether the symbol with number `id` makes terms or atoms.
    pub fn kind(&self, id: u16) -> Kind
        requires { id < length self.now }
        ensures { IfSome (slice_get self.now id) (λ s. result ≡ s.kind) }
    {
        key_at(&self.keys, id).kind
    }
}

fn key_at(keys: &IndexSet<Key>, id: u16) -> Key
    requires { id < length keys.now.keys }
    ensures { slice_get keys.now.keys id ≡ Some result }
{
    match keys.get_index(usize::from(id)) {
        Some(key) => *key,
        None => unreachable!(),
    }
}
