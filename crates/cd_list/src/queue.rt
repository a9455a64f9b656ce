//! The queue type.
#![tactic(auto)]

ghost use Rattle.std.specs.Prelude.{◌≡◌, ◌^◌, ◌<◌, [], ◌∷◌, ◌++◌, length, slice_get, ◌↔◌, IsTrue, MatchOption, OnOk, OnErr};
ghost use Rattle.std.specs.Option.{option_copied};

use std::alloc::{AllocError, Global};
use std::collections::VecDeque;
use std::marker::Model;

/// A list of fewer than 2^62 items that grows at its end and is taken from at its front, each in constant
/// time. A contract sees it as the list of its items, first the one that is taken next.
#[derive(Drop)]
pub struct Queue<T> {
    items: VecDeque<T>,
}

impl<T> Model for Queue<T> {
    ghost use Rattle.std.specs.Prelude.{List, length, ◌<◌, ◌^◌};
    ghost use Rattle.std.specs.Coded.{coded_list};

    ghost Value = { List T };

    ghost coded = { coded_list T.code };

    ghost view = { λ it. it.items.items };

    ghost invariant = { λ it. length it.items.items < 2 ^ 62 };
}

/// One more than the greatest length.
const LIMIT: usize = 0x4000_0000_0000_0000;

impl<T> Queue<T> {
    /// The empty queue. No memory is taken.
    pub fn new(alloc: Global) -> Queue<T>
        ensures { result ≡ [] }
    {
        Queue {
            items: VecDeque::new(alloc),
        }
    }

    pub fn len(&self) -> usize
        ensures value { result ≡ length self.now }
        ensures small { length self.now < 2 ^ 62 }
    {
        self.items.len()
    }

    pub fn is_empty(&self) -> bool
        ensures { IsTrue result ↔ (self.now ≡ []) }
    {
        self.items.is_empty()
    }

    /// The item in place `i`, counted from the front, or `None` where `i` isn't below the length.
    pub fn get(&self, i: usize) -> Option<&T>
        ensures { option_copied result ≡ slice_get self.now i }
    {
        self.items.get(i)
    }

    /// Takes out the first item.
    pub fn pop_front(&mut self) -> Option<T>
        ensures { MatchOption result ((self.old ≡ []) × (self.new ≡ [])) (λ first. self.old ≡ first ∷ self.new) }
    {
        self.items.pop_front()
    }
}

impl<T: Drop> Queue<T> {
    /// Puts `item` at the end.
    pub fn push_back(&mut self, item: T) -> Result<(), AllocError>
        ensures ok { OnOk result (self.new ≡ self.old ++ item ∷ []) }
        ensures err { OnErr result (self.new ≡ self.old) }
    {
        if self.items.len() + 1 >= LIMIT {
            return Err(AllocError);
        }
        self.items.push_back(item)?;
        Ok(())
    }
}
