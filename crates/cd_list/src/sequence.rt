//! The list type.
#![tactic(auto)]

ghost use Rattle.std.specs.Prelude.{◌≡◌, ◌+◌, ◌-◌, ◌^◌, ◌<◌, ◌≤◌, [], ◌∷◌, ◌++◌, length, take, slice_get, slice_set, remove, insert, swap, reverse, ◌↔◌, IsTrue, IfOk, MatchOption, OnOk, OnErr, OnSome};
ghost use Rattle.std.specs.Option.{option_copied};
ghost use Rattle.std.specs.Borrow.{Lends, sem};
ghost use Rattle.cd_list.specs.contracts.sequence.Sequence.{the_row};
ghost use Rattle.std.specs.List.Sorted.{IsPermutation, IsSortedByKeyClosure};

use std::alloc::{AllocError, Global};
use std::marker::Model;

/// A list of fewer than 2^62 items. A contract sees it as the list of its items.
///
/// The bound is one that no program meets: an item takes at least a byte, and no more than 2^63 bytes can
/// be had. With it the sum of a few lengths never wraps, and no caller has to say so. A change that would
/// pass it is refused as want of memory.
#[derive(Debug, Drop)]
pub struct Sequence<T> {
    items: Vec<T>,
}

impl<T> Model for Sequence<T> {
    ghost use Rattle.std.specs.Prelude.{List, length, ◌<◌, ◌^◌};
    ghost use Rattle.std.specs.Coded.{coded_list};

    ghost Value = { List T };

    ghost coded = { coded_list T.code };

    ghost view = { λ it. it.items.items };

    ghost invariant = { λ it. length it.items.items < 2 ^ 62 };
}

/// One more than the greatest length.
const LIMIT: usize = 0x4000_0000_0000_0000;

impl<T> Sequence<T> {
    /// The empty list. No memory is taken.
    pub fn new(alloc: Global) -> Sequence<T>
        ensures { result ≡ [] }
    {
        Sequence {
            items: Vec::new(alloc),
        }
    }

    pub fn len(&self) -> usize
        ensures value { result ≡ length self.now }
        ensures small { length self.now < 2 ^ 62 }
    {
        self.items.len()
    }

    pub fn is_empty(&self) -> bool
        ensures { IsTrue result ↔ (self.now ≡ []) }
    {
        self.items.is_empty()
    }

    pub fn as_slice(&self) -> &[T]
        ensures { result.now ≡ self.now }
    {
        self.items.as_slice()
    }

    /// The item in place `i`, or `None` where `i` isn't below the length.
    pub fn get(&self, i: usize) -> Option<&T>
        ensures value { option_copied result ≡ slice_get self.now i }
        ensures within { OnSome result (i < length self.now) }
    {
        self.items.get(i)
    }

    pub fn first(&self) -> Option<&T>
        ensures { option_copied result ≡ slice_get self.now 0 }
    {
        self.items.get(0)
    }

    pub fn last(&self) -> Option<&T>
        ensures { option_copied result ≡ slice_get self.now (length self.now - 1) }
    {
        self.items.as_slice().last()
    }

    /// The items by value, for a loop that takes them out.
    pub fn into_vec(self) -> Vec<T>
        ensures value { result.items ≡ self }
        ensures small { length self < 2 ^ 62 }
    {
        let Sequence { items } = self;
        items
    }

    pub fn from_vec(items: Vec<T>) -> Sequence<T>
        requires { length items.items < 2 ^ 62 }
        ensures { result ≡ items.items }
    {
        Sequence { items }
    }

    /// The item in place `i`, to be changed where it stands.
    pub fn at_mut(&mut self, i: usize) -> &mut T
        requires { i < length self.old }
        ensures* writes_back { sem 𝓛 (Lends (the_row T.row) T.row self.entry result (slice_set self.old i)) }
        ensures value { slice_get self.old i ≡ Some result.now }
        ensures same { slice_set self.old i result.now ≡ self.old }
    {
        &mut self.items[i]
    }

    pub fn reverse(&mut self)
        ensures { self.new ≡ reverse self.old }
    {
        self.items.reverse();
    }

    pub fn pop(&mut self) -> Option<T>
        ensures { MatchOption result ((self.old ≡ []) × (self.new ≡ [])) (λ last. self.old ≡ self.new ++ last ∷ []) }
    {
        self.items.pop()
    }

    pub fn swap(&mut self, i: usize, j: usize)
        requires first { i < length self.old }
        requires second { j < length self.old }
        ensures { self.new ≡ swap self.old i j }
    {
        self.items.swap(i, j);
    }
}

impl<T: Drop> Sequence<T> {
    pub fn push(&mut self, item: T) -> Result<(), AllocError>
        ensures ok { OnOk result (self.new ≡ self.old ++ item ∷ []) }
        ensures err { OnErr result (self.new ≡ self.old) }
    {
        if self.items.len() + 1 >= LIMIT {
            return Err(AllocError);
        }
        self.items.push(item)?;
        Ok(())
    }

    /// Moves the items of `more` to the end.
    pub fn append(&mut self, more: Sequence<T>) -> Result<(), AllocError>
        ensures ok { OnOk result (self.new ≡ self.old ++ more) }
        ensures err { OnErr result (self.new ≡ self.old) }
    {
        let Sequence { mut items } = more;
        if self.items.len() + items.len() >= LIMIT {
            return Err(AllocError);
        }
        self.items.append(&mut items)
    }

    /// Puts `item` in place `i`; the items from there on move up by one.
    pub fn insert(&mut self, i: usize, item: T) -> Result<(), AllocError>
        requires { i ≤ length self.old }
        ensures ok { OnOk result (self.new ≡ insert self.old i item) }
        ensures err { OnErr result (self.new ≡ self.old) }
    {
        if self.items.len() + 1 >= LIMIT {
            return Err(AllocError);
        }
        self.items.insert(i, item)?;
        Ok(())
    }

    /// Takes out the item in place `i`; the items behind it move down by one.
    pub fn remove(&mut self, i: usize) -> T
        requires { i < length self.old }
        ensures item { slice_get self.old i ≡ Some result }
        ensures rest { self.new ≡ remove self.old i }
    {
        self.items.remove(i)
    }

    pub fn set(&mut self, i: usize, item: T)
        requires { i < length self.old }
        ensures { self.new ≡ slice_set self.old i item }
    {
        self.items[i] = item;
    }

    /// Puts `item` in place `i`, and gives what was there.
    pub fn replace(&mut self, i: usize, item: T) -> T
        requires { i < length self.old }
        ensures item { slice_get self.old i ≡ Some result }
        ensures rest { self.new ≡ slice_set self.old i item }
    {
        std::mem::replace(&mut self.items[i], item)
    }

    /// Keeps the first `n` items; where there are no more than `n`, nothing changes.
    pub fn truncate(&mut self, n: usize)
        ensures { self.new ≡ take n self.old }
    {
        self.items.truncate(n);
    }

    pub fn clear(&mut self)
        ensures { self.new ≡ [] }
    {
        self.items.clear();
    }

    /// Sorts the items by their keys, smallest first; the order of items with equal keys is left open. No
    /// memory is taken.
    pub fn sort_by_key<K: Ord + Drop, F: FnMut(&T) -> K>(&mut self, key: F)
        requires { F.IsAlwaysCallable key }
        ensures permutation { IsPermutation self.old self.new }
        ensures sorted { IsSortedByKeyClosure F.FnMut K.cmp key self.new }
    {
        self.items.sort_unstable_by_key(key);
    }
}

impl<T: Copy> Sequence<T> {
    pub fn from_slice(alloc: Global, items: &[T]) -> Result<Sequence<T>, AllocError>
        ensures { IfOk result (λ it. it ≡ items.now) }
    {
        if items.len() >= LIMIT {
            return Err(AllocError);
        }
        let items = Vec::from_slice(alloc, items)?;
        Ok(Sequence { items })
    }

    /// Copies the items of `more` to the end.
    pub fn extend(&mut self, more: &[T]) -> Result<(), AllocError>
        ensures ok { OnOk result (self.new ≡ self.old ++ more.now) }
        ensures err { OnErr result (self.new ≡ self.old) }
    {
        if more.len() >= LIMIT - self.items.len() {
            return Err(AllocError);
        }
        self.items.extend_from_slice(more)
    }
}
