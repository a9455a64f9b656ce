//! Copies and equality of values, generic over lists, options and pairs.
#![tactic(auto)]

ghost use Rattle.std.specs.Prelude.{◌≡◌, ◌↔◌, ◌++◌, List, IsTrue, IfOk, IfSome, IfNone};

use crate::Sequence;
use std::alloc::{AllocError, Global};

/// A value that can be copied, where there is memory. The copy equals it.
pub trait Copied {
    fn copy(&self, alloc: Global) -> Result<Self, AllocError>
        ensures { IfOk result (λ it. it ≡ self.now) };
}

/// A value that can be compared for equality. No memory is taken.
pub trait Equals {
    fn equals(&self, other: &Self) -> bool
        ensures { IsTrue result ↔ (self.now ≡ other.now) };
}

impl Copied for u8 {
    fn copy(&self, _alloc: Global) -> Result<u8, AllocError> {
        Ok(*self)
    }
}

impl Copied for u16 {
    fn copy(&self, _alloc: Global) -> Result<u16, AllocError> {
        Ok(*self)
    }
}

impl Copied for u32 {
    fn copy(&self, _alloc: Global) -> Result<u32, AllocError> {
        Ok(*self)
    }
}

impl Copied for u64 {
    fn copy(&self, _alloc: Global) -> Result<u64, AllocError> {
        Ok(*self)
    }
}

impl Copied for bool {
    fn copy(&self, _alloc: Global) -> Result<bool, AllocError> {
        Ok(*self)
    }
}

impl<T: Copied + Drop> Copied for Sequence<T> {
    fn copy(&self, alloc: Global) -> Result<Sequence<T>, AllocError> {
        let mut copies = Sequence::new(alloc);
        for item in self.as_slice() {
            copies.push(item.copy(alloc)?)?;
        }
        Ok(copies)
    }
}

impl<T: Copied + Drop> Copied for Option<T> {
    fn copy(&self, alloc: Global) -> Result<Option<T>, AllocError> {
        match self {
            None => Ok(None),
            Some(item) => Ok(Some(item.copy(alloc)?)),
        }
    }
}

impl<T: Copied + Drop, U: Copied + Drop> Copied for (T, U) {
    fn copy(&self, alloc: Global) -> Result<(T, U), AllocError> {
        Ok((self.0.copy(alloc)?, self.1.copy(alloc)?))
    }
}

impl<T: Equals> Equals for Option<T> {
    fn equals(&self, other: &Option<T>) -> bool {
        match (self, other) {
            (None, None) => true,
            (Some(a), Some(b)) => a.equals(b),
            _ => false,
        }
    }
}

impl<T: Equals, U: Equals> Equals for (T, U) {
    fn equals(&self, other: &(T, U)) -> bool {
        self.0.equals(&other.0) && self.1.equals(&other.1)
    }
}

impl Equals for u8 {
    fn equals(&self, other: &u8) -> bool {
        *self == *other
    }
}

impl Equals for u16 {
    fn equals(&self, other: &u16) -> bool {
        *self == *other
    }
}

impl Equals for u32 {
    fn equals(&self, other: &u32) -> bool {
        *self == *other
    }
}

impl Equals for u64 {
    fn equals(&self, other: &u64) -> bool {
        *self == *other
    }
}

impl Equals for bool {
    fn equals(&self, other: &bool) -> bool {
        *self == *other
    }
}

impl<T: Equals> Equals for Sequence<T> {
    fn equals(&self, other: &Sequence<T>) -> bool {
        same_items(self.as_slice(), other.as_slice())
    }
}

/// Whether two slices have equal items in the same order. No memory is taken.
pub fn same_items<T: Equals>(left: &[T], right: &[T]) -> bool
    ensures { IsTrue result ↔ (left.now ≡ right.now) }
{
    if left.len() != right.len() {
        return false;
    }
    for i in 0..left.len() {
        if !left[i].equals(&right[i]) {
            return false;
        }
    }
    true
}

/// The items behind `front`, where `items` begins with it. No memory is taken.
pub fn strip_items<'a, T: Equals>(items: &'a [T], front: &[T]) -> Option<&'a [T]>
    ensures some { IfSome result (λ rest. items.entry.now ≡ front.now ++ rest.now) }
    ensures none { IfNone result ((rest : List T) → items.entry.now ≡ front.now ++ rest → ⊥) }
{
    if items.len() < front.len() {
        return None;
    }
    let (head, rest) = items.split_at(front.len());
    if same_items(head, front) {
        Some(rest)
    } else {
        None
    }
}
