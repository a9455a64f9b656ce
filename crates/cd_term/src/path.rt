//! Places in terms.
#![tactic(auto)]

ghost use Rattle.std.specs.Prelude.{◌≡◌, [], ◌∷◌, ◌++◌, ◌<◌, length, slice_get, OnOk, OnErr, OnSome};
ghost use Rattle.std.specs.Option.{option_copied};

use cd_list::{Copied, Equals};
use smallvec::SmallVec;
use std::alloc::{AllocError, Global};
use std::marker::Model;

/// The way to a subterm: the places of the arguments that lead to it, counted from 0, the outermost first.
/// A contract sees it as the list of these numbers. Up to eight are kept without asking for memory.
#[derive(Debug, Drop)]
pub struct Path {
    steps: SmallVec<u16, 8>,
}

impl Model for Path {
    ghost use Rattle.std.specs.Prelude.{List, ℕ};

    ghost Value = { List ℕ };

    ghost view = { λ p. p.steps.items };
}

impl Path {
    /// The path to the term itself. No memory is taken.
    pub fn new(alloc: Global) -> Path
        ensures { result ≡ [] }
    {
        Path {
            steps: SmallVec::new(alloc),
        }
    }

    pub fn len(&self) -> usize
        ensures { result ≡ length self.now }
    {
        self.steps.as_slice().len()
    }

    /// The step in place `i`, or `None` where `i` isn't below the length.
    pub fn get(&self, i: usize) -> Option<&u16>
        ensures value { option_copied result ≡ slice_get self.now i }
        ensures within { OnSome result (i < length self.now) }
    {
        self.steps.as_slice().get(i)
    }

    pub fn as_slice(&self) -> &[u16]
        ensures { result.now ≡ self.now }
    {
        self.steps.as_slice()
    }

    /// One step further.
    pub fn push(&mut self, step: u16) -> Result<(), AllocError>
        ensures ok { OnOk result (self.new ≡ self.old ++ step ∷ []) }
        ensures err { OnErr result (self.new ≡ self.old) }
    {
        self.steps.push(step)?;
        Ok(())
    }
}

impl Copied for Path {
    fn copy(&self, alloc: Global) -> Result<Path, AllocError> {
        Ok(Path {
            steps: SmallVec::from_slice(alloc, self.steps.as_slice())?,
        })
    }
}

impl Equals for Path {
    fn equals(&self, other: &Path) -> bool {
        self.as_slice() == other.as_slice()
    }
}
