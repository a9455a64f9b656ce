//! Problems.
ghost use Rattle.std.specs.Prelude.{◌≡◌};

use cd_clause::Clause;
use cd_list::{Copied, Sequence, Text};
use cd_parse::{Label, Role, What};
use cd_shared::SharedText;
use cd_symbols::Symbols;
use std::alloc::{AllocError, Global};

/// A clause of a problem, and where it comes from: its label and its role in the file with this path.
#[derive(Drop)]
pub struct Input {
    pub label: Label,
    pub role: Role,
    pub file: SharedText,
    pub clause: Clause,
}

pub type Inputs = Sequence<Input>;

/// The clauses to be refuted, in the order of their files. `name` is the path that was asked for.
#[derive(Drop)]
pub struct Problem {
    pub name: Text,
    pub symbols: Symbols,
    pub inputs: Inputs,
}

/// A fault in a file, and its place as a byte offset from 0.
#[derive(Drop)]
pub struct Wrong {
    pub what: What,
    pub file: Text,
    pub at: u32,
}

impl Copied for Wrong {
    fn copy(&self, alloc: Global) -> Result<Wrong, AllocError> {
        Ok(Wrong {
            what: self.what,
            file: self.file.copy(alloc)?,
            at: self.at,
        })
    }
}

fn shares<T: Sync>(_value: &T) {}

// Threads may share a problem.
fn share(problem: &Problem) {
    shares(problem);
}
