//! What words ask for.
use cd_list::{Copied, Text};
use cd_names::Policy;
use std::alloc::{AllocError, Global};
use thiserror::Error;

/// Where the problem comes from.
#[derive(Drop)]
pub enum Origins {
    /// The file with this path, and the files that it includes.
    File(Text),
    /// The generated problem with this number, 1 to 60.
    Grid(u32),
}

impl Copied for Origins {
    fn copy(&self, alloc: Global) -> Result<Origins, AllocError> {
        match self {
            Origins::File(path) => Ok(Origins::File(path.copy(alloc)?)),
            Origins::Grid(n) => Ok(Origins::Grid(*n)),
        }
    }
}

/// What the words ask for: so many peers, 1 to 64; so many rewritings and tasks for each of them, 1 to 250,000; how owners are
/// chosen; the seed of the schedule, where one is asked for; and the problem.
#[derive(Drop)]
pub struct Options {
    pub peers: u16,
    pub steps: u64,
    pub policy: Policy,
    pub schedule: Option<u64>,
    pub source: Origins,
}

impl Copied for Options {
    fn copy(&self, alloc: Global) -> Result<Options, AllocError> {
        let source = self.source.copy(alloc)?;
        Ok(Options {
            peers: self.peers,
            steps: self.steps,
            policy: self.policy,
            schedule: self.schedule,
            source,
        })
    }
}

/// Why there are no options.
#[derive(Clone, Copy, Debug, Error)]
pub enum WordsFault {
    /// The words aren't in the grammar.
    #[error("the words are not in the grammar")]
    Usage,
    /// Memory ran out.
    #[error("out of memory")]
    Memory,
}
