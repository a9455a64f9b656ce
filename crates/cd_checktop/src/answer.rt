//! What the checker answers.
ghost use Rattle.std.specs.Prelude.{◌≡◌};

use cd_check::Why;
use cd_list::{Copied, Text};
use cd_read::Wrong;
use std::alloc::{AllocError, Global};

/// How a check ended.
#[derive(Drop)]
pub enum CheckAnswer {
    /// The derivation is a refutation of the problem, of so many lines.
    Accepted { lines: u32 },
    /// The first line of the derivation that fails, counted from 1, and why.
    Refused { line: u32, why: Why },
    /// There aren't two words.
    Usage,
    /// The problem isn't as it should be, or the derivation is too long.
    Problem(Wrong),
    /// The library failed at the file with this path.
    LibraryFault { path: Text },
    /// The sink failed: it took a front of the text.
    SinkFault,
    /// Memory ran out, and nothing was written.
    Memory,
}

impl CheckAnswer {
    ghost use Rattle.cd_checktop.specs.Checked.{status_of};

    /// The exit status of the program.
    pub fn status(&self) -> u8
        ensures { result ≡ status_of self.now }
    {
        match self {
            CheckAnswer::Accepted { .. } => 0,
            CheckAnswer::Refused { .. } => 1,
            CheckAnswer::Usage => 64,
            CheckAnswer::Problem(_) => 65,
            CheckAnswer::LibraryFault { .. } => 66,
            CheckAnswer::Memory => 71,
            CheckAnswer::SinkFault => 74,
        }
    }
}

impl Copied for CheckAnswer {
    fn copy(&self, alloc: Global) -> Result<CheckAnswer, AllocError> {
        match self {
            CheckAnswer::Accepted { lines } => Ok(CheckAnswer::Accepted { lines: *lines }),
            CheckAnswer::Refused { line, why } => Ok(CheckAnswer::Refused {
                line: *line,
                why: *why,
            }),
            CheckAnswer::Usage => Ok(CheckAnswer::Usage),
            CheckAnswer::Problem(wrong) => Ok(CheckAnswer::Problem(wrong.copy(alloc)?)),
            CheckAnswer::LibraryFault { path } => {
                let path = path.copy(alloc)?;
                Ok(CheckAnswer::LibraryFault { path })
            }
            CheckAnswer::SinkFault => Ok(CheckAnswer::SinkFault),
            CheckAnswer::Memory => Ok(CheckAnswer::Memory),
        }
    }
}

/// The exit status, the answer, and the answer as it was before the first write: `made` equals `answer`
/// unless that is `SinkFault`.
#[derive(Drop)]
pub struct CheckOutcome {
    pub status: u8,
    pub answer: CheckAnswer,
    pub made: CheckAnswer,
}
