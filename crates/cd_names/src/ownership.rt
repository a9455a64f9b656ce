//! Which peer owns a recorded clause.
#![tactic(auto)]

ghost use Rattle.std.specs.Prelude.{◌≡◌, ◌≤◌};
ghost use Rattle.cd_names.specs.Shares.{owner};

use cd_list::{Copied, Equals};
use std::alloc::{AllocError, Global};

/// How recorded clauses are shared out among the peers (in the manner of Bonacina and Hsiang, The
/// Clause-Diffusion methodology for distributed deduction, 1995).
#[derive(Clone, Copy, Debug, PartialEq, Eq)]
pub enum Policy {
    /// In turn, beginning at the peer that records.
    Round,
    /// Each to the peer that records it.
    Issuer,
    /// By its size.
    Size,
}

impl Copied for Policy {
    fn copy(&self, _alloc: Global) -> Result<Policy, AllocError> {
        Ok(*self)
    }
}

impl Equals for Policy {
    fn equals(&self, other: &Policy) -> bool {
        matches!(
            (self, other),
            (Policy::Round, Policy::Round)
                | (Policy::Issuer, Policy::Issuer)
                | (Policy::Size, Policy::Size)
        )
    }
}

/// The owner of the clause that peer `issuer` records after `seq` others: `(issuer + seq) mod peers`, `issuer`
/// itself, or `sum mod peers`, by the policy. `sum` is the size of the clause.
pub fn owner_of(policy: Policy, issuer: u16, seq: u32, sum: u64, peers: u16) -> u16
    requires { 1 ≤ peers }
    ensures { result ≡ owner policy issuer seq sum peers }
{
    match policy {
        Policy::Round => ((u64::from(issuer) + u64::from(seq)) % u64::from(peers)) as u16,
        Policy::Issuer => issuer,
        Policy::Size => (sum % u64::from(peers)) as u16,
    }
}
