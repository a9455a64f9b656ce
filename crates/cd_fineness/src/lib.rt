//! Whether a letter that came may be admitted: each reason for rejection is tested, and a record's steps are replayed over
//! the known records.
#![tactic(auto)]

pub mod fineness;
pub mod symbols;

pub use fineness::{is_acceptable, is_body_fine, is_fine, notice_holds, replayed};
pub use symbols::{is_fit, is_subst_fit};
