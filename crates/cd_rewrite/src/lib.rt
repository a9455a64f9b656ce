//! Rewriting of a clause by an equation alone, at the first place where it gets smaller (demodulation; Baader and
//! Nipkow, Term Rewriting and All That, 4.2).
#![tactic(auto)]

mod equations;
mod falling;
pub mod laws;
mod lowering;
mod places;
mod reducing;
mod rewriting;
mod walks;

pub use equations::{has_variables_of, is_falling, may_lower, sides_of_one};
pub use falling::falls_at;
pub use reducing::{ReductAt, reduces, reduces_from, reduct};
