//! What an event leaves and what it sends is one, whatever was found for it.
//!
//! A function of this crate does nothing: its contract is the law, and the check of this crate proves it.
#![tactic(auto)]

ghost use Rattle.cd_kbo.specs.declared.order.Order.{Order};
ghost use Rattle.cd_effects.specs.Effects.{EffectsOnce, SoundEffectsOnce, StartsOnce};

/// In a world of which the invariant holds, a legal event leaves one state and sends the same letters. For the first
/// reduct by a tidy equation is one, with its place and its substitution, a clause has one tidy form, a task one list of
/// conclusions, and a hit is decided by its clauses.
pub fn sound_effects_are_one()
    ensures { (order : Order) → SoundEffectsOnce order }
{}

/// So it is at every moment of every run.
pub fn effects_are_one()
    ensures { (order : Order) → EffectsOnce order }
{}

/// Of each number of peers there is one start.
pub fn starts_are_one()
    ensures { (order : Order) → StartsOnce order }
{}
