//! Text with several owners.
#![tactic(auto)]

ghost use Rattle.std.specs.Prelude.{◌≡◌, IfOk};

use cd_list::Text;
use std::alloc::{AllocError, Global};
use std::marker::Model;
use std::sync::Arc;

/// A text that is held once, however many its owners are. A contract sees the list of its bytes.
#[derive(Drop)]
pub struct SharedText {
    text: Arc<Text>,
}

impl Model for SharedText {
    ghost use Rattle.std.specs.Prelude.{List, ℕ};
    ghost use Rattle.std.specs.Arc.{arc_value};

    ghost Value = { List ℕ };

    ghost view = { λ it. arc_value it.text };
}

impl SharedText {
    pub fn new(alloc: Global, text: Text) -> Result<SharedText, AllocError>
        ensures { IfOk result (λ it. it ≡ text) }
    {
        Ok(SharedText {
            text: Arc::new(alloc, text)?,
        })
    }

    /// One more owner. The text isn't copied.
    pub fn share(&self) -> Result<SharedText, AllocError>
        ensures { IfOk result (λ it. it ≡ self.now) }
    {
        Ok(SharedText {
            text: Arc::try_clone(&self.text)?,
        })
    }

    pub fn text(&self) -> &Text
        ensures { result.now ≡ self.now }
    {
        &self.text
    }
}

fn shares<T: Sync>(_value: &T) {}

// Threads may share the text.
fn share(text: &SharedText) {
    shares(text);
}
