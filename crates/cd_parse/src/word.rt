//! Words as trees keep them.
ghost use Rattle.std.specs.Prelude.{◌≡◌, ◌≤◌, take, length, IfOk};

use cd_list::{Copied, Text};
use std::alloc::{AllocError, Global};
use std::marker::Model;

/// A word. A contract sees the list of its bytes. A short one takes no memory of its own.
#[derive(Drop)]
pub struct Word {
    kept: Kept,
}

/// The bytes of a short word in front of any others, and how many they are; or another word.
#[derive(Drop)]
enum Kept {
    Short(u8, [u8; SHORT]),
    Long(Box<Text>),
}

/// The most bytes of a short word.
const SHORT: usize = 14;

impl Model for Word {
    ghost use Rattle.std.specs.Prelude.{List, ℕ};
    ghost use Rattle.cd_parse.specs.Words.{kept_bytes, IsKept};

    ghost Value = { List ℕ };

    ghost view = { λ w. kept_bytes w.kept };

    ghost invariant = { λ w. IsKept w.kept };
}

/// The bytes with zeros behind them.
fn filled(bytes: &[u8]) -> [u8; SHORT]
    requires { length bytes.now ≤ 14 }
    ensures { take (length bytes.now) result ≡ bytes.now }
{
    let mut all = [0; SHORT];
    for (i, byte) in bytes.iter().enumerate() {
        all[i] = *byte;
    }
    all
}

impl Word {
    pub fn of(alloc: Global, text: Text) -> Result<Word, AllocError>
        ensures { IfOk result (λ w. w ≡ text) }
    {
        let size = text.len();
        if size <= SHORT && text.as_str().is_ascii() {
            return Ok(Word {
                kept: Kept::Short(size as u8, filled(text.as_bytes())),
            });
        }
        Ok(Word {
            kept: Kept::Long(Box::new(alloc, text)?),
        })
    }

    pub fn text(&self, alloc: Global) -> Result<Text, AllocError>
        ensures { IfOk result (λ t. t ≡ self.now) }
    {
        match &self.kept {
            Kept::Short(size, bytes) => Text::of_ascii(alloc, &bytes[..*size as usize]),
            Kept::Long(text) => text.copy(alloc),
        }
    }
}
