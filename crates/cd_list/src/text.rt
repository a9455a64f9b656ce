//! Text.
#![tactic(auto)]

ghost use Rattle.std.specs.Prelude.{◌≡◌, ◌++◌, ◌∷◌, [], length, nat_eq, ◌↔◌, ◌<◌, IsTrue, IfOk, OnOk, OnErr};
ghost use Rattle.std.specs.Str.{IsAscii};
ghost use Rattle.std.proofs.Common.{rules, refl};
ghost use Rattle.std.specs.Hash as fed;
ghost use Rattle.std.specs.Cmp;
ghost use Rattle.std.specs.Cmp.Rules.{hashing};
ghost use Rattle.std.specs.Ordering.{nat_cmp};
ghost use Rattle.std.specs.Cmp.Lexicographic.{pointwise, slice_cmp, nat_list_eq_equiv, nat_list_cmp_total, texts_ties, texts_po};

use crate::{Copied, Equals};
use std::alloc::{AllocError, Global};
use std::cmp::Ordering;
use std::hash::{Hash, Hasher};
use std::marker::Model;

/// UTF-8 text. A contract sees it as the list of its bytes.
///
/// Texts are equal where their bytes are, and ordered as lists of bytes, so a text serves as a key.
#[derive(Debug, Drop)]
pub struct Text {
    text: String,
}

impl Model for Text {
    ghost use Rattle.std.specs.Prelude.{List, ℕ, string_bytes};

    ghost Value = { List ℕ };

    ghost view = { λ it. string_bytes it.text };
}

impl Text {
    pub fn of(alloc: Global, text: &str) -> Result<Text, AllocError>
        ensures { IfOk result (λ it. it ≡ text.now) }
    {
        Ok(Text {
            text: String::from_str(alloc, text)?,
        })
    }

    /// The text of ASCII bytes.
    pub fn of_ascii(alloc: Global, bytes: &[u8]) -> Result<Text, AllocError>
        requires { IsAscii bytes.now }
        ensures { IfOk result (λ it. it ≡ bytes.now) }
    {
        match std::str::from_utf8(bytes) {
            Ok(text) => Text::of(alloc, text),
            Err(_) => unreachable!(),
        }
    }

    pub fn as_str(&self) -> &str
        ensures { result.now ≡ self.now }
    {
        self.text.as_str()
    }

    pub fn as_bytes(&self) -> &[u8]
        ensures { result.now ≡ self.now }
    {
        self.text.as_bytes()
    }

    pub fn len(&self) -> usize
        ensures { result ≡ length self.now }
    {
        self.text.as_bytes().len()
    }

    pub fn is_empty(&self) -> bool
        ensures { IsTrue result ↔ (self.now ≡ []) }
    {
        self.text.as_bytes().is_empty()
    }

    /// Appends one ASCII byte.
    pub fn push_ascii(&mut self, byte: u8) -> Result<(), AllocError>
        requires { byte < 128 }
        ensures ok { OnOk result (self.new ≡ self.old ++ byte ∷ []) }
        ensures err { OnErr result (self.new ≡ self.old) }
    {
        self.text.push(char::from(byte))
    }

    pub fn push_str(&mut self, more: &str) -> Result<(), AllocError>
        ensures ok { OnOk result (self.new ≡ self.old ++ more.now) }
        ensures err { OnErr result (self.new ≡ self.old) }
    {
        self.text.push_str(more)
    }
}

impl Copied for Text {
    fn copy(&self, alloc: Global) -> Result<Text, AllocError> {
        Text::of(alloc, self.as_str())
    }
}

impl Equals for Text {
    fn equals(&self, other: &Text) -> bool {
        self.as_str() == other.as_str()
    }
}

impl PartialEq for Text {
    ghost eq = { pointwise nat_eq };

    ghost laws = { Cmp.partial_equiv_from_equiv nat_list_eq_equiv };

    fn eq(&self, other: &Text) -> bool {
        self.as_str() == other.as_str()
    }
}

impl Eq for Text {
    ghost laws = { nat_list_eq_equiv };
}

impl PartialOrd for Text {
    ghost partial_cmp = { λ x y. Some (slice_cmp nat_cmp x y) };

    ghost laws = { texts_po };

    ghost use Rattle.std.specs.Prelude.{Some};

    fn partial_cmp(&self, other: &Text) -> Option<Ordering> {
        Some(self.cmp(other))
    }
}

impl Ord for Text {
    ghost cmp = { slice_cmp nat_cmp };

    ghost total = { nat_list_cmp_total };

    ghost matches_partial_cmp = { λ x y. refl };

    ghost matches_eq = { texts_ties };

    fn cmp(&self, other: &Text) -> Ordering {
        self.as_str().cmp(other.as_str())
    }
}

impl Hash for Text {
    ghost hash_input = { fed.str };

    ghost respects_eq = { Prim.search (hashing, rules) };

    fn hash<H: Hasher>(&self, state: &mut H) {
        self.as_str().hash(state);
    }
}
