ghost use Rattle.std.specs.Prelude.{◌≡◌, ℕ, ◌≤◌, List, length, IfOk};
ghost use Rattle.kk_base.specs.Limits.{greatest_string};

use kk_base::{GREATEST_STRING, NoMemory, Text};
use std::alloc::Global;
use std::marker::Model;

/// A string literal: its bytes after escapes, of which there are at most `GREATEST_STRING`.
#[derive(Drop)]
pub struct StringLiteral {
    text: Text,
}

impl Model for StringLiteral {
    ghost Value = { List ℕ };

    ghost view = { λ l. l.text };

    ghost invariant = { λ l. length l.text ≤ greatest_string };
}

impl StringLiteral {
    /// The greatest number of bytes.
    pub const MOST_BYTES: usize = GREATEST_STRING;

    /// The literal of these bytes. Takes no memory.
    pub fn new(text: Text) -> Self
        requires { length text ≤ greatest_string }
        ensures { result ≡ text }
    {
        StringLiteral { text }
    }

    /// A copy of the literal.
    pub fn copied(&self, alloc: Global) -> Result<Self, NoMemory>
        ensures { IfOk result (λ copy. copy ≡ self.now) }
    {
        Ok(StringLiteral {
            text: Text::from_slice(alloc, self.text.as_slice())?,
        })
    }

    /// The bytes of the string after escapes, at most 255.
    pub fn as_slice(&self) -> &[u8]
        ensures bytes { result.now ≡ self.now }
        ensures short { length result.now ≤ greatest_string }
    {
        self.text.as_slice()
    }
}
