ghost use Rattle.std.specs.Prelude.{◌≡◌, ℕ, List, IfOk, string_bytes};

use crate::error::NoMemory;
use std::alloc::Global;
use std::fmt;
use std::marker::Model;

/// A name of a source text or of a file, as it is spelled.
#[derive(Debug, Drop)]
pub struct Name {
    spelling: String,
}

impl Model for Name {
    ghost Value = { List ℕ };

    ghost view = { λ n. string_bytes n.spelling };
}

impl Name {
    /// The name so spelled. Takes no memory.
    pub fn new(spelling: String) -> Self
        ensures { result ≡ string_bytes spelling }
    {
        Name { spelling }
    }

    /// A copy of the name.
    pub fn copied(&self, alloc: Global) -> Result<Self, NoMemory>
        ensures { IfOk result (λ copy. copy ≡ self.now) }
    {
        match String::from_str(alloc, self.spelling.as_str()) {
            Ok(spelling) => Ok(Name { spelling }),
            Err(_) => Err(NoMemory),
        }
    }

    /// The name as it is written.
    pub fn as_str(&self) -> &str
        ensures { result.now ≡ self.now }
    {
        self.spelling.as_str()
    }
}

impl fmt::Display for Name {
    fn fmt<W: fmt::Write>(&self, f: &mut fmt::Formatter<W>) -> fmt::Result {
        f.write_str(self.spelling.as_str())
    }
}
