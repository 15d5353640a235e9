ghost use Rattle.std.specs.Prelude.{◌≡◌};
ghost use Rattle.kk_names.specs.Faults.{rank, error_of};
ghost use Rattle.kk_names.specs.Methods.{is_before};

use kk_base::{Name, NameError};

/// What is wrong with a name.
#[derive(Clone, Copy)]
pub enum FaultKind {
    /// It is declared a second time.
    Twice,
    /// It has no meaning there.
    Unknown,
    /// It has another number of arguments than declared.
    Arity,
}

impl FaultKind {
    /// At one byte the fault of the least rank comes first.
    pub fn rank(self) -> u8
        ensures { result ≡ rank self }
    {
        match self {
            FaultKind::Twice => 0,
            FaultKind::Unknown => 1,
            FaultKind::Arity => 2,
        }
    }
}

/// A fault of a text: what is wrong with which name, and the byte where that stands, from 0.
#[derive(Drop)]
pub struct Fault {
    pub kind: FaultKind,
    pub name: Name,
    pub at: u32,
}

impl Fault {
    /// Whether a fault of this kind at that byte would come before this one.
    pub fn is_behind(&self, kind: FaultKind, at: u32) -> bool
        ensures { result ≡ is_before kind at self.now }
    {
        at < self.at || (at == self.at && kind.rank() < self.kind.rank())
    }

    /// The error that tells of this fault.
    pub fn error(self) -> NameError
        ensures { result ≡ error_of self }
    {
        let Fault { kind, name, at } = self;
        match kind {
            FaultKind::Twice => NameError::Twice { name, at },
            FaultKind::Unknown => NameError::Unknown { name, at },
            FaultKind::Arity => NameError::Arity { name, at },
        }
    }
}
