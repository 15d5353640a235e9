// The routines of the runtime, and the registers that each reads, gives and spoils: what a call of one may rely on.

ghost use Rattle.std.specs.Prelude.{◌≡◌, slice_get};
ghost use Rattle.rv_isa.specs.Routines.{taken_by, given_by, is_spoilt_by};

/// A routine that a program calls. Hold and unhold are actions of their own, since they mark their token.
#[derive(Clone, Copy)]
pub enum Routine {
    /// Gives a cell: a free one, or the newest held token, in whose slot it leaves 0.
    Take,
    /// Gives up a reference.
    Drop,
    /// Prints a number, with a line feed behind it where the second argument is 1 and none where it is 0.
    PrintInt,
    /// Prints bytes, by their address and their count.
    PrintText,
    /// Gives the next byte of the input, or -1 at its end.
    ReadByte,
}

impl Routine {
    /// The number of the register in which the routine takes its argument of this index, if it has one.
    pub fn takes(self, index: usize) -> Option<u8>
        ensures { result ≡ slice_get (taken_by self) index }
    {
        match (self, index) {
            (Routine::Drop | Routine::PrintInt | Routine::PrintText, 0) => Some(10),
            (Routine::PrintInt | Routine::PrintText, 1) => Some(11),
            _ => None,
        }
    }

    /// The number of the register in which the routine gives its answer, if it has one.
    pub fn gives(self) -> Option<u8>
        ensures { result ≡ given_by self }
    {
        match self {
            Routine::Take => Some(5),
            Routine::ReadByte => Some(10),
            Routine::Drop | Routine::PrintInt | Routine::PrintText => None,
        }
    }

    /// Whether the routine may change the register of this number.
    pub fn spoils(self, register: u8) -> bool
        ensures { result ≡ is_spoilt_by self register }
    {
        match self {
            Routine::Take => register == 5,
            Routine::Drop => matches!(register, 5 | 10..=13),
            Routine::PrintInt => matches!(register, 5..=7 | 10..=13 | 17 | 28..=31),
            Routine::PrintText | Routine::ReadByte => matches!(register, 5 | 10..=13 | 17),
        }
    }
}
