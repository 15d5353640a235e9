// The integer registers.

ghost use Rattle.std.specs.Prelude.{◌≡◌, ◌<◌, ◌↔◌, IsSome, IfSome};

/// One of the 32 integer registers, `x0` to `x31`. `x0` reads as zero, and a write to it is lost.
///
/// The constants have the names of the RISC-V calling convention.
#[derive(Clone, Copy, Debug, PartialEq, Eq)]
pub struct Register {
    pub number: u8,
    pub ghost in_range: { number < 32 },
}

impl Register {
    /// `x0`, which is always zero.
    pub const ZERO: Register = Register { number: 0 };
    /// The return address.
    pub const RA: Register = Register { number: 1 };
    /// The stack pointer.
    pub const SP: Register = Register { number: 2 };
    /// The global pointer.
    pub const GP: Register = Register { number: 3 };
    /// The thread pointer.
    pub const TP: Register = Register { number: 4 };

    /// A temporary: a call may change it.
    pub const T0: Register = Register { number: 5 };

    /// A temporary: a call may change it.
    pub const T1: Register = Register { number: 6 };

    /// A temporary: a call may change it.
    pub const T2: Register = Register { number: 7 };

    /// A saved register: a call keeps it.
    pub const S0: Register = Register { number: 8 };

    /// A saved register: a call keeps it.
    pub const S1: Register = Register { number: 9 };

    /// An argument of a call; `a0` and `a1` are its results too.
    pub const A0: Register = Register { number: 10 };

    /// An argument of a call; `a0` and `a1` are its results too.
    pub const A1: Register = Register { number: 11 };

    /// An argument of a call; `a0` and `a1` are its results too.
    pub const A2: Register = Register { number: 12 };

    /// An argument of a call; `a0` and `a1` are its results too.
    pub const A3: Register = Register { number: 13 };

    /// An argument of a call; `a0` and `a1` are its results too.
    pub const A4: Register = Register { number: 14 };

    /// An argument of a call; `a0` and `a1` are its results too.
    pub const A5: Register = Register { number: 15 };

    /// An argument of a call; `a0` and `a1` are its results too.
    pub const A6: Register = Register { number: 16 };

    /// An argument of a call; `a0` and `a1` are its results too.
    pub const A7: Register = Register { number: 17 };

    /// A saved register: a call keeps it.
    pub const S2: Register = Register { number: 18 };

    /// A saved register: a call keeps it.
    pub const S3: Register = Register { number: 19 };

    /// A saved register: a call keeps it.
    pub const S4: Register = Register { number: 20 };

    /// A saved register: a call keeps it.
    pub const S5: Register = Register { number: 21 };

    /// A saved register: a call keeps it.
    pub const S6: Register = Register { number: 22 };

    /// A saved register: a call keeps it.
    pub const S7: Register = Register { number: 23 };

    /// A saved register: a call keeps it.
    pub const S8: Register = Register { number: 24 };

    /// A saved register: a call keeps it.
    pub const S9: Register = Register { number: 25 };

    /// A saved register: a call keeps it.
    pub const S10: Register = Register { number: 26 };

    /// A saved register: a call keeps it.
    pub const S11: Register = Register { number: 27 };

    /// A temporary: a call may change it.
    pub const T3: Register = Register { number: 28 };

    /// A temporary: a call may change it.
    pub const T4: Register = Register { number: 29 };

    /// A temporary: a call may change it.
    pub const T5: Register = Register { number: 30 };

    /// A temporary: a call may change it.
    pub const T6: Register = Register { number: 31 };

    /// The register `x<number>`.
    pub fn new(number: u8) -> Register
        requires { number < 32 }
        ensures { result.number ≡ number }
    {
        Register { number }
    }

    /// The register `x<number>`, or `None` where there is none of that number.
    pub fn try_new(number: u8) -> Option<Register>
        ensures in_range { IsSome result ↔ (number < 32) }
        ensures value { IfSome result (λ register. register.number ≡ number) }
    {
        if number < 32 {
            Some(Register { number })
        } else {
            None
        }
    }
}
