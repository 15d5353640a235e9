// The immediates of the instruction formats. Each is a word as the processor computes with it:
// 32 bits, a negative number in two's complement.

ghost use Rattle.std.specs.Prelude.{◌≡◌, ◌<◌, ◌↔◌, IsSome, IfSome};
ghost use Rattle.rv_isa.specs.Range.{IsImmediate, IsBranchOffset, IsJumpOffset, IsUpperImmediate};

/// An immediate of 12 bits, sign-extended: -2048 to 2047.
#[derive(Clone, Copy, PartialEq, Eq)]
pub struct Immediate {
    pub word: u32,
    pub ghost in_range: { IsImmediate word },
}

impl Immediate {
    /// The immediate 0.
    pub const ZERO: Immediate = Immediate { word: 0 };

    /// The immediate that is `word` after sign extension.
    pub fn new(word: u32) -> Immediate
        requires { IsImmediate word }
        ensures { result.word ≡ word }
    {
        Immediate { word }
    }

    /// The immediate that is `word` after sign extension, or `None` where 12 bits cannot hold it.
    pub fn try_new(word: u32) -> Option<Immediate>
        ensures in_range { IsSome result ↔ IsImmediate word }
        ensures value { IfSome result (λ imm. imm.word ≡ word) }
    {
        if word.wrapping_add(0x800) < 0x1000 {
            Some(Immediate { word })
        } else {
            None
        }
    }
}

/// The distance of a conditional branch in bytes: even, -4096 to 4094.
#[derive(Clone, Copy)]
pub struct BranchOffset {
    pub word: u32,
    pub ghost in_range: { IsBranchOffset word },
}

impl BranchOffset {
    /// The offset that is `word` after sign extension.
    pub fn new(word: u32) -> BranchOffset
        requires { IsBranchOffset word }
        ensures { result.word ≡ word }
    {
        BranchOffset { word }
    }

    /// The offset that is `word` after sign extension, or `None` where a branch does not reach it.
    pub fn try_new(word: u32) -> Option<BranchOffset>
        ensures in_range { IsSome result ↔ IsBranchOffset word }
        ensures value { IfSome result (λ offset. offset.word ≡ word) }
    {
        if word.wrapping_add(0x1000) < 0x2000 && word % 2 == 0 {
            Some(BranchOffset { word })
        } else {
            None
        }
    }
}

/// The distance of a jump in bytes: even, -1048576 to 1048574.
#[derive(Clone, Copy)]
pub struct JumpOffset {
    pub word: u32,
    pub ghost in_range: { IsJumpOffset word },
}

impl JumpOffset {
    /// The offset that is `word` after sign extension.
    pub fn new(word: u32) -> JumpOffset
        requires { IsJumpOffset word }
        ensures { result.word ≡ word }
    {
        JumpOffset { word }
    }

    /// The offset that is `word` after sign extension, or `None` where a jump does not reach it.
    pub fn try_new(word: u32) -> Option<JumpOffset>
        ensures in_range { IsSome result ↔ IsJumpOffset word }
        ensures value { IfSome result (λ offset. offset.word ≡ word) }
    {
        if word.wrapping_add(0x10_0000) < 0x20_0000 && word % 2 == 0 {
            Some(JumpOffset { word })
        } else {
            None
        }
    }
}

/// The upper 20 bits of a word, whose lower 12 bits are zero.
#[derive(Clone, Copy)]
pub struct UpperImmediate {
    pub word: u32,
    pub ghost in_range: { IsUpperImmediate word },
}

impl UpperImmediate {
    /// The immediate that is `word`.
    pub fn new(word: u32) -> UpperImmediate
        requires { IsUpperImmediate word }
        ensures { result.word ≡ word }
    {
        UpperImmediate { word }
    }

    /// The immediate that is `word`, or `None` where one of its lower 12 bits is set.
    pub fn try_new(word: u32) -> Option<UpperImmediate>
        ensures in_range { IsSome result ↔ IsUpperImmediate word }
        ensures value { IfSome result (λ imm. imm.word ≡ word) }
    {
        if word % 0x1000 == 0 {
            Some(UpperImmediate { word })
        } else {
            None
        }
    }
}

/// How far a shift by an immediate moves the bits: 0 to 31 places.
#[derive(Clone, Copy, PartialEq, Eq)]
pub struct ShiftAmount {
    pub places: u8,
    pub ghost in_range: { places < 32 },
}

impl ShiftAmount {
    /// A shift by so many places.
    pub fn new(places: u8) -> ShiftAmount
        requires { places < 32 }
        ensures { result.places ≡ places }
    {
        ShiftAmount { places }
    }

    /// A shift by so many places, or `None` above 31.
    pub fn try_new(places: u8) -> Option<ShiftAmount>
        ensures in_range { IsSome result ↔ (places < 32) }
        ensures value { IfSome result (λ shamt. shamt.places ≡ places) }
    {
        if places < 32 {
            Some(ShiftAmount { places })
        } else {
            None
        }
    }
}
