/// Why a run stopped.
#[derive(Clone, Copy, Debug, PartialEq, Eq)]
pub enum Halt {
    /// The image exited with this number.
    Exit(u8),
    /// All steps of the budget were made, and the image has not ended.
    StepsSpent,
    /// The image did what the machine does not allow: the cause, the address of the instruction that trapped, and its
    /// word, which is 0 where none could be fetched.
    Trap { cause: u8, pc: u32, word: u32 },
    /// The source failed when the image asked for a byte.
    InputFault,
    /// The sink failed when the image put a piece.
    OutputFault,
}

/// Whether a machine goes on.
#[derive(Clone, Copy, PartialEq, Eq)]
pub(crate) enum Phase {
    Going,
    Exited(u8),
    Trapped { cause: u8, pc: u32, word: u32 },
}

/// What became of an instruction.
#[derive(Clone, Copy)]
pub(crate) enum Turn {
    /// It was executed, or it trapped.
    Over,
    /// It is an ECALL with this word, and nothing was done yet. The next instruction stands at `next`.
    Call { next: u32, word: u32 },
}

/// A device that failed.
#[derive(Clone, Copy)]
pub(crate) enum Device {
    Input,
    Output,
}
