// What an instruction asks of the machine that executes it.

/// The effect of one instruction: where the next one stands, and what is done besides.
#[derive(Clone, Copy)]
pub struct Effect {
    /// The address of the next instruction. It may be misaligned after a taken transfer.
    pub next: u32,
    pub act: Act,
}

/// What an instruction does to the registers and the memory.
#[derive(Clone, Copy, Debug, PartialEq, Eq)]
pub enum Act {
    Nothing,
    /// rd becomes this word.
    Set(u32),
    /// rd becomes the `width` bytes that begin at the address `at`, with the sign or with zeros
    /// in the bits above them.
    Load { at: u32, width: u8, signed: bool },
    /// The lowest `width` bytes of `value` go to the `width` bytes that begin at the address `at`.
    Store { at: u32, width: u8, value: u32 },
    /// ECALL: a request to the execution environment.
    Call,
    /// EBREAK: a return to a debugger.
    Break,
}
