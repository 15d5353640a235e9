//! The numbers of the execution environment: its calls, the files that they name, the causes of traps, and the size of a
//! cell.

/// The call that reads, as Linux numbers it.
pub const READ: u32 = 63;

/// The call that writes, as Linux numbers it.
pub const WRITE: u32 = 64;

/// The call that ends the run, as Linux numbers it.
pub const EXIT: u32 = 93;

/// The file that is read, as POSIX numbers it.
pub const STANDARD_INPUT: u32 = 0;

/// The file that is written, as POSIX numbers it.
pub const STANDARD_OUTPUT: u32 = 1;

/// A trap at a word that is no instruction's, or at EBREAK.
pub const ILLEGAL_INSTRUCTION: u8 = 1;

/// A trap at an instruction that may not be fetched.
pub const FETCH_FAULT: u8 = 2;

/// A trap at a transfer to an address that is no multiple of 4.
pub const MISALIGNED_TARGET: u8 = 3;

/// A trap at a load or a store where none is allowed.
pub const ACCESS_FAULT: u8 = 4;

/// A trap at a load or a store whose address is no multiple of its width.
pub const MISALIGNED_ACCESS: u8 = 5;

/// A trap at an ECALL that is no call of the environment.
pub const UNKNOWN_CALL: u8 = 6;

/// The size of a cell in memory, in bytes. A cell lies at a multiple of it.
pub const CELL_SIZE: u32 = 32;
