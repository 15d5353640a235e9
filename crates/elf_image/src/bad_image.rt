ghost use Rattle.std.specs.Prelude.{◌≡◌};
ghost use Rattle.elf_image.specs.Reasons.{reason_number_of};
ghost use Rattle.elf_image.specs.declared.bad_image.BadImage.TheVariants.{NoMemory as OutOfMemory};

use kk_base::NoMemory;
use std::alloc::{AllocError, AllocFailed};
use thiserror::Error;

/// Why a file is no image that can be loaded: the first condition that it fails, in the order of the variants.
#[derive(Clone, Copy, Debug, PartialEq, Eq, Error)]
pub enum BadImage {
    /// It has no room for the file header.
    #[error("the file has no whole file header")]
    Short,
    /// It does not begin with the four bytes of ELF.
    #[error("the file is no ELF file")]
    NotElf,
    /// It is not of class 32, not little-endian, of another version of the identification, or for another machine.
    #[error("the file is not for a 32-bit little-endian RISC-V machine")]
    NotRv32,
    /// It is no executable file of version 1.
    #[error("the file is not executable")]
    NotExec,
    /// Its table of program headers is none that can be read, or a segment has more bytes than memory.
    #[error("the program headers cannot be read")]
    BadHeaders,
    /// The bytes of a segment pass the file's end.
    #[error("a segment passes the end of the file")]
    PartOutside,
    /// Two segments share an address.
    #[error("two segments share an address")]
    PartsOverlap,
    /// A segment ends above the greatest address, or the file has too many bytes.
    #[error("a segment or the file is too large")]
    TooLarge,
    /// The entry is no place of an instruction.
    #[error("the entry is no place of an instruction")]
    BadEntry,
    /// Memory was wanted and refused.
    #[error("no memory")]
    NoMemory,
}

impl BadImage {
    /// The number of the condition, from 1 in the order of the variants. Want of memory has none.
    pub fn number(&self) -> Option<u8>
        ensures { result ≡ reason_number_of self.now }
    {
        match self {
            BadImage::Short => Some(1),
            BadImage::NotElf => Some(2),
            BadImage::NotRv32 => Some(3),
            BadImage::NotExec => Some(4),
            BadImage::BadHeaders => Some(5),
            BadImage::PartOutside => Some(6),
            BadImage::PartsOverlap => Some(7),
            BadImage::TooLarge => Some(8),
            BadImage::BadEntry => Some(9),
            BadImage::NoMemory => None,
        }
    }
}

impl From<NoMemory> for BadImage {
    ghost from_gives = { λ _ e. e ≡ OutOfMemory };

    fn from(_error: NoMemory) -> BadImage {
        BadImage::NoMemory
    }
}

impl From<AllocError> for BadImage {
    ghost from_gives = { λ _ e. e ≡ OutOfMemory };

    fn from(_error: AllocError) -> BadImage {
        BadImage::NoMemory
    }
}

impl<T: Drop> From<AllocFailed<T>> for BadImage {
    ghost from_gives = { λ _ e. e ≡ OutOfMemory };

    fn from(_error: AllocFailed<T>) -> BadImage {
        BadImage::NoMemory
    }
}
