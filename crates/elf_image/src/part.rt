ghost use Rattle.std.specs.Prelude.{◌≡◌, ◌+◌};
ghost use Rattle.elf_image.specs.Parts.{loaded};

use kk_base::{Bytes, Items};

/// A part of the addresses that a program is loaded to.
#[derive(Drop)]
pub struct Part {
    /// The first address.
    pub vaddr: u32,
    /// How many addresses there are.
    pub memsz: u32,
    /// What may be done there: the sum of [`Part::EXECUTE`], [`Part::WRITE`] and [`Part::READ`]. Other bits mean nothing.
    pub flags: u32,
    /// What the part holds from its first address on when it is loaded; zeros follow.
    pub bytes: Bytes,
}

impl Part {
    /// The flag of a part that may be executed (PF_X).
    pub const EXECUTE: u32 = 1;
    /// The flag of a part that may be written (PF_W).
    pub const WRITE: u32 = 2;
    /// The flag of a part that may be read (PF_R).
    pub const READ: u32 = 4;

    /// It may be read.
    pub fn is_readable(&self) -> bool
        ensures { result ≡ (loaded self.now).readable }
    {
        self.flags & Self::READ != 0
    }

    /// It may be written.
    pub fn is_writable(&self) -> bool
        ensures { result ≡ (loaded self.now).writable }
    {
        self.flags & Self::WRITE != 0
    }

    /// It may be executed.
    pub fn is_executable(&self) -> bool
        ensures { result ≡ (loaded self.now).executable }
    {
        self.flags & Self::EXECUTE != 0
    }

    /// The address behind the last one, as an exact sum.
    pub fn end(&self) -> u64
        ensures { result ≡ self.now.vaddr + self.now.memsz }
    {
        u64::from(self.vaddr) + u64::from(self.memsz)
    }
}

/// The parts of an image, a list.
pub type Parts = Items<Part>;
