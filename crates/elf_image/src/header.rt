ghost use Rattle.std.specs.Prelude.{◌≡◌, ◌↔◌, ◌+◌, ◌≤◌, ℕ, length, IfOk, IfErr, IsTrue};
ghost use Rattle.kk_base.specs.Memory.{covers};
ghost use Rattle.elf_image.specs.Fields.{header_of, is_load};
ghost use Rattle.elf_image.specs.Parts.{loaded, share_address, is_executable_at};
ghost use Rattle.elf_image.specs.Loaded.{part_of, is_inside, IsReason};
ghost use Rattle.elf_image.specs.Reading.{extent_of, IsFileHeader};

use crate::bad_image::BadImage;
use crate::field::{half, word};
use crate::part::Part;
use kk_base::{Bytes, NoMemory};
use std::alloc::Global;

/// The bytes that every ELF file begins with.
pub const MAGIC: [u8; 4] = [0x7f, b'E', b'L', b'F'];
/// Objects of 32 bits (ELFCLASS32).
pub const CLASS_32: u8 = 1;
/// The lowest byte first (ELFDATA2LSB).
pub const LITTLE_ENDIAN: u8 = 1;
/// The version of the identification (EV_CURRENT).
pub const IDENTIFICATION_VERSION: u8 = 1;
/// An executable file (ET_EXEC).
pub const EXECUTABLE: u16 = 2;
/// RISC-V (EM_RISCV).
pub const RISCV: u16 = 243;
/// The version of the file (EV_CURRENT).
pub const FILE_VERSION: u32 = 1;
/// A segment to be loaded (PT_LOAD).
pub const LOAD: u32 = 1;
/// The size of the file header, in bytes.
pub const FILE_HEADER_SIZE: u16 = 52;
/// The size of a program header, in bytes.
pub const PROGRAM_HEADER_SIZE: u16 = 32;

/// What a file header says of the program.
#[derive(Clone, Copy)]
pub struct FileHeader {
    /// The address of the first instruction.
    pub entry: u32,
    /// The offset of the program headers in the file.
    pub table_offset: u32,
    /// The size of each program header, in bytes.
    pub header_size: u16,
    /// How many program headers there are.
    pub header_count: u16,
}

impl FileHeader {
    /// The file header, where the file is an executable one for a 32-bit little-endian RISC-V machine.
    #[tactic(auto, unfolding(crate::specs::Loaded::reason_of))]
    pub fn read(bytes: &[u8]) -> Result<FileHeader, BadImage>
        ensures ok { IfOk result (λ header. IsFileHeader header bytes.now) }
        ensures err { IfErr result (λ error. IsReason error bytes.now) }
    {
        if bytes.len() < usize::from(FILE_HEADER_SIZE) {
            return Err(BadImage::Short);
        }
        if !bytes.starts_with(&MAGIC) {
            return Err(BadImage::NotElf);
        }
        if bytes[4] != CLASS_32
            || bytes[5] != LITTLE_ENDIAN
            || bytes[6] != IDENTIFICATION_VERSION
            || half(bytes, 18) != RISCV
        {
            return Err(BadImage::NotRv32);
        }
        if half(bytes, 16) != EXECUTABLE || word(bytes, 20) != FILE_VERSION {
            return Err(BadImage::NotExec);
        }
        Ok(FileHeader {
            entry: word(bytes, 24),
            table_offset: word(bytes, 28),
            header_size: half(bytes, 42),
            header_count: half(bytes, 44),
        })
    }
}

/// A program header, without its physical address and its alignment.
#[derive(Clone, Copy)]
pub struct ProgramHeader {
    /// The type of what it describes.
    pub kind: u32,
    /// The offset of the segment's first byte in the file.
    pub offset: u32,
    /// The segment's first address.
    pub vaddr: u32,
    /// How many bytes of the segment the file has.
    pub filesz: u32,
    /// How many addresses the segment has.
    pub memsz: u32,
    /// What may be done there.
    pub flags: u32,
}

impl ProgramHeader {
    /// The program header that the bytes begin with.
    pub fn read(bytes: &[u8]) -> ProgramHeader
        requires { 32 ≤ length bytes.now }
        ensures { result ≡ header_of bytes.now }
    {
        ProgramHeader {
            kind: word(bytes, 0),
            offset: word(bytes, 4),
            vaddr: word(bytes, 8),
            filesz: word(bytes, 16),
            memsz: word(bytes, 20),
            flags: word(bytes, 24),
        }
    }

    /// It describes a segment to be loaded.
    pub fn is_load(&self) -> bool
        ensures { result ≡ is_load self.now }
    {
        self.kind == LOAD
    }

    /// The segment's bytes lie in a file of so many, or there are none.
    pub fn is_inside(&self, file_size: usize) -> bool
        ensures { result ≡ is_inside self.now file_size }
    {
        self.filesz == 0 || self.offset as usize + self.filesz as usize <= file_size
    }

    /// The address behind the segment's last one, as an exact sum.
    pub fn end(&self) -> u64
        ensures { result ≡ self.now.vaddr + self.now.memsz }
    {
        u64::from(self.vaddr) + u64::from(self.memsz)
    }

    /// Two segments share an address.
    pub fn overlaps(&self, other: &ProgramHeader) -> bool
        ensures value { result ≡ share_address (extent_of self.now) (extent_of other.now) }
        // Some address lies in both.
        ensures shared { IsTrue result ↔ ((at : ℕ) × IsTrue (covers (loaded (extent_of self.now)) at 1) × IsTrue (covers (loaded (extent_of other.now)) at 1)) }
    {
        u64::from(self.vaddr.max(other.vaddr)) < self.end().min(other.end())
    }

    /// The address lies in the segment, which may be executed.
    pub fn is_executable_at(&self, at: u32) -> bool
        ensures { result ≡ is_executable_at (extent_of self.now) at }
    {
        self.vaddr <= at && u64::from(at) < self.end() && self.flags & Part::EXECUTE != 0
    }

    /// The segment as a part of the image.
    pub fn part(&self, alloc: Global, file: &[u8]) -> Result<Part, NoMemory>
        requires { IsTrue (is_inside self.now (length file.now)) }
        ensures { IfOk result (λ part. part ≡ part_of file.now self.now) }
    {
        let bytes = if self.filesz == 0 {
            Bytes::new(alloc)
        } else {
            let start = self.offset as usize;
            Bytes::from_slice(alloc, &file[start..start + self.filesz as usize])?
        };
        Ok(Part {
            vaddr: self.vaddr,
            memsz: self.memsz,
            flags: self.flags,
            bytes,
        })
    }
}
