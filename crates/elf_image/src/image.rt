ghost use Rattle.std.specs.Prelude.{◌≡◌, ◌+◌, ◌<◌, ◌≤◌, length, IsTrue, IfOk};
ghost use Rattle.elf_image.specs.Parts.{are_apart, are_in_reach, are_filled, is_entry, greatest_end};
ghost use Rattle.elf_image.specs.Program.{text_start, memory_start, greatest_text, program_parts, IsProgramImage};

use crate::part::{Part, Parts};
use kk_base::{Bytes, NoMemory};
use std::alloc::Global;

/// The address of a program's text, where it begins.
pub const TEXT_START: u32 = 0x0001_0000;

/// The memory behind the text begins at a multiple of this.
pub const PAGE_SIZE: u32 = 0x1000;

/// The greatest address behind a part.
pub const GREATEST_END: u64 = 0xf000_0000;

/// A program as a machine loads it. No two parts share an address, none ends above 0xf000_0000, and none has more bytes
/// than addresses.
#[derive(Drop)]
pub struct Image {
    /// The address of the first instruction, a multiple of 4 in a part that may be executed.
    pub entry: u32,
    pub parts: Parts,
    pub ghost begins: { IsTrue (is_entry parts entry) },
    pub ghost apart: { IsTrue (are_apart parts) },
    pub ghost in_reach: { IsTrue (are_in_reach parts) },
    pub ghost filled: { IsTrue (are_filled parts) },
}

impl Image {
    /// The image of a compiled program: its text at 0x10000, where it begins, and `memory` bytes of zeros behind it, to be
    /// read and written.
    pub fn program(alloc: Global, text: Bytes, memory: u32) -> Result<Image, NoMemory>
        requires has_text { 0 < length text }
        requires text_fits { length text ≤ greatest_text }
        requires has_memory { 0 < memory }
        requires memory_fits { memory_start (length text) + memory ≤ greatest_end }
        ensures entry { IfOk result (λ image. image.entry ≡ text_start) }
        ensures parts { IfOk result (λ image. image.parts ≡ program_parts text memory) }
        ensures is_program { IfOk result (λ image. IsProgramImage image.entry image.parts) }
    {
        let size = text.len() as u32;
        let mut parts = Vec::new(alloc);
        parts.push(Part {
            vaddr: TEXT_START,
            memsz: size,
            flags: Part::READ | Part::EXECUTE,
            bytes: text,
        })?;
        parts.push(Part {
            vaddr: (TEXT_START + size).next_multiple_of(PAGE_SIZE),
            memsz: memory,
            flags: Part::READ | Part::WRITE,
            bytes: Bytes::new(alloc),
        })?;
        Ok(Image {
            entry: TEXT_START,
            parts: Parts::from_vec(parts),
        })
    }
}
