ghost use Rattle.std.specs.Prelude.{◌≡◌, ◌++◌, ◌<◌, ◌^◌, length, OnOk, IfOk};
ghost use Rattle.elf_image.specs.Program.{IsProgramImage, program_file, file_header, segment_header, text_of, memory_size_of};
ghost use Rattle.elf_image.specs.Loaded.{IsLoaded};

use crate::field::{put_half, put_word};
use crate::header::{
    CLASS_32, EXECUTABLE, FILE_HEADER_SIZE, FILE_VERSION, IDENTIFICATION_VERSION, LITTLE_ENDIAN,
    LOAD, MAGIC, PROGRAM_HEADER_SIZE, RISCV,
};
use crate::image::Image;
use crate::part::Part;
use kk_base::{Bytes, NoMemory};
use std::alloc::{AllocError, Global};

/// The offset of the program headers in the file.
const PROGRAM_HEADERS_OFFSET: u32 = 52;
/// The offset of the text in the file, and the alignment of the segments.
pub const TEXT_OFFSET: u32 = 0x1000;

/// The file of a compiled program's image, as [`Image::program`] makes it: the headers, zeros up to the offset 4096, and
/// the text. [`crate::read`] gives the image again.
pub fn write(alloc: Global, image: &Image) -> Result<Bytes, NoMemory>
    requires { IsProgramImage image.now.entry image.now.parts }
    // The bytes of the format.
    ensures written { IfOk result (λ file. file ≡ program_file (text_of image.now.parts) (memory_size_of image.now.parts)) }
    // The file is read as the image again.
    ensures read_again { IfOk result (λ file. IsLoaded file image.now.entry image.now.parts) }
{
    let [text, memory] = image.parts.as_slice() else {
        unreachable!()
    };
    let mut out = Vec::new(alloc);
    put_file_header(&mut out, image.entry)?;
    put_segment_header(&mut out, text)?;
    put_segment_header(&mut out, memory)?;
    out.resize(TEXT_OFFSET as usize, 0)?;
    out.extend_from_slice(text.bytes.as_slice())?;
    Ok(Bytes::from_vec(out))
}

/// Puts the file header of an executable file with two segments.
fn put_file_header(out: &mut Vec<u8>, entry: u32) -> Result<(), AllocError>
    ensures { OnOk result (out.new.items ≡ out.old.items ++ file_header entry) }
{
    out.extend_from_slice(&MAGIC)?;
    out.extend_from_slice(&[CLASS_32, LITTLE_ENDIAN, IDENTIFICATION_VERSION])?;
    out.extend_from_slice(&[0; 9])?;
    put_half(out, EXECUTABLE)?;
    put_half(out, RISCV)?;
    put_word(out, FILE_VERSION)?;
    put_word(out, entry)?;
    // Program headers follow, and there are no section headers and no flags.
    put_word(out, PROGRAM_HEADERS_OFFSET)?;
    put_word(out, 0)?;
    put_word(out, 0)?;
    put_half(out, FILE_HEADER_SIZE)?;
    put_half(out, PROGRAM_HEADER_SIZE)?;
    put_half(out, 2)?;
    // The size and the number of section headers, and which of them has their names.
    put_half(out, 0)?;
    put_half(out, 0)?;
    put_half(out, 0)?;
    Ok(())
}

/// Puts the program header of a segment, whose bytes are those at the text's offset.
fn put_segment_header(out: &mut Vec<u8>, part: &Part) -> Result<(), AllocError>
    requires { length part.now.bytes < 2 ^ 32 }
    ensures { OnOk result (out.new.items ≡ out.old.items ++ segment_header part.now) }
{
    put_word(out, LOAD)?;
    put_word(out, TEXT_OFFSET)?;
    put_word(out, part.vaddr)?;
    put_word(out, part.vaddr)?;
    put_word(out, part.bytes.len() as u32)?;
    put_word(out, part.memsz)?;
    put_word(out, part.flags)?;
    put_word(out, TEXT_OFFSET)?;
    Ok(())
}
