ghost use Rattle.std.specs.Prelude.{◌≡◌, ◌+◌, ◌≤◌, ◌++◌, length, OnOk};
ghost use Rattle.byteorder.specs.Endian.{little_bytes};
ghost use Rattle.elf_image.specs.Fields.{half_at, word_at};

use byteorder::{ByteOrder, LittleEndian};
use std::alloc::AllocError;

/// The field of two bytes at an offset.
pub fn half(bytes: &[u8], offset: usize) -> u16
    requires { offset + 2 ≤ length bytes.now }
    ensures { result ≡ half_at bytes.now offset }
{
    LittleEndian::read_u16(&bytes[offset..])
}

/// The field of four bytes at an offset.
pub fn word(bytes: &[u8], offset: usize) -> u32
    requires { offset + 4 ≤ length bytes.now }
    ensures { result ≡ word_at bytes.now offset }
{
    LittleEndian::read_u32(&bytes[offset..])
}

/// Puts a field of two bytes at the end.
pub fn put_half(out: &mut Vec<u8>, value: u16) -> Result<(), AllocError>
    ensures { OnOk result (out.new.items ≡ out.old.items ++ little_bytes 2 value) }
{
    let mut field = [0; 2];
    LittleEndian::write_u16(&mut field, value);
    out.extend_from_slice(&field)
}

/// Puts a field of four bytes at the end.
pub fn put_word(out: &mut Vec<u8>, value: u32) -> Result<(), AllocError>
    ensures { OnOk result (out.new.items ≡ out.old.items ++ little_bytes 4 value) }
{
    let mut field = [0; 4];
    LittleEndian::write_u32(&mut field, value);
    out.extend_from_slice(&field)
}
