ghost use Rattle.std.specs.Prelude.{◌≡◌, ◌*◌, ◌≤◌, length, map, filter, nat_lt, nat_le, IsTrue, IfOk};
ghost use Rattle.std.specs.List.{list_all, list_any};
ghost use Rattle.elf_image.specs.Fields.{headers_of, is_load};
ghost use Rattle.elf_image.specs.Parts.{are_apart, share_address, is_executable_at, end_of, greatest_end};
ghost use Rattle.elf_image.specs.Loaded.{part_of, is_inside};
ghost use Rattle.elf_image.specs.Reading.{extent_of};

use crate::header::{PROGRAM_HEADER_SIZE, ProgramHeader};
use crate::image::GREATEST_END;
use crate::part::Parts;
use kk_base::NoMemory;
use std::alloc::Global;

/// The segments to be loaded, of a table of `count` program headers that the bytes begin with.
pub fn read_loads(alloc: Global, count: usize, bytes: &[u8]) -> Result<Vec<ProgramHeader>, NoMemory>
    requires { 32 * count ≤ length bytes.now }
    ensures { IfOk result (λ loads. loads.items ≡ filter is_load (headers_of count bytes.now)) }
{
    let mut loads = Vec::new(alloc);
    let mut rest = bytes;
    for _ in 0..count {
        let header = ProgramHeader::read(rest);
        if header.is_load() {
            loads.push(header)?;
        }
        rest = &rest[usize::from(PROGRAM_HEADER_SIZE)..];
    }
    Ok(loads)
}

/// No segment has more bytes than addresses.
pub fn are_filled(loads: &[ProgramHeader]) -> bool
    ensures { result ≡ list_all (λ h. nat_le h.filesz h.memsz) loads.now }
{
    loads.iter().all(|load| load.filesz <= load.memsz)
}

/// The bytes of each segment lie in a file of so many.
pub fn are_inside(loads: &[ProgramHeader], file_size: usize) -> bool
    ensures { result ≡ list_all (λ h. is_inside h file_size) loads.now }
{
    loads.iter().all(|load| load.is_inside(file_size))
}

/// The segments that fill an address.
pub fn without_empty(alloc: Global, loads: &[ProgramHeader]) -> Result<Vec<ProgramHeader>, NoMemory>
    ensures { IfOk result (λ segments. segments.items ≡ filter (λ h. nat_lt 0 h.memsz) loads.now) }
{
    let segments = loads
        .iter()
        .copied()
        .filter(|load| load.memsz > 0)
        .collect(alloc)?;
    Ok(segments)
}

/// No two segments share an address.
pub fn are_apart(segments: &[ProgramHeader]) -> bool
    ensures { result ≡ are_apart (map extent_of segments.now) }
{
    for (i, segment) in segments.iter().enumerate() {
        if overlaps_any(segment, &segments[i + 1..]) {
            return false;
        }
    }
    true
}

/// A segment shares an address with one of some others.
fn overlaps_any(segment: &ProgramHeader, others: &[ProgramHeader]) -> bool
    ensures { result ≡ list_any (λ other. share_address (extent_of segment.now) (extent_of other)) others.now }
{
    others.iter().any(|other| segment.overlaps(other))
}

/// No segment ends above the greatest address.
pub fn are_in_reach(segments: &[ProgramHeader]) -> bool
    ensures { result ≡ list_all (λ h. nat_le (end_of (extent_of h)) greatest_end) segments.now }
{
    segments.iter().all(|segment| segment.end() <= GREATEST_END)
}

/// The address lies in a segment, which may be executed.
pub fn is_executable_at(segments: &[ProgramHeader], at: u32) -> bool
    ensures { result ≡ list_any (λ h. is_executable_at (extent_of h) at) segments.now }
{
    segments.iter().any(|segment| segment.is_executable_at(at))
}

/// The segments as parts of an image.
pub fn parts(alloc: Global, file: &[u8], segments: &[ProgramHeader]) -> Result<Parts, NoMemory>
    requires { IsTrue (list_all (λ h. is_inside h (length file.now)) segments.now) }
    ensures { IfOk result (λ parts. parts ≡ map (part_of file.now) segments.now) }
{
    let mut parts = Vec::new(alloc);
    for segment in segments {
        parts.push(segment.part(alloc, file)?)?;
    }
    Ok(Parts::from_vec(parts))
}
