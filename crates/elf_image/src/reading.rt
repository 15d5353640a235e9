ghost use Rattle.std.specs.Prelude.{IfOk, IfErr};
ghost use Rattle.elf_image.specs.Loaded.{IsLoaded, IsReason};
ghost use Rattle.elf_image.specs.Reading.{IsFileHeader, HasLoads, HasSegments};

use crate::bad_image::BadImage;
use crate::header::{FileHeader, PROGRAM_HEADER_SIZE, ProgramHeader};
use crate::image::Image;
use crate::segments;
use std::alloc::Global;

/// The greatest number of program headers that are read.
const GREATEST_HEADER_COUNT: usize = 64;
/// The greatest number of a file's bytes.
pub const GREATEST_FILE: usize = 2_147_483_648;

/// The image that a file loads.
///
/// What a usual linker writes beside the segments to be loaded is passed over: sections, program headers of other types,
/// and segments that fill no address.
///
/// # Errors
///
/// The first condition on the file that it fails, or [`BadImage::NoMemory`].
pub fn read(alloc: Global, bytes: &[u8]) -> Result<Image, BadImage>
    ensures ok { IfOk result (λ image. IsLoaded bytes.now image.entry image.parts) }
    ensures err { IfErr result (λ error. IsReason error bytes.now) }
{
    let header = FileHeader::read(bytes)?;
    let segments = segments_of(alloc, bytes, &header)?;
    if !segments::are_apart(&segments) {
        return Err(BadImage::PartsOverlap);
    }
    if !segments::are_in_reach(&segments) || bytes.len() > GREATEST_FILE {
        return Err(BadImage::TooLarge);
    }
    if header.entry % 4 != 0 || !segments::is_executable_at(&segments, header.entry) {
        return Err(BadImage::BadEntry);
    }
    Ok(Image {
        entry: header.entry,
        parts: segments::parts(alloc, bytes, &segments)?,
    })
}

/// The segments that become the parts of the image, where the file has the bytes of each.
fn segments_of(
    alloc: Global,
    bytes: &[u8],
    header: &FileHeader,
) -> Result<Vec<ProgramHeader>, BadImage>
    requires { IsFileHeader header.now bytes.now }
    ensures ok { IfOk result (λ segments. HasSegments bytes.now segments.items) }
    ensures err { IfErr result (λ error. IsReason error bytes.now) }
{
    let loads = loads(alloc, bytes, header)?;
    if !segments::are_inside(&loads, bytes.len()) {
        return Err(BadImage::PartOutside);
    }
    Ok(segments::without_empty(alloc, &loads)?)
}

/// The segments to be loaded, where their headers can be read and none has more bytes than addresses.
#[tactic(auto, unfolding(crate::specs::Loaded::reason_of))]
fn loads(alloc: Global, bytes: &[u8], header: &FileHeader) -> Result<Vec<ProgramHeader>, BadImage>
    requires { IsFileHeader header.now bytes.now }
    ensures ok { IfOk result (λ loads. HasLoads bytes.now loads.items) }
    ensures err { IfErr result (λ error. IsReason error bytes.now) }
{
    let start = header.table_offset as usize;
    let count = usize::from(header.header_count);
    if header.header_size != PROGRAM_HEADER_SIZE
        || count == 0
        || count > GREATEST_HEADER_COUNT
        || start + usize::from(PROGRAM_HEADER_SIZE) * count > bytes.len()
    {
        return Err(BadImage::BadHeaders);
    }
    let loads = segments::read_loads(alloc, count, &bytes[start..])?;
    if !segments::are_filled(&loads) {
        return Err(BadImage::BadHeaders);
    }
    Ok(loads)
}
