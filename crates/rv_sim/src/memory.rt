ghost use Rattle.std.specs.Prelude.{◌≡◌, ◌^◌, ◌<◌, ◌∷◌, [], List, length, map, true, false, is_some, IfSome, IfOk, IsTrue, Some, None, if◌then◌else◌, HoldsAt, position};
ghost use Rattle.std.specs.Bool.{OnTrue, OnFalse};
ghost use Rattle.kk_base.specs.Memory.{covers, byte_loaded};
ghost use Rattle.rv_isa.specs.Bytes.{little_endian, number_at, bytes_at, with_number, with_bytes};
ghost use Rattle.rv_isa.specs.Meaning.{IsWidth};
ghost use Rattle.rv_isa.specs.Processor.{bare, lies_in_part, can_fetch, can_load, can_store};
ghost use Rattle.elf_image.specs.Parts.{memory_of, are_apart, are_in_reach, are_filled};
ghost use Rattle.rv_sim.specs.Areas.{filled, part_of_area, parts_of_areas, allows, can, AreApart};

use crate::area::{Access, Area};
use elf_image::Parts;
use kk_base::NoMemory;
use std::alloc::Global;
use std::marker::Model;

/// The memory of a machine, by areas that share no address.
#[derive(Drop)]
pub struct Memory {
    areas: Vec<Area>,
    /// The place of the area that the last instruction came from.
    fetched: usize,
    /// The place of the area that was loaded from or stored to last.
    accessed: usize,
}

impl Model for Memory {
    ghost use Rattle.std.specs.Prelude.{List};
    ghost use Rattle.kk_base.specs.Memory.{Part};
    ghost use Rattle.rv_sim.specs.Areas.{parts_of_areas, AreApart};

    ghost Value = { List Part };

    ghost view = { λ m. parts_of_areas m.areas.items };

    ghost invariant = { λ m. AreApart (parts_of_areas m.areas.items) };
}

impl Memory {
    /// The memory of these areas.
    pub fn new(areas: Vec<Area>) -> Self
        requires { AreApart (parts_of_areas areas.items) }
        ensures { result ≡ parts_of_areas areas.items }
    {
        Memory {
            areas,
            fetched: 0,
            accessed: 0,
        }
    }

    /// The memory that an image starts with.
    pub fn from_parts(alloc: Global, parts: &Parts) -> Result<Self, NoMemory>
        requires apart { IsTrue (are_apart parts.now) }
        requires in_reach { IsTrue (are_in_reach parts.now) }
        requires filled { IsTrue (are_filled parts.now) }
        ensures { IfOk result (λ memory. memory ≡ map filled (memory_of parts.now)) }
    {
        let mut areas = Vec::with_capacity(alloc, parts.len())?;
        for part in parts.as_slice() {
            areas.push(Area::from_part(alloc, part)?)?;
        }
        Ok(Memory::new(areas))
    }

    /// An access may be made to all of the addresses from `at`, `count` of them, in one area.
    pub fn can(&self, access: Access, at: u32, count: u32) -> bool
        ensures { result ≡ can access self.now at count }
    {
        find(&self.areas, self.accessed, access, at, count).is_some()
    }

    /// The word of the instruction at an address, or `None` where none may be fetched there.
    pub fn fetch(&mut self, at: u32) -> Option<u32>
        ensures stays { self.new ≡ self.old }
        ensures word { result
            ≡ (if can_fetch self.old at 4 then Some (number_at (byte_loaded self.old) at 4) else None) }
    {
        let place = find(&self.areas, self.fetched, Access::Fetch, at, 4)?;
        self.fetched = place;
        Some(number(self.areas[place].slice(at, 4)))
    }

    /// The number in so many bytes from an address on, or `None` where they may not be loaded.
    pub fn load(&mut self, at: u32, width: u8) -> Option<u32>
        requires { IsWidth width }
        ensures stays { self.new ≡ self.old }
        ensures number { result
            ≡ (if can_load self.old at width then Some (number_at (byte_loaded self.old) at width) else None) }
        ensures fits { IfSome result (λ number. number < 256 ^ width) }
    {
        let place = find(
            &self.areas,
            self.accessed,
            Access::Load,
            at,
            u32::from(width),
        )?;
        self.accessed = place;
        Some(number(self.areas[place].slice(at, u32::from(width))))
    }

    /// Puts the lowest `width` bytes of a word from an address on, and answers `true`; or `false`, where they may not be
    /// stored there, and nothing changes.
    pub fn store(&mut self, at: u32, width: u8, word: u32) -> bool
        requires { IsWidth width }
        ensures allowed { result ≡ can_store self.old at width }
        ensures stored { OnTrue result (byte_loaded self.new ≡ with_number at width word (byte_loaded self.old)) }
        ensures areas { map bare self.new ≡ map bare self.old }
        ensures refused { OnFalse result (self.new ≡ self.old) }
    {
        let found = find(
            &self.areas,
            self.accessed,
            Access::Store,
            at,
            u32::from(width),
        );
        let Some(place) = found else {
            return false;
        };
        self.accessed = place;
        put_number(&mut self.areas, place, at, width, word);
        true
    }

    /// Puts a byte at an address where one may be stored.
    pub fn store_byte(&mut self, at: u32, byte: u8)
        requires { can_store self.old at 1 ≡ true }
        ensures stored { byte_loaded self.new ≡ with_bytes at (byte ∷ []) (byte_loaded self.old) }
        ensures areas { map bare self.new ≡ map bare self.old }
    {
        if let Some(place) = find(&self.areas, self.accessed, Access::Store, at, 1) {
            put(&mut self.areas, place, at, &[byte]);
        }
    }

    /// The bytes from an address on, at least one, where they may be loaded.
    pub fn bytes(&self, at: u32, count: u32) -> &[u8]
        requires some { 0 < count }
        requires allowed { can_load self.now at count ≡ true }
        ensures { result.now ≡ bytes_at (byte_loaded self.now) at count }
    {
        match find(&self.areas, self.accessed, Access::Load, at, count) {
            Some(place) => self.areas[place].slice(at, count),
            None => &[],
        }
    }

    /// The word at an address, whatever may be done there, or `None` where it does not lie in one area.
    pub fn word(&self, at: u32) -> Option<u32>
        ensures { result
            ≡ (if lies_in_part self.now at 4 then Some (number_at (byte_loaded self.now) at 4) else None) }
    {
        let place = find(&self.areas, self.accessed, Access::Inspect, at, 4)?;
        Some(number(self.areas[place].slice(at, 4)))
    }
}

/// The number that bytes spell, the lowest first.
fn number(bytes: &[u8]) -> u32
    requires { IsWidth (length bytes.now) }
    ensures value { result ≡ little_endian bytes.now }
    ensures fits { result < 256 ^ length bytes.now }
{
    match bytes.len() {
        1 => u32::from(bytes[0]),
        2 => u32::from(u16::from_le_bytes([bytes[0], bytes[1]])),
        _ => u32::from_le_bytes([bytes[0], bytes[1], bytes[2], bytes[3]]),
    }
}

/// The place of an area that allows an access to the addresses from `at`, `count` of them. `last` is tried first.
fn find(areas: &[Area], last: usize, access: Access, at: u32, count: u32) -> Option<usize>
    ensures found { is_some result ≡ can access (parts_of_areas areas.now) at count }
    ensures place { IfSome result
        (λ i. (i < length areas.now) × HoldsAt (λ area. allows access at count area ≡ true) areas.now i) }
{
    if let Some(area) = areas.get(last) {
        if area.allows(access, at, count) {
            return Some(last);
        }
    }
    find_first(areas, access, at, count)
}

/// The place of the first area that allows an access.
fn find_first(areas: &[Area], access: Access, at: u32, count: u32) -> Option<usize>
    ensures { result ≡ position (allows access at count) areas.now }
{
    areas.iter().position(|area| area.allows(access, at, count))
}

/// Puts the lowest `width` bytes of a word from `at` on in an area that covers them.
fn put_number(areas: &mut [Area], place: usize, at: u32, width: u8, word: u32)
    requires width { IsWidth width }
    requires apart { AreApart (parts_of_areas areas.old) }
    requires within { place < length areas.old }
    requires inside { HoldsAt (λ area. covers (part_of_area area) at width ≡ true) areas.old place }
    ensures put { byte_loaded (parts_of_areas areas.new) ≡ with_number at width word (byte_loaded (parts_of_areas areas.old)) }
    ensures areas { map bare (parts_of_areas areas.new) ≡ map bare (parts_of_areas areas.old) }
    ensures still_apart { AreApart (parts_of_areas areas.new) }
{
    let bytes = word.to_le_bytes();
    put(areas, place, at, &bytes[..usize::from(width)]);
}

/// Puts bytes from `at` on in an area that covers them.
fn put(areas: &mut [Area], place: usize, at: u32, bytes: &[u8])
    requires some { 0 < length bytes.now }
    requires apart { AreApart (parts_of_areas areas.old) }
    requires within { place < length areas.old }
    requires inside { HoldsAt (λ area. covers (part_of_area area) at (length bytes.now) ≡ true) areas.old place }
    ensures put { byte_loaded (parts_of_areas areas.new) ≡ with_bytes at bytes.now (byte_loaded (parts_of_areas areas.old)) }
    ensures areas { map bare (parts_of_areas areas.new) ≡ map bare (parts_of_areas areas.old) }
    ensures still_apart { AreApart (parts_of_areas areas.new) }
{
    areas[place].put(at, bytes);
}
