ghost use Rattle.std.specs.Prelude.{◌≡◌, ◌+◌, ◌-◌, ◌^◌, ◌≤◌, ◌<◌, ◌++◌, take, drop, true, IfOk, replicate, length, slice_range};
ghost use Rattle.kk_base.specs.Memory.{covers};

use elf_image::Part;
use kk_base::NoMemory;
use std::alloc::Global;

/// What is done at an address.
#[derive(Clone, Copy)]
pub enum Access {
    Fetch,
    Load,
    Store,
    /// Looking from outside, which is allowed in every area.
    Inspect,
}

/// A part of the memory, with all its bytes.
#[derive(Drop)]
pub struct Area {
    /// The first address.
    pub start: u32,
    pub readable: bool,
    pub writable: bool,
    pub executable: bool,
    /// What the addresses hold, from the first one on.
    pub bytes: Vec<u8>,
    ghost fits: { start + length bytes.items ≤ 2 ^ 32 },
}

impl Area {
    ghost use Rattle.elf_image.specs.Parts.{loaded, end_of};
    ghost use Rattle.rv_isa.specs.Processor.{bare};
    ghost use Rattle.rv_sim.specs.Areas.{part_of_area, allows, filled};

    /// The area of a part of an image: the part's bytes, and zeros behind them.
    pub fn from_part(alloc: Global, part: &Part) -> Result<Area, NoMemory>
        requires in_reach { end_of part.now ≤ 2 ^ 32 }
        requires filled { length part.now.bytes ≤ part.now.memsz }
        ensures { IfOk result (λ area. part_of_area area ≡ filled (loaded part.now)) }
    {
        let bytes = padded(alloc, part.bytes.as_slice(), part.memsz as usize)?;
        Ok(Area {
            start: part.vaddr,
            readable: part.is_readable(),
            writable: part.is_writable(),
            executable: part.is_executable(),
            bytes,
        })
    }

    /// All of the addresses from `at`, `count` of them, lie in the area, and the access may be made there. No addresses
    /// lie in any area.
    pub fn allows(&self, access: Access, at: u32, count: u32) -> bool
        ensures { result ≡ allows access at count self.now }
    {
        let permitted = match access {
            Access::Fetch => self.executable,
            Access::Load => self.readable,
            Access::Store => self.writable,
            Access::Inspect => true,
        };
        permitted && self.covers(at, count)
    }

    /// All of the addresses from `at`, `count` of them, lie in the area. No addresses lie in any area.
    pub fn covers(&self, at: u32, count: u32) -> bool
        ensures { result ≡ covers (part_of_area self.now) at count }
    {
        let start = u64::from(self.start);
        let first = u64::from(at);
        let end = start + self.bytes.len() as u64;
        count == 0 || (start <= first && first + u64::from(count) <= end)
    }

    /// The bytes from `at` on, `count` of them.
    pub fn slice(&self, at: u32, count: u32) -> &[u8]
        requires some { 0 < count }
        requires inside { covers (part_of_area self.now) at count ≡ true }
        ensures { result.now ≡ slice_range self.now.bytes.items (at - self.now.start) (at - self.now.start + count) }
    {
        let first = (at - self.start) as usize;
        &self.bytes[first..first + count as usize]
    }

    /// Puts bytes from `at` on.
    pub fn put(&mut self, at: u32, bytes: &[u8])
        requires some { 0 < length bytes.now }
        requires inside { covers (part_of_area self.old) at (length bytes.now) ≡ true }
        ensures stays { bare (part_of_area self.new) ≡ bare (part_of_area self.old) }
        ensures bytes { let first = at - self.old.start in
            self.new.bytes.items
            ≡ take first self.old.bytes.items ++ (bytes.now ++ drop (first + length bytes.now) self.old.bytes.items) }
    {
        let first = (at - self.start) as usize;
        self.bytes[first..first + bytes.len()].copy_from_slice(bytes);
    }
}

/// Some bytes with zeros behind them, `size` in all.
fn padded(alloc: Global, bytes: &[u8], size: usize) -> Result<Vec<u8>, NoMemory>
    requires { length bytes.now ≤ size }
    ensures { IfOk result (λ all. all.items ≡ bytes.now ++ replicate (size - length bytes.now) 0) }
{
    let mut all = Vec::with_capacity(alloc, size)?;
    all.extend_from_slice(bytes)?;
    all.resize(size, 0)?;
    Ok(all)
}
