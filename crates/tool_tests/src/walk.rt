//! An image that runs beside the slow machine, form by form.

use crate::sides::{Ground, Sides};
use crate::token_machine::TokenMachine;
use elf_image::Image;
use kk_counted::Tokened;
use kk_memio::{MemSink, MemSource};
use rv_sim::{Halt, Machine};
use std::alloc::{AllocError, Global};
use std::test::Fail;

/// The most steps of a run of the slow machine, and the most instructions of one of an image.
const STEPS: u32 = 5_000_000;

const INSTRUCTIONS: u32 = 100_000_000;

/// The cells begin behind the buffer of the memory part.
const BUFFER: u32 = 32;

const CELL_BYTES: u32 = 32;

/// The slow machine of a program, and an image on an empty input.
#[derive(Drop)]
pub(crate) struct Walk<'a> {
    alloc: Global,
    program: &'a Tokened,
    pub(crate) slow: TokenMachine<'a>,
    machine: Machine,
    ground: Ground,
    input: MemSource,
    out: MemSink,
}

/// Where an image of so many cells and open calls has its memory.
fn ground_of(image: &Image, cells: u32, depth: u32) -> Option<Ground> {
    let memory = image.parts.as_slice().get(1)?;
    let stack = memory
        .memsz
        .wrapping_sub(BUFFER)
        .wrapping_sub(CELL_BYTES.wrapping_mul(cells));
    Some(Ground {
        first: memory.vaddr.wrapping_add(BUFFER),
        cells,
        end: memory.vaddr.wrapping_add(memory.memsz),
        frame: stack.checked_div(depth)?,
    })
}

impl<'a> Walk<'a> {
    /// A program and the image in a file, which was built of it for so many cells and open calls, at their start.
    pub(crate) fn new(
        alloc: Global,
        program: &'a Tokened,
        file: &[u8],
        cells: u32,
        depth: u32,
    ) -> Result<Self, Fail> {
        let main = program.functions.first().ok_or("no function is there")?;
        let image = elf_image::read(alloc, file)?;
        let ground = ground_of(&image, cells, depth).ok_or("no memory part")?;
        let machine = Machine::load(alloc, &image)?;
        let input = MemSource::new(alloc, b"", &[])?;
        let out = MemSink::new(alloc, 100, &[])?;
        Ok(Walk {
            alloc,
            program,
            slow: TokenMachine::new(alloc, program, main, cells, depth),
            machine,
            ground,
            input,
            out,
        })
    }

    /// Executes so many instructions, or fewer where the image ends. None where it was to end before.
    fn advance(&mut self, count: u32) -> Option<Halt> {
        if self.machine.faulted() | (self.machine.executed() > u64::from(INSTRUCTIONS)) {
            return None;
        }
        let halt = self
            .machine
            .run(u64::from(count), &mut self.input, &mut self.out);
        Some(halt)
    }

    /// How many cells are counted, where the image has put what the slow machine has put, and has its cells; else none.
    pub(crate) fn counted(&self) -> Result<Option<usize>, AllocError> {
        let sides = Sides {
            alloc: self.alloc,
            shapes: self.program.shape.constructors(),
            heap: &self.slow.heap,
            machine: &self.machine,
            ground: self.ground,
        };
        let puts = self.out.held_bytes() == self.slow.output.as_slice();
        if puts & self.slow.heap.is_sound & sides.held_alike() {
            return sides.counted_alike();
        }
        Ok(None)
    }

    /// Whether the image comes to a moment at which it is like the slow machine.
    fn come_along(&mut self) -> Result<bool, AllocError> {
        for _ in 0..INSTRUCTIONS {
            if self.counted()?.is_some() {
                return Ok(true);
            }
            if !matches!(self.advance(1), Some(Halt::StepsSpent)) {
                return Ok(false);
            }
        }
        Ok(false)
    }

    /// Runs both to their ends. How they end, and how many cells are counted then; none where they end otherwise, or the image does
    /// not come to a moment like each form of the slow machine, in their order. The forms are added where they are new.
    pub(crate) fn follow(
        &mut self,
        forms: &mut Vec<&'static str>,
    ) -> Result<Option<(Halt, usize)>, AllocError> {
        for _ in 0..STEPS {
            if !self.come_along()? {
                return Ok(None);
            }
            let form = self.slow.form();
            if !forms.contains(&form) {
                forms.push(form)?;
            }
            self.slow.step()?;
            if let Some(end) = self.slow.end {
                return self.finish(end);
            }
        }
        Ok(None)
    }

    /// The image goes on to its end, which has to be this one.
    fn finish(&mut self, end: Halt) -> Result<Option<(Halt, usize)>, AllocError> {
        if self.advance(INSTRUCTIONS) != Some(end) {
            return Ok(None);
        }
        match self.counted()? {
            Some(counted) => Ok(Some((end, counted))),
            None => Ok(None),
        }
    }
}
