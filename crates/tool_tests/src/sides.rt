//! The cells of the slow machine beside those of an image.

use crate::token_heap::{Heap, Value};
use kk_core::ConstructorShape;
use rv_sim::Machine;
use std::alloc::{AllocError, Global};

const CELL_BYTES: u32 = 32;

/// The most cells that are compared, one in another.
const LEVELS: u32 = 1_000;

/// What is read where no word is. No count, header or address is as great.
const NO_WORD: u32 = 0xffff_ffff;

/// Where an image has its cells and its frames.
#[derive(Clone, Copy)]
pub(crate) struct Ground {
    /// The address of the first cell, and how many there are.
    pub(crate) first: u32,
    pub(crate) cells: u32,
    /// The address behind the frame of `main`, and the bytes of a frame.
    pub(crate) end: u32,
    pub(crate) frame: u32,
}

impl Ground {
    /// Whether an address lies in the frame that so many frames stand above.
    fn is_in_frame(&self, at: u32, above: u32) -> bool {
        let end = self.end.wrapping_sub(self.frame.wrapping_mul(above));
        (end.wrapping_sub(self.frame) <= at) & (at < end)
    }
}

/// The header of a cell of a constructor: its tag, and bits for the fields that can hold cells.
fn header_of(shape: &ConstructorShape) -> u32 {
    let mut header = shape.tag;
    let mut bit: u32 = 256;
    for holds in &shape.fields {
        if *holds {
            header = header.wrapping_add(bit);
        }
        bit = bit.wrapping_mul(2);
    }
    header
}

/// The cells of the slow machine beside those of an image.
#[derive(Clone, Copy)]
pub(crate) struct Sides<'a> {
    pub(crate) alloc: Global,
    pub(crate) shapes: &'a [ConstructorShape],
    pub(crate) heap: &'a Heap,
    pub(crate) machine: &'a Machine,
    pub(crate) ground: Ground,
}

impl Sides<'_> {
    /// The word at an address of the image.
    fn word(&self, at: u32) -> u32 {
        match self.machine.word(at) {
            Some(word) => word,
            None => NO_WORD,
        }
    }

    /// The word of a value that is no cell.
    fn word_of(&self, value: Value) -> u32 {
        match value {
            Value::Integer(number) => u32::from_le_bytes(number.to_le_bytes()),
            Value::Unit => 1,
            Value::Constant(constructor) => match self.shapes.get(constructor as usize) {
                Some(shape) => shape.tag.wrapping_mul(2).wrapping_add(1),
                None => NO_WORD,
            },
            Value::Place(_) => NO_WORD,
        }
    }

    /// Whether the cells of a name and at an address have the same count, header and number of fields.
    fn have_one_head(&self, name: usize, at: u32) -> bool {
        let cell = self.heap.cell(name);
        match self.shapes.get(cell.made_by as usize) {
            Some(shape) => {
                (self.word(at) == cell.count)
                    & (self.word(at.wrapping_add(4)) == header_of(shape))
                    & (shape.fields.len() == cell.length as usize)
            }
            None => false,
        }
    }

    /// Whether a word is that of a value. The word of a cell is the address of one that has the same count and header, and the
    /// words of its fields.
    fn has_word(&self, value: Value, word: u32, levels: u32) -> bool {
        let Value::Place(name) = value else {
            return self.word_of(value) == word;
        };
        if levels == 0 || !self.have_one_head(name, word) {
            return false;
        }
        for position in 0..self.heap.cell(name).length {
            let field = self.heap.field(name, position);
            let at = word.wrapping_add(8).wrapping_add(position.wrapping_mul(4));
            if !self.has_word(field, self.word(at), levels - 1) {
                return false;
            }
        }
        true
    }

    /// The address of the first cell that is like the one of a name, and is none of these.
    fn find(&self, name: usize, others: &[u32]) -> Option<u32> {
        let mut at = self.ground.first;
        for _ in 0..self.ground.cells {
            if !others.contains(&at) && self.has_word(Value::Place(name), at, LEVELS) {
                return Some(at);
            }
            at = at.wrapping_add(CELL_BYTES);
        }
        None
    }

    /// How many cells are counted, where the image has as many free ones and a cell like each of them; else none. The others are the
    /// cells of tokens. They may still have the words that they had when they were counted.
    pub(crate) fn counted_alike(&self) -> Result<Option<usize>, AllocError> {
        if self.machine.free_cells(self.ground.cells) != self.heap.free {
            return Ok(None);
        }
        let mut found = Vec::new(self.alloc);
        for (name, cell) in self.heap.cells.iter().enumerate() {
            if cell.count > 0 {
                match self.find(name, &found) {
                    Some(at) => found.push(at)?,
                    None => return Ok(None),
                }
            }
        }
        Ok(Some(found.len()))
    }

    /// Whether the image has the held tokens of the slow machine, in slots of the same frames. The newest one is a cell from which
    /// each names the one before it.
    pub(crate) fn held_alike(&self) -> bool {
        if self.heap.chain.is_empty() {
            return true;
        }
        let mut at = self.ground.first;
        for _ in 0..self.ground.cells {
            if self.is_newest(at) {
                return true;
            }
            at = at.wrapping_add(CELL_BYTES);
        }
        false
    }

    /// Whether the held tokens from a cell on are those of the slow machine. Each has the address of the one before it and that of its
    /// slot, which has its own.
    fn is_newest(&self, newest: u32) -> bool {
        let mut at = newest;
        let mut alike = true;
        for slot in self.heap.chain.iter().rev() {
            let place = self.word(at.wrapping_add(4));
            alike &= (self.word(place) == at) & self.ground.is_in_frame(place, slot.frame);
            at = self.word(at);
        }
        alike & (at == 0)
    }
}
