//! Where the runtime keeps its data.

ghost use Rattle.std.specs.Prelude.{◌≡◌, ◌+◌, ◌*◌, ◌≤◌};
ghost use Rattle.kk_base.specs.Sizes.{greatest_cells, greatest_depth};
ghost use Rattle.rv_isa.specs.Sizes.{reach_down};
ghost use Rattle.cell_runtime.specs.Layouts.{below_pointer, layout_of};

use rv_isa::environment::CELL_SIZE;
use rv_isa::sizes::{NARROW_FRAME, REACH_DOWN};

/// Bytes before the cells: the buffer, and what is missing to a multiple of a cell's.
const BYTES_BEFORE_CELLS: u32 = CELL_SIZE;

/// Where the runtime's data stand, as distances in bytes from the start of the image's memory part. The buffer of prints
/// and reads stands at that start.
#[derive(Clone, Copy)]
pub struct Layout {
    /// The first cell.
    pub cells: u32,
    /// The end of the cells. The lowest frame that the stack has room for begins there.
    pub cells_end: u32,
    /// Where the stack pointer stands in that frame.
    pub stack: u32,
    /// Where the stack pointer stands before the first frame, and the end of the memory part.
    pub stack_end: u32,
}

/// How far the stack pointer stands above the first word of its frame.
fn below_pointer(frame_bytes: u32) -> u32
    ensures is { result ≡ below_pointer frame_bytes }
    ensures few { result ≤ reach_down }
{
    if frame_bytes > NARROW_FRAME {
        REACH_DOWN
    } else {
        0
    }
}

impl Layout {
    /// The places for so many cells and for so many frames of so many bytes.
    pub fn new(cells: u32, depth: u32, frame_bytes: u32) -> Layout
        requires cells { cells ≤ greatest_cells }
        requires depth { depth ≤ greatest_depth }
        requires frame { frame_bytes ≤ 2 * reach_down }
        ensures { result ≡ layout_of cells depth frame_bytes }
    {
        let cells_end = BYTES_BEFORE_CELLS + CELL_SIZE * cells;
        let stack = cells_end + below_pointer(frame_bytes);
        Layout {
            cells: BYTES_BEFORE_CELLS,
            cells_end,
            stack,
            stack_end: stack + depth * frame_bytes,
        }
    }
}
