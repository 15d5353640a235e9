//! How a run starts, and how it stops.

ghost use Rattle.std.specs.Prelude.{◌+◌, ◌≡◌, ◌<◌};
ghost use Rattle.cell_runtime.specs.Lines.{Makes};
ghost use Rattle.cell_runtime.specs.Links.{linked};
ghost use Rattle.cell_runtime.specs.Starts.{IsStartOf};
ghost use Rattle.cell_runtime.specs.Stops.{number_of, IsStop};

use crate::assembly::{address, ecall, jal, set};
use crate::layout::Layout;
use kk_base::{HEAP_FULL_EXIT, STACK_FULL_EXIT};
use rv_isa::environment::EXIT;
use rv_isa::{JumpOffset, LIST_HEADER, Native, Register};

/// Instructions of the runtime.
pub const TEXT_WORDS: u32 = 102;

/// Sets the stack, the bounds of the cells, an empty chain of free cells, an empty chain of held tokens, 1 in `gp` and the header of
/// a list cell in `s4`, and calls `main`, which stands behind the runtime. So `main` returns to the stop behind the start.
pub fn start(layout: Layout) -> [Native; 8]
    ensures { Makes (linked result) 11 (layout.cells + layout.cells_end + layout.stack_end) (IsStartOf layout) }
{
    [
        address(Register::SP, layout.stack_end),
        address(Register::S2, layout.cells),
        address(Register::S3, layout.cells_end),
        set(Register::S0, 0),
        set(Register::S1, 0),
        set(Register::GP, 1),
        set(Register::S4, LIST_HEADER),
        jal(Register::RA, JumpOffset::new(4 * (TEXT_WORDS - 10))),
    ]
}

/// How a run ends.
#[derive(Clone, Copy)]
pub enum Ending {
    /// `main` has returned.
    Ended,
    /// A cell was asked for where there was none.
    HeapFull,
    /// A call was made where no frame was left.
    StackFull,
}

impl Ending {
    /// The number that the run exits with.
    pub fn number(self) -> u32
        ensures number { result ≡ number_of self }
        ensures small { result < 256 }
    {
        match self {
            Ending::Ended => 0,
            Ending::HeapFull => HEAP_FULL_EXIT,
            Ending::StackFull => STACK_FULL_EXIT,
        }
    }
}

/// Exits.
pub fn stop(ending: Ending) -> [Native; 3]
    ensures { Makes (linked result) 3 0 (λ memory. IsStop ending) }
{
    [
        set(Register::A0, ending.number()),
        set(Register::A7, EXIT),
        ecall(),
    ]
}
