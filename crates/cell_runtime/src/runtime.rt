//! All routines together.

ghost use Rattle.std.specs.Prelude.{◌≡◌, ◌*◌, ◌%◌, ◌+◌, ◌<◌, ◌≤◌, [], ◌∷◌, ◌++◌, IfOk, OnOk, length};
ghost use Rattle.kk_base.specs.Sizes.{greatest_cells, greatest_depth};
ghost use Rattle.rv_isa.specs.Sizes.{reach_down};
ghost use Rattle.cell_runtime.specs.Links.{linked, most_lines};
ghost use Rattle.cell_runtime.specs.Texts.{IsText};

use crate::cells::{give_up, take};
use crate::layout::Layout;
use crate::links::link;
use crate::process::{Ending, start, stop};
use crate::streams::{print_int, print_text, read_byte};
use kk_base::NoMemory;
use rv_isa::{DataSection, Native, Placed, Routine, Symbol};
use std::alloc::Global;

/// The runtime of an image with so many cells and room for so many frames of so many bytes. It stands first in the text,
/// and `main` right behind it.
pub fn text(alloc: Global, cells: u32, depth: u32, frame_bytes: u32) -> Result<Placed, NoMemory>
    requires cells { cells ≤ greatest_cells }
    requires some_depth { 1 ≤ depth }
    requires depth { depth ≤ greatest_depth }
    requires frame { frame_bytes ≤ 2 * reach_down }
    requires aligned { frame_bytes % 4 ≡ 0 }
    ensures { IfOk result (IsText cells depth frame_bytes) }
{
    let layout = Layout::new(cells, depth, frame_bytes);
    let mut lines = Vec::new(alloc);
    add(&mut lines, Symbol::Start, &start(layout))?;
    add(&mut lines, Symbol::Stop, &stop(Ending::Ended))?;
    add(&mut lines, Symbol::StackFull, &stop(Ending::StackFull))?;
    add(&mut lines, Symbol::Routine(Routine::Take), &take())?;
    add(&mut lines, Symbol::Routine(Routine::Drop), &give_up())?;
    add(&mut lines, Symbol::Routine(Routine::PrintInt), &print_int())?;
    add(
        &mut lines,
        Symbol::Routine(Routine::PrintText),
        &print_text(),
    )?;
    add(&mut lines, Symbol::Routine(Routine::ReadByte), &read_byte())?;
    Ok(Placed::Runtime {
        lines,
        memory: DataSection {
            size: layout.stack_end,
            stack_bottom: layout.stack,
        },
    })
}

/// Adds the lines of a routine at the end, under a label.
fn add(lines: &mut Vec<Native>, symbol: Symbol, more: &[Native]) -> Result<(), NoMemory>
    requires { length more.now ≤ most_lines }
    ensures { OnOk result (lines.new.items ≡ (lines.old.items ++ Native.Label symbol ∷ []) ++ linked more.now) }
{
    match lines.push(Native::Label(symbol)) {
        Ok(()) => link(lines, more),
        Err(_) => Err(NoMemory),
    }
}
