//! From assembler code to its image.

ghost use Rattle.std.specs.Prelude.{◌≤◌, ◌+◌, ◌*◌, length, IfOk};
ghost use Rattle.kk_base.specs.Sizes.{AreSizes};
ghost use Rattle.elf_image.specs.Program.{text_of};
ghost use Rattle.rv_inline.specs.Growth.{most_growth};
ghost use Rattle.rv_inline.specs.InLine.{most_fresh};
ghost use Rattle.rv_isa.specs.AsmCode.{asm_functions, asm_constants};
ghost use Rattle.rv_isa.specs.Costs.{functions_length};
ghost use Rattle.rv_place.specs.Texts.{most_text_length};
ghost use Rattle.kk_back.specs.Assembled.{IsPlaceable, IsImageOfAsm};
ghost use Rattle.kk_back.specs.Memory.{HasAsmMemory};
ghost use Rattle.kk_back.specs.Sizes.{most_asm_bytes};

use cell_runtime::text;
use elf_image::Image;
use kk_base::{Bytes, NoMemory};
use rv_inline::in_line;
use rv_isa::{Asm, frame_bytes};
use rv_loops::rotated;
use rv_place::{
    place, placed_text_agrees, placed_text_comes_to_its_lines, placed_text_ends_with_its_cells,
    placed_text_takes_few_bytes, placed_text_touches_no_free_cell,
};
use rv_regs::assign;
use std::alloc::Global;

/// The image of assembler code with its calls as they stand, with a heap of `cells` cells, of whose calls at most `depth` are open at a
/// time. The loaded image does what the code does, and touches no free cell outside of the runtime's words. Each own line of the code,
/// which does more than compute a value or give one back, and is no test, has an address of its own behind these, to which the program
/// counter comes, and goes on there, where the code comes to the line. At such moments memory has the code's cells. For each state of
/// the code that goes on there is a moment at which it has the held tokens of the frames too.
fn placed_image(alloc: Global, asm: &Asm, cells: u32, depth: u32) -> Result<Image, NoMemory>
    requires placeable { IsPlaceable (asm_functions asm.now) (asm_constants asm.now) }
    requires sizes { AreSizes cells depth }
    ensures memory { IfOk result (λ image. HasAsmMemory (asm_functions asm.now) 0 cells depth image.parts) }
    ensures text { IfOk result (λ image. length (text_of image.parts) ≤ most_asm_bytes (asm_functions asm.now) (asm_constants asm.now)) }
    ensures does { IfOk result (λ image. IsImageOfAsm (asm_functions asm.now) (asm_constants asm.now) cells depth image.entry
        image.parts) }
{
    let placed = assign(alloc, asm)?;
    let program = rotated(alloc, placed)?;
    let runtime = text(alloc, cells, depth, frame_bytes(&program))?;
    let words = place(alloc, &runtime, &program)?;
    let bytes = words.bytes(alloc)?;
    placed_text_agrees();
    placed_text_ends_with_its_cells();
    placed_text_touches_no_free_cell();
    placed_text_comes_to_its_lines();
    placed_text_takes_few_bytes();
    let image = Image::program(alloc, Bytes::from_vec(bytes), runtime.memory().size)?;
    Ok(image)
}

/// The image of assembler code, whose calls of leaves are put in line. It is an image of the code as `placed_image` gives one, but its
/// frames may have a word more for each of the values that a call in line adds, and its text may be longer by as much as such code may be.
pub fn assembled(alloc: Global, asm: Asm, cells: u32, depth: u32) -> Result<Image, NoMemory>
    requires placeable { IsPlaceable (asm_functions asm) (asm_constants asm) }
    requires room { functions_length (asm_functions asm) + most_growth ≤ most_text_length }
    requires sizes { AreSizes cells depth }
    ensures memory { IfOk result (λ image. HasAsmMemory (asm_functions asm) most_fresh cells depth image.parts) }
    ensures text { IfOk result (λ image. length (text_of image.parts)
        ≤ most_asm_bytes (asm_functions asm) (asm_constants asm) + 4 * most_growth) }
    ensures does { IfOk result (λ image. IsImageOfAsm (asm_functions asm) (asm_constants asm) cells depth image.entry image.parts) }
{
    let inlined = in_line(alloc, asm)?;
    let image = placed_image(alloc, &inlined, cells, depth)?;
    Ok(image)
}
