//! From a program in counted form with tokens to its image.
#![tactic(auto)]

mod assembled;

ghost use Rattle.std.specs.Prelude.{◌≤◌, length, IfOk};
ghost use Rattle.kk_base.specs.Sizes.{AreSizes};
ghost use Rattle.kk_counted.specs.TokenedForms.{tokened_program};
ghost use Rattle.elf_image.specs.Program.{IsProgramImage, text_of};
ghost use Rattle.rv_cells.specs.Tables.{layout_in};
ghost use Rattle.kk_back.specs.Memory.{HasMemory};
ghost use Rattle.kk_back.specs.Images.{IsRunnable, IsImageOfTokened, HasOwnAddresses};
ghost use Rattle.kk_back.specs.Sizes.{most_text_bytes};
ghost use Rattle.kk_back.specs.TokenStates.{ComesToTokenStates};

use assembled::assembled;
use elf_image::Image;
use kk_base::NoMemory;
use kk_counted::Tokened;
use kk_syntax::StringLiteral;
use rv_cells::{
    lowered_tokened_programs_are_short, lowered_tokened_programs_are_well_formed,
    lowered_tokened_programs_come_to_their_lines, lowered_tokened_programs_follow_their_tokens,
    lowered_tokened_programs_have_few_values, lowered_tokened_programs_run_the_same,
    lowered_tokened_programs_take_few_words,
};
use rv_tokens::lower_tokened;
use std::alloc::Global;

/// The image of a program in counted form with its tokens and with these string literals, with a heap of `cells` cells, of whose
/// calls at most `depth` are open at a time.
///
/// Behind its text the image has memory for the runtime's buffer, the cells, and `depth` frames of one size: that which the functions
/// need that are placed in it. A frame has a word for each variable and each slot of a function, eight for the arguments of a call, seven
/// for the values of a call in line, and one for the way back, and no more; and it is at most 4,088 bytes. Where it is over 2,044, there
/// is memory for 2,048 bytes more.
///
/// The text has at most four bytes for each word of the runtime, for fifteen words of each function, for each word of the functions'
/// forms, and for 4,096 words of calls in line.
///
/// The loaded image does what the program does without its tokens: on every input it tells the same events, and exits with 0, 101
/// or 102 as the program ends by itself, with the heap full or with the stack full. Where it ends by itself and no cell is counted
/// then, all its cells are free. Outside of the runtime's words no instruction loads or stores a byte of a free cell.
///
/// The image follows the program without its tokens: where that is at a form, there is a number of instructions behind which the
/// same events are told and memory has the cells of the program's heap. Each call, print and construction with fields has one
/// instruction address of its own behind these words, or more, where its code stands more than once, behind tests of tokens. Where
/// the program is at such a form, there is such a number behind which the program counter is at an address of a place with this
/// form's code: where two places have the same code, it is one of them.
///
/// The image comes to each state of the program with its tokens too: where its machine is at a form, there is a number of
/// instructions behind which the same events are told and memory has that state. The chain of held tokens has those of the state,
/// in their order, each in a word of the frame of its call; each other token is in a cell in hand, which is on no chain; and the
/// cell of each token has the fields that it had when it was opened. The frames stand from the end of the cells on, that of `main`
/// last, and with the cells they fill the memory behind the buffer, but for 2,048 bytes behind wide frames.
pub fn image(
    alloc: Global,
    tokened: &Tokened,
    texts: &[StringLiteral],
    cells: u32,
    depth: u32,
) -> Result<Image, NoMemory>
    requires runnable { IsRunnable tokened.now.shape (tokened_program tokened.now.functions.items texts.now) cells depth }
    requires sizes { AreSizes cells depth }
    ensures program { IfOk result (λ image. IsProgramImage image.entry image.parts) }
    ensures memory { IfOk result (λ image. HasMemory (tokened_program tokened.now.functions.items texts.now) cells depth image.parts) }
    ensures text { IfOk result (λ image. length (text_of image.parts)
        ≤ most_text_bytes (tokened_program tokened.now.functions.items texts.now)) }
    ensures does { IfOk result (λ image. IsImageOfTokened (tokened_program tokened.now.functions.items texts.now) cells depth
        image.entry image.parts) }
    ensures own { IfOk result (λ image. HasOwnAddresses (layout_in tokened.now.shape)
        (tokened_program tokened.now.functions.items texts.now) cells depth image.entry image.parts) }
    ensures states { IfOk result (λ image. ComesToTokenStates (layout_in tokened.now.shape)
        (tokened_program tokened.now.functions.items texts.now) cells depth image.entry image.parts) }
{
    let asm = lower_tokened(alloc, tokened, texts)?;
    lowered_tokened_programs_are_well_formed();
    lowered_tokened_programs_are_short();
    lowered_tokened_programs_run_the_same();
    lowered_tokened_programs_come_to_their_lines();
    lowered_tokened_programs_follow_their_tokens();
    lowered_tokened_programs_have_few_values();
    lowered_tokened_programs_take_few_words();
    let made = assembled(alloc, asm, cells, depth)?;
    Ok(made)
}
