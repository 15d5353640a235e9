//! From the bytes of a text to the bytes of its image.
#![tactic(auto)]

mod law;

ghost use Rattle.std.specs.Prelude.{IfOk, IfErr};
ghost use Rattle.kk_base.specs.Sizes.{AreSizes};
ghost use Rattle.kk_syntax.specs.Checked.{IsChecked};
ghost use Rattle.kk_syntax.specs.PositionsOf.{PositionTable};
ghost use Rattle.kk_syntax.specs.Programs.{program_tree};
ghost use Rattle.kk_syntax.specs.TypedPrograms.{typings_of};
ghost use Rattle.kk_mono.specs.Grounds.{AreGiven};
ghost use Rattle.kk_front.specs.Judgement.{Refuses};
ghost use Rattle.kk_middle.specs.LentNames.{AllKeepLent};
ghost use Rattle.kk_build.specs.Built.{IsFileOf, IsBuilt};

pub use cell_runtime::Ending;
use elf_image::write;
use kk_back::image;
use kk_base::{Bytes, NoMemory, Refusal};
use kk_front::{accepted_programs_are_typed, read};
use kk_middle::{
    compile, compiled_programs_are_marked, compiled_programs_can_be_lowered,
    compiled_programs_have_their_kinds, compiled_programs_keep_meaning,
    compiled_programs_take_few_words, compiled_tokens_can_be_lowered,
};
use kk_syntax::Accepted;
pub use law::images_follow_their_programs_without_limits;
use rv_cells::judged_programs_are_fit;
use std::alloc::Global;

/// The bytes of the image of a text, or why there is none: the first failure of a text that is not accepted.
///
/// The image has a heap of `cells` cells, and at most `depth` of its calls are open at a time. It agrees with the program: on
/// every input it does on the outside what the program means, never traps, and exits exactly when and as the program ends; where
/// it ends by itself, all cells are free. Outside of the runtime's words, which are the first ones of the image, no instruction
/// loads or stores a byte of a free cell. It does what it does within a number of instructions that is bounded by the program's
/// steps and the nodes of its greatest body. Its memory has room for the cells and for `depth` frames, each of at most eight
/// bytes for a node of the greatest body, and 92. Its text has at most 16 bytes for each pair of a node of the greatest body and
/// a node of the program's instances, and four MiB.
pub fn build(alloc: Global, text: &[u8], cells: u32, depth: u32) -> Result<Bytes, Refusal>
    requires { AreSizes cells depth }
    ensures ok { IfOk result (IsBuilt text.now cells depth) }
    ensures err { IfErr result (Refuses text.now) }
{
    let accepted = read(alloc, text)?;
    accepted_programs_are_typed();
    match file_of(alloc, &accepted, cells, depth) {
        Ok(file) => Ok(file),
        Err(NoMemory) => Err(Refusal::NoMemory),
    }
}

/// The file of the image of an accepted program, by its counted form with its tokens.
fn file_of(alloc: Global, accepted: &Accepted, cells: u32, depth: u32) -> Result<Bytes, NoMemory>
    requires checked { IsChecked (program_tree accepted.now.typed.program) (typings_of accepted.now.typed) }
    requires given { AreGiven accepted.now.typed accepted.now.instances }
    requires lent { (positions : PositionTable) → AllKeepLent (program_tree accepted.now.typed.program) positions }
    requires sizes { AreSizes cells depth }
    ensures { IfOk result (IsFileOf (program_tree accepted.now.typed.program) (typings_of accepted.now.typed)
        cells depth) }
{
    let tokened = compile(alloc, accepted)?;
    compiled_programs_keep_meaning();
    compiled_programs_are_marked();
    compiled_programs_have_their_kinds();
    compiled_programs_can_be_lowered();
    compiled_tokens_can_be_lowered();
    compiled_programs_take_few_words();
    judged_programs_are_fit();
    let image = image(alloc, &tokened, &accepted.instances.texts, cells, depth)?;
    let file = write(alloc, &image)?;
    Ok(file)
}
