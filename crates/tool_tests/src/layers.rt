//! What `build` gives is what the layers below it give, one called after the other.

use crate::rows::{REVERSE, with_lists};
use elf_image::write;
use kk_back::image;
use kk_base::{Bytes, NoMemory};
use kk_build::build;
use kk_front::{accepted_programs_are_typed, read};
use kk_middle::{
    compile, compiled_programs_are_marked, compiled_programs_can_be_lowered,
    compiled_programs_have_their_kinds, compiled_programs_keep_meaning,
    compiled_tokens_can_be_lowered,
};
use rv_cells::judged_programs_are_fit;
use std::alloc::Global;
use std::process::Abort;

/// The sizes that an image has where none are asked for.
const CELLS: u32 = 65_536;

const DEPTH: u32 = 4_096;

/// The text of examples/arithmetic.kk. It has no match and no cell.
const ARITHMETIC: &str = "fun main() { println(1 + 2 * 3) }
";

/// The text of examples/lent-parameter.kk.
const LENT_PARAMETER: &str = with_lists!(
    "fun sum(xs: list<int32>): int32
  match xs
    Nil -> 0
    Cons(x, xx) -> x + sum(xx)
fun f(xs: list<int32>): int32
  match xs
    Nil -> 0
    Cons(x, _) -> sum(build(x))
fun main()
  println(f(Cons(3, Nil)))
"
);

/// The file of the image of a text by the calls below `build`; none where the text is refused.
fn file_of(alloc: Global, text: &str) -> Result<Option<Bytes>, NoMemory> {
    let accepted = match read(alloc, text.as_bytes()) {
        Ok(accepted) => accepted,
        Err(_) => return Ok(None),
    };
    accepted_programs_are_typed();
    let tokened = compile(alloc, &accepted)?;
    compiled_programs_keep_meaning();
    compiled_programs_are_marked();
    compiled_programs_have_their_kinds();
    compiled_programs_can_be_lowered();
    compiled_tokens_can_be_lowered();
    judged_programs_are_fit();
    let image = image(alloc, &tokened, &accepted.instances.texts, CELLS, DEPTH)?;
    let file = write(alloc, &image)?;
    Ok(Some(file))
}

/// Compares the file that is built of a text with one that there is.
fn check_built(rt: &impl Abort, alloc: Global, text: &str, file: &Option<Bytes>) {
    let built = build(alloc, text.as_bytes(), CELLS, DEPTH);
    assert!(rt;
        matches!((&built, file), (Ok(built), Some(file)) if built.as_slice() == file.as_slice())
    );
}

#[test]
fn build_goes_through_the_layers(rt: HostRuntime) -> Result<(), NoMemory> {
    for text in [ARITHMETIC, REVERSE, LENT_PARAMETER] {
        let file = file_of(rt.alloc(), text)?;
        check_built(&rt, rt.alloc(), text, &file);
    }
    Ok(())
}
