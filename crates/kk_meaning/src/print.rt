ghost use Rattle.std.specs.Prelude.{◌≡◌, IfOk};
ghost use Rattle.std.specs.Fmt.{signed_decimal};
ghost use Rattle.kk_syntax.specs.Programs.{program_tree, text_at};
ghost use Rattle.kk_source.specs.FormEffects.{piece_of};

use itoa::Buffer;
use kk_base::{NoMemory, Text};
use kk_syntax::{PrintForm, Program};
use std::alloc::Global;

/// What a print puts for a text.
pub fn piece(alloc: Global, form: PrintForm, text: &[u8]) -> Result<Text, NoMemory>
    ensures { IfOk result (λ piece. piece ≡ piece_of form text.now) }
{
    let mut bytes = Vec::from_slice(alloc, text)?;
    match form {
        PrintForm::Print => {}
        PrintForm::PrintLine => bytes.push(b'\n')?,
    }
    Ok(Text::from_vec(bytes))
}

/// What a print puts for a string literal of a program, by its number.
pub fn text_piece(
    alloc: Global,
    program: &Program,
    form: PrintForm,
    number: u32,
) -> Result<Text, NoMemory>
    ensures { IfOk result (λ piece. piece ≡ piece_of form (text_at (program_tree program.now).texts number)) }
{
    match program.texts.get(number as usize) {
        Some(text) => piece(alloc, form, text.as_slice()),
        None => piece(alloc, form, b""),
    }
}

/// What a print puts for a number: decimal text, with `-` where it is negative.
pub fn number_piece(alloc: Global, form: PrintForm, number: i32) -> Result<Text, NoMemory>
    ensures { IfOk result (λ piece. piece ≡ piece_of form (signed_decimal number)) }
{
    let mut buffer = Buffer::new();
    piece(alloc, form, buffer.format(number).as_bytes())
}
