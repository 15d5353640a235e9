// The whole text.

ghost use Rattle.std.specs.Prelude.{◌≡◌, ◌+◌, ◌*◌, ◌<◌, ◌≤◌, [], ◌∷◌, IfOk, OnOk, length, map};
ghost use Rattle.elf_image.specs.Program.{text_start};
ghost use Rattle.rv_isa.specs.Costs.{placed_functions_length};
ghost use Rattle.rv_isa.specs.PlacedCode.{placed_lines_of, placed_natives};
ghost use Rattle.cell_runtime.specs.Operations.{all_bytes};
ghost use Rattle.cell_runtime.specs.Lines.{Spells, words_of};
ghost use Rattle.rv_place.specs.Addresses.{entries_from, frames_taken};
ghost use Rattle.cell_runtime.specs.Lines.{AreWithin};
ghost use Rattle.cell_runtime.specs.Texts.{greatest_reach};
ghost use Rattle.rv_place.specs.Texts.{ArePlaceable, ArePlacedWords, most_text_length, most_functions, most_runtime_words, most_text_words, most_constant_bytes, greatest_address, jumps_of, text_words, memory_of, map_of};
ghost use Rattle.rv_place.specs.Emitted.{Charts, NativeGrew, addresses_from};

use crate::chart::{Chart, Symbols};
use crate::emit::{emit, emit_load};
use crate::lines::emit_functions;
use crate::reach::Reach;
use crate::sizes::{
    JUMP_WORDS, bytes_of_constants, takes_frame, words_of_function, words_of_functions,
    words_of_natives,
};
use crate::words::Words;
use elf_image::{PAGE_SIZE, TEXT_START};
use kk_base::{NoMemory, Text};
use rv_isa::sizes::NARROW_FRAME;
use rv_isa::{Instr, Native, Placed, PlacedFunction, frame_bytes};
use std::alloc::Global;

/// How far the jumps of the text lead: anywhere, where frames are wide; else where it is short with near jumps, they are near.
fn jumps_of(runtime: &Placed, program: &Placed) -> Reach
    requires { ArePlaceable runtime.now program.now }
    ensures { result ≡ jumps_of runtime.now program.now }
{
    let own = words_of_natives(runtime.natives());
    let words = own + words_of_functions(Reach::Near, program.functions());
    if frame_bytes(program) > NARROW_FRAME {
        Reach::Wide
    } else {
        Reach::within(words, JUMP_WORDS)
    }
}

/// How many instructions the text has.
fn text_words(runtime: &Placed, program: &Placed) -> u32
    requires { ArePlaceable runtime.now program.now }
    ensures words { result ≡ text_words runtime.now program.now }
    ensures few { result ≤ most_text_words }
{
    let jumps = jumps_of(runtime, program);
    words_of_natives(runtime.natives()) + words_of_functions(jumps, program.functions())
}

/// The address of the memory behind the text.
fn memory_of(runtime: &Placed, program: &Placed) -> u32
    requires { ArePlaceable runtime.now program.now }
    ensures address { result ≡ memory_of runtime.now program.now }
    ensures low { result ≤ greatest_address }
{
    let bytes = 4 * text_words(runtime, program) + bytes_of_constants(program.constants());
    (TEXT_START + bytes).next_multiple_of(PAGE_SIZE)
}

/// The address of the first function of a program, behind the runtime.
fn first_entry(runtime: &Placed) -> u32
    requires { words_of (placed_natives runtime.now) ≤ most_runtime_words }
    ensures { result ≡ text_start + 4 * words_of (placed_natives runtime.now) }
{
    TEXT_START + 4 * words_of_natives(runtime.natives())
}

/// The addresses of functions that stand one behind the other.
fn entries(
    alloc: Global,
    jumps: Reach,
    first: u32,
    functions: &[PlacedFunction],
) -> Result<Vec<u32>, NoMemory>
    requires first { first ≤ greatest_address }
    requires few { length functions.now ≤ most_functions }
    requires short { placed_functions_length (map placed_lines_of functions.now) ≤ most_text_length }
    ensures { IfOk result (λ entries. entries.items ≡ entries_from jumps first (map placed_lines_of functions.now)) }
{
    let mut entries = Vec::new(alloc);
    let mut at = first;
    for function in functions {
        entries.push(at)?;
        at += 4 * words_of_function(jumps, function);
    }
    Ok(entries)
}

/// Whether each function takes a frame.
fn frames_taken(
    alloc: Global,
    jumps: Reach,
    functions: &[PlacedFunction],
) -> Result<Vec<bool>, NoMemory>
    ensures { IfOk result (λ takes. takes.items ≡ frames_taken jumps (map placed_lines_of functions.now)) }
{
    let mut takes = Vec::new(alloc);
    for function in functions {
        takes.push(takes_frame(jumps, &function.code))?;
    }
    Ok(takes)
}

/// The addresses of constants that stand one behind the other.
fn constant_addresses(alloc: Global, first: u32, constants: &[Text]) -> Result<Vec<u32>, NoMemory>
    requires first { first ≤ greatest_address }
    requires few { length (all_bytes constants.now) ≤ most_constant_bytes }
    ensures { IfOk result (λ addresses. addresses.items ≡ addresses_from first constants.now) }
{
    let mut addresses = Vec::new(alloc);
    let mut at = first;
    for text in constants {
        addresses.push(at)?;
        at += text.len() as u32;
    }
    Ok(addresses)
}

/// The constants' bytes, one behind the other.
fn constant_bytes(alloc: Global, constants: &[Text]) -> Result<Vec<u8>, NoMemory>
    ensures { IfOk result (λ bytes. bytes.items ≡ all_bytes constants.now) }
{
    let mut bytes = Vec::new(alloc);
    for text in constants {
        bytes.extend_from_slice(text.as_slice())?;
    }
    Ok(bytes)
}

/// Where everything stands.
fn chart_of(alloc: Global, runtime: &Placed, program: &Placed) -> Result<Chart, NoMemory>
    requires { ArePlaceable runtime.now program.now }
    ensures { IfOk result (λ chart. Charts chart (map_of runtime.now program.now)) }
{
    let jumps = jumps_of(runtime, program);
    let entries = entries(alloc, jumps, first_entry(runtime), program.functions())?;
    let takes = frames_taken(alloc, jumps, program.functions())?;
    let first = TEXT_START + 4 * text_words(runtime, program);
    let constants = constant_addresses(alloc, first, program.constants())?;
    Ok(Chart {
        jumps,
        frame: frame_bytes(program),
        entries,
        takes,
        symbols: Symbols::of(runtime.natives()),
        constants,
    })
}

/// A line of a runtime, where the memory that it may write begins at an address.
fn emit_native(code: &mut Vec<Instr>, memory: u32, line: &Native) -> Result<(), NoMemory>
    requires memory { memory ≤ greatest_address }
    requires line { AreWithin greatest_reach (line.now ∷ []) }
    ensures { OnOk result (NativeGrew memory line.now code.old.items code.new.items) }
{
    match line {
        Native::Instruction(instruction) => emit(code, *instruction),
        Native::Address { rd, offset, .. } => emit_load(code, *rd, memory + *offset),
        Native::Label(_) | Native::Jump(_) | Native::Branch { .. } | Native::Call(_) => Ok(()),
    }
}

/// The lines of a runtime.
fn natives_code(alloc: Global, memory: u32, natives: &[Native]) -> Result<Vec<Instr>, NoMemory>
    requires memory { memory ≤ greatest_address }
    requires lines { AreWithin greatest_reach natives.now }
    ensures spelled { IfOk result (λ code. Spells memory natives.now code.items) }
    ensures size { IfOk result (λ code. length code.items ≡ words_of natives.now) }
{
    let mut code = Vec::new(alloc);
    for line in natives {
        emit_native(&mut code, memory, line)?;
    }
    Ok(code)
}

/// The words of a text: the runtime first, then the program's functions, and the constants behind them. Every label,
/// function, routine and constant has its address.
pub fn place(alloc: Global, runtime: &Placed, program: &Placed) -> Result<Words, NoMemory>
    requires placeable { ArePlaceable runtime.now program.now }
    ensures { IfOk result (ArePlacedWords runtime.now program.now) }
{
    let chart = chart_of(alloc, runtime, program)?;
    let memory = memory_of(runtime, program);
    let mut instructions = natives_code(alloc, memory, runtime.natives())?;
    emit_functions(
        alloc,
        &mut instructions,
        &chart,
        first_entry(runtime),
        program.functions(),
    )?;
    let constants = constant_bytes(alloc, program.constants())?;
    Ok(Words {
        instructions,
        constants,
    })
}
