// Places for the values of a program: a slot for each, and registers where a check finds that they are right.

ghost use Rattle.std.specs.Prelude.{◌≡◌, IfOk, IfSome, map};
ghost use Rattle.rv_isa.specs.AsmCode.{lines_of, asm_functions};
ghost use Rattle.rv_isa.specs.PlacedCode.{placed_lines_of};
ghost use Rattle.rv_isa.specs.WellFormed.{IsWellFormed, AreWellFormed};
ghost use Rattle.rv_regs.specs.Plain.{placed_function};
ghost use Rattle.rv_regs.specs.Shape.{IsRight, AreRight, IsPlainlyPlaced};
ghost use Rattle.rv_regs.specs.Valid.{IsValid};

use crate::checking::is_placing;
use crate::modest::is_modest;
use crate::walk::placed_lines;
use kk_base::{NoMemory, Text};
use rv_isa::{Asm, AsmFunction, Placed, PlacedFunction};
use rv_propose::{copy_of, local_function, with_tokens_first};
use std::alloc::Global;

fn plain_function(alloc: Global, function: &AsmFunction) -> Result<PlacedFunction, NoMemory>
    requires { IsWellFormed (lines_of function.now) }
    ensures { IfOk result (λ placed. placed_lines_of placed ≡ placed_function (lines_of function.now)) }
{
    let params = copy_of(alloc, &function.params)?;
    let code = placed_lines(alloc, &function.params, &function.code)?;
    Ok(PlacedFunction { params, code })
}

// The function with values in registers, and its slots in order. Whether it is right, only a check says.
fn ordered_function(
    alloc: Global,
    function: &AsmFunction,
    is_early: bool,
) -> Result<Option<PlacedFunction>, NoMemory> {
    match local_function(alloc, function, is_early)? {
        Some(placed) => Ok(Some(with_tokens_first(alloc, &placed)?)),
        None => Ok(None),
    }
}

// The function with values in registers, where that is right and modest.
fn checked_function(
    alloc: Global,
    function: &AsmFunction,
    is_early: bool,
) -> Result<Option<PlacedFunction>, NoMemory>
    ensures { IfOk result (λ found. IfSome found (λ placed. IsRight (lines_of function.now) (placed_lines_of placed))) }
{
    match ordered_function(alloc, function, is_early)? {
        Some(placed) if is_placing(function, &placed) && is_modest(function, &placed) => {
            Ok(Some(placed))
        }
        _ => Ok(None),
    }
}

fn place_function(alloc: Global, function: &AsmFunction) -> Result<PlacedFunction, NoMemory>
    requires { IsWellFormed (lines_of function.now) }
    ensures { IfOk result (λ placed. IsRight (lines_of function.now) (placed_lines_of placed)) }
{
    if let Some(placed) = checked_function(alloc, function, false)? {
        return Ok(placed);
    }
    match checked_function(alloc, function, true)? {
        Some(placed) => Ok(placed),
        None => plain_function(alloc, function),
    }
}

fn place_functions(
    alloc: Global,
    functions: &[AsmFunction],
) -> Result<Vec<PlacedFunction>, NoMemory>
    requires { AreWellFormed (map lines_of functions.now) }
    ensures { IfOk result (λ placed. AreRight (map lines_of functions.now) (map placed_lines_of placed.items)) }
{
    let mut placed = Vec::new(alloc);
    for function in functions {
        placed.push(place_function(alloc, function)?)?;
    }
    Ok(placed)
}

fn copied(alloc: Global, texts: &[Text]) -> Result<Vec<Text>, NoMemory>
    ensures { IfOk result (λ copies. copies.items ≡ texts.now) }
{
    let mut copies = Vec::new(alloc);
    for text in texts {
        copies.push(Text::from_slice(alloc, text.as_slice())?)?;
    }
    Ok(copies)
}

/// Gives the values of a program places. Each value has a slot of its own. In a function whose lines times the square of the most
/// values that are alive at a point are at most 50,000,000, it stays in registers from one call to the next, where the check takes
/// that. In any other one it stands in a register only while a statement reads or writes it. A token that is held stays in its slot.
/// The program has no memory of its own.
pub fn assign(alloc: Global, asm: &Asm) -> Result<Placed, NoMemory>
    requires formed { AreWellFormed (asm_functions asm.now) }
    ensures valid { IfOk result (IsValid asm.now) }
    ensures shape { IfOk result (IsPlainlyPlaced (asm_functions asm.now)) }
{
    let functions = place_functions(alloc, &asm.functions)?;
    let constants = copied(alloc, &asm.constants)?;
    Ok(Placed::Program {
        functions,
        constants,
    })
}
