// The loops of a program, rotated.

ghost use Rattle.std.specs.Prelude.{◌≡◌, ◌++◌, ◌⊎◌, ◌≤◌, [], IfOk, OnOk, drop, length, map, None};
ghost use Rattle.rv_isa.specs.Costs.{placed_functions_length};
ghost use Rattle.rv_isa.specs.PlacedCode.{does, placed_line_of, placed_lines_of, placed_functions, placed_natives, placed_memory, placed_constants};
ghost use Rattle.rv_loops.specs.Rotation.{rotated_line, rotated_code, IsRotated, AreRotated};
ghost use Rattle.rv_loops.specs.Heads.{loop_of};

use crate::head::{AGAIN, Head, add_copies, has_label, is_call_of};
use kk_base::NoMemory;
use rv_isa::{Action, Item, Placed, PlacedFunction};
use std::alloc::Global;

/// A line without operands.
fn bare(alloc: Global, action: Action) -> Item
    ensures { placed_line_of result ≡ does [] action [] None }
{
    Item::Does {
        alive: Vec::new(alloc),
        action,
        args: Vec::new(alloc),
        into: None,
    }
}

/// Adds what a line becomes: a tail call of the function itself becomes the head again, with a jump behind it.
fn add_rotated(
    alloc: Global,
    code: &mut Vec<Item>,
    head: &Head,
    item: &Item,
) -> Result<(), NoMemory>
    ensures { OnOk result (map placed_line_of code.new.items ≡ map placed_line_of code.old.items ++ rotated_line
        (loop_of head.now []) (placed_line_of item.now)) }
{
    if is_call_of(head.function, item) {
        add_copies(alloc, code, &head.before)?;
        code.push(head.test_again(alloc)?)?;
        code.push(bare(alloc, Action::Jump(head.way_out())))?;
    } else {
        code.push(item.copied(alloc)?)?;
    }
    Ok(())
}

/// The code of a loop, by its head and the lines behind that, rotated.
fn rotated_code(alloc: Global, head: &Head, behind: &[Item]) -> Result<Vec<Item>, NoMemory>
    ensures { IfOk result (λ new. map placed_line_of new.items ≡ rotated_code (loop_of head.now (map placed_line_of behind.now))) }
{
    let mut new = Vec::new(alloc);
    add_copies(alloc, &mut new, &head.before)?;
    new.push(head.test(alloc)?)?;
    new.push(bare(alloc, Action::Label(AGAIN)))?;
    for item in behind {
        add_rotated(alloc, &mut new, head, item)?;
    }
    Ok(new)
}

fn copied_code(alloc: Global, code: &[Item]) -> Result<Vec<Item>, NoMemory>
    ensures { IfOk result (λ copy. map placed_line_of copy.items ≡ map placed_line_of code.now) }
{
    let mut copy = Vec::new(alloc);
    add_copies(alloc, &mut copy, code)?;
    Ok(copy)
}

/// The lines behind the first ones.
fn without_first(code: &[Item], count: usize) -> &[Item]
    requires { count ≤ length code.now }
    ensures { result.now ≡ drop count code.now }
{
    &code[count..]
}

/// The code of a function of this number, rotated if it is a loop.
fn code_of(alloc: Global, number: usize, code: &[Item]) -> Result<Vec<Item>, NoMemory>
    ensures { IfOk result (λ new. (map placed_line_of new.items ≡ map placed_line_of code.now)
        ⊎ IsRotated number (map placed_line_of code.now) (map placed_line_of new.items)) }
{
    if has_label(AGAIN, code) {
        return copied_code(alloc, code);
    }
    match Head::of(alloc, number, code)? {
        Some(head) => {
            let behind = without_first(code, head.before.len() + 1);
            rotated_code(alloc, &head, behind)
        }
        None => copied_code(alloc, code),
    }
}

fn rotated_function(
    alloc: Global,
    number: usize,
    function: &PlacedFunction,
) -> Result<PlacedFunction, NoMemory>
    ensures { IfOk result (λ new. ((placed_lines_of new).code ≡ (placed_lines_of function.now).code)
        ⊎ IsRotated number (placed_lines_of function.now).code (placed_lines_of new).code) }
{
    let params = match Vec::from_slice(alloc, &function.params) {
        Ok(params) => params,
        Err(_) => return Err(NoMemory),
    };
    let code = code_of(alloc, number, &function.code)?;
    Ok(PlacedFunction { params, code })
}

fn rotated_functions(
    alloc: Global,
    functions: &[PlacedFunction],
) -> Result<Vec<PlacedFunction>, NoMemory>
    ensures { IfOk result (λ new. AreRotated 0 (map placed_lines_of functions.now) (map placed_lines_of new.items)) }
{
    let mut new = Vec::new(alloc);
    for (number, function) in functions.iter().enumerate() {
        new.push(rotated_function(alloc, number, function)?)?;
    }
    Ok(new)
}

/// The program with its loops rotated. It is no longer than before, by lengths that count what may stand in place of a tail call.
pub fn rotated(alloc: Global, program: Placed) -> Result<Placed, NoMemory>
    ensures functions { IfOk result (λ new. AreRotated 0 (placed_functions program) (placed_functions new)) }
    ensures short { IfOk result (λ new. placed_functions_length (placed_functions new)
        ≤ placed_functions_length (placed_functions program)) }
    ensures natives { IfOk result (λ new. placed_natives new ≡ placed_natives program) }
    ensures constants { IfOk result (λ new. placed_constants new ≡ placed_constants program) }
    ensures memory { IfOk result (λ new. placed_memory new ≡ placed_memory program) }
{
    match program {
        Placed::Runtime { lines, memory } => Ok(Placed::Runtime { lines, memory }),
        Placed::Program {
            functions,
            constants,
        } => {
            let functions = rotated_functions(alloc, &functions)?;
            Ok(Placed::Program {
                functions,
                constants,
            })
        }
    }
}
