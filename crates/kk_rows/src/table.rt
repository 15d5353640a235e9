ghost use Rattle.std.specs.Prelude.{◌≡◌, ◌≤◌, IfOk, map, length};
ghost use Rattle.kk_slots.specs.Problems.{owner, arity, row_view, IsEnough};
ghost use Rattle.kk_syntax.specs.Programs.{program_tree};

use crate::rows;
use kk_base::NoMemory;
use kk_slots::Slot;
use kk_syntax::Program;

/// The number of constructors of a program. One with more than there are numbers is as one for which memory runs out.
fn constructor_count(program: &Program) -> Result<u32, NoMemory>
    ensures { IfOk result (λ count. count ≡ length (program_tree program.now).constructors) }
{
    match u32::try_from(program.constructors.len()) {
        Ok(count) => Ok(count),
        Err(_) => Err(NoMemory),
    }
}

/// The number of a constructor's type; 0 where there is no such constructor.
pub fn owner(program: &Program, constructor: u32) -> u32
    ensures { result ≡ owner (program_tree program.now) constructor }
{
    match program.constructors.get(constructor as usize) {
        Some(declared) => declared.of_type,
        None => 0,
    }
}

/// How many fields a constructor has; 0 where there is no such constructor.
pub fn arity(program: &Program, constructor: u32) -> usize
    ensures { result ≡ arity (program_tree program.now) constructor }
{
    match program.constructors.get(constructor as usize) {
        Some(declared) => declared.fields.len(),
        None => 0,
    }
}

/// The place behind the first constructor of a type that no row asks for first; behind the last constructor of the program
/// where rows ask for all of that type.
pub fn reach(program: &Program, of_type: u32, rows: &[Vec<Slot>]) -> Result<u32, NoMemory>
    ensures within { IfOk result (λ end. end ≤ length (program_tree program.now).constructors) }
    ensures enough { IfOk result (λ end. IsEnough (program_tree program.now) of_type (map (λ row. row_view row.items) rows.now) end) }
{
    let count = constructor_count(program)?;
    for constructor in 0..count {
        if owner(program, constructor) == of_type && !rows::has_constructor(rows, constructor) {
            return Ok(constructor + 1);
        }
    }
    Ok(count)
}
