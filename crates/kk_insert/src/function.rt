ghost use Rattle.std.specs.Prelude.{◌≡◌, IfOk};
ghost use Rattle.kk_syntax.specs.PositionsOf.{positions_of};
ghost use Rattle.kk_core.specs.Codes.{function_code};
ghost use Rattle.kk_counted.specs.Programs.{function_of};
ghost use Rattle.kk_counted.specs.Spending.{numbers_from};
ghost use Rattle.kk_insert.specs.Insertion.{inserted_function};

use crate::blocks::{Insertion, Part};
use crate::lending::lent_block;
use crate::passing::{at_lent, at_owned};
use crate::writing::put_dropping;
use kk_base::NoMemory;
use kk_core::CoreFunction;
use kk_counted::CountedFun;
use kk_syntax::Positions;
use std::alloc::Global;

/// The function of that number with its dups and drops.
pub fn inserted(
    alloc: Global,
    positions: &Positions,
    number: u32,
    function: &CoreFunction,
) -> Result<CountedFun, NoMemory>
    ensures number { IfOk result (λ fun. fun.instance ≡ number) }
    ensures function { IfOk result (λ fun. function_of fun
        ≡ inserted_function (positions_of positions.now) number (function_code function.now)) }
{
    let parameters = numbers(alloc, function.parameters)?;
    let given = at_lent(alloc, positions, number, &parameters)?;
    let owned = at_owned(alloc, positions, number, &parameters)?;
    let lent = lent_block(alloc, given, &function.body)?;
    let insertion = Insertion {
        alloc,
        positions,
        lent: &lent,
    };
    let part = insertion.block(&[], &function.body)?;
    let Part {
        owned: now,
        mut block,
    } = part;
    put_dropping(alloc, &mut block, &owned, &now)?;
    Ok(CountedFun::new(number, function.parameters, block))
}

/// The numbers below a bound.
fn numbers(alloc: Global, bound: u32) -> Result<Vec<u32>, NoMemory>
    ensures { IfOk result (λ found. found.items ≡ numbers_from 0 bound) }
{
    let mut found = Vec::new(alloc);
    for number in 0..bound {
        found.push(number)?;
    }
    Ok(found)
}
