ghost use Rattle.std.specs.Prelude.{◌≡◌, [], IfOk};
ghost use Rattle.kk_syntax.specs.PositionsOf.{is_lent, positions_of};
ghost use Rattle.kk_counted.specs.Spending.{at_positions, is_owned};
ghost use Rattle.kk_insert.specs.Insertion.{used, lends};

use kk_base::NoMemory;
use kk_syntax::{Form, Position, Positions};
use std::alloc::Global;

/// The arguments of a function at its owned positions.
pub fn at_owned(
    alloc: Global,
    positions: &Positions,
    function: u32,
    arguments: &[u32],
) -> Result<Vec<u32>, NoMemory>
    ensures { IfOk result (λ found. found.items
        ≡ at_positions (is_owned (positions_of positions.now) [] function) 0 arguments.now) }
{
    let mut found = Vec::new(alloc);
    for at in 0..arguments.len() {
        let position = Position {
            function: function as usize,
            parameter: at,
        };
        if !positions.is_lent(position) {
            found.push(arguments[at])?;
        }
    }
    Ok(found)
}

/// The arguments of a function at its lent positions.
pub fn at_lent(
    alloc: Global,
    positions: &Positions,
    function: u32,
    arguments: &[u32],
) -> Result<Vec<u32>, NoMemory>
    ensures { IfOk result (λ found. found.items ≡ at_positions (is_lent (positions_of positions.now) function) 0 arguments.now) }
{
    let mut found = Vec::new(alloc);
    for at in 0..arguments.len() {
        let position = Position {
            function: function as usize,
            parameter: at,
        };
        if positions.is_lent(position) {
            found.push(arguments[at])?;
        }
    }
    Ok(found)
}

/// The arguments that a form uses up.
pub fn used(
    alloc: Global,
    positions: &Positions,
    form: Form,
    arguments: &[u32],
) -> Result<Vec<u32>, NoMemory>
    ensures { IfOk result (λ found. found.items ≡ used (positions_of positions.now) form arguments.now) }
{
    match form {
        Form::Call(function) => at_owned(alloc, positions, function, arguments),
        _ => Ok(Vec::from_slice(alloc, arguments)?),
    }
}

/// The arguments that a form is lent.
pub fn lends(
    alloc: Global,
    positions: &Positions,
    form: Form,
    arguments: &[u32],
) -> Result<Vec<u32>, NoMemory>
    ensures { IfOk result (λ found. found.items ≡ lends (positions_of positions.now) form arguments.now) }
{
    match form {
        Form::Call(function) => at_lent(alloc, positions, function, arguments),
        _ => Ok(Vec::new(alloc)),
    }
}
