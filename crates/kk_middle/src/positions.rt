ghost use Rattle.std.specs.Prelude.{◌≡◌, [], slice_index_or, IfOk};
ghost use Rattle.kk_syntax.specs.PositionsOf.{positions_of};
ghost use Rattle.kk_mono.specs.Grounds.{instances_of};
ghost use Rattle.kk_instances.specs.Meaning.{positions_in};

use kk_base::NoMemory;
use kk_syntax::{Ground, Ownership, Positions};
use std::alloc::Global;

/// How the parameters of a program's instances are passed: each as that of the function of which it is an instance.
pub fn positions_of_instances(
    alloc: Global,
    positions: &Positions,
    given: &Ground,
) -> Result<Positions, NoMemory>
    ensures { IfOk result (λ found. positions_of found ≡ positions_in (instances_of given.now) (positions_of positions.now)) }
{
    let mut functions = Vec::new(alloc);
    for instance in &given.instances {
        functions.push(row(alloc, positions, instance.function as usize)?)?;
    }
    Ok(Positions { functions })
}

// How the parameters of a function are passed; none where it is not told of.
fn row(alloc: Global, positions: &Positions, function: usize) -> Result<Vec<Ownership>, NoMemory>
    ensures { IfOk result (λ row. row.items ≡ slice_index_or (positions_of positions.now) function []) }
{
    match positions.functions.get(function) {
        Some(row) => Ok(Vec::from_slice(alloc, row)?),
        None => Ok(Vec::new(alloc)),
    }
}
