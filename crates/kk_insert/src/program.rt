ghost use Rattle.std.specs.Prelude.{◌≡◌, map, IfOk};
ghost use Rattle.kk_syntax.specs.PositionsOf.{positions_of};
ghost use Rattle.kk_core.specs.Codes.{core_code};
ghost use Rattle.kk_counted.specs.Programs.{function_of};
ghost use Rattle.kk_core.specs.declared.form.CoreFunction.{CoreFunction as CoreFunctionOf};
ghost use Rattle.kk_counted.specs.InstancePositions.{positions_in, AreConsistent};
ghost use Rattle.kk_counted.specs.declared.shape.InstanceShape.{InstanceShape as InstanceOf};
ghost use Rattle.kk_insert.specs.Shapes.{cells_told, cells_in, facts_of, TellsAsMany};
ghost use Rattle.kk_insert.specs.Insertion.{inserted};
ghost use Rattle.kk_insert.specs.Promise.{IsInsertable, AllHaveRows, TellsParameters};

use crate::function;
use crate::shaping::{constructors, instances};
use kk_base::NoMemory;
use kk_core::Core;
use kk_counted::{Counted, Shape};
use kk_syntax::Positions;
use std::alloc::Global;

/// A program with its dups and drops. Each variable that holds a reference of its own is used up once on each path. Lent
/// variables are read alone.
///
/// Each form of a function is read twice, and each time the variables that are owned there: so the work is quadratic in a
/// function. The recursion is as deep as the blocks of the code.
pub fn run(alloc: Global, core: &Core, positions: &Positions) -> Result<Counted, NoMemory>
    requires insertable { IsInsertable (positions_of positions.now) (core_code core.now) }
    requires rows { AllHaveRows (core_code core.now) }
    requires told { TellsParameters (positions_of positions.now) (core_code core.now) }
    requires cells { TellsAsMany (positions_of positions.now) core.now.functions.items }
    requires consistent { AreConsistent core.now.constructors.items }
    ensures functions { IfOk result (λ made. map function_of made.functions.items
        ≡ (inserted (positions_of positions.now) (core_code core.now)).functions) }
    ensures positions { IfOk result (λ made. positions_in made.shape.instances.items ≡ positions_of positions.now) }
    ensures cells { IfOk result (λ made. map cells_in made.shape.instances.items ≡ map cells_told core.now.functions.items) }
    ensures results { IfOk result (λ made. map (λ (i : InstanceOf). i.result_has_cells) made.shape.instances.items
        ≡ map (λ (f : CoreFunctionOf). f.result_has_cells) core.now.functions.items) }
    ensures constructors { IfOk result (λ made. map facts_of made.shape.constructors.items
        ≡ map facts_of core.now.constructors.items) }
    ensures body_nodes { IfOk result (λ made. made.body_nodes ≡ core.now.greatest_nodes) }
    ensures nodes { IfOk result (λ made. made.nodes ≡ core.now.summed_nodes) }
{
    let instances = instances(alloc, positions, &core.functions)?;
    let constructors = constructors(alloc, &core.constructors)?;
    let shape = Shape::new(instances, constructors);
    let made = inserted(alloc, shape, core, positions)?;
    Ok(made)
}

/// A program with its dups and drops, of a shape that passes parameters as the positions tell.
fn inserted(
    alloc: Global,
    shape: Shape,
    core: &Core,
    positions: &Positions,
) -> Result<Counted, NoMemory>
    requires insertable { IsInsertable (positions_of positions.now) (core_code core.now) }
    requires rows { AllHaveRows (core_code core.now) }
    requires told { TellsParameters (positions_of positions.now) (core_code core.now) }
    requires passed { positions_in shape.instances.items ≡ positions_of positions.now }
    ensures shape { IfOk result (λ made. made.shape ≡ shape) }
    ensures functions { IfOk result (λ made. map function_of made.functions.items
        ≡ (inserted (positions_of positions.now) (core_code core.now)).functions) }
    ensures body_nodes { IfOk result (λ made. made.body_nodes ≡ core.now.greatest_nodes) }
    ensures nodes { IfOk result (λ made. made.nodes ≡ core.now.summed_nodes) }
{
    let mut made = Counted::new(alloc, shape, core.greatest_nodes, core.summed_nodes);
    for at in 0..core.functions.len() {
        let Ok(number) = u32::try_from(at) else {
            return Err(NoMemory);
        };
        let function = function::inserted(alloc, positions, number, &core.functions[at])?;
        made.add(function)?;
    }
    Ok(made)
}
