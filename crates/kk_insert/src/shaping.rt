ghost use Rattle.std.specs.Prelude.{◌≡◌, map, length, IfOk};
ghost use Rattle.kk_syntax.specs.PositionsOf.{positions_of};
ghost use Rattle.kk_counted.specs.InstancePositions.{passed_to, positions_in};
ghost use Rattle.kk_core.specs.declared.form.CoreFunction.{CoreFunction as CoreFunctionOf};
ghost use Rattle.kk_counted.specs.declared.shape.InstanceShape.{InstanceShape as InstanceOf};
ghost use Rattle.kk_insert.specs.Shapes.{cells_told, cells_in, facts_of, TellsAsMany};

use kk_base::NoMemory;
use kk_core::{ConstructorShape, CoreFunction};
use kk_counted::{InstanceShape, Parameter};
use kk_syntax::{Ownership, Positions};
use std::alloc::Global;

/// The instance of a function whose parameters are passed so.
fn instance(
    alloc: Global,
    passed: &[Ownership],
    function: &CoreFunction,
) -> Result<InstanceShape, NoMemory>
    requires { length passed.now ≡ length function.now.parameters_have_cells.items }
    ensures passed { IfOk result (λ made. passed_to made ≡ passed.now) }
    ensures cells { IfOk result (λ made. cells_in made ≡ cells_told function.now) }
    ensures value { IfOk result (λ made. made.result_has_cells ≡ function.now.result_has_cells) }
{
    let mut parameters = Vec::new(alloc);
    for at in 0..passed.len() {
        let parameter = Parameter {
            ownership: passed[at],
            has_cells: function.parameters_have_cells[at],
        };
        parameters.push(parameter)?;
    }
    Ok(InstanceShape {
        parameters,
        result_has_cells: function.result_has_cells,
    })
}

/// The instances of some functions, by how their parameters are passed.
pub fn instances(
    alloc: Global,
    positions: &Positions,
    functions: &[CoreFunction],
) -> Result<Vec<InstanceShape>, NoMemory>
    requires { TellsAsMany (positions_of positions.now) functions.now }
    ensures passed { IfOk result (λ made. positions_in made.items ≡ positions_of positions.now) }
    ensures cells { IfOk result (λ made. map cells_in made.items ≡ map cells_told functions.now) }
    ensures results { IfOk result (λ made. map (λ (i : InstanceOf). i.result_has_cells) made.items
        ≡ map (λ (f : CoreFunctionOf). f.result_has_cells) functions.now) }
{
    let mut made = Vec::new(alloc);
    for at in 0..functions.len() {
        let one = instance(alloc, &positions.functions[at], &functions[at])?;
        made.push(one)?;
    }
    Ok(made)
}

/// The same constructors again.
pub fn constructors(
    alloc: Global,
    given: &[ConstructorShape],
) -> Result<Vec<ConstructorShape>, NoMemory>
    ensures { IfOk result (λ made. map facts_of made.items ≡ map facts_of given.now) }
{
    let mut made = Vec::new(alloc);
    for one in given {
        let fields = Vec::from_slice(alloc, &one.fields)?;
        made.push(ConstructorShape {
            of_type: one.of_type,
            tag: one.tag,
            has_cells: one.has_cells,
            fields,
        })?;
    }
    Ok(made)
}
