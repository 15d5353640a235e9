//! The shapes of programs with one function, which takes one parameter.

ghost use Rattle.std.specs.Prelude.{◌≡◌, ◌∷◌, [], true, false, IfOk};
ghost use Rattle.kk_syntax.specs.declared.positions.Ownership.TheVariants.{Owned};
ghost use Rattle.kk_core.specs.ConstructorShapes.{AreConsistent, fields_in};
ghost use Rattle.kk_counted.specs.InstancePositions.{positions_in};
ghost use Rattle.kk_counted.specs.Marks.{marks_of};
ghost use Rattle.counted_tests.specs.CellTables.{table_by, IsShapeOf};

use kk_base::NoMemory;
use kk_core::ConstructorShape;
use kk_counted::{InstanceShape, Parameter, Shape};
use kk_syntax::Ownership;
use std::alloc::Global;

/// The shape of a program with these constructors and one function. Its parameter and its result have cells.
fn of_one_function(
    alloc: Global,
    ownership: Ownership,
    constructors: Vec<ConstructorShape>,
) -> Result<Shape, NoMemory>
    requires { AreConsistent constructors.items }
    ensures positions { IfOk result (λ shape. positions_in shape.instances.items ≡ (ownership ∷ []) ∷ []) }
    ensures fields { IfOk result (λ shape. fields_in shape.constructors.items ≡ fields_in constructors.items) }
    ensures marks { IfOk result (λ shape. marks_of shape.instances.items shape.constructors.items ≡ table_by constructors.items) }
{
    let parameter = Parameter {
        ownership,
        has_cells: true,
    };
    let instance = InstanceShape {
        parameters: vec![in alloc; parameter]?,
        result_has_cells: true,
    };
    Ok(Shape::new(vec![in alloc; instance]?, constructors))
}

/// The type of the parameter, which is owned, has one constructor with one field, of that type.
pub fn shape_of_boxes(alloc: Global) -> Result<Shape, NoMemory>
    ensures { IfOk result (λ shape. IsShapeOf Owned ((true ∷ []) ∷ []) shape) }
{
    let constructor = ConstructorShape {
        of_type: 0,
        tag: 0,
        has_cells: true,
        fields: vec![in alloc; true]?,
    };
    of_one_function(alloc, Ownership::Owned, vec![in alloc; constructor]?)
}

/// The type of the parameter has one constructor with two fields: a number, and one of that type.
pub fn shape_of_pairs(alloc: Global, ownership: Ownership) -> Result<Shape, NoMemory>
    ensures { IfOk result (λ shape. IsShapeOf ownership ((false ∷ true ∷ []) ∷ []) shape) }
{
    let constructor = ConstructorShape {
        of_type: 0,
        tag: 0,
        has_cells: true,
        fields: vec![in alloc; false, true]?,
    };
    of_one_function(alloc, ownership, vec![in alloc; constructor]?)
}

/// The type of the parameter, which is owned, has a constructor with two fields, the second one of that type, and one without
/// fields: it is a list of numbers, or a tree, whose first field has cells too.
pub fn shape_of_rows(alloc: Global, first_has_cells: bool) -> Result<Shape, NoMemory>
    ensures { IfOk result (λ shape. IsShapeOf Owned ((first_has_cells ∷ true ∷ []) ∷ [] ∷ []) shape) }
{
    let cons = ConstructorShape {
        of_type: 0,
        tag: 0,
        has_cells: true,
        fields: vec![in alloc; first_has_cells, true]?,
    };
    let nil = ConstructorShape {
        of_type: 0,
        tag: 1,
        has_cells: true,
        fields: Vec::new(alloc),
    };
    of_one_function(alloc, Ownership::Owned, vec![in alloc; cons, nil]?)
}
