ghost use Rattle.std.specs.Prelude.{◌≡◌, map, slice_index_or, false, IfOk};
ghost use Rattle.kk_norm.specs.CellTables.{IsCellTable, AreShapesOf};

use kk_base::NoMemory;
use kk_core::ConstructorShape;
use kk_syntax::Ground;
use std::alloc::Global;

/// Which types of a program have cells, by their numbers.
pub fn cell_types(alloc: Global, given: &Ground) -> Result<Vec<bool>, NoMemory>
    ensures { IfOk result (λ table. IsCellTable given.now table.items) }
{
    let mut table = vec![in alloc; false; given.types.len()]?;
    for constructor in &given.constructors {
        if !constructor.fields.is_empty() {
            table[constructor.of_type as usize] = true;
        }
    }
    Ok(table)
}

/// Whether a type has cells, by the table of all types. One that is not in it has none.
pub fn has_cells(table: &[bool], of_type: u32) -> bool
    ensures { result ≡ slice_index_or table.now of_type false }
{
    match table.get(of_type as usize) {
        Some(has_cells) => *has_cells,
        None => false,
    }
}

/// Of each type whether it has cells.
pub fn have_cells(alloc: Global, table: &[bool], types: &[u32]) -> Result<Vec<bool>, NoMemory>
    ensures { IfOk result (λ flags. flags.items ≡ map (λ t. slice_index_or table.now t false) types.now) }
{
    let mut flags = Vec::new(alloc);
    for of_type in types {
        flags.push(has_cells(table, *of_type))?;
    }
    Ok(flags)
}

/// What is known of the ground constructors of a program.
pub fn constructor_shapes(
    alloc: Global,
    table: &[bool],
    given: &Ground,
) -> Result<Vec<ConstructorShape>, NoMemory>
    ensures { IfOk result (λ shapes. AreShapesOf table.now given.now.constructors.items shapes.items) }
{
    let mut shapes = Vec::new(alloc);
    for constructor in &given.constructors {
        let fields = have_cells(alloc, table, &constructor.fields)?;
        let shape = ConstructorShape {
            of_type: constructor.of_type,
            tag: constructor.tag,
            has_cells: has_cells(table, constructor.of_type),
            fields,
        };
        shapes.push(shape)?;
    }
    Ok(shapes)
}
