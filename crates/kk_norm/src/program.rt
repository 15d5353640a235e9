ghost use Rattle.std.specs.Prelude.{◌≡◌, ◌≤◌, List, map, vec_len, IfOk};
ghost use Rattle.kk_syntax.specs.declared.ground.GroundConstructor.{GroundConstructor};
ghost use Rattle.kk_syntax.specs.GroundPrograms.{instance_tree, ground_program};
ghost use Rattle.kk_syntax.specs.GroundTyping.{IsGroundTyped};
ghost use Rattle.kk_syntax.specs.Shapes.{nodes_of};
ghost use Rattle.kk_syntax.specs.Trees.{expr_tree};
ghost use Rattle.kk_syntax.specs.Types.{TypeTree};
ghost use Rattle.kk_core.specs.CellTypes.{TellsCells};
ghost use Rattle.kk_core.specs.declared.shape.ConstructorShape.{ConstructorShape};
ghost use Rattle.kk_core.specs.Codes.{function_code, core_code};
ghost use Rattle.kk_core.specs.Sizes.{most_parameters, most_nodes};
ghost use Rattle.kk_norm.specs.CellTables.{at_type, TellCells};
ghost use Rattle.kk_norm.specs.MatchRows.{MatchesHaveRows, FunctionsHaveRows};
ghost use Rattle.kk_norm.specs.Normal.{AreWithin, IsNormalForm};
ghost use Rattle.kk_norm.specs.Normalized.{IsCoreOf, AreCoresOf, IsCoreForm};

use crate::cells::{cell_types, constructor_shapes, has_cells, have_cells};
use crate::writer::Writer;
use kk_base::NoMemory;
use kk_core::{Core, CoreFunction};
use kk_syntax::{Ground, Instance, copied_texts};
use std::alloc::Global;

/// The core form of a program of instances, of which the first is `main`. It keeps the program's meaning, is typed and is
/// small. Each case has an arm for each row.
///
/// The recursion is as deep as the deepest expression.
pub fn normal(alloc: Global, given: &Ground) -> Result<Core, NoMemory>
    requires typed { IsGroundTyped (ground_program given.now) }
    ensures form { IfOk result (λ core. IsCoreForm (ground_program given.now) (core_code core)) }
    ensures means { IfOk result (λ core. IsNormalForm (ground_program given.now) (core_code core)) }
    ensures cells { IfOk result (λ core. TellsCells (ground_program given.now) core) }
    ensures types { IfOk result (λ core. map (λ (c : ConstructorShape). c.of_type) core.constructors.items
        ≡ map (λ (c : GroundConstructor). c.of_type) given.now.constructors.items) }
    ensures greatest_nodes { IfOk result (λ core. core.greatest_nodes ≡ given.now.greatest_nodes) }
    ensures summed_nodes { IfOk result (λ core. core.summed_nodes ≡ given.now.summed_nodes) }
{
    let table = cell_types(alloc, given)?;
    let functions = all_functions(alloc, &table, given)?;
    let constructors = constructor_shapes(alloc, &table, given)?;
    let texts = copied_texts(alloc, &given.texts)?;
    Ok(Core {
        functions,
        constructors,
        texts,
        main: 0,
        greatest_nodes: given.greatest_nodes,
        summed_nodes: given.summed_nodes,
    })
}

fn all_functions(
    alloc: Global,
    table: &[bool],
    given: &Ground,
) -> Result<Vec<CoreFunction>, NoMemory>
    requires rows { FunctionsHaveRows (ground_program given.now).functions }
    requires small { AreWithin (ground_program given.now).functions }
    ensures form { IfOk result (λ cores. AreCoresOf (ground_program given.now).constructors (ground_program given.now).functions (map function_code cores.items)) }
    ensures cells { IfOk result (λ cores. TellCells table.now given.now.instances.items cores.items) }
{
    let mut cores = Vec::new(alloc);
    for instance in &given.instances {
        let core = core_function(alloc, table, given, instance)?;
        cores.push(core)?;
    }
    Ok(cores)
}

// The types of an instance make no difference.
fn core_function(
    alloc: Global,
    table: &[bool],
    given: &Ground,
    instance: &Instance,
) -> Result<CoreFunction, NoMemory>
    requires rows { MatchesHaveRows (expr_tree instance.now.body) }
    requires few { vec_len instance.now.parameters ≤ most_parameters }
    requires small { nodes_of (expr_tree instance.now.body) ≤ most_nodes }
    ensures form { IfOk result (λ core. (types : List TypeTree) → IsCoreOf (ground_program given.now).constructors (instance_tree types instance.now) (function_code core)) }
    ensures parameters { IfOk result (λ core. core.parameters_have_cells.items ≡ map (at_type table.now) instance.now.parameters.items) }
    ensures result { IfOk result (λ core. core.result_has_cells ≡ at_type table.now instance.now.result) }
{
    let parameters = instance.parameters.len() as u32;
    let parameters_have_cells = have_cells(alloc, table, &instance.parameters)?;
    let mut writer = Writer::new(alloc, parameters);
    let body = writer.block(given, true, &instance.body)?;
    Ok(CoreFunction {
        parameters,
        parameters_have_cells,
        result_has_cells: has_cells(table, instance.result),
        variables: writer.next,
        body,
    })
}
