ghost use Rattle.kk_types.specs.Checks.{AnswersTypes, EachProgramIsChecked, EachTypedProgramHasPrincipalTypes, HasNodes};
ghost use Rattle.std.specs.Prelude.{◌≡◌, ℕ, [], map, IfOk, OnOk, MatchOption, IfSome};
ghost use Rattle.kk_syntax.specs.Programs.{function_tree, program_tree};
ghost use Rattle.kk_syntax.specs.Types.{variables_below};
ghost use Rattle.kk_syntax.specs.TypedPrograms.{typing_of};
ghost use Rattle.kk_syntax.specs.Typing.{IsPrincipal, IsTypable, with_parameters};
ghost use Rattle.kk_unify.specs.GraphOf.{graph_of, variables_of};
ghost use Rattle.kk_unify.specs.Graphs.{Assignment};
ghost use Rattle.kk_walk.specs.Walks.{scope_at, AreBelow, AreBoundBelow, BuildsEach};

use crate::error::TypeError;
use kk_base::NoMemory;
use kk_syntax::{BodyTypes, Fun, Program, TypeNode, Typed};
use kk_unify::{Graph, graphs_are_decided};
use kk_walk::build::{build, build_each, numbered, small};
use kk_walk::{Bound, Walk};
use std::alloc::Global;

/// The types that each function's body is taken at, which are as general as can be; or the first function that is not
/// typed. The recursion is as deep as the program.
pub fn check(alloc: Global, program: &Program) -> Result<Typed, TypeError>
    ensures { AnswersTypes program.now result }
{
    let mut bodies = Vec::new(alloc);
    for (number, function) in program.functions.iter().enumerate() {
        match body_types(alloc, program, function)? {
            Some(types) => bodies.push(types)?,
            None => {
                return Err(TypeError::NotTyped {
                    function: small(number)?,
                });
            }
        }
    }
    let program = program.copied(alloc)?;
    Ok(Typed { program, bodies })
}

/// Each program is typed or has exactly one first function that is not. It is a law, and does nothing.
pub fn each_program_is_checked()
    ensures checked { EachProgramIsChecked }
    ensures principal { EachTypedProgramHasPrincipalTypes }
{
    graphs_are_decided();
}

/// The principal types of a function's body, if it is typed.
pub fn body_types(
    alloc: Global,
    program: &Program,
    function: &Fun,
) -> Result<Option<BodyTypes>, NoMemory>
    ensures typed { IfOk result (λ found. MatchOption found
        (¬ IsTypable (program_tree program.now) (function_tree function.now))
        (λ types. IsPrincipal (program_tree program.now) (function_tree function.now) (typing_of types))) }
    ensures nodes { IfOk result (λ found. IfSome found HasNodes) }
{
    let mut graph = Graph::new(alloc, function.variables);
    let own = own_variables(alloc, &mut graph, function.variables)?;
    let nodes = build_each(alloc, &mut graph, &function.parameters, &own)?;
    let want = build(alloc, &mut graph, &function.result, &own)?;
    let mut walk = Walk {
        alloc,
        graph,
        scope: parameters(alloc, &nodes)?,
        taken: Vec::new(alloc),
    };
    let ok = walk.expression(program, &function.body, want)?;
    if !ok {
        return Ok(None);
    }
    match walk.graph.solve(alloc)? {
        Some(solution) => {
            let taken = numbered(alloc, &walk.taken, &solution.numbers)?;
            Ok(Some(BodyTypes {
                nodes: solution.nodes,
                taken,
            }))
        }
        None => Ok(None),
    }
}

// A node for each of the first type variables, which stands for itself.
fn own_variables(alloc: Global, graph: &mut Graph, count: u32) -> Result<Vec<u32>, NoMemory>
    requires { count ≡ variables_of graph.old }
    ensures builds { IfOk result (λ numbers.
        BuildsEach (graph_of graph.old) (graph_of graph.new) numbers.items (λ r. variables_below count)) }
    ensures variables { OnOk result (variables_of graph.new ≡ variables_of graph.old) }
{
    let mut numbers = Vec::new(alloc);
    for variable in 0..count {
        let number = graph.add(TypeNode::Variable(variable))?;
        numbers.push(number)?;
    }
    Ok(numbers)
}

// The scope of parameters, whose types are nodes.
fn parameters(alloc: Global, nodes: &[u32]) -> Result<Vec<Bound>, NoMemory>
    ensures bound { IfOk result (λ scope. (r : Assignment) → scope_at r scope.items ≡ with_parameters 0 (map r nodes.now) []) }
    ensures inside { IfOk result (λ scope. (size : ℕ) → AreBelow size nodes.now → AreBoundBelow size scope.items) }
{
    let mut scope = Vec::new(alloc);
    for (index, node) in nodes.iter().enumerate() {
        let variable = small(index)?;
        scope.push(Bound {
            variable,
            node: *node,
        })?;
    }
    Ok(scope)
}
