ghost use Rattle.std.specs.Prelude.{◌≡◌, ◌<◌, length, map, IfOk, OnOk, ℕ, List, slice_index_or};
ghost use Rattle.kk_syntax.specs.Types.{put, type_at, type_tree, TypeTree};
ghost use Rattle.kk_unify.specs.GraphOf.{graph_of, variables_of};
ghost use Rattle.kk_walk.specs.Walks.{AreBelow, Builds, BuildsEach, Opens, taking_of, takings_of, choice_at, choices_at};
ghost use Rattle.kk_walk.specs.Walks.{IsTakenBelow, AreTakenBelow};
ghost use Rattle.kk_syntax.specs.TypedPrograms.{choice_of};

use kk_base::NoMemory;
use kk_syntax::{Taken, Ty, TypeNode};
use kk_unify::Graph;
use std::alloc::Global;

/// A node for a written type, with nodes for its variables; `()` stands for a variable that has none. The recursion is
/// as deep as the type.
#[cycle(build)]
pub fn build(alloc: Global, graph: &mut Graph, ty: &Ty, at: &[u32]) -> Result<u32, NoMemory>
    requires { AreBelow (length (graph_of graph.old)) at.now }
    ensures builds { IfOk result (λ number.
        Builds (graph_of graph.old) (graph_of graph.new) number (λ r. put (type_at (map r at.now)) (type_tree ty.now))) }
    ensures variables { OnOk result (variables_of graph.new ≡ variables_of graph.old) }
{
    match ty {
        Ty::Int32 => graph.add(TypeNode::Int32),
        Ty::Unit => graph.add(TypeNode::Unit),
        Ty::Variable(of) => match at.get(*of as usize) {
            Some(node) => Ok(*node),
            None => graph.add(TypeNode::Unit),
        },
        Ty::Named(by, arguments) => {
            let nodes = build_each(alloc, graph, arguments, at)?;
            graph.add(TypeNode::Named(*by, nodes))
        }
    }
}

/// Nodes for written types.
#[cycle(build)]
pub fn build_each(
    alloc: Global,
    graph: &mut Graph,
    types: &[Ty],
    at: &[u32],
) -> Result<Vec<u32>, NoMemory>
    requires { AreBelow (length (graph_of graph.old)) at.now }
    ensures builds { IfOk result (λ numbers.
        BuildsEach (graph_of graph.old) (graph_of graph.new) numbers.items
        (λ r. map (put (type_at (map r at.now))) (map type_tree types.now))) }
    ensures variables { OnOk result (variables_of graph.new ≡ variables_of graph.old) }
{
    let mut nodes = Vec::new(alloc);
    for ty in types {
        let node = build(alloc, graph, ty, at)?;
        nodes.push(node)?;
    }
    Ok(nodes)
}

/// New nodes, of any types.
pub fn opened(alloc: Global, graph: &mut Graph, count: u32) -> Result<Vec<u32>, NoMemory>
    ensures opens { IfOk result (λ numbers. Opens (graph_of graph.old) (graph_of graph.new) numbers.items count) }
    ensures variables { OnOk result (variables_of graph.new ≡ variables_of graph.old) }
{
    let mut numbers = Vec::new(alloc);
    for _ in 0..count {
        let number = graph.open()?;
        numbers.push(number)?;
    }
    Ok(numbers)
}

/// A number as a `u32`. There is no room for as many things as need a larger one.
pub fn small(number: usize) -> Result<u32, NoMemory>
    ensures { IfOk result (λ found. found ≡ number) }
{
    u32::try_from(number).map_err(|_| NoMemory)
}

/// The same, with other numbers for nodes.
pub fn numbered(alloc: Global, taken: &[Taken], numbers: &[u32]) -> Result<Vec<Taken>, NoMemory>
    requires { AreTakenBelow (length numbers.now) (takings_of taken.now) }
    ensures types { IfOk result (λ found. (types : List TypeTree) → map (choice_of types) found.items
        ≡ choices_at (λ i. type_at types (slice_index_or numbers.now i 0)) (takings_of taken.now)) }
    ensures inside { IfOk result (λ found. (size : ℕ) → AreBelow size numbers.now → AreTakenBelow size (takings_of found.items)) }
{
    let mut found = Vec::new(alloc);
    for one in taken {
        let other = numbered_one(alloc, one, numbers)?;
        found.push(other)?;
    }
    Ok(found)
}

fn numbered_one(alloc: Global, taken: &Taken, numbers: &[u32]) -> Result<Taken, NoMemory>
    requires { IsTakenBelow (length numbers.now) (taking_of taken.now) }
    ensures types { IfOk result (λ found. (types : List TypeTree) → choice_of types found
        ≡ choice_at (λ i. type_at types (slice_index_or numbers.now i 0)) (taking_of taken.now)) }
    ensures inside { IfOk result (λ found. (size : ℕ) → AreBelow size numbers.now → IsTakenBelow size (taking_of found)) }
{
    match taken {
        Taken::Construct(by, at) => Ok(Taken::Construct(*by, numbered_each(alloc, at, numbers)?)),
        Taken::Call(function, at) => Ok(Taken::Call(*function, numbered_each(alloc, at, numbers)?)),
        Taken::Value(of) => Ok(Taken::Value(numbers[*of as usize])),
    }
}

fn numbered_each(alloc: Global, at: &[u32], numbers: &[u32]) -> Result<Vec<u32>, NoMemory>
    requires { AreBelow (length numbers.now) at.now }
    ensures { IfOk result (λ found. found.items ≡ map (λ i. slice_index_or numbers.now i 0) at.now) }
{
    let mut found = Vec::new(alloc);
    for node in at {
        found.push(numbers[*node as usize])?;
    }
    Ok(found)
}
