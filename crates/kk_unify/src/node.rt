ghost use Rattle.std.specs.Prelude.{◌≤◌, ◌^◌, length, IfOk};
ghost use Rattle.kk_unify.specs.NodesOf.{node_trees};
ghost use Rattle.kk_unify.specs.Unification.{IsLinked};
ghost use Rattle.kk_unify.specs.GraphWalk.{AreRoots};

use kk_base::NoMemory;
use std::alloc::Global;

/// A node of a graph of types. It names others by their numbers.
#[derive(Drop)]
pub enum Node {
    /// Of any type.
    Any,
    /// Of the same type as an earlier node.
    Same(u32),
    Int32,
    /// `()`
    Unit,
    /// A type variable that stands for itself.
    Variable(u32),
    /// A declared type by its number, and its arguments.
    Named(u32, Vec<u32>),
}

/// For each node of a graph the one that gives its type, by its number.
pub fn roots(alloc: Global, nodes: &[Node]) -> Result<Vec<u32>, NoMemory>
    requires linked { IsLinked (node_trees nodes.now) }
    requires numbered { length nodes.now ≤ 2 ^ 32 }
    ensures { IfOk result (λ roots. AreRoots (node_trees nodes.now) roots.items) }
{
    let mut roots = Vec::with_capacity(alloc, nodes.len())?;
    for (number, node) in nodes.iter().enumerate() {
        let root = match node {
            Node::Same(to) => roots[*to as usize],
            _ => number as u32,
        };
        roots.push(root)?;
    }
    Ok(roots)
}
