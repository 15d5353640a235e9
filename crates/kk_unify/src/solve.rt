ghost use Rattle.std.specs.Prelude.{◌+◌, ◌^◌, ◌≤◌, length, IfOk, MatchOption};
ghost use Rattle.kk_unify.specs.NodesOf.{node_trees};
ghost use Rattle.kk_unify.specs.Graphs.{IsFormed, NoneObeys};
ghost use Rattle.kk_unify.specs.Solutions.{Solves};
ghost use Rattle.kk_unify.specs.WalkOf.{graph_in, IsRootedIn};

use crate::node::{Node, roots};
use crate::walk::{Rooted, Walk};
use kk_base::NoMemory;
use kk_syntax::TypeNode;
use std::alloc::Global;

/// The types of the nodes of a graph. Each node of the graph has a number, and is of the type of the solution's node of
/// that number. The arguments of a node of the solution are nodes before it.
#[derive(Drop)]
pub struct Solution {
    pub nodes: Vec<TypeNode>,
    pub numbers: Vec<u32>,
}

/// The principal types of the nodes; `None` where no types obey the graph.
pub fn solve(alloc: Global, variables: u32, nodes: &[Node]) -> Result<Option<Solution>, NoMemory>
    requires formed { IsFormed variables (node_trees nodes.now) }
    requires numbered { variables + length nodes.now ≤ 2 ^ 32 }
    ensures { IfOk result (λ solution. MatchOption solution
        (NoneObeys (node_trees nodes.now))
        (Solves variables (node_trees nodes.now))) }
{
    let rooted = Rooted {
        alloc,
        variables,
        nodes,
        roots: roots(alloc, nodes)?,
    };
    walk_all(&rooted)
}

// The same, where the roots of the nodes are known.
fn walk_all(rooted: &Rooted) -> Result<Option<Solution>, NoMemory>
    requires { IsRootedIn rooted.now }
    ensures { IfOk result (λ solution. MatchOption solution
        (NoneObeys (graph_in rooted.now))
        (Solves rooted.now.variables (graph_in rooted.now))) }
{
    let mut walk = Walk::new(rooted.alloc, rooted.nodes.len())?;
    let mut numbers = Vec::with_capacity(rooted.alloc, rooted.nodes.len())?;
    for root in &rooted.roots {
        match rooted.visit(&mut walk, *root)? {
            Some(number) => numbers.push(number)?,
            None => return Ok(None),
        }
    }
    let Walk {
        marks: _,
        frames: _,
        made,
    } = walk;
    Ok(Some(Solution {
        nodes: made,
        numbers,
    }))
}
