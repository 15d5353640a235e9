ghost use Rattle.std.specs.Prelude.{◌≡◌, ◌-◌, length, map, IfOk};
ghost use Rattle.kk_core.specs.Decisions.{node_tree};
ghost use Rattle.kk_match.specs.Turned.{turn_edge, turn_node, turned};

use crate::graph::number_of;
use kk_base::NoMemory;
use kk_core::{Edge, Node};
use std::alloc::Global;

/// Nodes in the other order: each stood behind those that it names, and now stands before them.
pub fn turned(alloc: Global, nodes: Vec<Node>) -> Result<Vec<Node>, NoMemory>
    ensures { IfOk result (λ found. map node_tree found.items ≡ turned (length nodes.items - 1) (map node_tree nodes.items)) }
{
    let last = number_of(nodes.len().saturating_sub(1))?;
    let mut left = nodes;
    let mut found = Vec::new(alloc);
    while let Some(node) = left.pop() {
        let node = turned_node(alloc, node, last)?;
        found.push(node)?;
    }
    Ok(found)
}

fn turned_node(alloc: Global, node: Node, last: u32) -> Result<Node, NoMemory>
    ensures { IfOk result (λ found. node_tree found ≡ turn_node last (node_tree node)) }
{
    match node {
        Node::Choose(row) => Ok(Node::Choose(row)),
        Node::Test(at, edges, otherwise) => {
            let edges = turned_edges(alloc, &edges, last)?;
            let otherwise = match otherwise {
                Some(next) => Some(last.saturating_sub(next)),
                None => None,
            };
            Ok(Node::Test(at, edges, otherwise))
        }
    }
}

fn turned_edges(alloc: Global, edges: &[Edge], last: u32) -> Result<Vec<Edge>, NoMemory>
    ensures { IfOk result (λ found. found.items ≡ map (turn_edge last) edges.now) }
{
    let mut found = Vec::new(alloc);
    for edge in edges {
        let next = last.saturating_sub(edge.next);
        found.push(Edge {
            found: edge.found,
            next,
        })?;
    }
    Ok(found)
}
