ghost use Rattle.std.specs.Prelude.{◌≡◌, IfOk};
ghost use Rattle.kk_core.specs.Decisions.{node_tree};
ghost use Rattle.kk_counted.specs.CountedForms.{decisions_of};
ghost use Rattle.kk_counted.specs.Int32.{IsAnswerInt32, AreEdgesInt32, IsNodeInt32, AreNodesInt32};

use kk_base::NoMemory;
use kk_core::{Answer, Decisions, Edge, Node};
use std::alloc::Global;

/// The same decisions again. Each number that they ask for is one of 32 bits.
pub fn copied_decisions(alloc: Global, decisions: &Decisions) -> Result<Decisions, NoMemory>
    ensures rows { IfOk result (λ copy. copy.rows ≡ decisions.now.rows) }
    ensures tests { IfOk result (λ copy. copy.tests ≡ decisions.now.tests) }
    ensures by_rows { IfOk result (λ copy. copy.by_rows ≡ decisions.now.by_rows) }
    ensures decisions { IfOk result (λ copy. decisions_of copy ≡ decisions_of decisions.now) }
    ensures numbers { IfOk result (λ copy. AreNodesInt32 (decisions_of copy)) }
{
    let mut nodes = Vec::new(alloc);
    for node in decisions.nodes() {
        let copy = copied_node(alloc, node)?;
        nodes.push(copy)?;
    }
    let copy = Decisions::new(
        nodes,
        decisions.rows(),
        decisions.tests(),
        decisions.by_rows(),
    );
    Ok(copy)
}

// The same node again.
fn copied_node(alloc: Global, node: &Node) -> Result<Node, NoMemory>
    ensures same { IfOk result (λ copy. node_tree copy ≡ node_tree node.now) }
    ensures numbers { IfOk result (λ copy. IsNodeInt32 (node_tree copy)) }
{
    match node {
        Node::Choose(row) => Ok(Node::Choose(*row)),
        Node::Test(at, edges, otherwise) => {
            let at = Vec::from_slice(alloc, at)?;
            let edges = copied_edges(alloc, edges)?;
            Ok(Node::Test(at, edges, *otherwise))
        }
    }
}

// The same edges again.
fn copied_edges(alloc: Global, edges: &[Edge]) -> Result<Vec<Edge>, NoMemory>
    ensures same { IfOk result (λ copy. copy.items ≡ edges.now) }
    ensures numbers { IfOk result (λ copy. AreEdgesInt32 copy.items) }
{
    let mut copy = Vec::new(alloc);
    for edge in edges {
        numbers_of_answers_are_small(edge.found);
        copy.push(*edge)?;
    }
    Ok(copy)
}

// The number of an answer is one of 32 bits. It is a law, and does nothing.
fn numbers_of_answers_are_small(answer: Answer)
    ensures { IsAnswerInt32 answer }
{}
