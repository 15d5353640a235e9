ghost use Rattle.std.specs.Prelude.{◌≡◌, [], map, IfOk, OnOk};
ghost use Rattle.kk_core.specs.Decisions.{node_tree};
ghost use Rattle.kk_match.specs.InTurn.{with_part, with_row, with_rows};
ghost use Rattle.kk_match.specs.Views.{part_of, line_tree, state_tree};

use crate::graph::number_of;
use crate::question::Question;
use crate::state::{Line, State};
use kk_base::NoMemory;
use kk_core::{Edge, Node};
use std::alloc::Global;

/// The nodes that try rows one after the other, each behind those that it names.
pub fn in_turn(alloc: Global, state: State<'_>) -> Result<Vec<Node>, NoMemory>
    ensures { IfOk result (λ nodes. map node_tree nodes.items ≡ with_rows (state_tree state.entry) []) }
{
    let State { mut lines } = state;
    let mut nodes = Vec::new(alloc);
    while let Some(line) = lines.pop() {
        add_row(alloc, line, &mut nodes)?;
    }
    Ok(nodes)
}

// Adds a row behind the next ones.
fn add_row(alloc: Global, line: Line<'_>, nodes: &mut Vec<Node>) -> Result<(), NoMemory>
    ensures { OnOk result (map node_tree nodes.new.items ≡ with_row (line_tree line.entry) (map node_tree nodes.old.items)) }
{
    let Line { row, mut left } = line;
    let other = number_of(nodes.len().saturating_sub(1))?;
    nodes.push(Node::Choose(row))?;
    while let Some(question) = left.pop() {
        add_part(alloc, question, other, nodes)?;
    }
    Ok(())
}

// Adds the test of a part, which leads to the last node, or else to `other`.
fn add_part(
    alloc: Global,
    question: &Question,
    other: u32,
    nodes: &mut Vec<Node>,
) -> Result<(), NoMemory>
    ensures { OnOk result (map node_tree nodes.new.items ≡ with_part other (part_of question.now) (map node_tree nodes.old.items)) }
{
    let next = number_of(nodes.len().saturating_sub(1))?;
    let at = Vec::from_slice(alloc, &question.at)?;
    let mut edges = Vec::new(alloc);
    edges.push(Edge {
        found: question.asked,
        next,
    })?;
    nodes.push(Node::Test(at, edges, Some(other)))?;
    Ok(())
}
