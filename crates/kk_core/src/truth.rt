ghost use Rattle.std.specs.Prelude.{◌≡◌, false, map, IfOk};
ghost use Rattle.kk_core.specs.Decisions.{node_tree};
ghost use Rattle.kk_core.specs.Truths as Truths;

use crate::decisions::{Answer, Decisions, Edge, Node};
use kk_base::NoMemory;
use kk_syntax::Program;
use std::alloc::Global;

/// The decisions of a truth, among the rows `True` and `False`: one test, with one edge.
pub fn truth_decisions(alloc: Global) -> Result<Decisions, NoMemory>
    ensures nodes { IfOk result (λ decisions. map node_tree decisions.nodes.items ≡ Truths.truth_decisions) }
    ensures rows { IfOk result (λ decisions. decisions.rows ≡ 2) }
    ensures tests { IfOk result (λ decisions. decisions.tests ≡ 1) }
    ensures by_rows { IfOk result (λ decisions. decisions.by_rows ≡ false) }
{
    let is_false = Edge {
        found: Answer::Constructor(Program::FALSE),
        next: 2,
    };
    let edges = vec![in alloc; is_false]?;
    let test = Node::Test(Vec::new(alloc), edges, Some(1));
    let nodes = vec![in alloc; test, Node::Choose(0), Node::Choose(1)]?;
    Ok(Decisions::new(nodes, 2, 1, false))
}
