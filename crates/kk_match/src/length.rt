ghost use Rattle.std.specs.Prelude.{◌≡◌, map, IfOk};
ghost use Rattle.kk_core.specs.CaseLengths.{node_length, tests_length};
ghost use Rattle.kk_core.specs.Decisions.{node_tree};

use crate::nodes::{product, sum};
use kk_base::NoMemory;
use kk_core::Node;

// The most instructions of a node that chooses a row.
const CHOICE: usize = 2;

// The most instructions of a test, without those for the fields on the way to its position and for its edges.
const TEST: usize = 22;

// The most for each field on the way.
const FIELD: usize = 4;

// The most for each edge.
const EDGE: usize = 12;

/// How long tests are at most, once they are in an image.
pub fn tests_length(nodes: &[Node]) -> Result<usize, NoMemory>
    ensures { IfOk result (λ length. length ≡ tests_length (map node_tree nodes.now)) }
{
    let mut length = 0;
    for node in nodes {
        length = sum(length, node_length(node)?)?;
    }
    Ok(length)
}

fn node_length(node: &Node) -> Result<usize, NoMemory>
    ensures { IfOk result (λ length. length ≡ node_length (node_tree node.now)) }
{
    match node {
        Node::Choose(_) => Ok(CHOICE),
        Node::Test(at, edges, _) => {
            let fields = product(FIELD, at.len())?;
            let own = sum(TEST, fields)?;
            let ways = product(EDGE, edges.len())?;
            sum(own, ways)
        }
    }
}
