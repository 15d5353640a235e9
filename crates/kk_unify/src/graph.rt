ghost use Rattle.std.specs.Prelude.{◌≡◌, ◌+◌, ◌^◌, ◌≤◌, ◌<◌, [], ◌∷◌, ◌++◌, length, IfOk, MatchBool, MatchOption};
ghost use Rattle.std.proofs.Props.{props};
ghost use Rattle.kk_unify.specs.Graphs.{IsFormed, IsNodeFormed};
ghost use Rattle.kk_unify.specs.NodesOf.{node_tree, node_trees, added_node, IsNodeFormed-prop};

use crate::join::join;
use crate::node::Node;
use crate::solve::{Solution, solve};
use kk_base::NoMemory;
use kk_syntax::TypeNode;
use std::alloc::Global;

/// A graph of types: numbered nodes, each a type that is not known yet, another node, or a type of which the parts are
/// nodes. The type variables below a number stand for themselves.
#[derive(Drop)]
pub struct Graph {
    alloc: Global,
    variables: u32,
    nodes: Vec<Node>,
    pub ghost formed: { IsFormed variables (node_trees nodes.items) } by { Prim.hlevel (props, IsNodeFormed-prop) },
    pub ghost numbered: { variables + length nodes.items ≤ 2 ^ 32 },
}

impl Graph {
    ghost use Rattle.kk_unify.specs.Graphs.{Adds, Joins, Clashes, NoneObeys};
    ghost use Rattle.kk_unify.specs.GraphOf.{graph_of, variables_of, type_by, IsAddable};
    ghost use Rattle.kk_unify.specs.Solutions.{Solves};

    /// No nodes. Takes no memory.
    pub fn new(alloc: Global, variables: u32) -> Graph
        ensures empty { graph_of result ≡ [] }
        ensures variables { variables_of result ≡ variables }
    {
        Graph {
            alloc,
            variables,
            nodes: Vec::new(alloc),
        }
    }

    /// How many nodes the graph has.
    pub fn len(&self) -> usize
        ensures { result ≡ length (graph_of self.now) }
    {
        self.nodes.len()
    }

    /// One more node, of any type, and its number.
    pub fn open(&mut self) -> Result<u32, NoMemory>
        ensures variables { variables_of self.new ≡ variables_of self.old }
        ensures added { IfOk result (λ number. Adds (graph_of self.old) (graph_of self.new) number (λ r. Unit {0})) }
    {
        self.put(Node::Any)
    }

    /// One more node, of a type of which the parts are nodes that there are, and its number.
    pub fn add(&mut self, node: TypeNode) -> Result<u32, NoMemory>
        requires { IsAddable (variables_of self.old) (length (graph_of self.old)) node }
        ensures variables { variables_of self.new ≡ variables_of self.old }
        ensures added { IfOk result (λ number. Adds (graph_of self.old) (graph_of self.new) number (λ r. r number ≡ type_by r node)) }
    {
        self.put(node_of(node))
    }

    /// Makes two nodes one type; `false` where no types of the nodes do.
    pub fn join(&mut self, first: u32, second: u32) -> Result<bool, NoMemory>
        requires first { first < length (graph_of self.old) }
        requires second { second < length (graph_of self.old) }
        ensures variables { variables_of self.new ≡ variables_of self.old }
        ensures joined { IfOk result (λ joined. MatchBool joined
            (Joins (graph_of self.old) (graph_of self.new) first second)
            (Clashes (graph_of self.old) first second)) }
    {
        join(self.alloc, &mut self.nodes, first, second)
    }

    /// The principal types of the nodes; `None` where no types obey the graph.
    pub fn solve(&self, alloc: Global) -> Result<Option<Solution>, NoMemory>
        ensures { IfOk result (λ solution. MatchOption solution
            (NoneObeys (graph_of self.now))
            (Solves (variables_of self.now) (graph_of self.now))) }
    {
        solve(alloc, self.variables, &self.nodes)
    }

    // One more node, and its number. A variable that it becomes, if its type is not known, has a number too.
    fn put(&mut self, node: Node) -> Result<u32, NoMemory>
        requires { IsNodeFormed (variables_of self.old) (length (graph_of self.old)) (length (graph_of self.old)) (node_tree node) }
        ensures variables { variables_of self.new ≡ variables_of self.old }
        ensures added { IfOk result (λ number. (number ≡ length (graph_of self.old)) × (graph_of self.new ≡ graph_of self.old ++ (node_tree node ∷ []))) }
    {
        let number = u32::try_from(self.nodes.len()).map_err(|_| NoMemory)?;
        if self.variables.checked_add(number).is_none() {
            return Err(NoMemory);
        }
        self.nodes.push(node)?;
        Ok(number)
    }
}

// A node that is added, as a node of the graph.
fn node_of(node: TypeNode) -> Node
    ensures { node_tree result ≡ added_node node }
{
    match node {
        TypeNode::Int32 => Node::Int32,
        TypeNode::Unit => Node::Unit,
        TypeNode::Variable(of) => Node::Variable(of),
        TypeNode::Named(by, arguments) => Node::Named(by, arguments),
    }
}
