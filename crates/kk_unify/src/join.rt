ghost use Rattle.std.specs.Prelude.{◌≡◌, ◌<◌, ◌+◌, ◌++◌, ◌⊎◌, length, IfOk, MatchBool};
ghost use Rattle.std.specs.List.{zip};
ghost use Rattle.kk_unify.specs.NodesOf.{node_tree, node_trees};
ghost use Rattle.kk_unify.specs.Graphs.{Joins, Clashes};
ghost use Rattle.kk_unify.specs.Unification.{IsLinked, KeepsFormed, Finds, Steps, IsHead, node_at, heads_agree, merged, met};

use crate::node::Node;
use kk_base::NoMemory;
use std::alloc::Global;
use std::mem;

/// Makes two nodes one type; `false` where no types of the nodes do.
pub fn join(alloc: Global, nodes: &mut [Node], first: u32, second: u32) -> Result<bool, NoMemory>
    requires linked { IsLinked (node_trees nodes.old) }
    requires first { first < length nodes.old }
    requires second { second < length nodes.old }
    ensures formed { KeepsFormed (node_trees nodes.old) (node_trees nodes.new) }
    ensures joined { IfOk result (λ joined. MatchBool joined
        (Joins (node_trees nodes.old) (node_trees nodes.new) first second)
        (Clashes (node_trees nodes.old) first second)) }
{
    let mut pairs = Vec::new(alloc);
    if !join_pair(nodes, &mut pairs, first, second)? {
        return Ok(false);
    }
    while let Some((first, second)) = pairs.pop() {
        if !join_pair(nodes, &mut pairs, first, second)? {
            return Ok(false);
        }
    }
    Ok(true)
}

// Makes two nodes one type, and adds the pairs of their arguments, which are to be of one type too.
fn join_pair(
    nodes: &mut [Node],
    pairs: &mut Vec<(u32, u32)>,
    first: u32,
    second: u32,
) -> Result<bool, NoMemory>
    requires linked { IsLinked (node_trees nodes.old) }
    requires first { first < length nodes.old }
    requires second { second < length nodes.old }
    ensures formed { KeepsFormed (node_trees nodes.old) (node_trees nodes.new) }
    ensures as_long { length nodes.new ≡ length nodes.old }
    ensures joined { IfOk result (λ joined. MatchBool joined
        (Steps (node_trees nodes.old) pairs.old.items first second (node_trees nodes.new) pairs.new.items)
        (Clashes (node_trees nodes.old) first second)) }
{
    let first = find(nodes, first);
    let second = find(nodes, second);
    if first == second {
        return Ok(true);
    }
    link(nodes, pairs, first.min(second), first.max(second))
}

// The node that gives the type of a node. Those on the way to it become the same as a node further on.
fn find(nodes: &mut [Node], start: u32) -> u32
    requires linked { IsLinked (node_trees nodes.old) }
    requires start { start < length nodes.old }
    ensures { Finds (node_trees nodes.old) (node_trees nodes.new) start result }
{
    let mut at = start;
    while let Node::Same(to) = nodes[at as usize] {
        if let Node::Same(next) = nodes[to as usize] {
            nodes[at as usize] = Node::Same(next);
        }
        at = to;
    }
    at
}

// Makes the later of two nodes the same as the earlier one, where their heads agree.
fn link(
    nodes: &mut [Node],
    pairs: &mut Vec<(u32, u32)>,
    low: u32,
    high: u32,
) -> Result<bool, NoMemory>
    requires linked { IsLinked (node_trees nodes.old) }
    requires order { low < high }
    requires high { high < length nodes.old }
    requires heads { IsHead (node_at (node_trees nodes.old) low) × IsHead (node_at (node_trees nodes.old) high) }
    ensures formed { KeepsFormed (node_trees nodes.old) (node_trees nodes.new) }
    ensures joined { IfOk result (λ joined. MatchBool joined
        (Steps (node_trees nodes.old) pairs.old.items low high (node_trees nodes.new) pairs.new.items)
        (Clashes (node_trees nodes.old) low high)) }
{
    let upper = mem::replace(&mut nodes[high as usize], Node::Same(low));
    merge(&mut nodes[low as usize], upper, pairs)
}

// Puts what is known of another node into a node, where their heads agree; adds the pairs of their arguments.
fn merge(lower: &mut Node, upper: Node, pairs: &mut Vec<(u32, u32)>) -> Result<bool, NoMemory>
    ensures lower { (node_tree lower.new ≡ node_tree lower.old) ⊎ (node_tree lower.new ≡ merged (node_tree lower.old) (node_tree upper)) }
    ensures agree { IfOk result (λ agree. agree ≡ heads_agree (node_tree lower.old) (node_tree upper)) }
    ensures merged { IfOk result (λ agree. MatchBool agree
        ((node_tree lower.new ≡ merged (node_tree lower.old) (node_tree upper)) × (pairs.new.items ≡ pairs.old.items ++ met (node_tree lower.old) (node_tree upper)))
        (Unit {0})) }
{
    if !agree(lower, &upper) {
        return Ok(false);
    }
    if let Node::Any = lower {
        *lower = upper;
        return Ok(true);
    }
    if let Node::Named(_, others) = upper {
        if let Node::Named(_, arguments) = lower {
            pair_up(arguments, &others, pairs)?;
        }
    }
    Ok(true)
}

// Whether two nodes can be of one type, as far as the nodes themselves tell.
fn agree(lower: &Node, upper: &Node) -> bool
    ensures { result ≡ heads_agree (node_tree lower.now) (node_tree upper.now) }
{
    match (lower, upper) {
        (Node::Any, _)
        | (Node::Int32 | Node::Unit | Node::Variable(_) | Node::Named(..), Node::Any) => true,
        (Node::Int32, Node::Int32) | (Node::Unit, Node::Unit) => true,
        (Node::Variable(of), Node::Variable(other)) => of == other,
        (Node::Named(by, arguments), Node::Named(other, others)) => {
            by == other && arguments.len() == others.len()
        }
        _ => false,
    }
}

// Adds the pairs of two lists.
fn pair_up(first: &[u32], second: &[u32], pairs: &mut Vec<(u32, u32)>) -> Result<(), NoMemory>
    ensures { IfOk result (λ done. pairs.new.items ≡ pairs.old.items ++ zip first.now second.now) }
{
    for (one, other) in first.iter().zip(second) {
        pairs.push((*one, *other))?;
    }
    Ok(())
}
