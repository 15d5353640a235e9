// The lines of the decisions of a case.

ghost use Rattle.std.specs.Prelude.{◌≡◌, ◌+◌, map, not, filter, IfOk, OnOk};
ghost use Rattle.kk_core.specs.Decisions.{node_tree};
ghost use Rattle.rv_lower.specs.Written.{Wrote, WroteLines};
ghost use Rattle.rv_cells.specs.CellLines.{Walks, walked, spare, equal_lines, jump_lines, either_lines};
ghost use Rattle.rv_cells.specs.CountedLines.{first_label, is_plain, answer_word, answer_tag, number_tests, last_lines, ChoiceLines};
ghost use Rattle.rv_cells.specs.CountedLines.{OddLines, DecideLines, IsWithoutLast, AreTried, TestLines, first_lines, NodeLines, NodesLines};
ghost use Rattle.rv_tokens.specs.Written.{layout_known, ways_known, number_shown, LoadsTag};

use crate::cells::{FIELDS, HEADER, load};
use crate::known::Known;
use kk_base::NoMemory;
use kk_core::{Answer, Edge, Node};
use rv_isa::{Action, Condition, Immediate, ImmediateOperation, Operation};
use rv_lower::{Lowering, Reads, act, next, set, unary, write_label};
use std::alloc::Global;

/// The labels of a case: the first one of its nodes, and the first one of its arms.
#[derive(Clone, Copy, Drop)]
pub struct Targets {
    pub nodes: u32,
    pub arms: u32,
}

/// Where a value shows an answer: in its word, or in the header of its cell.
#[derive(Clone, Copy, Drop)]
enum Shown {
    Word,
    Tag,
}

/// What is tested: the value that shows the answer, and the temporary for the number that it is compared with.
#[derive(Clone, Copy, Drop)]
struct Tested {
    shown: Shown,
    value: u32,
    temporary: u32,
}

/// Which edges of a test are tried, and where it goes on where none of them holds.
#[derive(Drop)]
struct Tried {
    plain: Vec<Edge>,
    tagged: Vec<Edge>,
    other: Option<u32>,
}

/// The decisions of a case, with its labels: where its tests lead.
#[derive(Clone, Copy, Drop)]
pub struct CaseWays<'a> {
    pub nodes: &'a [Node],
    pub targets: Targets,
}

impl CaseWays<'_> {
    /// The label of a node. A node that chooses a row has that of the row's arm.
    fn to(&self, node: u32) -> Result<u32, NoMemory>
        ensures { IfOk result (λ label. label ≡ (ways_known self.now).to node) }
    {
        match self.nodes.get(node as usize) {
            Some(Node::Choose(row)) => sum(self.targets.arms, *row),
            _ => sum(self.targets.nodes, node),
        }
    }

    /// The label that comes behind the lines of a node: that of the next test, or else that of the first arm.
    #[tactic(auto, using(crate::proofs::WrittenLines::later_label))]
    fn behind(&self, node: u32) -> Result<u32, NoMemory>
        ensures { IfOk result (λ label. label ≡ (ways_known self.now).behind node) }
    {
        let later = next(node)?;
        match self.nodes.get(later as usize..) {
            Some(nodes) => first_label(self.targets, later, nodes),
            None => Ok(self.targets.arms),
        }
    }
}

/// The label of the first test among nodes, the first of which has a number, or else that of the first arm.
fn first_label(targets: Targets, number: u32, nodes: &[Node]) -> Result<u32, NoMemory>
    ensures { IfOk result (λ label. label ≡ first_label targets.nodes targets.arms number (map node_tree nodes.now)) }
{
    let mut number = number;
    for node in nodes {
        if let Node::Test(..) = node {
            return sum(targets.nodes, number);
        }
        number = next(number)?;
    }
    Ok(targets.arms)
}

/// The sum of two numbers. An overflow of `u32` is answered as out of memory.
fn sum(first: u32, second: u32) -> Result<u32, NoMemory>
    ensures { IfOk result (λ sum. sum ≡ first + second) }
{
    match first.checked_add(second) {
        Some(sum) => Ok(sum),
        None => Err(NoMemory),
    }
}

/// The number that stands for an answer in the word of a value.
fn word_of_answer(known: &Known<'_>, answer: Answer) -> Result<u32, NoMemory>
    ensures { IfOk result (λ word. word ≡ answer_word (layout_known known.now) answer) }
{
    match answer {
        Answer::Number(number) => Ok(number.cast_unsigned()),
        Answer::Constructor(constructor) => known.constant(constructor),
    }
}

/// The number that stands for an answer in the header of a cell.
fn tag_of_answer(known: &Known<'_>, answer: Answer) -> u32
    ensures { result ≡ answer_tag (layout_known known.now) answer }
{
    match answer {
        Answer::Number(_) => 0,
        Answer::Constructor(constructor) => known.tag(constructor),
    }
}

/// The number that stands for an answer there.
fn number_of_answer(known: &Known<'_>, shown: Shown, answer: Answer) -> Result<u32, NoMemory>
    ensures { IfOk result (λ number. number ≡ number_shown shown (layout_known known.now) answer) }
{
    match shown {
        Shown::Word => word_of_answer(known, answer),
        Shown::Tag => Ok(tag_of_answer(known, answer)),
    }
}

/// To a label where a value has a word.
fn write_equal(
    lowering: &mut Lowering,
    value: u32,
    word: u32,
    temporary: u32,
    label: u32,
) -> Result<(), NoMemory>
    ensures { OnOk result (Wrote (equal_lines value word temporary label) lowering.old lowering.new) }
{
    lowering.write(&[
        set(word, temporary),
        act(
            Action::Branch(Condition::Equal, label),
            Reads::Two(value, temporary),
        ),
    ])
}

/// To a label, unless that is the next one.
fn write_jump(lowering: &mut Lowering, next: u32, label: u32) -> Result<(), NoMemory>
    ensures { OnOk result (Wrote (jump_lines next label) lowering.old lowering.new) }
{
    if label == next {
        return Ok(());
    }
    lowering.write(&[act(Action::Jump(label), Reads::Nothing)])
}

/// To one label where a value has a word, and else to another one.
fn write_either(
    lowering: &mut Lowering,
    next: u32,
    value: u32,
    word: u32,
    temporary: u32,
    equal: u32,
    other: u32,
) -> Result<(), NoMemory>
    ensures { OnOk result (Wrote (either_lines next value word temporary equal other) lowering.old lowering.new) }
{
    if equal == next {
        return lowering.write(&[
            set(word, temporary),
            act(
                Action::Branch(Condition::NotEqual, other),
                Reads::Two(value, temporary),
            ),
        ]);
    }
    write_equal(lowering, value, word, temporary, equal)?;
    write_jump(lowering, next, other)
}

/// From a value to the one at a position: which value that is then.
fn write_walk(
    lowering: &mut Lowering,
    value: u32,
    temporary: u32,
    at: &[u32],
) -> Result<u32, NoMemory>
    ensures lines { OnOk result (WroteLines (Walks temporary value at.now) lowering.old lowering.new) }
    ensures value { IfOk result (λ there. there ≡ walked temporary value at.now) }
{
    let mut there = value;
    for field in at {
        let line = load(there, sum(FIELDS, *field)?, temporary)?;
        lowering.write(&[line])?;
        there = temporary;
    }
    Ok(there)
}

/// The edges whose answers the word of a value shows.
fn plain_edges(alloc: Global, known: &Known<'_>, edges: &[Edge]) -> Result<Vec<Edge>, NoMemory>
    ensures { IfOk result (λ plain. plain.items ≡ filter (λ edge. is_plain (layout_known known.now) edge.found) edges.now) }
{
    let mut plain = Vec::new(alloc);
    for edge in edges {
        if known.is_plain(edge.found) {
            plain.push(*edge)?;
        }
    }
    Ok(plain)
}

/// The other edges.
fn cell_edges(alloc: Global, known: &Known<'_>, edges: &[Edge]) -> Result<Vec<Edge>, NoMemory>
    ensures { IfOk result (λ others. others.items ≡ filter (λ edge. not (is_plain (layout_known known.now) edge.found)) edges.now) }
{
    let mut others = Vec::new(alloc);
    for edge in edges {
        if !known.is_plain(edge.found) {
            others.push(*edge)?;
        }
    }
    Ok(others)
}

/// All edges but the last one, and where that one leads.
fn leave_last(edges: &mut Vec<Edge>) -> Option<u32>
    ensures { IsWithoutLast edges.old.items edges.new.items result }
{
    match edges.pop() {
        Some(edge) => Some(edge.next),
        None => None,
    }
}

/// The edges that are tried by the word, and by the tag.
fn tried_edges(
    alloc: Global,
    known: &Known<'_>,
    edges: &[Edge],
    otherwise: Option<u32>,
) -> Result<Tried, NoMemory>
    ensures { IfOk result (λ tried. AreTried (filter (λ edge. is_plain (layout_known known.now) edge.found) edges.now)
        (filter (λ edge. not (is_plain (layout_known known.now) edge.found)) edges.now) otherwise tried.plain.items
        tried.tagged.items tried.other) }
{
    let mut plain = plain_edges(alloc, known, edges)?;
    let mut tagged = cell_edges(alloc, known, edges)?;
    let other = match otherwise {
        Some(node) => Some(node),
        None if tagged.is_empty() => leave_last(&mut plain),
        None => leave_last(&mut tagged),
    };
    Ok(Tried {
        plain,
        tagged,
        other,
    })
}

/// Tests of a number, each of which goes to the label of an edge.
fn write_numbers(
    lowering: &mut Lowering,
    known: &Known<'_>,
    ways: &CaseWays<'_>,
    tested: Tested,
    edges: &[Edge],
) -> Result<(), NoMemory>
    ensures { OnOk result (Wrote (number_tests (number_shown tested.shown (layout_known known.now)) (ways_known ways.now).to tested.value
        tested.temporary edges.now) lowering.old lowering.new) }
{
    for edge in edges {
        let number = number_of_answer(known, tested.shown, edge.found)?;
        let label = ways.to(edge.next)?;
        write_equal(lowering, tested.value, number, tested.temporary, label)?;
    }
    Ok(())
}

/// The test of the last edge, and where it goes on otherwise.
fn write_last(
    lowering: &mut Lowering,
    known: &Known<'_>,
    ways: &CaseWays<'_>,
    tested: Tested,
    next: u32,
    last: Option<Edge>,
    other: Option<u32>,
) -> Result<(), NoMemory>
    ensures { OnOk result (Wrote (last_lines (number_shown tested.shown (layout_known known.now)) (ways_known ways.now).to next tested.value
        tested.temporary last other) lowering.old lowering.new) }
{
    let (value, temporary) = (tested.value, tested.temporary);
    match (last, other) {
        (None, None) => Ok(()),
        (None, Some(node)) => write_jump(lowering, next, ways.to(node)?),
        (Some(edge), None) => {
            let number = number_of_answer(known, tested.shown, edge.found)?;
            write_equal(lowering, value, number, temporary, ways.to(edge.next)?)
        }
        (Some(edge), Some(node)) => {
            let number = number_of_answer(known, tested.shown, edge.found)?;
            let (equal, other) = (ways.to(edge.next)?, ways.to(node)?);
            write_either(lowering, next, value, number, temporary, equal, other)
        }
    }
}

/// Tests of a number, the last one apart.
fn write_choice(
    lowering: &mut Lowering,
    known: &Known<'_>,
    ways: &CaseWays<'_>,
    tested: Tested,
    next: u32,
    edges: Vec<Edge>,
    other: Option<u32>,
) -> Result<(), NoMemory>
    ensures { OnOk result (WroteLines (ChoiceLines (number_shown tested.shown (layout_known known.now)) (ways_known ways.now).to next
        tested.value tested.temporary edges.items other) lowering.old lowering.new) }
{
    let mut edges = edges;
    let last = edges.pop();
    write_numbers(lowering, known, ways, tested, &edges)?;
    write_last(lowering, known, ways, tested, next, last, other)
}

/// Where a value that is no cell goes on otherwise.
fn write_odd(
    lowering: &mut Lowering,
    ways: &CaseWays<'_>,
    value: u32,
    temporary: u32,
    otherwise: Option<u32>,
) -> Result<(), NoMemory>
    ensures { OnOk result (WroteLines (OddLines value temporary (ways_known ways.now).to otherwise) lowering.old lowering.new) }
{
    let Some(node) = otherwise else {
        return Ok(());
    };
    let label = ways.to(node)?;
    let lowest = Operation::Immediate(ImmediateOperation::Andi, Immediate::new(1));
    lowering.write(&[
        unary(lowest, value, temporary),
        act(
            Action::Branch(Condition::NotEqual, label),
            Reads::One(temporary),
        ),
    ])
}

/// The tag of the cell of a value, in a temporary.
fn write_tag(lowering: &mut Lowering, value: u32, tag: u32) -> Result<(), NoMemory>
    ensures { OnOk result (WroteLines (LoadsTag value tag) lowering.old lowering.new) }
{
    let header = load(value, HEADER, tag)?;
    let byte = Operation::Immediate(ImmediateOperation::Andi, Immediate::new(255));
    lowering.write(&[header, unary(byte, tag, tag)])
}

/// The tests of a value by its word, and then by the tag of its cell.
fn write_decided(
    lowering: &mut Lowering,
    known: &Known<'_>,
    ways: &CaseWays<'_>,
    behind: u32,
    value: u32,
    temporary: u32,
    tried: Tried,
    otherwise: Option<u32>,
) -> Result<(), NoMemory>
    ensures { OnOk result (WroteLines (DecideLines (layout_known known.now) (ways_known ways.now).to behind value temporary
        tried.plain.items tried.tagged.items otherwise tried.other) lowering.old lowering.new) }
{
    let word = Tested {
        shown: Shown::Word,
        value,
        temporary,
    };
    if tried.tagged.is_empty() {
        return write_choice(
            lowering,
            known,
            ways,
            word,
            behind,
            tried.plain,
            tried.other,
        );
    }
    write_numbers(lowering, known, ways, word, &tried.plain)?;
    write_odd(lowering, ways, value, temporary, otherwise)?;
    write_tag(lowering, value, temporary)?;
    let tag = Tested {
        shown: Shown::Tag,
        value: temporary,
        temporary: next(temporary)?,
    };
    write_choice(
        lowering,
        known,
        ways,
        tag,
        behind,
        tried.tagged,
        tried.other,
    )
}

/// The first temporary that a way to a position leaves free.
fn spare(base: u32, at: &[u32]) -> Result<u32, NoMemory>
    ensures { IfOk result (λ temporary. temporary ≡ spare base at.now) }
{
    match at {
        [] => Ok(base),
        [_, ..] => next(base),
    }
}

/// The test of a position of the value of a variable.
fn write_tests(
    lowering: &mut Lowering,
    known: &Known<'_>,
    ways: &CaseWays<'_>,
    behind: u32,
    variable: u32,
    at: &[u32],
    edges: &[Edge],
    otherwise: Option<u32>,
) -> Result<(), NoMemory>
    ensures { OnOk result (WroteLines (TestLines (layout_known known.now) lowering.old.base (ways_known ways.now).to behind variable at.now
        edges.now otherwise) lowering.old lowering.new) }
{
    let tried = tried_edges(lowering.alloc, known, edges, otherwise)?;
    let base = lowering.base;
    let value = write_walk(lowering, variable, base, at)?;
    let temporary = spare(base, at)?;
    write_decided(
        lowering, known, ways, behind, value, temporary, tried, otherwise,
    )
}

/// The lines of a node that chooses a row, if it is the first one.
fn write_first(lowering: &mut Lowering, ways: &CaseWays<'_>, number: u32) -> Result<(), NoMemory>
    ensures { OnOk result (Wrote (first_lines (ways_known ways.now) number) lowering.old lowering.new) }
{
    if number == 0 {
        write_jump(lowering, ways.behind(0)?, ways.to(0)?)
    } else {
        Ok(())
    }
}

/// A node of the decisions on the value of a variable: a test stands behind its label.
fn write_node(
    lowering: &mut Lowering,
    known: &Known<'_>,
    ways: &CaseWays<'_>,
    number: u32,
    variable: u32,
    node: &Node,
) -> Result<(), NoMemory>
    ensures { OnOk result (WroteLines (NodeLines (layout_known known.now) lowering.old.base ways.now.targets.nodes (ways_known ways.now)
        variable number (node_tree node.now)) lowering.old lowering.new) }
{
    match node {
        Node::Choose(_) => write_first(lowering, ways, number),
        Node::Test(at, edges, otherwise) => {
            write_label(lowering, sum(ways.targets.nodes, number)?)?;
            let behind = ways.behind(number)?;
            write_tests(
                lowering, known, ways, behind, variable, at, edges, *otherwise,
            )
        }
    }
}

/// The decisions on the value of a variable.
pub fn write_nodes(
    lowering: &mut Lowering,
    known: &Known<'_>,
    ways: &CaseWays<'_>,
    variable: u32,
) -> Result<(), NoMemory>
    ensures { OnOk result (WroteLines (NodesLines (layout_known known.now) lowering.old.base ways.now.targets.nodes (ways_known ways.now)
        variable 0 (map node_tree ways.now.nodes.now)) lowering.old lowering.new) }
{
    let mut number = 0;
    for node in ways.nodes {
        write_node(lowering, known, ways, number, variable, node)?;
        number = next(number)?;
    }
    Ok(())
}
