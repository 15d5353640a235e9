ghost use Rattle.std.specs.Prelude.{◌≡◌, ◌<◌, ◌≤◌, ◌-◌, true, [], length, map, option_map, count_by, IfOk};
ghost use Rattle.kk_core.specs.CaseLengths.{tests_length};
ghost use Rattle.kk_core.specs.Decisions.{node_tree, AreOrderly};
ghost use Rattle.kk_match.specs.Decided.{DecidesRows, IsFormed, IsBrieflyFormed, is_test, most_tests, most_tests_length, brief_length, rows_in_turn};
ghost use Rattle.kk_match.specs.Graphs.{lines_of, lines_from};
ghost use Rattle.kk_match.specs.GraphGrowth.{IsGraph};
ghost use Rattle.kk_match.specs.InTurn.{with_rows};
ghost use Rattle.kk_match.specs.Parts.{types_of, parts_of};
ghost use Rattle.kk_match.specs.Turned.{turned};
ghost use Rattle.kk_match.specs.Views.{part_of, line_tree, state_tree, types_in, patterns_in, nodes_in};
ghost use Rattle.kk_syntax.specs.Patterns.{pattern_tree};

use crate::graph::{Given, Graph, number_of, tests_in};
use crate::in_turn::in_turn;
use crate::length::tests_length;
use crate::nodes::{brief_length, most_tests};
use crate::question::{Question, questions};
use crate::state::{Line, State};
use crate::turned::turned;
use kk_base::NoMemory;
use kk_core::{Decisions, Node};
use kk_syntax::{GroundConstructor, Pat};
use std::alloc::Global;

/// The rows of a match.
#[derive(Drop)]
pub struct Rows<'a> {
    /// The ground constructors of the program, by their numbers.
    pub constructors: &'a [GroundConstructor],
    /// The pattern of each row, in their order.
    pub patterns: Vec<&'a Pat>,
}

/// Which tests decide a match: the graph of its states, or, where more states test than eight for each node of the patterns,
/// the tests of one row after the other. Of each value of a type of the patterns the first row that matches is chosen, if
/// there is one, and each answer that a test finds is of the type of its edges. On its way it looks at no more edges than the
/// patterns have nodes; and where these are p, at no more than p * (p + 1) nodes of tests, fields on the way to positions and
/// edges. All tests together are short.
pub fn decide(alloc: Global, rows: &Rows<'_>) -> Result<Decisions, NoMemory>
    requires { 0 < length rows.now.patterns.items }
    ensures decides { IfOk result (λ found. DecidesRows (types_in rows.now) (patterns_in rows.now) (nodes_in found)) }
    ensures formed { IfOk result (λ found.
        IsFormed (types_in rows.now) (patterns_in rows.now) (nodes_in found) found.tests found.by_rows) }
    ensures short { IfOk result (λ found. tests_length (nodes_in found) ≤ most_tests_length (patterns_in rows.now)) }
    ensures tests { IfOk result (λ found. found.tests ≡ count_by is_test (nodes_in found)) }
    ensures rows { IfOk result (λ found. found.rows ≡ length rows.now.patterns.items) }
{
    let count = rows.patterns.len();
    match graph_of_rows(alloc, rows)? {
        Some(nodes) => finished(alloc, nodes, count, false),
        None => row_by_row(alloc, rows),
    }
}

/// Which tests decide a match, where these are to be brief: the graph of its states, if that has few tests that are brief, or
/// else the tests of one row after the other. All tests together are no longer than 56 for each of the p nodes of the patterns
/// and 2 * p * p; and all that `decide` says of the rows that are chosen holds.
pub fn decide_briefly(alloc: Global, rows: &Rows<'_>) -> Result<Decisions, NoMemory>
    requires { 0 < length rows.now.patterns.items }
    ensures decides { IfOk result (λ found. DecidesRows (types_in rows.now) (patterns_in rows.now) (nodes_in found)) }
    ensures formed { IfOk result (λ found.
        IsBrieflyFormed (types_in rows.now) (patterns_in rows.now) (nodes_in found) found.tests found.by_rows) }
    ensures brief { IfOk result (λ found. tests_length (nodes_in found) ≤ brief_length (patterns_in rows.now)) }
    ensures tests { IfOk result (λ found. found.tests ≡ count_by is_test (nodes_in found)) }
    ensures rows { IfOk result (λ found. found.rows ≡ length rows.now.patterns.items) }
{
    let found = decide(alloc, rows)?;
    let length = tests_length(found.nodes())?;
    let most = brief_length(&rows.patterns)?;
    if length <= most {
        Ok(found)
    } else {
        row_by_row(alloc, rows)
    }
}

// The tests of one row after the other.
fn row_by_row(alloc: Global, rows: &Rows<'_>) -> Result<Decisions, NoMemory>
    requires { 0 < length rows.now.patterns.items }
    ensures nodes { IfOk result (λ found. nodes_in found ≡ rows_in_turn (types_in rows.now) (patterns_in rows.now)) }
    ensures decides { IfOk result (λ found. DecidesRows (types_in rows.now) (patterns_in rows.now) (nodes_in found)) }
    ensures tests { IfOk result (λ found. found.tests ≡ count_by is_test (nodes_in found)) }
    ensures rows { IfOk result (λ found. found.rows ≡ length rows.now.patterns.items) }
    ensures by_rows { IfOk result (λ found. found.by_rows ≡ true) }
{
    let count = rows.patterns.len();
    let nodes = rows_one_by_one(alloc, rows)?;
    finished(alloc, nodes, count, true)
}

// The nodes of the graph of rows, each behind those that it names. None where more states than may test.
fn graph_of_rows(alloc: Global, rows: &Rows<'_>) -> Result<Option<Vec<Node>>, NoMemory>
    ensures { IfOk result (λ found. IsGraph (types_in rows.now) (most_tests (patterns_in rows.now))
        (lines_from (types_in rows.now) 0 (patterns_in rows.now)) (option_map (λ nodes. nodes.items) found)) }
{
    let most = most_tests(&rows.patterns)?;
    let questions = questions_of_rows(alloc, rows)?;
    let state = start(alloc, &questions)?;
    graph(alloc, rows.constructors, most, state)
}

// The nodes that try rows one after the other, each behind those that it names.
fn rows_one_by_one(alloc: Global, rows: &Rows<'_>) -> Result<Vec<Node>, NoMemory>
    ensures { IfOk result (λ nodes. map node_tree nodes.items
        ≡ with_rows (lines_from (types_in rows.now) 0 (patterns_in rows.now)) []) }
{
    let questions = questions_of_rows(alloc, rows)?;
    let state = start(alloc, &questions)?;
    in_turn(alloc, state)
}

// What each row asks.
fn questions_of_rows(alloc: Global, rows: &Rows<'_>) -> Result<Vec<Vec<Question>>, NoMemory>
    ensures { IfOk result (λ found. map (λ qs. map part_of qs.items) found.items
        ≡ map (λ p. parts_of (types_in rows.now) [] (pattern_tree p.now)) rows.now.patterns.items) }
{
    let mut found = Vec::new(alloc);
    for pattern in &rows.patterns {
        let asked = questions(alloc, rows.constructors, pattern)?;
        found.push(asked)?;
    }
    Ok(found)
}

// The state in which nothing is known: a line for each row.
fn start(alloc: Global, questions: &[Vec<Question>]) -> Result<State<'_>, NoMemory>
    ensures { IfOk result (λ state. state_tree state ≡ lines_of 0 (map (λ qs. map part_of qs.items) questions.now)) }
{
    let mut lines = Vec::new(alloc);
    for (row, asked) in questions.iter().enumerate() {
        let row = number_of(row)?;
        let line = line(alloc, row, asked)?;
        lines.push(line)?;
    }
    Ok(State { lines })
}

fn line(alloc: Global, row: u32, questions: &[Question]) -> Result<Line<'_>, NoMemory>
    ensures { IfOk result (λ line. line_tree line ≡ record { row = row; left = map part_of questions.now }) }
{
    let mut left = Vec::new(alloc);
    for question in questions {
        left.push(question)?;
    }
    Ok(Line { row, left })
}

// The nodes of the graph of a state, each behind those that it names. None where more states than may test.
fn graph(
    alloc: Global,
    constructors: &[GroundConstructor],
    most: usize,
    start: State<'_>,
) -> Result<Option<Vec<Node>>, NoMemory>
    ensures { IfOk result (λ found. IsGraph (types_of constructors.now) most (state_tree start.entry)
        (option_map (λ nodes. nodes.items) found)) }
{
    let given = Given {
        alloc,
        constructors,
        most,
    };
    let mut graph = Graph::new(alloc);
    match graph.number(&given, start)? {
        Some(_) => {
            let Graph { nodes, .. } = graph;
            Ok(Some(nodes))
        }
        None => Ok(None),
    }
}

// Decisions of nodes, each of which stands behind those that it names.
fn finished(
    alloc: Global,
    nodes: Vec<Node>,
    rows: usize,
    by_rows: bool,
) -> Result<Decisions, NoMemory>
    requires { AreOrderly (turned (length nodes.items - 1) (map node_tree nodes.items)) rows }
    ensures nodes { IfOk result (λ found. nodes_in found ≡ turned (length nodes.items - 1) (map node_tree nodes.items)) }
    ensures rows { IfOk result (λ found. found.rows ≡ rows) }
    ensures tests { IfOk result (λ found. found.tests ≡ count_by is_test (nodes_in found)) }
    ensures by_rows { IfOk result (λ found. found.by_rows ≡ by_rows) }
{
    let nodes = turned(alloc, nodes)?;
    let tests = number_of(tests_in(&nodes))?;
    let rows = number_of(rows)?;
    Ok(Decisions::new(nodes, rows, tests, by_rows))
}
