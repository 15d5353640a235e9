ghost use Rattle.std.specs.Prelude.{◌≡◌, [], map, option_map, count_by, Some, None, IfOk};
ghost use Rattle.kk_core.specs.Decisions.{node_tree};
ghost use Rattle.kk_match.specs.Built.{IsRight};
ghost use Rattle.kk_match.specs.Decided.{is_test};
ghost use Rattle.kk_match.specs.Graphs.{test_of, after};
ghost use Rattle.kk_match.specs.GraphGrowth.{AreApart, IsBuilt, IsNumbered, IsMade, HasEdges, HasOther, IsPut};
ghost use Rattle.kk_match.specs.Outcomes.{IsOutcome, with_lines};
ghost use Rattle.kk_match.specs.Views.{part_of, state_tree, graph_tree, types_given};

use crate::outcome::{asked, unlisted};
use crate::question::Question;
use crate::state::State;
use indexmap::IndexSet;
use kk_base::NoMemory;
use kk_core::{Answer, Edge, Node};
use kk_syntax::GroundConstructor;
use std::alloc::Global;

/// What the building of a graph reads.
#[derive(Drop)]
pub struct Given<'g> {
    pub alloc: Global,
    /// The constructors of the program, by their numbers.
    pub constructors: &'g [GroundConstructor],
    /// How many states may test.
    pub most: usize,
}

/// A graph of tests while it is built. Node `k` is that of state `k`, and stands behind the nodes that it names.
#[derive(Drop)]
pub struct Graph<'a> {
    states: IndexSet<State<'a>>,
    pub nodes: Vec<Node>,
    /// How many nodes test.
    pub tests: usize,
}

impl<'a> Graph<'a> {
    /// A graph without states and nodes.
    pub fn new(alloc: Global) -> Self
        ensures { graph_tree result ≡ record { states = []; nodes = []; tests = 0 } }
    {
        Graph {
            states: IndexSet::new(alloc),
            nodes: Vec::new(alloc),
            tests: 0,
        }
    }

    /// The number of a state, which is added behind those that it leads to where it is not there. None where more states
    /// than may test. The recursion is as deep as a path of tests.
    #[cycle(number)]
    pub fn number(&mut self, given: &Given<'_>, state: State<'a>) -> Result<Option<u32>, NoMemory>
        requires { IsBuilt (types_given given.now) given.now.most (graph_tree self.old) }
        ensures { IfOk result (IsNumbered (types_given given.now) given.now.most (graph_tree self.old)
            (state_tree state.entry) (state_tree state.entry) (graph_tree self.new)) }
    {
        if let Some(known) = self.states.get_index_of(&state) {
            let number = number_of(known)?;
            return Ok(Some(number));
        }
        match self.node(given, &state)? {
            Some(node) => self.add(given, state, node),
            None => Ok(None),
        }
    }

    // The node of a state.
    #[cycle(number)]
    fn node(&mut self, given: &Given<'_>, state: &State<'a>) -> Result<Option<Node>, NoMemory>
        requires { IsBuilt (types_given given.now) given.now.most (graph_tree self.old) }
        ensures { IfOk result (IsMade (types_given given.now) given.now.most (graph_tree self.old)
            (state_tree state.now) (graph_tree self.new)) }
    {
        match state.test() {
            Some(test) => self.branch(given, state, test),
            None => Ok(Some(Node::Choose(state.row()))),
        }
    }

    // The node of a state that tests.
    #[cycle(number)]
    fn branch(
        &mut self,
        given: &Given<'_>,
        state: &State<'a>,
        test: &Question,
    ) -> Result<Option<Node>, NoMemory>
        requires built { IsBuilt (types_given given.now) given.now.most (graph_tree self.old) }
        requires is_test { test_of (state_tree state.now) ≡ Some (part_of test.now) }
        ensures { IfOk result (IsMade (types_given given.now) given.now.most (graph_tree self.old)
            (state_tree state.now) (graph_tree self.new)) }
    {
        let answers = asked(given.alloc, given.constructors, test, state)?;
        let Some(edges) = self.edges(given, state, test, &answers)? else {
            return Ok(None);
        };
        let Some(otherwise) = self.otherwise(given, state, test, &answers)? else {
            return Ok(None);
        };
        let at = Vec::from_slice(given.alloc, &test.at)?;
        Ok(Some(Node::Test(at, edges, otherwise)))
    }

    // An edge for each answer.
    #[cycle(number)]
    fn edges(
        &mut self,
        given: &Given<'_>,
        state: &State<'a>,
        test: &Question,
        answers: &[Answer],
    ) -> Result<Option<Vec<Edge>>, NoMemory>
        requires built { IsBuilt (types_given given.now) given.now.most (graph_tree self.old) }
        requires is_test { test_of (state_tree state.now) ≡ Some (part_of test.now) }
        requires answers { answers.now ≡ with_lines (types_given given.now) (part_of test.now) [] (state_tree state.now) }
        ensures { IfOk result (λ found. HasEdges (types_given given.now) given.now.most (graph_tree self.old)
            (state_tree state.now) (part_of test.now) answers.now (graph_tree self.new) (option_map (λ edges. edges.items) found)) }
    {
        let mut edges = Vec::new(given.alloc);
        for answer in answers {
            match self.step(given, state, test, Some(*answer))? {
                Some(next) => edges.push(Edge {
                    found: *answer,
                    next,
                })?,
                None => return Ok(None),
            }
        }
        Ok(Some(edges))
    }

    // What leads on by none of the answers.
    #[cycle(number)]
    fn otherwise(
        &mut self,
        given: &Given<'_>,
        state: &State<'a>,
        test: &Question,
        answers: &[Answer],
    ) -> Result<Option<Option<u32>>, NoMemory>
        requires built { IsBuilt (types_given given.now) given.now.most (graph_tree self.old) }
        requires is_test { test_of (state_tree state.now) ≡ Some (part_of test.now) }
        ensures { IfOk result (HasOther (types_given given.now) given.now.most (graph_tree self.old)
            (state_tree state.now) (part_of test.now) answers.now (graph_tree self.new)) }
    {
        match unlisted(given.constructors, test.asked, answers)? {
            Some(outcome) => match self.step(given, state, test, outcome)? {
                Some(next) => Ok(Some(Some(next))),
                None => Ok(None),
            },
            None => Ok(Some(None)),
        }
    }

    // The number of the state that an outcome of a test leaves.
    #[cycle(number)]
    fn step(
        &mut self,
        given: &Given<'_>,
        state: &State<'a>,
        test: &Question,
        outcome: Option<Answer>,
    ) -> Result<Option<u32>, NoMemory>
        requires built { IsBuilt (types_given given.now) given.now.most (graph_tree self.old) }
        requires is_test { test_of (state_tree state.now) ≡ Some (part_of test.now) }
        requires outcome { IsOutcome (types_given given.now) test.now.asked outcome }
        ensures { IfOk result (IsNumbered (types_given given.now) given.now.most (graph_tree self.old)
            (state_tree state.now) (after test.now.at.items outcome (state_tree state.now)) (graph_tree self.new)) }
    {
        let later = state.after(given.alloc, &test.at, outcome)?;
        self.number(given, later)
    }

    // Puts a state with its node behind those that the node names. Nothing is put where the state is there already.
    fn add(
        &mut self,
        given: &Given<'_>,
        state: State<'a>,
        node: Node,
    ) -> Result<Option<u32>, NoMemory>
        requires built { IsBuilt (types_given given.now) given.now.most (graph_tree self.old) }
        requires right { IsRight (types_given given.now) (map state_tree self.old.states.keys) (state_tree state) (node_tree node) }
        ensures { IfOk result (IsNumbered (types_given given.now) given.now.most (graph_tree self.old)
            (state_tree state.entry) (state_tree state.entry) (graph_tree self.new)) }
    {
        let tests = is_test(&node);
        let (number, is_new) = put(&mut self.states, state)?;
        if is_new {
            if tests {
                if self.tests == given.most {
                    return Ok(None);
                }
                self.tests += 1;
            }
            self.nodes.push(node)?;
        }
        Ok(Some(number))
    }
}

// The number of a state, which is put behind the others where it is new, and whether it is.
fn put<'a>(states: &mut IndexSet<State<'a>>, state: State<'a>) -> Result<(u32, bool), NoMemory>
    requires { AreApart (map state_tree states.old.keys) }
    ensures { IfOk result (λ found. IsPut (map state_tree states.old.keys) (state_tree state.entry)
        (map state_tree states.new.keys) found.0 found.1) }
{
    let (index, is_new) = states.insert_full(state)?;
    let number = number_of(index)?;
    Ok((number, is_new))
}

fn is_test(node: &Node) -> bool
    ensures { result ≡ is_test (node_tree node.now) }
{
    match node {
        Node::Choose(_) => false,
        Node::Test(_, _, _) => true,
    }
}

/// How many nodes test.
pub fn tests_in(nodes: &[Node]) -> usize
    ensures { result ≡ count_by is_test (map node_tree nodes.now) }
{
    nodes.iter().filter(|node| is_test(node)).count()
}

/// A number of a node as nodes name it.
pub fn number_of(index: usize) -> Result<u32, NoMemory>
    ensures { IfOk result (λ number. number ≡ index) }
{
    match u32::try_from(index) {
        Ok(number) => Ok(number),
        Err(_) => Err(NoMemory),
    }
}
