ghost use Rattle.std.specs.Prelude.{◌≡◌};
ghost use Rattle.kk_core.specs.Decisions.{IsOrderly};

/// What stands at a position of a value, and what a row asks for there.
#[derive(Clone, Copy, PartialEq, Eq, Hash)]
pub enum Answer {
    Number(i32),
    /// The constructor that made the value, by its number.
    Constructor(u32),
}

/// Where a test leads if it finds an answer.
#[derive(Clone, Copy)]
pub struct Edge {
    pub found: Answer,
    /// The number of a later node.
    pub next: u32,
}

/// A node of decisions.
#[derive(Drop)]
pub enum Node {
    /// The row of this number is chosen.
    Choose(u32),
    /// What stands at a position decides which node is next: that of the first edge with that answer, or else that of the
    /// second number, if there is one. The position is a way through fields from the value that is matched: the number of
    /// a field, from 0, then that of a field of its cell, and so on.
    Test(Vec<u32>, Vec<Edge>, Option<u32>),
}

/// Which row of a match is taken, decided by tests of one position each. The first node is the start; each node names
/// later nodes alone, so the decisions end.
#[derive(Drop)]
pub struct Decisions {
    nodes: Vec<Node>,
    rows: u32,
    tests: u32,
    by_rows: bool,
    ghost orderly: { IsOrderly nodes.items rows },
}

impl Decisions {
    /// The decisions of these nodes among so many rows; `tests` and `by_rows` are told again.
    pub fn new(nodes: Vec<Node>, rows: u32, tests: u32, by_rows: bool) -> Self
        requires { IsOrderly nodes.items rows }
        ensures nodes { result.nodes ≡ nodes }
        ensures rows { result.rows ≡ rows }
        ensures tests { result.tests ≡ tests }
        ensures by_rows { result.by_rows ≡ by_rows }
    {
        Decisions {
            nodes,
            rows,
            tests,
            by_rows,
        }
    }

    /// The nodes. There is a first one.
    pub fn nodes(&self) -> &[Node]
        ensures { result.now ≡ self.now.nodes.items }
    {
        &self.nodes
    }

    /// The number of rows. Each row that is chosen is below it.
    pub fn rows(&self) -> u32
        ensures { result ≡ self.now.rows }
    {
        self.rows
    }

    /// The number of nodes that test.
    pub fn tests(&self) -> u32
        ensures { result ≡ self.now.tests }
    {
        self.tests
    }

    /// Whether the rows are tried one after the other, where a graph without repeated tests would have been too large.
    pub fn by_rows(&self) -> bool
        ensures { result ≡ self.now.by_rows }
    {
        self.by_rows
    }
}
