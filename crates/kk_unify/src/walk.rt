ghost use Rattle.std.specs.Prelude.{◌≡◌, ◌<◌, ◌≤◌, ◌+◌, ◌^◌, ◌∷◌, [], ℕ, List, length, map, replicate, All, IfOk, MatchOption, MatchBool};
ghost use Rattle.kk_syntax.specs.Types.{TypeTree, type_at};
ghost use Rattle.kk_syntax.specs.TypedPrograms.{type_of_node};
ghost use Rattle.kk_unify.specs.Graphs.{NoneObeys};
ghost use Rattle.kk_unify.specs.NodesOf.{node_tree};
ghost use Rattle.kk_unify.specs.Unification.{IsHead, node_at};
ghost use Rattle.kk_unify.specs.Solutions.{NamesEarlier};
ghost use Rattle.kk_unify.specs.GraphWalk.{root_at, mark_at, made_type, arguments_of, KeepsNumbers};

use crate::node::Node;
use kk_base::NoMemory;
use kk_syntax::TypeNode;
use std::alloc::Global;

/// Where a node stands on the way through a graph.
#[derive(Clone, Copy)]
pub enum Mark {
    New,
    /// It is on the way, and its arguments come first.
    Entered,
    /// Its type is the node of this number that is made.
    Numbered(u32),
}

/// A node on the way, and the numbers of its first arguments.
#[derive(Drop)]
pub struct Frame {
    pub node: u32,
    pub numbers: Vec<u32>,
}

/// How far a graph is walked: the marks of its nodes, the nodes on the way, and the types that are made.
#[derive(Drop)]
pub struct Walk {
    pub marks: Vec<Mark>,
    pub frames: Vec<Frame>,
    pub made: Vec<TypeNode>,
}

/// A graph, and for each of its nodes the one that gives its type.
#[derive(Drop)]
pub struct Rooted<'a> {
    pub alloc: Global,
    pub variables: u32,
    pub nodes: &'a [Node],
    pub roots: Vec<u32>,
    ghost numbered: { variables + length nodes.now ≤ 2 ^ 32 },
}

impl Walk {
    ghost use Rattle.kk_unify.specs.declared.walk.Mark.TheVariants.{New};
    ghost use Rattle.kk_unify.specs.WalkOf.{IsEntered};

    /// A walk through so many nodes that has not begun.
    pub fn new(alloc: Global, count: usize) -> Result<Walk, NoMemory>
        ensures marks { IfOk result (λ walk. walk.marks.items ≡ replicate count New) }
        ensures frames { IfOk result (λ walk. walk.frames.items ≡ []) }
        ensures made { IfOk result (λ walk. walk.made.items ≡ []) }
    {
        let marks = vec![in alloc; Mark::New; count]?;
        Ok(Walk {
            marks,
            frames: Vec::new(alloc),
            made: Vec::new(alloc),
        })
    }

    // Enters a node.
    fn enter(&mut self, alloc: Global, node: u32) -> Result<(), NoMemory>
        requires { node < length self.old.marks.items }
        ensures { IfOk result (λ done. IsEntered self.old self.new node) }
    {
        self.frames.push(Frame {
            node,
            numbers: Vec::new(alloc),
        })?;
        self.marks[node as usize] = Mark::Entered;
        Ok(())
    }
}

impl Rooted<'_> {
    ghost use Rattle.kk_unify.specs.declared.walk.Mark.TheVariants.{New, Numbered};
    ghost use Rattle.kk_unify.specs.WalkOf.{graph_in, IsRootedIn, Stands, work_left, IsReadyIn, IsComplete, IsWanted, IsLeft};

    /// Walks from a root until it has a number, which is that of its type; `None` where no types obey the graph.
    pub fn visit(&self, walk: &mut Walk, root: u32) -> Result<Option<u32>, NoMemory>
        requires rooted { IsRootedIn self.now }
        requires stands { Stands self.now walk.old [] }
        requires none { walk.old.frames.items ≡ [] }
        requires root { (root < length self.now.nodes.now) × (root_at self.now.roots.items root ≡ root) }
        ensures visited { IfOk result (λ visited. MatchOption visited
            (NoneObeys (graph_in self.now))
            (λ number. mark_at walk.new.marks.items root ≡ Numbered number)) }
        ensures stands { IfOk result (λ visited. MatchOption visited (Unit {0}) (λ number. Stands self.now walk.new [])) }
        ensures none { IfOk result (λ visited. MatchOption visited (Unit {0}) (λ number. walk.new.frames.items ≡ [])) }
        ensures kept { IfOk result (λ visited. MatchOption visited (Unit {0}) (λ number. KeepsNumbers walk.old.marks.items walk.new.marks.items)) }
    {
        if let Mark::New = walk.marks[root as usize] {
            walk.enter(self.alloc, root)?;
        }
        while let Some(frame) = walk.frames.pop() {
            if !self.step(walk, frame)? {
                return Ok(None);
            }
        }
        match walk.marks[root as usize] {
            Mark::Numbered(number) => Ok(Some(number)),
            Mark::New | Mark::Entered => unreachable!(),
        }
    }

    // Goes on from a node: to an argument that has no number, or back; `false` where the argument is on the way.
    fn step(&self, walk: &mut Walk, mut frame: Frame) -> Result<bool, NoMemory>
        requires rooted { IsRootedIn self.now }
        requires stands { Stands self.now walk.old (frame ∷ []) }
        ensures stepped { IfOk result (λ stepped. MatchBool stepped
            (Stands self.now walk.new [])
            (NoneObeys (graph_in self.now))) }
        ensures less { IfOk result (λ stepped. MatchBool stepped (work_left walk.new < work_left walk.old) (Unit {0})) }
        ensures kept { IfOk result (λ stepped. MatchBool stepped (KeepsNumbers walk.old.marks.items walk.new.marks.items) (Unit {0})) }
        ensures known { IfOk result (λ stepped. MatchBool stepped ((i : ℕ) → mark_at walk.new.marks.items i ≡ New → mark_at walk.old.marks.items i ≡ New) (Unit {0})) }
    {
        match self.advance(&walk.marks, &mut frame)? {
            None => {
                self.leave(walk, frame)?;
                Ok(true)
            }
            Some(next) => {
                if let Mark::Entered = walk.marks[next as usize] {
                    return Ok(false);
                }
                walk.frames.push(frame)?;
                walk.enter(self.alloc, next)?;
                Ok(true)
            }
        }
    }

    // Takes the numbers of the next arguments of a node, up to one that has none.
    fn advance(&self, marks: &[Mark], frame: &mut Frame) -> Result<Option<u32>, NoMemory>
        requires rooted { IsRootedIn self.now }
        requires marks { length marks.now ≡ length self.now.nodes.now }
        requires node { frame.old.node < length self.now.nodes.now }
        requires ready { IsReadyIn self.now marks.now frame.old }
        ensures node { frame.new.node ≡ frame.old.node }
        ensures advanced { IfOk result (λ next. MatchOption next
            (IsComplete self.now marks.now frame.new)
            (IsWanted self.now marks.now frame.new)) }
    {
        let arguments = arguments(&self.nodes[frame.node as usize]);
        for argument in &arguments[frame.numbers.len()..] {
            let root = self.roots[*argument as usize];
            match marks[root as usize] {
                Mark::Numbered(number) => frame.numbers.push(number)?,
                Mark::New | Mark::Entered => return Ok(Some(root)),
            }
        }
        Ok(None)
    }

    // Makes the type of a node of which all arguments have numbers.
    fn leave(&self, walk: &mut Walk, frame: Frame) -> Result<(), NoMemory>
        requires rooted { IsRootedIn self.now }
        requires marks { length walk.old.marks.items ≡ length self.now.nodes.now }
        requires node { frame.node < length self.now.nodes.now }
        requires head { IsHead (node_at (graph_in self.now) frame.node) }
        requires numbers { All (λ number. number < length walk.old.made.items) frame.numbers.items }
        ensures { IfOk result (λ done. IsLeft self.now walk.old walk.new frame) }
    {
        let number = u32::try_from(walk.made.len()).map_err(|_| NoMemory)?;
        let Frame { node, numbers } = frame;
        let made = made_node(self.variables + node, &self.nodes[node as usize], numbers);
        walk.made.push(made)?;
        walk.marks[node as usize] = Mark::Numbered(number);
        Ok(())
    }
}

// The arguments of a node.
fn arguments(node: &Node) -> &[u32]
    ensures { result.now ≡ arguments_of (node_tree node.now) }
{
    match node {
        Node::Named(_, arguments) => arguments,
        _ => &[],
    }
}

// The type of a node by the numbers of its arguments' types; of one of any type, a variable of its own.
fn made_node(variable: u32, node: &Node, numbers: Vec<u32>) -> TypeNode
    requires { IsHead (node_tree node.now) }
    ensures made { (variables i : ℕ) → variables + i ≡ variable → (types : List TypeTree)
        → type_of_node types result ≡ made_type variables i (map (type_at types) numbers.items) (node_tree node.now) }
    ensures earlier { (count : ℕ) → All (λ number. number < count) numbers.items → NamesEarlier count result }
{
    match node {
        Node::Any => TypeNode::Variable(variable),
        Node::Same(_) => unreachable!(),
        Node::Int32 => TypeNode::Int32,
        Node::Unit => TypeNode::Unit,
        Node::Variable(of) => TypeNode::Variable(*of),
        Node::Named(by, _) => TypeNode::Named(*by, numbers),
    }
}
