ghost use Rattle.std.specs.Prelude.{◌≡◌, ◌<◌, ℕ, List, ◌∷◌, ◌++◌, [], length, slice_index_or, OnOk, OnErr};
ghost use Rattle.kk_counted.specs.Programs.{IsFunctionOf, AreFunctions, program_of};
ghost use Rattle.kk_counted.specs.InstancePositions.{positions_in};
ghost use Rattle.kk_counted.specs.Spending.{IsSpent};

use crate::form::Block;
use crate::shape::Shape;
use kk_base::NoMemory;
use std::alloc::Global;

/// The function of an instance, in counted form. An emitter makes it, or a pass that rewrites one.
#[derive(Drop)]
pub struct CountedFun {
    instance: u32,
    parameters: u32,
    body: Block,
}

impl CountedFun {
    /// The function of an instance, with so many parameters and this body. A program takes it where it spends what it owns.
    pub fn new(instance: u32, parameters: u32, body: Block) -> Self
        ensures { result ≡ record { instance = instance; parameters = parameters; body = body } }
    {
        CountedFun {
            instance,
            parameters,
            body,
        }
    }

    /// The number of its instance.
    pub fn instance(&self) -> u32
        ensures { result ≡ self.now.instance }
    {
        self.instance
    }

    /// The number of its parameters: parameter `i` is variable `i`.
    pub fn parameters(&self) -> u32
        ensures { result ≡ self.now.parameters }
    {
        self.parameters
    }

    /// What it does.
    pub fn body(&self) -> &Block
        ensures { result.now ≡ self.now.body }
    {
        &self.body
    }
}

/// A program in counted form: its shape and the functions of its first instances, each of which spends what it owns. Once it
/// has a function for each instance it is whole.
#[derive(Drop)]
pub struct Counted {
    shape: Shape,
    functions: Vec<CountedFun>,
    body_nodes: u64,
    nodes: u64,
    ghost spent: { ∥ AreFunctions (positions_in shape.instances.items) functions.items ∥₁ },
}

impl Counted {
    #[tactic(auto, using(crate::proofs::Programs::no_functions))]
    /// No function yet. `body_nodes` is the greatest number of nodes of a body, and `nodes` that of all instances together.
    pub fn new(alloc: Global, shape: Shape, body_nodes: u64, nodes: u64) -> Self
        ensures shape { result.shape ≡ shape }
        ensures functions { result.functions.items ≡ [] }
        ensures body_nodes { result.body_nodes ≡ body_nodes }
        ensures nodes { result.nodes ≡ nodes }
    {
        Counted {
            shape,
            functions: Vec::new(alloc),
            body_nodes,
            nodes,
        }
    }

    /// The shape of its instances and constructors.
    pub fn shape(&self) -> &Shape
        ensures { result.now ≡ self.now.shape }
    {
        &self.shape
    }

    /// The functions, each at its instance's number.
    pub fn functions(&self) -> &[CountedFun]
        ensures { result.now ≡ self.now.functions.items }
    {
        &self.functions
    }

    /// All that it holds: the shape, the functions, the greatest number of nodes of a body and that of all together.
    pub fn parts(self) -> (Shape, Vec<CountedFun>, u64, u64)
        ensures { result ≡ record { 0 = self.shape; 1 = self.functions; 2 = self.body_nodes; 3 = self.nodes } }
    {
        (self.shape, self.functions, self.body_nodes, self.nodes)
    }

    /// Adds the function of the next instance. Refused, it changes nothing.
    pub fn add(&mut self, function: CountedFun) -> Result<(), NoMemory>
        requires { ∥ IsFunctionOf (positions_in self.old.shape.instances.items) (length self.old.functions.items) function ∥₁ }
        ensures ok { OnOk result (self.new.functions.items ≡ self.old.functions.items ++ function ∷ []) }
        ensures err { OnErr result (self.new.functions.items ≡ self.old.functions.items) }
        ensures shape { self.new.shape ≡ self.old.shape }
        ensures body_nodes { self.new.body_nodes ≡ self.old.body_nodes }
        ensures nodes { self.new.nodes ≡ self.old.nodes }
    {
        self.functions.push(function)?;
        Ok(())
    }
}

/// Each function of a program is that of the instance of its number, and spends what it owns. So the laws of judged code hold
/// of a program whose first function is there and has no parameters. It is a law, and does nothing.
#[tactic(auto, using(crate::proofs::Programs::programs_spent))]
pub fn counted_programs_are_judged(program: &Counted)
    requires some { 0 < length program.now.functions.items }
    requires main { slice_index_or (positions_in program.now.shape.instances.items) 0 [] ≡ [] }
    ensures functions { ∥ AreFunctions (positions_in program.now.shape.instances.items) program.now.functions.items ∥₁ }
    ensures spent { (texts : List (List ℕ))
        → ∥ IsSpent (positions_in program.now.shape.instances.items) (program_of program.now.functions.items texts) ∥₁ }
{}
