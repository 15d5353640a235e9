ghost use Rattle.std.specs.Prelude.{◌≡◌, ◌<◌, ◌++◌, IfOk, OnOk, ◌==◌, find, reverse};
ghost use Rattle.kk_syntax.specs.Typing.{bool};
ghost use Rattle.kk_walk.specs.Walks.{AreBoundBelow};

use kk_base::NoMemory;
use kk_syntax::{Binder, Program, Taken, TypeNode};
use kk_unify::Graph;
use std::alloc::Global;

/// A walk over the body of a function.
#[derive(Drop)]
pub struct Walk {
    pub alloc: Global,
    /// The types of the parts of the body.
    pub graph: Graph,
    /// The variables that are bound, the newest one last.
    pub scope: Vec<Bound>,
    /// The nodes where the types are that the body is taken at.
    pub taken: Vec<Taken>,
}

impl Walk {
    ghost use Rattle.kk_unify.specs.GraphOf.{type_by, IsAddable, variables_of};
    ghost use Rattle.kk_walk.specs.Claims.{typed_as, bound_as, bounds_by};
    ghost use Rattle.kk_walk.specs.Steps.{size_of, Walked, Made, Opened};

    /// Asks that the type of a node is this one.
    pub fn is(&mut self, node: u32, ty: TypeNode) -> Result<bool, NoMemory>
        requires inside { node < size_of self.old }
        requires addable { IsAddable (variables_of self.old.graph) (size_of self.old) ty }
        ensures { Walked self.old self.new (typed_as node (λ r. type_by r ty)) result }
    {
        let made = self.graph.add(ty)?;
        self.graph.join(node, made)
    }

    /// Asks that two nodes are of one type.
    pub fn same(&mut self, node: u32, other: u32) -> Result<bool, NoMemory>
        requires node { node < size_of self.old }
        requires other { other < size_of self.old }
        ensures { Walked self.old self.new (typed_as node (λ r. r other)) result }
    {
        self.graph.join(node, other)
    }

    /// Asks that a variable is bound, and of the type of a node.
    pub fn variable(&mut self, variable: u32, want: u32) -> Result<bool, NoMemory>
        requires scope { AreBoundBelow (size_of self.old) self.old.scope.items }
        requires want { want < size_of self.old }
        ensures { Walked self.old self.new (bound_as self.old.scope.items variable want) result }
    {
        match newest(&self.scope, variable) {
            Some(bound) => self.same(bound.node, want),
            None => Ok(false),
        }
    }

    /// Binds what a statement binds to the node of its value.
    pub fn enter(&mut self, binder: Binder, node: u32) -> Result<(), NoMemory>
        ensures scope { OnOk result (self.new.scope.items ≡ self.old.scope.items ++ bounds_by binder node) }
        ensures graph { self.new.graph ≡ self.old.graph }
        ensures taken { self.new.taken ≡ self.old.taken }
    {
        match binder {
            Binder::Nothing | Binder::Wildcard => Ok(()),
            Binder::Variable(variable) => {
                self.scope.push(Bound { variable, node })?;
                Ok(())
            }
        }
    }

    /// A node that is `bool`.
    pub fn truth(&mut self) -> Result<u32, NoMemory>
        ensures { IfOk result (λ node. Made self.old self.new node (λ r. bool)) }
    {
        self.graph
            .add(TypeNode::Named(Program::BOOL, Vec::new(self.alloc)))
    }

    /// Takes a new node, of any type.
    pub fn take(&mut self) -> Result<u32, NoMemory>
        ensures { IfOk result (λ node. Opened self.old self.new node) }
    {
        let node = self.graph.open()?;
        self.taken.push(Taken::Value(node))?;
        Ok(node)
    }
}

/// A variable that is bound, and the node of its type.
#[derive(Clone, Copy)]
pub struct Bound {
    pub variable: u32,
    pub node: u32,
}

/// The newest variable of this number in a scope, if there is one. The newest of all stands last.
pub fn newest(scope: &[Bound], variable: u32) -> Option<Bound>
    ensures { result ≡ find (λ bound. bound.variable == variable) (reverse scope.now) }
{
    scope
        .iter()
        .rev()
        .copied()
        .find(|bound| bound.variable == variable)
}
