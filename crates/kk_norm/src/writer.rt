ghost use Rattle.std.specs.Prelude.{◌≡◌, ◌+◌, ◌<◌, ◌≤◌, ◌^◌, [], length, take, IfOk};
ghost use Rattle.kk_syntax.specs.Shapes.{variable_of};
ghost use Rattle.kk_core.specs.Codes.{block_code, step_piece, last_code, computes, uses, runs};
ghost use Rattle.kk_norm.specs.Names.{name_of, named};
ghost use Rattle.kk_norm.specs.Normalized.{finish, final};
ghost use Rattle.kk_norm.specs.Written.{names_of, behind, WritesPiece, WritesStep};

use crate::naming::{Named, name_among};
use kk_base::NoMemory;
use kk_core::{Block, Last, Step};
use kk_syntax::{Binder, Form};
use std::alloc::Global;

/// What writes the code of a function.
#[derive(Drop)]
pub struct Writer {
    pub alloc: Global,
    /// The names of the variables that are bound. The last one of a variable counts.
    pub names: Vec<Named>,
    /// The steps of the block that is written.
    pub steps: Vec<Step>,
    /// The next number of a variable.
    pub next: u32,
}

impl Writer {
    /// A writer of a function with so many parameters. It has written nothing.
    pub fn new(alloc: Global, parameters: u32) -> Self
        ensures names { result.names.items ≡ [] }
        ensures steps { result.steps.items ≡ [] }
        ensures number { result.next ≡ parameters }
    {
        Writer {
            alloc,
            names: Vec::new(alloc),
            steps: Vec::new(alloc),
            next: parameters,
        }
    }

    /// The name of a variable.
    pub fn name(&self, variable: u32) -> u32
        ensures { result ≡ name_of (names_of self.now.names.items) variable }
    {
        name_among(self.names.as_slice(), variable)
    }

    /// Names what a statement binds.
    pub fn bind(&mut self, binder: Binder, name: u32) -> Result<(), NoMemory>
        ensures number { self.new.next ≡ self.old.next }
        ensures steps { self.new.steps.items ≡ self.old.steps.items }
        ensures names { IfOk result (λ _. names_of self.new.names.items ≡ named (variable_of binder) name (names_of self.old.names.items)) }
        ensures longer { length self.old.names.items ≤ length self.new.names.items }
        ensures kept { take (length self.old.names.items) self.new.names.items ≡ self.old.names.items }
    {
        match binder {
            Binder::Nothing | Binder::Wildcard => Ok(()),
            Binder::Variable(variable) => {
                self.names.push(Named { variable, name })?;
                Ok(())
            }
        }
    }

    /// Writes a step.
    pub fn push(&mut self, step: Step) -> Result<(), NoMemory>
        ensures { IfOk result (λ _. WritesPiece (step_piece step) self.old self.new) }
    {
        self.steps.push(step)?;
        Ok(())
    }

    /// Writes that a variable is still of use.
    pub fn use_variable(&mut self, variable: u32) -> Result<(), NoMemory>
        ensures { IfOk result (λ _. WritesPiece (uses variable) self.old self.new) }
    {
        self.push(Step::Use(variable))
    }

    /// Writes a form on variables, and gives the variable that takes its value.
    pub fn compute(&mut self, form: Form, arguments: Vec<u32>) -> Result<u32, NoMemory>
        requires room { self.old.next + 1 < 2 ^ 32 }
        ensures { IfOk result (λ x. WritesStep (computes self.old.next form arguments.items) self.old self.new x) }
    {
        let variable = self.next;
        self.push(Step::Let(variable, form, arguments))?;
        self.next += 1;
        Ok(variable)
    }

    /// Writes a block as a step, and gives the variable that takes its value.
    pub fn inside(&mut self, block: Block) -> Result<u32, NoMemory>
        requires room { self.old.next + 1 < 2 ^ 32 }
        ensures { IfOk result (λ x. WritesStep (runs self.old.next (block_code block)) self.old self.new x) }
    {
        let variable = self.next;
        self.push(Step::Inside(variable, block))?;
        self.next += 1;
        Ok(variable)
    }

    /// Writes a form on variables that ends a block. In tail position a call is a tail call.
    pub fn finish(&mut self, tail: bool, form: Form, arguments: Vec<u32>) -> Result<Last, NoMemory>
        requires room { self.old.next + 1 < 2 ^ 32 }
        ensures number { IfOk result (λ _. self.new.next ≡ self.old.next + 1) }
        ensures names { IfOk result (λ _. self.new.names.items ≡ self.old.names.items) }
        ensures steps { IfOk result (λ last. behind self.new (last_code last)
            ≡ behind self.old (finish (final tail) self.old.next form arguments.items)) }
    {
        match form {
            Form::Call(function) if tail => {
                self.next += 1;
                Ok(Last::TailCall(function, arguments))
            }
            _ => {
                let variable = self.compute(form, arguments)?;
                Ok(Last::Return(variable))
            }
        }
    }
}
