ghost use Rattle.std.specs.Prelude.{◌≡◌, ◌≤◌, None, map, vec_len};
ghost use Rattle.kk_syntax.specs.Trees.{expr_tree, trees_of, apply as applied};
ghost use Rattle.kk_source.specs.State.{end_at};
ghost use Rattle.kk_source.specs.Sound.{IsOlder};
ghost use Rattle.kk_source.specs.Step.{at_value, part_step, expression_step, step_of};
ghost use Rattle.kk_meaning.specs.View.{value_view, environment_of};
ghost use Rattle.kk_meaning.specs.Frames.{block_tree, frame_view};
ghost use Rattle.kk_meaning.specs.Machines.{setting_of, configuration_of, Fits, HasEnvironment};
ghost use Rattle.kk_meaning.specs.Turns.{turn_of};
ghost use Rattle.kk_meaning.specs.Performs.{Performs};
ghost use Rattle.kk_source.specs.Actions.{goes};

use crate::binding::Bindings;
use crate::cell::Cell;
use crate::frame::{Block, Frame};
use crate::turn::Turn;
use crate::value::Value;
use kk_base::NoMemory;
use kk_syntax::{Expr, Form, Positions, Program};
use std::alloc::Global;

/// How the machine has come to its end.
#[derive(Clone, Copy)]
pub enum Stop {
    Ended,
    HeapFull,
    StackFull,
}

/// What the machine is at: an expression, or what is left of a block, with its environment; a value; or its end.
#[derive(Clone, Copy)]
pub enum Control<'a> {
    Expression(&'a Expr, usize),
    Rest(Block<'a>, usize),
    Value(Value),
    Stopped(Stop),
}

/// The store machine of a program.
#[derive(Drop)]
pub struct Machine<'a> {
    pub alloc: Global,
    pub program: &'a Program,
    pub positions: Positions,
    pub cells: u32,
    pub depth: u32,
    pub control: Control<'a>,
    /// The newest frame is the last.
    pub frames: Vec<Frame<'a>>,
    /// The number of call frames.
    pub calls: usize,
    pub bindings: Bindings,
    pub store: Vec<Cell>,
}

impl<'a> Machine<'a> {
    /// One step. At the end there are no more: the same turn comes again.
    pub fn step(&mut self) -> Result<Turn, NoMemory>
        requires fits { Fits self.old }
        requires older { IsOlder (configuration_of self.old).store }
        ensures { Performs (step_of (setting_of self.old) (configuration_of self.old)) self.old self.new result }
    {
        match self.control {
            Control::Expression(expr, environment) => self.evaluate(expr, environment),
            Control::Rest(rest, environment) => self.enter(rest, environment),
            Control::Value(value) => self.resume(value),
            Control::Stopped(Stop::Ended) => Ok(Turn::Ended),
            Control::Stopped(Stop::HeapFull) => Ok(Turn::HeapFull),
            Control::Stopped(Stop::StackFull) => Ok(Turn::StackFull),
        }
    }

    // The step at an expression.
    #[cycle(evaluate)]
    fn evaluate(&mut self, expr: &'a Expr, environment: usize) -> Result<Turn, NoMemory>
        requires fits { Fits self.old }
        requires within { environment ≤ vec_len self.old.bindings.links }
        requires older { IsOlder (configuration_of self.old).store }
        requires going { end_at (configuration_of self.old).control ≡ None }
        ensures { Performs (expression_step (setting_of self.old) (expr_tree expr.now)
            (environment_of self.old.bindings.links.items environment) (configuration_of self.old))
            self.old self.new result }
    {
        match expr {
            Expr::Variable(variable) => {
                let value = self.bindings.value_of(environment, *variable);
                Ok(self.go_to(value))
            }
            Expr::Apply(form, arguments) => self.apply(*form, arguments, environment),
            Expr::If(condition, positive, negative) => {
                let frame = Frame::Branches {
                    positive,
                    negative,
                    environment,
                };
                self.wait(frame, condition, environment)
            }
            Expr::Match(scrutinee, rows) => {
                let frame = Frame::Rows { rows, environment };
                self.wait(frame, scrutinee, environment)
            }
            Expr::Block(statements, value) => self.enter(Block { statements, value }, environment),
        }
    }

    // The step at what is left of a block.
    #[cycle(evaluate)]
    fn enter(&mut self, rest: Block<'a>, environment: usize) -> Result<Turn, NoMemory>
        requires fits { Fits self.old }
        requires within { environment ≤ vec_len self.old.bindings.links }
        requires older { IsOlder (configuration_of self.old).store }
        requires going { end_at (configuration_of self.old).control ≡ None }
        ensures { Performs (expression_step (setting_of self.old) (block_tree rest.entry)
            (environment_of self.old.bindings.links.items environment) (configuration_of self.old))
            self.old self.new result }
    {
        let Block { statements, value } = rest;
        match statements.split_first() {
            Some((first, statements)) => {
                let frame = Frame::Statement {
                    variable: first.binder.variable(),
                    rest: Block { statements, value },
                    environment,
                };
                self.wait(frame, &first.value, environment)
            }
            None => self.evaluate(value, environment),
        }
    }

    // The step at a form with its arguments. Without arguments it acts at once.
    fn apply(
        &mut self,
        form: Form,
        arguments: &'a [Expr],
        environment: usize,
    ) -> Result<Turn, NoMemory>
        requires fits { Fits self.old }
        requires within { environment ≤ vec_len self.old.bindings.links }
        requires older { IsOlder (configuration_of self.old).store }
        requires going { end_at (configuration_of self.old).control ≡ None }
        ensures { Performs (expression_step (setting_of self.old)
            (applied form (trees_of (map expr_tree arguments.now)))
            (environment_of self.old.bindings.links.items environment) (configuration_of self.old))
            self.old self.new result }
    {
        match arguments.split_first() {
            Some((first, left)) => {
                let frame = Frame::Arguments {
                    form,
                    values: Vec::new(self.alloc),
                    left,
                    environment,
                };
                self.wait(frame, first, environment)
            }
            None => {
                let older = self.frames.len();
                self.finish(form, &[], older)
            }
        }
    }

    // A form, an `if`, a match or a block waits for its first part.
    fn wait(
        &mut self,
        frame: Frame<'a>,
        first: &'a Expr,
        environment: usize,
    ) -> Result<Turn, NoMemory>
        requires fits { Fits self.old }
        requires within { environment ≤ vec_len self.old.bindings.links }
        requires frame { HasEnvironment environment frame }
        ensures { Performs (part_step (expr_tree first.now)
            (environment_of self.old.bindings.links.items environment)
            (frame_view self.old.bindings.links.items frame.entry) (configuration_of self.old))
            self.old self.new result }
    {
        self.frames.push(frame)?;
        self.control = Control::Expression(first, environment);
        Ok(Turn::Went)
    }

    // The machine is at a value.
    fn go_to(&mut self, value: Value) -> Turn
        requires fits { Fits self.old }
        ensures setting { setting_of self.new ≡ setting_of self.old }
        ensures fits { Fits self.new }
        ensures turn { (result, configuration_of self.new)
            ≡ turn_of (configuration_of self.old) (goes (at_value (value_view value) (configuration_of self.old))) }
    {
        self.control = Control::Value(value);
        Turn::Went
    }
}
