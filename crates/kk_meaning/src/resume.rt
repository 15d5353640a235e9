ghost use Rattle.std.specs.Prelude.{◌≡◌, None, ◌∷◌, ◌++◌, [], IfOk};
ghost use Rattle.kk_source.specs.State.{value as at, ended, end_at};
ghost use Rattle.kk_source.specs.Sound.{IsOlder};
ghost use Rattle.kk_source.specs.Step.{at_end, value_step};
ghost use Rattle.kk_meaning.specs.View.{value_view};
ghost use Rattle.kk_meaning.specs.Machines.{setting_of, configuration_of, Fits, Awaits, IsNewest, IsCall};
ghost use Rattle.kk_meaning.specs.Turns.{turn_of};
ghost use Rattle.kk_meaning.specs.Performs.{Performs};
ghost use Rattle.kk_meaning.specs.declared.frame.Frame.TheVariants as OfFrame;
ghost use Rattle.kk_source.specs.Actions.{goes};

use crate::binding::Bound;
use crate::frame::{Block, Frame};
use crate::machine::{Control, Machine, Stop};
use crate::matching::first_match;
use crate::turn::Turn;
use crate::value::Value;
use kk_base::NoMemory;
use kk_syntax::{Expr, Row};
use std::alloc::Global;

impl<'a> Machine<'a> {
    /// The step at a value: the newest frame has waited for it.
    pub fn resume(&mut self, value: Value) -> Result<Turn, NoMemory>
        requires fits { Fits self.old }
        requires at { (configuration_of self.old).control ≡ at (value_view value) }
        requires older { IsOlder (configuration_of self.old).store }
        ensures { let before = configuration_of self.old in
            Performs (value_step (setting_of self.old) (value_view value) before.frames before) self.old self.new result }
    {
        let Some(frame) = self.frames.last() else {
            return Ok(self.end());
        };
        match frame {
            Frame::Arguments {
                form,
                values,
                left,
                environment,
            } => {
                let (form, environment) = (*form, *environment);
                match left.split_first() {
                    Some((next, left)) => self.keep(value, next, left, environment),
                    None => {
                        let values = with_last(self.alloc, values.as_slice(), value)?;
                        let older = self.frames.len() - 1;
                        self.finish(form, &values, older)
                    }
                }
            }
            Frame::Branches {
                positive,
                negative,
                environment,
            } => {
                let branch = if value.is_true() {
                    *positive
                } else {
                    *negative
                };
                let environment = *environment;
                self.frames.pop();
                self.control = Control::Expression(branch, environment);
                Ok(Turn::Went)
            }
            Frame::Rows { rows, environment } => {
                let (rows, environment) = (*rows, *environment);
                self.choose(rows, environment, value)
            }
            Frame::Statement {
                variable,
                rest,
                environment,
            } => {
                let (variable, rest, environment) = (*variable, *rest, *environment);
                self.go_on(variable, rest, environment, value)
            }
            Frame::Call { before, .. } => {
                let before = *before;
                Ok(self.leave(before, value))
            }
        }
    }

    // The newest frame has one more argument, and goes on to the next.
    fn keep(
        &mut self,
        value: Value,
        next: &'a Expr,
        left: &'a [Expr],
        environment: usize,
    ) -> Result<Turn, NoMemory>
        requires fits { Fits self.old }
        requires newest { Awaits next.now left.now environment self.old.frames.items }
        ensures { let before = configuration_of self.old in
            Performs (value_step (setting_of self.old) (value_view value) before.frames before) self.old self.new result }
    {
        let Some(frame) = self.frames.last_mut() else {
            return Ok(Turn::Went);
        };
        match frame {
            Frame::Arguments {
                values,
                left: rest,
                ..
            } => {
                values.push(value)?;
                *rest = left;
                self.control = Control::Expression(next, environment);
                Ok(Turn::Went)
            }
            _ => Ok(Turn::Went),
        }
    }

    // A match has its scrutinee: the first row that matches comes. Where none does the machine stays.
    fn choose(
        &mut self,
        rows: &'a [Row],
        environment: usize,
        value: Value,
    ) -> Result<Turn, NoMemory>
        requires fits { Fits self.old }
        requires newest { IsNewest (OfFrame.Rows rows environment) self.old.frames.items }
        requires going { end_at (configuration_of self.old).control ≡ None }
        ensures { let before = configuration_of self.old in
            Performs (value_step (setting_of self.old) (value_view value) before.frames before) self.old self.new result }
    {
        let Some(chosen) = first_match(self.alloc, self.store.as_slice(), rows, value)? else {
            return Ok(Turn::Went);
        };
        let kept = self.bindings.len();
        let more = self
            .bindings
            .bind(kept, environment, chosen.bound.as_slice())?;
        self.frames.pop();
        self.control = Control::Expression(chosen.body, more);
        Ok(Turn::Went)
    }

    // A statement has its value, which its variable is bound to if it has one: what is left of the block comes.
    fn go_on(
        &mut self,
        variable: Option<u32>,
        rest: Block<'a>,
        environment: usize,
        value: Value,
    ) -> Result<Turn, NoMemory>
        requires fits { Fits self.old }
        requires newest { IsNewest (OfFrame.Statement variable rest environment) self.old.frames.items }
        ensures { let before = configuration_of self.old in
            Performs (value_step (setting_of self.old) (value_view value) before.frames before) self.old self.new result }
    {
        match variable {
            None => {
                self.frames.pop();
                self.control = Control::Rest(rest, environment);
                Ok(Turn::Went)
            }
            Some(variable) => {
                let bound = [Bound {
                    variable: variable as usize,
                    value,
                }];
                let kept = self.bindings.len();
                let more = self.bindings.bind(kept, environment, &bound)?;
                self.frames.pop();
                self.control = Control::Rest(rest, more);
                Ok(Turn::Went)
            }
        }
    }

    // A call has its value. Its frame and its bindings are given up; with the last one the run ends.
    fn leave(&mut self, before: usize, value: Value) -> Turn
        requires fits { Fits self.old }
        requires newest { IsCall before self.old.frames.items }
        requires at { (configuration_of self.old).control ≡ at (value_view value) }
        ensures setting { setting_of self.new ≡ setting_of self.old }
        ensures fits { Fits self.new }
        ensures turn { let old = configuration_of self.old in
            (result, configuration_of self.new)
            ≡ turn_of old (value_step (setting_of self.old) (value_view value) old.frames old) }
    {
        self.frames.pop();
        self.calls -= 1;
        self.bindings.truncate(before);
        self.control = Control::Value(value);
        if self.frames.is_empty() {
            self.end()
        } else {
            Turn::Went
        }
    }

    // The run has ended.
    fn end(&mut self) -> Turn
        requires fits { Fits self.old }
        ensures setting { setting_of self.new ≡ setting_of self.old }
        ensures fits { Fits self.new }
        ensures ended { (result, configuration_of self.new)
            ≡ turn_of (configuration_of self.old) (goes (at_end ended (configuration_of self.old))) }
    {
        self.control = Control::Stopped(Stop::Ended);
        Turn::Ended
    }
}

// The values, and one more behind them.
fn with_last(alloc: Global, values: &[Value], last: Value) -> Result<Vec<Value>, NoMemory>
    ensures { IfOk result (λ all. all.items ≡ values.now ++ last ∷ []) }
{
    let mut all = Vec::from_slice(alloc, values)?;
    all.push(last)?;
    Ok(all)
}
