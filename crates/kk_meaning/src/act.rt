ghost use Rattle.std.specs.Prelude.{◌≡◌, ◌≤◌, ◌++◌, None, map, reverse, take, vec_len, nat_le, slice_get, option_map, IfSome, IfNone, IfOk};
ghost use Rattle.kk_syntax.specs.Programs.{function_tree, program_tree};
ghost use Rattle.kk_source.specs.State.{end_at};
ghost use Rattle.kk_source.specs.Live.{held_by_all, live as live_of};
ghost use Rattle.kk_source.specs.Sound.{IsOlder};
ghost use Rattle.kk_source.specs.Step.{at_value, in_body, step_of, form_step, call_step, push_step};
ghost use Rattle.kk_meaning.specs.View.{value_view};
ghost use Rattle.kk_meaning.specs.Machines.{setting_of, configuration_of, frames_below, Fits, IsBelow, IsCallBelow, HasNoCall};
ghost use Rattle.kk_meaning.specs.Turns.{turn_of, TakesByte, without_read};
ghost use Rattle.kk_meaning.specs.Performs.{Performs};
ghost use Rattle.kk_source.specs.Actions.{goes};
ghost use Rattle.kk_syntax.specs.declared.program.Form.TheVariants.{Construct};

use crate::arithmetic::{binary, unary};
use crate::call::{lent, parameters};
use crate::cell::{Cell, live};
use crate::frame::Frame;
use crate::held::hold_frames;
use crate::machine::{Control, Machine, Stop};
use crate::print::{number_piece, text_piece};
use crate::turn::Turn;
use crate::value::{Value, argument};
use kk_base::NoMemory;
use kk_syntax::{Form, Fun, Program};

// In what follows `older` is the number of frames without that of the form, if the form has one.
impl<'a> Machine<'a> {
    /// A form has all its arguments.
    pub fn finish(&mut self, form: Form, values: &[Value], older: usize) -> Result<Turn, NoMemory>
        requires fits { Fits self.old }
        requires store { IsOlder (configuration_of self.old).store }
        requires below { IsBelow older self.old.frames.items }
        requires going { end_at (configuration_of self.old).control ≡ None }
        ensures { Performs (form_step (setting_of self.old) form (map value_view values.now)
            (frames_below older self.old) (configuration_of self.old))
            self.old self.new result }
    {
        match form {
            Form::Number(number) => Ok(self.give_back(Value::Integer(number), older)),
            Form::Unit => Ok(self.give_back(Value::Unit, older)),
            Form::ReadByte => Ok(Turn::WantsInput),
            Form::PrintText(form, text) => {
                let piece = text_piece(self.alloc, self.program, form, text)?;
                self.give_back(Value::Unit, older);
                Ok(Turn::of_print(piece))
            }
            Form::Unary(operator) => {
                let result = unary(operator, argument(values, 0));
                Ok(self.give_back(result, older))
            }
            Form::Binary(operator) => {
                let left = argument(values, 0).integer();
                let right = argument(values, 1).integer();
                Ok(self.give_back(binary(operator, left, right), older))
            }
            Form::Print(form) => {
                let number = argument(values, 0).integer();
                let piece = number_piece(self.alloc, form, number)?;
                self.give_back(Value::Unit, older);
                Ok(Turn::of_print(piece))
            }
            Form::Construct(constructor) => self.construct(constructor, values, older),
            Form::Call(function) => self.call(function, values, older),
        }
    }

    /// A form has its value, and its frame is given up.
    pub fn give_back(&mut self, value: Value, older: usize) -> Turn
        requires fits { Fits self.old }
        requires below { IsBelow older self.old.frames.items }
        ensures setting { setting_of self.new ≡ setting_of self.old }
        ensures fits { Fits self.new }
        ensures turn { (result, configuration_of self.new)
            ≡ turn_of (configuration_of self.old) (goes (at_value (value_view value)
            (record (configuration_of self.old) { frames = frames_below older self.old }))) }
    {
        self.frames.truncate(older);
        self.control = Control::Value(value);
        Turn::Went
    }

    /// The number of frames without that of a read. A read has a frame where it has waited for arguments, as in no typed
    /// program.
    pub fn frames_without_read(&self) -> usize
        requires { TakesByte (step_of (setting_of self.now) (configuration_of self.now)) }
        ensures below { IsBelow result self.now.frames.items }
        ensures frames { frames_below result self.now
            ≡ without_read (configuration_of self.now).control (configuration_of self.now).frames }
    {
        let Control::Value(_) = self.control else {
            return self.frames.len();
        };
        match self.frames.last() {
            Some(Frame::Arguments { .. }) => self.frames.len() - 1,
            _ => self.frames.len(),
        }
    }

    // A construction has all its arguments.
    fn construct(
        &mut self,
        constructor: u32,
        values: &[Value],
        older: usize,
    ) -> Result<Turn, NoMemory>
        requires fits { Fits self.old }
        requires store { IsOlder (configuration_of self.old).store }
        requires below { IsBelow older self.old.frames.items }
        ensures { Performs (form_step (setting_of self.old) (Construct constructor)
            (map value_view values.now) (frames_below older self.old) (configuration_of self.old))
            self.old self.new result }
    {
        if values.is_empty() {
            return Ok(self.give_back(Value::Constant(constructor), older));
        }
        if self.heap_is_full(values, older)? {
            self.control = Control::Stopped(Stop::HeapFull);
            return Ok(Turn::HeapFull);
        }
        let at = self.store.len();
        let fields = Vec::from_slice(self.alloc, values)?;
        self.store.push(Cell {
            made_by: constructor,
            fields,
        })?;
        Ok(self.give_back(Value::Place(at), older))
    }

    // Whether as many places are live as the heap has cells, at a construction with these arguments.
    fn heap_is_full(&self, values: &[Value], older: usize) -> Result<bool, NoMemory>
        requires store { IsOlder (configuration_of self.now).store }
        requires below { older ≤ vec_len self.now.frames }
        ensures { IfOk result (λ full. full
            ≡ nat_le (setting_of self.now).cells (live_of (configuration_of self.now).store
            (map value_view values.now ++ held_by_all (frames_below older self.now)))) }
    {
        if self.store.len() < self.cells as usize {
            return Ok(false);
        }
        let mut held = Vec::from_slice(self.alloc, values)?;
        hold_frames(self.alloc, &self.bindings, &self.frames[..older], &mut held)?;
        let live = live(self.alloc, self.store.as_slice(), held.as_slice())?;
        Ok(self.cells as usize <= live)
    }

    // A call has all its arguments. With a call frame directly beneath it is a tail call.
    fn call(&mut self, function: u32, values: &[Value], older: usize) -> Result<Turn, NoMemory>
        requires fits { Fits self.old }
        requires below { IsBelow older self.old.frames.items }
        requires going { end_at (configuration_of self.old).control ≡ None }
        ensures { Performs (call_step (setting_of self.old) function
            (slice_get (setting_of self.old).program.functions function) (map value_view values.now)
            (frames_below older self.old) (configuration_of self.old))
            self.old self.new result }
    {
        let Some(fun) = function_of(self.program, function) else {
            return Ok(Turn::Went);
        };
        match self.call_below(older) {
            Some(before) => self.replace(fun, values, older, before),
            None => self.push(function, fun, values, older),
        }
    }

    // Where a call frame is the newest of the first frames, how many bindings there were before it.
    fn call_below(&self, older: usize) -> Option<usize>
        requires { older ≤ vec_len self.now.frames }
        ensures call { IfSome result (λ before. IsCallBelow before older self.now.frames.items) }
        ensures none { IfNone result (HasNoCall (reverse (take older self.now.frames.items))) }
    {
        match self.frames[..older].last() {
            Some(Frame::Call { before, .. }) => Some(*before),
            _ => None,
        }
    }

    // A tail call: it enters the body, and its arguments take the place of the bindings of the call that it ends.
    fn replace(
        &mut self,
        fun: &'a Fun,
        values: &[Value],
        older: usize,
        before: usize,
    ) -> Result<Turn, NoMemory>
        requires fits { Fits self.old }
        requires below { IsBelow older self.old.frames.items }
        requires call { IsCallBelow before older self.old.frames.items }
        ensures { Performs (goes (in_body (function_tree fun.now) (map value_view values.now)
            (record (configuration_of self.old) { frames = frames_below older self.old })))
            self.old self.new result }
    {
        let bound = parameters(self.alloc, values)?;
        let environment = self.bindings.bind(before, 0, bound.as_slice())?;
        self.frames.truncate(older);
        self.control = Control::Expression(&fun.body, environment);
        Ok(Turn::Went)
    }

    // A call that is no tail call: it pushes a frame and enters the body, unless the stack is full.
    fn push(
        &mut self,
        function: u32,
        fun: &'a Fun,
        values: &[Value],
        older: usize,
    ) -> Result<Turn, NoMemory>
        requires fits { Fits self.old }
        requires below { IsBelow older self.old.frames.items }
        ensures { Performs (push_step (setting_of self.old) function (function_tree fun.now)
            (map value_view values.now) (frames_below older self.old) (configuration_of self.old))
            self.old self.new result }
    {
        if self.depth as usize <= self.calls {
            self.control = Control::Stopped(Stop::StackFull);
            return Ok(Turn::StackFull);
        }
        let lent = lent(self.alloc, &self.positions, function, values)?;
        let bound = parameters(self.alloc, values)?;
        self.frames.reserve(1)?;
        let before = self.bindings.len();
        let environment = self.bindings.bind(before, 0, bound.as_slice())?;
        self.frames.truncate(older);
        self.frames.push(Frame::Call { lent, before })?;
        self.calls += 1;
        self.control = Control::Expression(&fun.body, environment);
        Ok(Turn::Went)
    }
}

// A function by its number, if there is one.
fn function_of(program: &Program, number: u32) -> Option<&Fun>
    ensures { option_map (λ f. function_tree f.now) result ≡ slice_get (program_tree program.now).functions number }
{
    program.functions.get(number as usize)
}
