// The assembler code of a function as it is written.

ghost use Rattle.std.specs.Prelude.{◌≡◌, ◌+◌, [], ◌∷◌, map, OnOk, IfOk};
ghost use Rattle.rv_lower.specs.Lines.{copies, temporaries, computes, sets, copies_to, registers, acts};
ghost use Rattle.rv_lower.specs.Written.{short_line, Wrote, AddedText, TookLabel, read_list};
ghost use Rattle.rv_isa.specs.declared.asm.Action.TheVariants.{Compute};
ghost use Rattle.rv_isa.specs.declared.asm.Operation.TheVariants.{Register};
ghost use Rattle.rv_lower.specs.Lowered.{from_to};

use kk_base::{NoMemory, Text};
use rv_isa::{Action, Operation, RegisterOperation, Statement};
use std::alloc::Global;

/// The code of a function as it is written, at its end.
#[derive(Drop)]
pub struct Lowering {
    pub alloc: Global,
    pub code: Vec<Statement>,
    /// The constant bytes of the program so far.
    pub texts: Vec<Text>,
    /// The first value behind all variables of the function.
    pub base: u32,
    /// The next label.
    pub next_label: u32,
}

impl Lowering {
    /// Writes a line.
    pub fn push(&mut self, action: Action, args: &[u32], into: Option<u32>) -> Result<(), NoMemory>
        ensures { OnOk result (Wrote (record { action = action; args = args.now; into = into } ∷ []) self.old self.new) }
    {
        let args = Vec::from_slice(self.alloc, args)?;
        self.code.push(Statement { action, args, into })?;
        Ok(())
    }

    /// Writes a short line.
    fn push_short(&mut self, line: Short) -> Result<(), NoMemory>
        ensures { OnOk result (Wrote (short_line line ∷ []) self.old self.new) }
    {
        match line.reads {
            Reads::Nothing => self.push(line.action, &[], line.into),
            Reads::One(value) => self.push(line.action, &[value], line.into),
            Reads::Two(first, second) => self.push(line.action, &[first, second], line.into),
        }
    }

    /// Writes short lines.
    pub fn write(&mut self, lines: &[Short]) -> Result<(), NoMemory>
        ensures { OnOk result (Wrote (map short_line lines.now) self.old self.new) }
    {
        for line in lines {
            self.push_short(*line)?;
        }
        Ok(())
    }

    /// The temporary of this index. An overflow of `u32` is answered as out of memory.
    pub fn temporary(&self, index: u32) -> Result<u32, NoMemory>
        ensures { IfOk result (λ value. value ≡ self.now.base + index) }
    {
        match self.base.checked_add(index) {
            Some(value) => Ok(value),
            None => Err(NoMemory),
        }
    }

    /// A label that was not taken before.
    pub fn take_label(&mut self) -> Result<u32, NoMemory>
        ensures { IfOk result (λ label. TookLabel label self.old self.new) }
    {
        let label = self.next_label;
        match label.checked_add(1) {
            Some(next) => {
                self.next_label = next;
                Ok(label)
            }
            None => Err(NoMemory),
        }
    }

    /// Adds constant bytes, and answers their index. An overflow of `u32` is answered as out of memory.
    pub fn add_text(&mut self, text: Text) -> Result<u32, NoMemory>
        ensures { IfOk result (λ index. AddedText index text self.old self.new) }
    {
        match u32::try_from(self.texts.len()) {
            Ok(index) => {
                self.texts.push(text)?;
                Ok(index)
            }
            Err(_) => Err(NoMemory),
        }
    }

    /// Copies arguments to the first temporaries, which it answers.
    pub fn hand_over(&mut self, arguments: &[u32]) -> Result<Vec<u32>, NoMemory>
        ensures lines { OnOk result (Wrote (copies self.old.base arguments.now) self.old self.new) }
        ensures temporaries { IfOk result (λ handed. handed.items ≡ temporaries self.old.base arguments.now) }
    {
        let mut handed = Vec::new(self.alloc);
        let mut temporary = self.base;
        for argument in arguments {
            self.push_short(copy(*argument, temporary))?;
            handed.push(temporary)?;
            temporary = next(temporary)?;
        }
        Ok(handed)
    }
}

/// The next number. An overflow of `u32` is answered as out of memory.
pub fn next(number: u32) -> Result<u32, NoMemory>
    ensures { IfOk result (λ next. next ≡ number + 1) }
{
    match number.checked_add(1) {
        Some(next) => Ok(next),
        None => Err(NoMemory),
    }
}

/// The values that a line reads.
#[derive(Clone, Copy)]
pub enum Reads {
    Nothing,
    One(u32),
    Two(u32, u32),
}

/// A line that reads at most two values.
#[derive(Clone, Copy)]
pub struct Short {
    pub action: Action,
    pub reads: Reads,
    pub into: Option<u32>,
}

/// An operation on no value.
pub fn constant(operation: Operation, into: u32) -> Short
    ensures { short_line result ≡ computes operation [] into }
{
    Short {
        action: Action::Compute(operation),
        reads: Reads::Nothing,
        into: Some(into),
    }
}

/// An operation on one value.
pub fn unary(operation: Operation, value: u32, into: u32) -> Short
    ensures { short_line result ≡ computes operation (value ∷ []) into }
{
    Short {
        action: Action::Compute(operation),
        reads: Reads::One(value),
        into: Some(into),
    }
}

/// An operation on two values.
pub fn binary(operation: RegisterOperation, first: u32, second: u32, into: u32) -> Short
    ensures { short_line result ≡ registers into first second (Register operation) }
{
    Short {
        action: Action::Compute(Operation::Register(operation)),
        reads: Reads::Two(first, second),
        into: Some(into),
    }
}

/// A constant word.
pub fn set(word: u32, into: u32) -> Short
    ensures { short_line result ≡ sets word into }
{
    constant(Operation::Li(word), into)
}

/// A copy.
pub fn copy(from: u32, into: u32) -> Short
    ensures { short_line result ≡ copies_to from into }
{
    unary(Operation::Mv, from, into)
}

/// An action without a value.
pub fn act(action: Action, reads: Reads) -> Short
    ensures { short_line result ≡ acts action (read_list reads) }
{
    Short {
        action,
        reads,
        into: None,
    }
}

/// The values that a function's caller passes: the first ones.
pub fn parameters(alloc: Global, count: u32) -> Result<Vec<u32>, NoMemory>
    ensures { IfOk result (λ params. params.items ≡ from_to 0 count) }
{
    let mut params = Vec::new(alloc);
    for value in 0..count {
        params.push(value)?;
    }
    Ok(params)
}
