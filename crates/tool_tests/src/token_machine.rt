//! A slow and plain machine for code with tokens.

use crate::token_heap::{FIELDS, Heap, Slot, Value};
use kk_core::{Answer, Decisions, Edge, Node};
use kk_counted::{Tokened, TokenedBlock, TokenedFun, TokenedLast, TokenedStep};
use kk_syntax::{BinaryOperator, Form, PrintForm, Program};
use rv_sim::Halt;
use std::alloc::{AllocError, Global};

/// How an image ends.
pub(crate) const ENDED: Halt = Halt::Exit(0);

pub(crate) const HEAP_FULL: Halt = Halt::Exit(101);

pub(crate) const STACK_FULL: Halt = Halt::Exit(102);

/// What is left of a block.
#[derive(Clone, Copy)]
struct Code<'a> {
    steps: &'a [TokenedStep],
    last: &'a TokenedLast,
}

/// What waits for a value: what is left of a block behind the one inside it, or of a function that has called.
#[derive(Clone, Copy)]
struct Wait<'a> {
    frame: u32,
    variable: u32,
    code: Code<'a>,
}

/// A variable of a function's frame and its value.
#[derive(Clone, Copy)]
struct Bound {
    frame: u32,
    variable: u32,
    value: Value,
}

/// A program that runs. It has the forms and the operators of the programs that are compared.
#[derive(Drop)]
pub(crate) struct TokenMachine<'a> {
    alloc: Global,
    program: &'a Tokened,
    depth: u32,
    code: Code<'a>,
    /// The newest is the last.
    waits: Vec<Wait<'a>>,
    /// How many functions wait.
    frame: u32,
    /// All that was bound, the newest one last.
    bound: Vec<Bound>,
    pub(crate) heap: Heap,
    pub(crate) output: Vec<u8>,
    /// How the run has ended, if it has.
    pub(crate) end: Option<Halt>,
}

/// The whole of a block.
fn code_of(block: &TokenedBlock) -> Code<'_> {
    Code {
        steps: &block.steps,
        last: &block.last,
    }
}

impl<'a> TokenMachine<'a> {
    /// The machine at the start of a program.
    pub(crate) fn new(
        alloc: Global,
        program: &'a Tokened,
        main: &'a TokenedFun,
        cells: u32,
        depth: u32,
    ) -> Self {
        TokenMachine {
            alloc,
            program,
            depth,
            code: code_of(&main.body),
            waits: Vec::new(alloc),
            frame: 0,
            bound: Vec::new(alloc),
            heap: Heap::new(alloc, cells),
            output: Vec::new(alloc),
            end: None,
        }
    }

    /// The form that comes next.
    pub(crate) fn form(&self) -> &'static str {
        match self.code.steps.first() {
            Some(step) => self.form_of(step),
            None => match self.code.last {
                TokenedLast::Return(_) => "Return",
                TokenedLast::TailCall(_, _) => "TailCall",
                TokenedLast::Case(_, _, _) => "Case",
                TokenedLast::IfToken(slot, _, _) if self.has_cell(*slot) => "IfToken there",
                TokenedLast::IfToken(_, _, _) => "IfToken absent",
            },
        }
    }

    fn form_of(&self, step: &TokenedStep) -> &'static str {
        match step {
            TokenedStep::Let {
                form: Form::Call(_),
                ..
            } => "Call",
            TokenedStep::Let { others, .. } if others.is_empty() => "Let",
            TokenedStep::Let { .. } => "Let beside tokens",
            TokenedStep::Inside { .. } => "Inside",
            TokenedStep::Read { .. } => "Read",
            TokenedStep::Open { .. } => "Open",
            TokenedStep::IfUnique { .. } => "IfUnique",
            TokenedStep::Dup { .. } => "Dup",
            TokenedStep::Drop { .. } => "Drop",
            TokenedStep::Fill { slot, .. } if !self.has_cell(*slot) => "Fill of null",
            TokenedStep::Fill { kept, .. } if kept.is_empty() => "Fill",
            TokenedStep::Fill { .. } => "Fill that keeps fields",
            TokenedStep::Free { .. } => "Free",
            TokenedStep::Null { .. } => "Null",
            TokenedStep::Move { .. } => "Move",
            TokenedStep::Hold { .. } => "Hold",
            TokenedStep::Unhold { .. } => "Unhold",
        }
    }

    /// A slot of the running function.
    fn slot(&self, number: u32) -> Slot {
        Slot {
            frame: self.frame,
            number,
        }
    }

    /// Whether a slot of the running function has a cell.
    fn has_cell(&self, slot: u32) -> bool {
        self.heap.has_cell(self.slot(slot))
    }

    /// One step.
    pub(crate) fn step(&mut self) -> Result<(), AllocError> {
        match self.code.steps.split_first() {
            Some((step, rest)) => {
                self.code.steps = rest;
                self.take(step)
            }
            None => self.finish(),
        }
    }

    /// A step of a block.
    fn take(&mut self, step: &'a TokenedStep) -> Result<(), AllocError> {
        match step {
            TokenedStep::Inside { variable, block } => {
                self.wait(*variable)?;
                self.code = code_of(block);
                Ok(())
            }
            TokenedStep::Let {
                form,
                arguments,
                variable,
                others,
            } => {
                let values = self.values_of(&[], arguments)?;
                self.compute(*variable, *form, &values, others)
            }
            TokenedStep::Fill {
                first,
                arguments,
                variable,
                constructor,
                slot,
                kept,
                others,
            } => {
                let slot = self.slot(*slot);
                let token = self.heap.spend(slot)?;
                let values = self.values_of(&[*first], arguments)?;
                self.construct(*variable, *constructor, &values, token, kept, others)
            }
            _ => self.take_cells(step),
        }
    }

    /// A step that changes cells or tokens and makes no cell.
    fn take_cells(&mut self, step: &TokenedStep) -> Result<(), AllocError> {
        match step {
            TokenedStep::Read {
                variable,
                constructor,
                fields,
            } => {
                self.read(*variable, *constructor, fields)?;
                Ok(())
            }
            TokenedStep::Open {
                slot,
                variable,
                constructor,
                fields,
                used,
            } => {
                let slot = self.slot(*slot);
                let name = self.read(*variable, *constructor, fields)?;
                self.dup_all(used);
                self.heap.drop_value(Value::Place(name))?;
                self.heap.gain_opened(slot, name)
            }
            TokenedStep::IfUnique {
                variable,
                constructor,
                fields,
                used,
                slot,
            } => {
                let slot = self.slot(*slot);
                let name = self.read(*variable, *constructor, fields)?;
                self.give_away(name, fields, used)?;
                self.heap.gain_opened(slot, name)
            }
            _ => self.take_tokens(step),
        }
    }

    /// A step that changes counts or tokens alone.
    fn take_tokens(&mut self, step: &TokenedStep) -> Result<(), AllocError> {
        match step {
            TokenedStep::Dup { variable } => {
                let value = self.value_of(*variable);
                self.heap.dup(value);
                Ok(())
            }
            TokenedStep::Drop { variable } => {
                let value = self.value_of(*variable);
                self.heap.drop_value(value)
            }
            TokenedStep::Free { slot } => {
                let slot = self.slot(*slot);
                self.heap.free_token(slot)
            }
            TokenedStep::Null { slot } => {
                let slot = self.slot(*slot);
                self.heap.gain(slot, None)
            }
            TokenedStep::Move { to, from } => {
                let (to, from) = (self.slot(*to), self.slot(*from));
                let name = self.heap.spend(from)?;
                self.heap.gain(to, name)
            }
            TokenedStep::Hold { slot } => {
                let slot = self.slot(*slot);
                self.heap.hold(slot)
            }
            TokenedStep::Unhold { slot } => {
                let slot = self.slot(*slot);
                self.heap.unhold(slot);
                Ok(())
            }
            _ => Ok(()),
        }
    }

    /// What a variable of the running function stands for.
    fn value_of(&self, variable: u32) -> Value {
        for bound in self.bound.iter().rev() {
            if (bound.frame == self.frame) & (bound.variable == variable) {
                return bound.value;
            }
        }
        Value::Unit
    }

    /// What the first variables and the others stand for.
    fn values_of(&self, first: &[u32], others: &[u32]) -> Result<Vec<Value>, AllocError> {
        let mut values = Vec::new(self.alloc);
        for variable in first {
            values.push(self.value_of(*variable))?;
        }
        for variable in others {
            values.push(self.value_of(*variable))?;
        }
        Ok(values)
    }

    fn bind(&mut self, variable: u32, value: Value) -> Result<(), AllocError> {
        self.bound.push(Bound {
            frame: self.frame,
            variable,
            value,
        })?;
        Ok(())
    }

    /// What is left of the block waits for a value.
    fn wait(&mut self, variable: u32) -> Result<(), AllocError> {
        self.waits.push(Wait {
            frame: self.frame,
            variable,
            code: self.code,
        })?;
        Ok(())
    }

    /// The fields of the cell of a variable, which this constructor has made, are bound. The name of the cell.
    fn read(
        &mut self,
        variable: u32,
        constructor: u32,
        fields: &[u32],
    ) -> Result<usize, AllocError> {
        let name = name_of(self.value_of(variable));
        let cell = self.heap.cell(name);
        let is_its = (cell.count > 0) & (cell.made_by == constructor);
        self.heap.is_sound &= is_its & (cell.length as usize == fields.len());
        for (position, field) in (0..FIELDS).zip(fields) {
            let value = self.heap.field(name, position);
            self.bind(*field, value)?;
        }
        Ok(name)
    }

    fn dup_all(&mut self, variables: &[u32]) {
        for variable in variables {
            let value = self.value_of(*variable);
            self.heap.dup(value);
        }
    }

    /// A reference of a cell is given up. Where it was the only one, the used fields are given away, and the others are given up.
    fn give_away(&mut self, name: usize, fields: &[u32], used: &[u32]) -> Result<(), AllocError> {
        if !self.heap.lower(name) {
            self.dup_all(used);
            return Ok(());
        }
        for field in fields {
            if !used.contains(field) {
                let value = self.value_of(*field);
                self.heap.drop_value(value)?;
            }
        }
        Ok(())
    }

    /// A form on values, whose value the variable takes.
    fn compute(
        &mut self,
        variable: u32,
        form: Form,
        values: &[Value],
        others: &[u32],
    ) -> Result<(), AllocError> {
        match form {
            Form::Call(function) => self.call(variable, function, values),
            Form::Construct(constructor) if !values.is_empty() => {
                self.construct(variable, constructor, values, None, &[], others)
            }
            Form::Print(PrintForm::PrintLine) => {
                self.print_line(integer(values, 0))?;
                self.bind(variable, Value::Unit)
            }
            _ => self.bind(variable, computed(form, values)),
        }
    }

    fn print_line(&mut self, number: i32) -> Result<(), AllocError> {
        let line = format!(in self.alloc; "{number}\n")?;
        self.output.extend_from_slice(line.as_bytes())?;
        Ok(())
    }

    /// A construction with fields, in the cell of a token if there is one. There the fields at the kept positions stay.
    fn construct(
        &mut self,
        variable: u32,
        constructor: u32,
        values: &[Value],
        token: Option<usize>,
        kept: &[u32],
        others: &[u32],
    ) -> Result<(), AllocError> {
        if token.is_none() && !self.heap.request(self.frame, others)? {
            self.end = Some(HEAP_FULL);
            return Ok(());
        }
        let value = self.heap.make(constructor, values, token, kept)?;
        self.bind(variable, value)
    }

    /// A call, whose value the variable takes.
    fn call(&mut self, variable: u32, function: u32, values: &[Value]) -> Result<(), AllocError> {
        let frame = self.frame.saturating_add(1);
        if self.depth <= frame {
            self.end = Some(STACK_FULL);
            return Ok(());
        }
        self.wait(variable)?;
        self.frame = frame;
        self.enter(function, values)
    }

    /// The body of a function comes.
    fn enter(&mut self, function: u32, values: &[Value]) -> Result<(), AllocError> {
        for (parameter, value) in (0..FIELDS).zip(values) {
            self.bind(parameter, *value)?;
        }
        match self.program.functions.get(function as usize) {
            Some(function) => self.code = code_of(&function.body),
            None => self.heap.is_sound = false,
        }
        Ok(())
    }

    /// The end of a block.
    fn finish(&mut self) -> Result<(), AllocError> {
        match self.code.last {
            TokenedLast::Return(variable) => self.give(self.value_of(*variable)),
            TokenedLast::TailCall(function, arguments) => {
                let values = self.values_of(&[], arguments)?;
                self.enter(*function, &values)
            }
            TokenedLast::Case(variable, decisions, arms) => {
                self.choose(self.value_of(*variable), decisions, arms);
                Ok(())
            }
            TokenedLast::IfToken(slot, there, absent) => {
                self.code = code_of(if self.has_cell(*slot) { there } else { absent });
                Ok(())
            }
        }
    }

    /// What waits takes a value.
    fn give(&mut self, value: Value) -> Result<(), AllocError> {
        match self.waits.pop() {
            Some(wait) => {
                self.frame = wait.frame;
                self.code = wait.code;
                self.bind(wait.variable, value)
            }
            None => {
                self.end = Some(ENDED);
                Ok(())
            }
        }
    }

    /// The arm of the row that decisions choose for a value comes.
    fn choose(&mut self, value: Value, decisions: &Decisions, arms: &'a [TokenedBlock]) {
        match chosen(&self.heap, value, decisions, arms) {
            Some(arm) => self.code = code_of(arm),
            None => self.heap.is_sound = false,
        }
    }
}

/// The name of a cell. Where the value is none, no cell has that name.
fn name_of(value: Value) -> usize {
    match value {
        Value::Place(name) => name,
        _ => usize::MAX,
    }
}

/// An argument as a number.
fn integer(values: &[Value], index: usize) -> i32 {
    match values.get(index) {
        Some(Value::Integer(number)) => *number,
        _ => 0,
    }
}

/// The value of a form that makes no cell and calls and prints nothing.
fn computed(form: Form, values: &[Value]) -> Value {
    match form {
        Form::Construct(constructor) => Value::Constant(constructor),
        Form::Number(number) => Value::Integer(number),
        Form::Binary(operator) => binary(operator, integer(values, 0), integer(values, 1)),
        _ => Value::Unit,
    }
}

fn truth(holds: bool) -> Value {
    Value::Constant(if holds { Program::TRUE } else { Program::FALSE })
}

fn binary(operator: BinaryOperator, x: i32, y: i32) -> Value {
    match operator {
        BinaryOperator::Add => Value::Integer(x.wrapping_add(y)),
        BinaryOperator::Subtract => Value::Integer(x.wrapping_sub(y)),
        BinaryOperator::Multiply => Value::Integer(x.wrapping_mul(y)),
        BinaryOperator::Remainder if y != 0 => Value::Integer(x.wrapping_rem(y)),
        BinaryOperator::Equal => truth(x == y),
        BinaryOperator::Less => truth(x < y),
        _ => Value::Unit,
    }
}

/// The arm of the row that decisions choose for a value.
fn chosen<'b>(
    heap: &Heap,
    value: Value,
    decisions: &Decisions,
    arms: &'b [TokenedBlock],
) -> Option<&'b TokenedBlock> {
    let nodes = decisions.nodes();
    let mut next: u32 = 0;
    for _ in nodes {
        match nodes.get(next as usize)? {
            Node::Choose(row) => return arms.get(*row as usize),
            Node::Test(way, edges, otherwise) => {
                next = behind(edges, *otherwise, found_at(heap, value, way)?)?;
            }
        }
    }
    None
}

/// What stands at a position of a value, through counted cells.
fn found_at(heap: &Heap, value: Value, way: &[u32]) -> Option<Answer> {
    let mut at = value;
    for field in way {
        if heap.cell(name_of(at)).count == 0 {
            return None;
        }
        at = heap.field(name_of(at), *field);
    }
    match at {
        Value::Integer(number) => Some(Answer::Number(number)),
        Value::Unit => None,
        Value::Constant(constructor) => Some(Answer::Constructor(constructor)),
        Value::Place(name) => {
            let cell = heap.cell(name);
            if cell.count == 0 {
                None
            } else {
                Some(Answer::Constructor(cell.made_by))
            }
        }
    }
}

/// The node that an answer leads to.
fn behind(edges: &[Edge], otherwise: Option<u32>, found: Answer) -> Option<u32> {
    for edge in edges {
        if edge.found == found {
            return Some(edge.next);
        }
    }
    otherwise
}
