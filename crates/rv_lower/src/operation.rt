// The lines of forms on variables.

ghost use Rattle.std.specs.Prelude.{◌≡◌, ◌≤◌, [], ◌∷◌, map, length, OnOk, IfOk};
ghost use Rattle.kk_base.specs.Limits.{greatest_string};
ghost use Rattle.kk_syntax.specs.declared.program.Form.TheVariants.{Unary, Binary, Print, Construct, Call};
ghost use Rattle.kk_syntax.specs.declared.operator.BinaryOperator.TheVariants.{Divide, Equal, NotEqual};
ghost use Rattle.kk_syntax.specs.Programs.{text_at};
ghost use Rattle.kk_source.specs.FormEffects.{piece_of};
ghost use Rattle.rv_isa.specs.declared.asm.Action.TheVariants.{Compute};
ghost use Rattle.rv_isa.specs.declared.asm.Operation.TheVariants.{Register, Free};
ghost use Rattle.rv_isa.specs.declared.asm.RegisterOperation.TheVariants.{Slt};
ghost use Rattle.rv_isa.specs.Frames.{only_of};
ghost use Rattle.rv_lower.specs.Lines.{choice_of, constant_word, registers, sets, acts, Compares, ComparesWithOne, ComparesNot, BinaryLines, AppliedLines};
ghost use Rattle.rv_lower.specs.Written.{most_print, pair_of, short_line, Wrote, WroteLines, WrotePrint, WroteForm};

use crate::lowering::{Lowering, Reads, Short, act, binary, constant, copy, set, unary};
use kk_base::{NoMemory, Text};
use kk_syntax::{BinaryOperator, Form, PrintForm, StringLiteral, UnaryOperator};
use rv_isa::{
    Action, Immediate, ImmediateOperation, Operation, RegisterOperation, Routine, ShiftAmount,
    ShiftOperation,
};
use std::alloc::Global;

/// The word of `()`.
const UNIT: u32 = 1;

/// The word of a constructor without fields, by its number. An overflow of a word is answered as out of memory.
pub fn constant_of(constructor: u32) -> Result<u32, NoMemory>
    ensures { IfOk result (λ word. word ≡ constant_word constructor) }
{
    if constructor < 1 << 31 {
        Ok(2 * constructor + 1)
    } else {
        Err(NoMemory)
    }
}

/// The argument, where there is one.
fn only(arguments: &[u32]) -> Option<u32>
    ensures { result ≡ only_of arguments.now }
{
    match arguments {
        [value] => Some(*value),
        _ => None,
    }
}

/// The arguments, where there are two.
fn pair(arguments: &[u32]) -> Option<(u32, u32)>
    ensures { result ≡ pair_of arguments.now }
{
    match arguments {
        [first, second] => Some((*first, *second)),
        _ => None,
    }
}

/// Whether a print ends with a line feed, as the routine wants it.
fn choice(form: PrintForm) -> u32
    ensures { result ≡ choice_of form }
{
    match form {
        PrintForm::Print => 0,
        PrintForm::PrintLine => 1,
    }
}

/// The string literal of this number. Behind the last, where no program looks, it is empty.
fn literal(literals: &[StringLiteral], number: u32) -> &[u8]
    ensures bytes { result.now ≡ text_at literals.now number }
    ensures short { length result.now ≤ greatest_string }
{
    match literals.get(number as usize) {
        Some(literal) => literal.as_slice(),
        None => &[],
    }
}

/// The bytes of a print.
fn piece(alloc: Global, form: PrintForm, text: &[u8]) -> Result<Text, NoMemory>
    requires { length text.now ≤ greatest_string }
    ensures bytes { IfOk result (λ piece. piece ≡ piece_of form text.now) }
    ensures short { IfOk result (λ piece. length piece ≤ most_print) }
{
    let mut bytes = Vec::from_slice(alloc, text)?;
    match form {
        PrintForm::Print => Ok(Text::from_vec(bytes)),
        PrintForm::PrintLine => {
            bytes.push(b'\n')?;
            Ok(Text::from_vec(bytes))
        }
    }
}

impl Lowering {
    /// Writes the lines of a form on variables, whose value `into` takes. A form with another number of arguments has none.
    pub fn form(
        &mut self,
        literals: &[StringLiteral],
        into: u32,
        form: Form,
        arguments: &[u32],
    ) -> Result<(), NoMemory>
        ensures { OnOk result (WroteForm literals.now into form arguments.now self.old self.new) }
    {
        match form {
            Form::Number(value) => self.write(&[set(value.cast_unsigned(), into)]),
            Form::Unit => self.write(&[set(UNIT, into)]),
            Form::ReadByte => self.push(Action::Routine(Routine::ReadByte), &[], Some(into)),
            Form::PrintText(form, text) => {
                self.print_text(form, literal(literals, text))?;
                self.write(&[set(UNIT, into)])
            }
            Form::Unary(operator) => self.unary(into, operator, arguments),
            Form::Binary(operator) => self.binary(into, operator, arguments),
            Form::Print(form) => self.print(into, form, arguments),
            Form::Construct(constructor) => self.construct(into, constructor, arguments),
            Form::Call(function) => self.call(into, function, arguments),
        }
    }

    fn unary(
        &mut self,
        into: u32,
        operator: UnaryOperator,
        arguments: &[u32],
    ) -> Result<(), NoMemory>
        ensures { OnOk result (WroteLines (AppliedLines self.old.base into (Unary operator) arguments.now) self.old self.new) }
    {
        let Some(value) = only(arguments) else {
            return Ok(());
        };
        match operator {
            UnaryOperator::Negate => {
                let zero = self.base;
                self.write(&[
                    set(0, zero),
                    binary(RegisterOperation::Sub, zero, value, into),
                ])
            }
            UnaryOperator::Not => {
                let two = Immediate::new(2);
                self.write(&[unary(
                    Operation::Immediate(ImmediateOperation::Xori, two),
                    value,
                    into,
                )])
            }
        }
    }

    fn binary(
        &mut self,
        into: u32,
        operator: BinaryOperator,
        arguments: &[u32],
    ) -> Result<(), NoMemory>
        ensures { OnOk result (WroteLines (AppliedLines self.old.base into (Binary operator) arguments.now) self.old self.new) }
    {
        let Some((first, second)) = pair(arguments) else {
            return Ok(());
        };
        self.combine(into, operator, first, second)
    }

    fn combine(
        &mut self,
        into: u32,
        operator: BinaryOperator,
        first: u32,
        second: u32,
    ) -> Result<(), NoMemory>
        ensures { OnOk result (WroteLines (BinaryLines self.old.base into operator first second) self.old self.new) }
    {
        match operator {
            BinaryOperator::Add => self.register(RegisterOperation::Add, first, second, into),
            BinaryOperator::Subtract => self.register(RegisterOperation::Sub, first, second, into),
            BinaryOperator::Multiply => self.register(RegisterOperation::Mul, first, second, into),
            BinaryOperator::Remainder => self.register(RegisterOperation::Rem, first, second, into),
            BinaryOperator::Divide => self.divide(into, first, second),
            BinaryOperator::Equal => self.equal(into, first, second),
            BinaryOperator::NotEqual => self.not_equal(into, first, second),
            BinaryOperator::Less => self.less(into, first, second),
            BinaryOperator::Greater => self.less(into, second, first),
            BinaryOperator::LessEqual => self.opposite(into, second, first),
            BinaryOperator::GreaterEqual => self.opposite(into, first, second),
        }
    }

    /// Writes an instruction on two values.
    fn register(
        &mut self,
        operation: RegisterOperation,
        first: u32,
        second: u32,
        into: u32,
    ) -> Result<(), NoMemory>
        ensures { OnOk result (Wrote (registers into first second (Register operation) ∷ []) self.old self.new) }
    {
        self.write(&[binary(operation, first, second, into)])
    }

    fn less(&mut self, into: u32, first: u32, second: u32) -> Result<(), NoMemory>
        ensures { OnOk result (WroteLines (Compares into (registers into first second (Register Slt) ∷ [])) self.old self.new) }
    {
        self.truth(into, &[binary(RegisterOperation::Slt, first, second, into)])
    }

    /// A quotient. DIV by 0 gives -1 where 0 is wanted.
    fn divide(&mut self, into: u32, first: u32, second: u32) -> Result<(), NoMemory>
        ensures { OnOk result (WroteLines (BinaryLines self.old.base into Divide first second) self.old self.new) }
    {
        let factor = self.base;
        self.write(&[
            binary(RegisterOperation::Div, first, second, into),
            set(0, factor),
            binary(RegisterOperation::Sltu, factor, second, factor),
            binary(RegisterOperation::Mul, into, factor, into),
        ])
    }

    fn equal(&mut self, into: u32, first: u32, second: u32) -> Result<(), NoMemory>
        ensures { OnOk result (WroteLines (BinaryLines self.old.base into Equal first second) self.old self.new) }
    {
        self.compare_with_one(
            into,
            RegisterOperation::Sub,
            ImmediateOperation::Sltiu,
            first,
            second,
        )
    }

    fn not_equal(&mut self, into: u32, first: u32, second: u32) -> Result<(), NoMemory>
        ensures { OnOk result (WroteLines (BinaryLines self.old.base into NotEqual first second) self.old self.new) }
    {
        let zero = self.base;
        self.truth(
            into,
            &[
                binary(RegisterOperation::Sub, first, second, into),
                set(0, zero),
                binary(RegisterOperation::Sltu, zero, into, into),
            ],
        )
    }

    /// A comparison by an operation on the values and then one on what it gave and 1.
    fn compare_with_one(
        &mut self,
        into: u32,
        operation: RegisterOperation,
        further: ImmediateOperation,
        first: u32,
        second: u32,
    ) -> Result<(), NoMemory>
        ensures { OnOk result (WroteLines (ComparesWithOne further into (registers into first second (Register operation))) self.old self.new) }
    {
        let one = Immediate::new(1);
        self.truth(
            into,
            &[
                binary(operation, first, second, into),
                unary(Operation::Immediate(further, one), into, into),
            ],
        )
    }

    /// Whether the first is not less than the second.
    fn opposite(&mut self, into: u32, first: u32, second: u32) -> Result<(), NoMemory>
        ensures { OnOk result (WroteLines (ComparesNot into (registers into first second (Register Slt))) self.old self.new) }
    {
        self.compare_with_one(
            into,
            RegisterOperation::Slt,
            ImmediateOperation::Xori,
            first,
            second,
        )
    }

    /// Lines that give 0 or 1, and those that make `False` or `True` of it.
    fn truth(&mut self, into: u32, first: &[Short]) -> Result<(), NoMemory>
        ensures { OnOk result (WroteLines (Compares into (map short_line first.now)) self.old self.new) }
    {
        self.write(first)?;
        let (place, one) = (ShiftAmount::new(1), Immediate::new(1));
        self.write(&[
            unary(Operation::Shift(ShiftOperation::Slli, place), into, into),
            unary(
                Operation::Immediate(ImmediateOperation::Addi, one),
                into,
                into,
            ),
        ])
    }

    fn print(&mut self, into: u32, form: PrintForm, arguments: &[u32]) -> Result<(), NoMemory>
        ensures { OnOk result (WroteLines (AppliedLines self.old.base into (Print form) arguments.now) self.old self.new) }
    {
        let Some(value) = only(arguments) else {
            return Ok(());
        };
        let (number, line_feed) = (self.base, self.temporary(1)?);
        self.write(&[
            copy(value, number),
            set(choice(form), line_feed),
            act(
                Action::Routine(Routine::PrintInt),
                Reads::Two(number, line_feed),
            ),
            set(UNIT, into),
        ])
    }

    fn construct(&mut self, into: u32, constructor: u32, arguments: &[u32]) -> Result<(), NoMemory>
        ensures { OnOk result (WroteLines (AppliedLines self.old.base into (Construct constructor) arguments.now) self.old self.new) }
    {
        if !arguments.is_empty() {
            return Ok(());
        }
        let word = constant_of(constructor)?;
        self.write(&[set(word, into)])
    }

    fn call(&mut self, into: u32, function: u32, arguments: &[u32]) -> Result<(), NoMemory>
        ensures { OnOk result (WroteLines (AppliedLines self.old.base into (Call function) arguments.now) self.old self.new) }
    {
        let handed = self.hand_over(arguments)?;
        self.push(Action::Call(function), &handed, Some(into))
    }

    /// A print of no bytes. It frees the null token, which changes nothing, so that each print has an instruction of its own.
    fn print_nothing(&mut self) -> Result<(), NoMemory>
        ensures { OnOk result (Wrote (sets 0 self.old.base ∷ acts (Compute Free) (self.old.base ∷ []) ∷ []) self.old self.new) }
    {
        let token = self.base;
        self.write(&[
            set(0, token),
            act(Action::Compute(Operation::Free), Reads::One(token)),
        ])
    }

    /// A print of constant bytes.
    fn print_text(&mut self, form: PrintForm, text: &[u8]) -> Result<(), NoMemory>
        requires { length text.now ≤ greatest_string }
        ensures { OnOk result (WrotePrint (piece_of form text.now) self.old self.new) }
    {
        let bytes = piece(self.alloc, form, text)?;
        if bytes.is_empty() {
            return self.print_nothing();
        }
        let (address, count) = (self.base, self.temporary(1)?);
        let length = bytes.len() as u32;
        let index = self.add_text(bytes)?;
        self.write(&[
            constant(Operation::La(index), address),
            set(length, count),
            act(
                Action::Routine(Routine::PrintText),
                Reads::Two(address, count),
            ),
        ])
    }
}
