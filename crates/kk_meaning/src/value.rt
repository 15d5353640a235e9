ghost use Rattle.std.specs.Prelude.{◌≡◌, map};
ghost use Rattle.kk_meaning.specs.View.{value_view};
ghost use Rattle.kk_source.specs.FormEffects.{argument as argument_of, byte_value, integer_of, is_true, truth};
ghost use Rattle.kk_source.specs.Matching.{is_integer};

use kk_syntax::Program;

/// What an expression comes to.
#[derive(Clone, Copy)]
pub enum Value {
    Integer(i32),
    /// `()`
    Unit,
    /// A constructor without fields, by its number.
    Constant(u32),
    /// A cell of the store, by its index.
    Place(usize),
}

impl Value {
    /// What a read has got: the byte as a number, and -1 at the end of the input.
    pub fn of_byte(byte: Option<u8>) -> Self
        ensures { value_view result ≡ byte_value byte }
    {
        match byte {
            Some(byte) => Value::Integer(byte as i32),
            None => Value::Integer(-1),
        }
    }

    /// `True` or `False`.
    pub fn of_bool(holds: bool) -> Self
        ensures { value_view result ≡ truth holds }
    {
        if holds {
            Value::Constant(Program::TRUE)
        } else {
            Value::Constant(Program::FALSE)
        }
    }

    /// Whether it is `True`.
    pub fn is_true(self) -> bool
        ensures { result ≡ is_true (value_view self) }
    {
        match self {
            Value::Constant(constructor) => constructor == Program::TRUE,
            Value::Integer(_) | Value::Unit | Value::Place(_) => false,
        }
    }

    /// Whether it is that integer.
    pub fn is_integer(self, number: i32) -> bool
        ensures { result ≡ is_integer number (value_view self) }
    {
        match self {
            Value::Integer(found) => found == number,
            Value::Unit | Value::Constant(_) | Value::Place(_) => false,
        }
    }

    /// The integer; 0 for another value, of which no well typed program asks it.
    pub fn integer(self) -> i32
        ensures { result ≡ integer_of (value_view self) }
    {
        match self {
            Value::Integer(number) => number,
            Value::Unit | Value::Constant(_) | Value::Place(_) => 0,
        }
    }
}

/// An argument, from 0; `()` where it is not there, as none of a resolved program is.
pub fn argument(values: &[Value], index: usize) -> Value
    ensures { value_view result ≡ argument_of index (map value_view values.now) }
{
    match values.get(index) {
        Some(value) => *value,
        None => Value::Unit,
    }
}
