ghost use Rattle.std.specs.Prelude.{◌≡◌};
ghost use Rattle.kk_source.specs.Arithmetic.{negation_of, quotient_of, remainder_of};
ghost use Rattle.kk_meaning.specs.View.{value_view};
ghost use Rattle.kk_source.specs.FormEffects.{unary_result, number_result};

use crate::value::Value;
use kk_syntax::{BinaryOperator, UnaryOperator};

/// An operator's result on one value.
pub fn unary(operator: UnaryOperator, x: Value) -> Value
    ensures { value_view result ≡ unary_result operator (value_view x) }
{
    match operator {
        UnaryOperator::Negate => Value::Integer(negation(x.integer())),
        UnaryOperator::Not => Value::of_bool(!x.is_true()),
    }
}

/// An operator's result on two numbers. A quotient is rounded toward zero; by 0 it is 0, and leaves `x`.
pub fn binary(operator: BinaryOperator, x: i32, y: i32) -> Value
    ensures { value_view result ≡ number_result operator x y }
{
    match operator {
        BinaryOperator::Add => Value::Integer(x.wrapping_add(y)),
        BinaryOperator::Subtract => Value::Integer(x.wrapping_sub(y)),
        BinaryOperator::Multiply => Value::Integer(x.wrapping_mul(y)),
        BinaryOperator::Divide => Value::Integer(quotient(x, y)),
        BinaryOperator::Remainder => Value::Integer(remainder(x, y)),
        BinaryOperator::Equal => Value::of_bool(x == y),
        BinaryOperator::NotEqual => Value::of_bool(x != y),
        BinaryOperator::Less => Value::of_bool(x < y),
        BinaryOperator::LessEqual => Value::of_bool(x <= y),
        BinaryOperator::Greater => Value::of_bool(x > y),
        BinaryOperator::GreaterEqual => Value::of_bool(x >= y),
    }
}

fn negation(x: i32) -> i32
    ensures { result ≡ negation_of x }
{
    x.wrapping_neg()
}

fn quotient(x: i32, y: i32) -> i32
    ensures { result ≡ quotient_of x y }
{
    if y == 0 { 0 } else { x.wrapping_div(y) }
}

fn remainder(x: i32, y: i32) -> i32
    ensures { result ≡ remainder_of x y }
{
    if y == 0 { x } else { x.wrapping_rem(y) }
}
