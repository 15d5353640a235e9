//! Expressions made of their parts. They stand in boxes: so a method that gives one up frees it by one call.

ghost use Rattle.std.specs.Prelude.{◌≡◌, ◌++◌, ◌∷◌, [], map, IfOk, OnOk};
ghost use Rattle.kk_syntax.specs.Surface.{number, unit, variable, call, construct, print_text, unary as OfUnary, binary as OfBinary, both, either, branch, branch_alone, dot_call, writtens_of, block_of, match, rows_of, written_expr, written_row, written_statement, anything, pattern_variable, exactly, constructor as OfConstructor, patterns_of, written_pattern};
ghost use Rattle.kk_parser.specs.Depths.{IsNoDeeper, AreNoDeeper, RowsAreNoDeeper, StatementsAreNoDeeper};
ghost use Rattle.kk_parser.specs.Methods.{Makes};
ghost use Rattle.kk_parser.specs.Views.{boxed_expr, boxed_pattern};

use crate::fault::Fault;
use kk_base::NoMemory;
use kk_syntax::{
    BinaryOperator, Identifier, PrintForm, StringLiteral, SurfaceExpr, SurfacePattern, SurfaceRow,
    SurfaceStatement, UnaryOperator,
};
use std::alloc::Global;

/// A value in a box.
pub fn boxed<T: Drop>(alloc: Global, value: T) -> Result<Box<T>, Fault>
    ensures { Makes (λ b. b.value) value result }
{
    match Box::new(alloc, value) {
        Ok(value) => Ok(value),
        Err(_) => Err(Fault::NoMemory),
    }
}

/// Puts an item behind others.
pub fn put<T: Drop>(items: &mut Vec<T>, item: T) -> Result<(), NoMemory>
    ensures { OnOk result (items.new.items ≡ items.old.items ++ item ∷ []) }
{
    Ok(items.push(item)?)
}

/// A number.
pub fn number(alloc: Global, value: i32) -> Result<Box<SurfaceExpr>, Fault>
    ensures made { Makes boxed_expr (number value) result }
    ensures depth { IfOk result (λ e. IsNoDeeper e.value) }
{
    boxed(alloc, SurfaceExpr::Number(value))
}

/// `()`
pub fn unit(alloc: Global) -> Result<Box<SurfaceExpr>, Fault>
    ensures made { Makes boxed_expr unit result }
    ensures depth { IfOk result (λ e. IsNoDeeper e.value) }
{
    boxed(alloc, SurfaceExpr::Unit)
}

/// A variable.
pub fn variable(alloc: Global, name: Identifier) -> Result<Box<SurfaceExpr>, Fault>
    ensures made { Makes boxed_expr (variable name) result }
    ensures depth { IfOk result (λ e. IsNoDeeper e.value) }
{
    boxed(alloc, SurfaceExpr::Variable(name))
}

/// `Name(arguments ..)`
pub fn construct(
    alloc: Global,
    name: Identifier,
    arguments: Vec<SurfaceExpr>,
) -> Result<Box<SurfaceExpr>, Fault>
    ensures made { Makes boxed_expr (construct name (writtens_of (map written_expr arguments.items))) result }
    ensures depth { AreNoDeeper arguments.items → IfOk result (λ e. IsNoDeeper e.value) }
{
    boxed(alloc, SurfaceExpr::Construct(name, arguments))
}

/// `name(arguments ..)`
pub fn call(
    alloc: Global,
    name: Identifier,
    arguments: Vec<SurfaceExpr>,
) -> Result<Box<SurfaceExpr>, Fault>
    ensures made { Makes boxed_expr (call name (writtens_of (map written_expr arguments.items))) result }
    ensures depth { AreNoDeeper arguments.items → IfOk result (λ e. IsNoDeeper e.value) }
{
    boxed(alloc, SurfaceExpr::Call(name, arguments))
}

/// A print of a string.
pub fn print_text(
    alloc: Global,
    form: PrintForm,
    text: StringLiteral,
) -> Result<Box<SurfaceExpr>, Fault>
    ensures made { Makes boxed_expr (print_text form text) result }
    ensures depth { IfOk result (λ e. IsNoDeeper e.value) }
{
    boxed(alloc, SurfaceExpr::PrintText(form, text))
}

/// An operator on an operand.
pub fn unary(
    alloc: Global,
    operator: UnaryOperator,
    operand: Box<SurfaceExpr>,
) -> Result<Box<SurfaceExpr>, Fault>
    ensures made { Makes boxed_expr (OfUnary operator (boxed_expr operand)) result }
    ensures depth { IsNoDeeper operand.value → IfOk result (λ e. IsNoDeeper e.value) }
{
    boxed(alloc, SurfaceExpr::Unary(operator, operand))
}

/// An operator on its operands.
pub fn binary(
    alloc: Global,
    operator: BinaryOperator,
    left: Box<SurfaceExpr>,
    right: Box<SurfaceExpr>,
) -> Result<Box<SurfaceExpr>, Fault>
    ensures made { Makes boxed_expr (OfBinary operator (boxed_expr left) (boxed_expr right)) result }
    ensures depth { IsNoDeeper left.value → IsNoDeeper right.value → IfOk result (λ e. IsNoDeeper e.value) }
{
    boxed(alloc, SurfaceExpr::Binary(operator, left, right))
}

/// `left && right`
pub fn both(
    alloc: Global,
    left: Box<SurfaceExpr>,
    right: Box<SurfaceExpr>,
) -> Result<Box<SurfaceExpr>, Fault>
    ensures made { Makes boxed_expr (both (boxed_expr left) (boxed_expr right)) result }
    ensures depth { IsNoDeeper left.value → IsNoDeeper right.value → IfOk result (λ e. IsNoDeeper e.value) }
{
    boxed(alloc, SurfaceExpr::And(left, right))
}

/// `left || right`
pub fn either(
    alloc: Global,
    left: Box<SurfaceExpr>,
    right: Box<SurfaceExpr>,
) -> Result<Box<SurfaceExpr>, Fault>
    ensures made { Makes boxed_expr (either (boxed_expr left) (boxed_expr right)) result }
    ensures depth { IsNoDeeper left.value → IsNoDeeper right.value → IfOk result (λ e. IsNoDeeper e.value) }
{
    boxed(alloc, SurfaceExpr::Or(left, right))
}

/// An `if` with both branches.
pub fn branch(
    alloc: Global,
    condition: Box<SurfaceExpr>,
    positive: Box<SurfaceExpr>,
    negative: Box<SurfaceExpr>,
) -> Result<Box<SurfaceExpr>, Fault>
    ensures made { Makes boxed_expr (branch (boxed_expr condition) (boxed_expr positive) (boxed_expr negative)) result }
    ensures depth { IsNoDeeper condition.value → IsNoDeeper positive.value → IsNoDeeper negative.value → IfOk result (λ e. IsNoDeeper e.value) }
{
    boxed(alloc, SurfaceExpr::If(condition, positive, Some(negative)))
}

/// An `if` with one branch.
pub fn branch_alone(
    alloc: Global,
    condition: Box<SurfaceExpr>,
    positive: Box<SurfaceExpr>,
) -> Result<Box<SurfaceExpr>, Fault>
    ensures made { Makes boxed_expr (branch_alone (boxed_expr condition) (boxed_expr positive)) result }
    ensures depth { IsNoDeeper condition.value → IsNoDeeper positive.value → IfOk result (λ e. IsNoDeeper e.value) }
{
    boxed(alloc, SurfaceExpr::If(condition, positive, None))
}

/// `first.name(others ..)`
pub fn dot_call(
    alloc: Global,
    first: Box<SurfaceExpr>,
    name: Identifier,
    others: Vec<SurfaceExpr>,
) -> Result<Box<SurfaceExpr>, Fault>
    ensures made { Makes boxed_expr (dot_call (boxed_expr first) name (writtens_of (map written_expr others.items))) result }
    ensures depth { IsNoDeeper first.value → AreNoDeeper others.items → IfOk result (λ e. IsNoDeeper e.value) }
{
    boxed(alloc, SurfaceExpr::DotCall(first, name, others))
}

/// A match with its rows.
pub fn match_of(
    alloc: Global,
    scrutinee: Box<SurfaceExpr>,
    rows: Vec<SurfaceRow>,
) -> Result<Box<SurfaceExpr>, Fault>
    ensures made { Makes boxed_expr (match (boxed_expr scrutinee) (rows_of (map written_row rows.items))) result }
    ensures depth { IsNoDeeper scrutinee.value → RowsAreNoDeeper rows.items → IfOk result (λ e. IsNoDeeper e.value) }
{
    boxed(alloc, SurfaceExpr::Match(scrutinee, rows))
}

/// `_`
pub fn anything(alloc: Global) -> Result<Box<SurfacePattern>, Fault>
    ensures { Makes boxed_pattern anything result }
{
    boxed(alloc, SurfacePattern::Wildcard)
}

/// A variable in a pattern.
pub fn pattern_variable(alloc: Global, name: Identifier) -> Result<Box<SurfacePattern>, Fault>
    ensures { Makes boxed_pattern (pattern_variable name) result }
{
    boxed(alloc, SurfacePattern::Variable(name))
}

/// A number in a pattern.
pub fn exactly(alloc: Global, value: i32) -> Result<Box<SurfacePattern>, Fault>
    ensures { Makes boxed_pattern (exactly value) result }
{
    boxed(alloc, SurfacePattern::Number(value))
}

/// A constructor and the patterns of its fields.
pub fn constructor_pattern(
    alloc: Global,
    name: Identifier,
    parts: Vec<SurfacePattern>,
) -> Result<Box<SurfacePattern>, Fault>
    ensures { Makes boxed_pattern (OfConstructor name (patterns_of (map written_pattern parts.items))) result }
{
    boxed(alloc, SurfacePattern::Constructor(name, parts))
}

/// Statements and the value behind them. A value without statements is no block, and a block that is the value is no block
/// inside of this one: its statements stand behind the others.
pub fn block_of(
    alloc: Global,
    mut statements: Vec<SurfaceStatement>,
    value: Box<SurfaceExpr>,
) -> Result<Box<SurfaceExpr>, Fault>
    ensures made { Makes boxed_expr (block_of (map written_statement statements.items) (boxed_expr value)) result }
    ensures depth { StatementsAreNoDeeper statements.items → IsNoDeeper value.value → IfOk result (λ e. IsNoDeeper e.value) }
{
    if statements.is_empty() {
        return Ok(value);
    }
    match Box::into_inner(value) {
        SurfaceExpr::Block(more, last) => {
            put_all(&mut statements, more)?;
            boxed(alloc, SurfaceExpr::Block(statements, last))
        }
        value => {
            let value = boxed(alloc, value)?;
            boxed(alloc, SurfaceExpr::Block(statements, value))
        }
    }
}

// Puts items behind others.
fn put_all<T: Drop>(items: &mut Vec<T>, mut more: Vec<T>) -> Result<(), NoMemory>
    ensures { OnOk result (items.new.items ≡ items.old.items ++ more.items) }
{
    Ok(items.append(&mut more)?)
}
