// Leaves: functions that compute a value from their parameters alone, one line after the other.

ghost use Rattle.std.specs.Prelude.{◌≡◌, ◌≤◌, IsTrue, IfSome, length, map};
ghost use Rattle.rv_isa.specs.AsmCode.{line_of, lines_of};
ghost use Rattle.rv_isa.specs.ValueBounds.{AreValuesBelow, IsWrittenBelow, IsLineBelow, AreLinesBelow};
ghost use Rattle.rv_inline.specs.InLine.{is_pure, computes, IsWrittenFrom, AreComputing, AreFrom, gives_back, IsLeaf};
ghost use Rattle.rv_inline.specs.Growth.{AreShort};

use rv_isa::{Action, AsmFunction, Operation, Statement};

/// The most values of a leaf besides its parameters.
const MOST_FRESH: usize = 7;

/// The most lines of a leaf.
const MOST_LINES: usize = 32;

/// A leaf: the lines that compute, and the value that it gives back.
#[derive(Clone, Copy, Drop)]
pub struct Leaf<'a> {
    pub body: &'a [Statement],
    pub value: u32,
}

fn is_pure(operation: Operation) -> bool
    ensures { result ≡ is_pure operation }
{
    match operation {
        Operation::Register(_)
        | Operation::Immediate(_, _)
        | Operation::Shift(_, _)
        | Operation::Li(_)
        | Operation::Mv
        | Operation::La(_) => true,
        Operation::Lw(_) | Operation::Sw(_) | Operation::Dup | Operation::Free => false,
    }
}

fn computes(action: Action) -> bool
    ensures { result ≡ computes action }
{
    match action {
        Action::Compute(operation) => is_pure(operation),
        _ => false,
    }
}

fn is_written_from(low: usize, into: Option<u32>) -> bool
    ensures { IsTrue result → IsWrittenFrom low into }
{
    match into {
        Some(value) => low <= value as usize,
        None => false,
    }
}

fn are_computing(params: usize, body: &[Statement]) -> bool
    ensures { IsTrue result → AreComputing params (map line_of body.now) }
{
    for statement in body {
        if !computes(statement.action) || !is_written_from(params, statement.into) {
            return false;
        }
    }
    true
}

/// Whether each line takes two values at most, as each computation does.
fn are_short(body: &[Statement]) -> bool
    ensures { IsTrue result → AreShort (map line_of body.now) }
{
    for statement in body {
        if statement.args.len() > 2 {
            return false;
        }
    }
    true
}

fn are_below(most: usize, values: &[u32]) -> bool
    ensures { IsTrue result → AreValuesBelow most values.now }
{
    for value in values {
        if *value as usize >= most {
            return false;
        }
    }
    true
}

fn is_written_below(most: usize, into: Option<u32>) -> bool
    ensures { IsTrue result → IsWrittenBelow most into }
{
    match into {
        Some(value) => (value as usize) < most,
        None => true,
    }
}

fn is_line_below(most: usize, statement: &Statement) -> bool
    ensures { IsTrue result → IsLineBelow most (line_of statement.now) }
{
    are_below(most, &statement.args) && is_written_below(most, statement.into)
}

fn are_lines_below(most: usize, code: &[Statement]) -> bool
    ensures { IsTrue result → AreLinesBelow most (map line_of code.now) }
{
    for statement in code {
        if !is_line_below(most, statement) {
            return false;
        }
    }
    true
}

/// Whether values are the first numbers.
fn are_first(values: &[u32]) -> bool
    ensures { IsTrue result → AreFrom 0 values.now }
{
    for (index, value) in values.iter().enumerate() {
        if *value as usize != index {
            return false;
        }
    }
    true
}

/// The value that a line gives back, if it does.
fn given(statement: &Statement) -> Option<u32>
    ensures { IfSome result (λ value. line_of statement.now ≡ gives_back value) }
{
    match statement {
        Statement {
            action: Action::Return,
            args,
            into: None,
        } => match args.as_slice() {
            [value] => Some(*value),
            _ => None,
        },
        _ => None,
    }
}

/// A function as a leaf, if it is one.
pub fn leaf_of(function: &AsmFunction) -> Option<Leaf<'_>>
    ensures leaf { IfSome result (λ leaf. IsLeaf (lines_of function.now) (map line_of leaf.body.now) leaf.value) }
    ensures short { IfSome result (λ leaf. AreShort (map line_of leaf.body.now)) }
    ensures brief { IfSome result (λ leaf. length leaf.body.now ≤ 31) }
{
    if function.code.len() > MOST_LINES {
        return None;
    }
    let (last, body) = function.code.split_last()?;
    let value = given(last)?;
    let most = function.params.len() + MOST_FRESH;
    if are_first(&function.params)
        && are_computing(function.params.len(), body)
        && are_short(body)
        && are_below(most, &function.params)
        && are_lines_below(most, &function.code)
    {
        Some(Leaf { body, value })
    } else {
        None
    }
}
