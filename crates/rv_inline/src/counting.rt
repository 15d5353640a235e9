// How many values a function has: one more than the greatest that it names.

ghost use Rattle.std.specs.Prelude.{◌≤◌, ◌<◌, ℕ, map};
ghost use Rattle.rv_isa.specs.AsmCode.{line_of, lines_of};
ghost use Rattle.rv_isa.specs.ValueBounds.{AreValuesBelow, IsWrittenBelow, AreLinesBelow, HasValuesBelow};

use rv_isa::{AsmFunction, Statement};

/// One more than a value, or `most` where that is more.
fn behind(most: usize, value: u32) -> usize
    ensures above { most ≤ result }
    ensures below { value < result }
    ensures least { (limit : ℕ) → most ≤ limit → value < limit → result ≤ limit }
{
    most.max(value as usize + 1)
}

fn values_behind(most: usize, values: &[u32]) -> usize
    ensures above { most ≤ result }
    ensures below { (limit : ℕ) → result ≤ limit → AreValuesBelow limit values.now }
    ensures least { (limit : ℕ) → most ≤ limit → AreValuesBelow limit values.now → result ≤ limit }
{
    let mut greatest = most;
    for value in values {
        greatest = behind(greatest, *value);
    }
    greatest
}

fn written_behind(most: usize, into: Option<u32>) -> usize
    ensures above { most ≤ result }
    ensures below { (limit : ℕ) → result ≤ limit → IsWrittenBelow limit into }
    ensures least { (limit : ℕ) → most ≤ limit → IsWrittenBelow limit into → result ≤ limit }
{
    match into {
        Some(value) => behind(most, value),
        None => most,
    }
}

fn lines_behind(most: usize, code: &[Statement]) -> usize
    ensures above { most ≤ result }
    ensures below { (limit : ℕ) → result ≤ limit → AreLinesBelow limit (map line_of code.now) }
    ensures least { (limit : ℕ) → most ≤ limit → AreLinesBelow limit (map line_of code.now) → result ≤ limit }
{
    let mut greatest = most;
    for statement in code {
        greatest = values_behind(greatest, &statement.args);
        greatest = written_behind(greatest, statement.into);
    }
    greatest
}

/// The number of values of a function.
pub fn count_of_values(function: &AsmFunction) -> usize
    ensures below { HasValuesBelow result (lines_of function.now) }
    ensures least { (limit : ℕ) → HasValuesBelow limit (lines_of function.now) → result ≤ limit }
{
    lines_behind(values_behind(0, &function.params), &function.code)
}
