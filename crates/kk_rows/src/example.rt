ghost use Rattle.std.specs.Prelude.{◌≡◌, IfOk, OnOk, map};
ghost use Rattle.kk_slots.specs.Narrowing.{anys, front, back, top};
ghost use Rattle.kk_syntax.specs.Outlines.{HasSmallNumbers, HaveSmallNumbers, outline_list, pattern_outline};
ghost use Rattle.kk_slots.specs.Problems.{plug, built, stacked};

use kk_base::NoMemory;
use kk_slots::Head;
use kk_syntax::Pat;
use std::alloc::Global;

/// The pattern of what is known: its positions stand in the path, and so many wildcards behind them. Its numbers fit into 32
/// bits.
pub fn build(alloc: Global, path: &[Head], width: usize) -> Result<Pat, NoMemory>
    ensures pattern { IfOk result (λ example. pattern_outline example ≡ top (built path.now (anys width))) }
    ensures small { IfOk result (λ example. HasSmallNumbers (pattern_outline example)) }
{
    let mut stack = wildcards(alloc, width)?;
    let mut place = path.len();
    while place > 0 {
        place -= 1;
        put(alloc, path[place], &mut stack)?;
    }
    match stack.pop() {
        Some(example) => Ok(example),
        None => Ok(Pat::Wildcard),
    }
}

// So many wildcards.
fn wildcards(alloc: Global, width: usize) -> Result<Vec<Pat>, NoMemory>
    ensures { IfOk result (λ stack. stacked stack.items ≡ anys width) }
{
    let mut stack = Vec::new(alloc);
    for _place in 0..width {
        stack.push(Pat::Wildcard)?;
    }
    Ok(stack)
}

// Puts what is known of a position before the patterns of the positions behind it, which stand in a stack with the first
// on top. The parts of a constructor are the first of those.
fn put(alloc: Global, head: Head, stack: &mut Vec<Pat>) -> Result<(), NoMemory>
    ensures stack { OnOk result (stacked stack.new.items ≡ plug head (stacked stack.old.items)) }
    ensures small { OnOk result (HaveSmallNumbers (stacked stack.old.items) → HaveSmallNumbers (stacked stack.new.items)) }
{
    let pattern = match head {
        Head::Free => Pat::Wildcard,
        Head::Number(number) => Pat::Number(number),
        Head::Constructor(constructor, arity) => {
            Pat::Constructor(constructor, take_parts(alloc, arity, stack)?)
        }
    };
    stack.push(pattern)?;
    Ok(())
}

// Takes so many patterns from the top of a stack.
fn take_parts(alloc: Global, count: usize, stack: &mut Vec<Pat>) -> Result<Vec<Pat>, NoMemory>
    ensures taken { IfOk result (λ parts. outline_list (map pattern_outline parts.items) ≡ front count (stacked stack.old.items)) }
    ensures left { OnOk result (stacked stack.new.items ≡ back count (stacked stack.old.items)) }
{
    let mut parts = Vec::new(alloc);
    for _place in 0..count {
        if let Some(part) = stack.pop() {
            parts.push(part)?;
        }
    }
    Ok(parts)
}
