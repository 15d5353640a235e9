ghost use Rattle.std.specs.Prelude.{◌≡◌, ◌+◌, ◌<◌, ◌≤◌, ◌^◌, [], length, map, vec_len, vec_capacity, if◌then◌else◌, IfOk};
ghost use Rattle.kk_syntax.specs.Shapes.{is_among};
ghost use Rattle.kk_counted.specs.VariableLists.{minus, minus_all};
ghost use Rattle.kk_emitter.specs.Drafts.{chosen_of, copies};
ghost use Rattle.kk_counted.specs.Spending.{numbers_from, at_positions};
ghost use Rattle.kk_emitter.specs.Works.{items_of, lends_at, used_at, passes};

use kk_base::NoMemory;
use kk_counted::Parameter;
use std::alloc::Global;

/// Takes out the first place of a variable.
pub fn take_out(owed: &mut Vec<u32>, variable: u32)
    ensures items { owed.new.items ≡ minus variable owed.old.items }
    ensures room { vec_capacity owed.new ≡ vec_capacity owed.old }
    ensures fewer { vec_len owed.new ≤ vec_len owed.old }
{
    for at in 0..owed.len() {
        if owed[at] == variable {
            owed.remove(at);
            return;
        }
    }
}

/// Takes out a place of each of some variables.
pub fn take_all(owed: &mut Vec<u32>, variables: &[u32])
    ensures items { owed.new.items ≡ minus_all variables.now owed.old.items }
{
    for variable in variables {
        take_out(owed, *variable);
    }
}

/// Whether an argument is lent at a position.
pub fn is_lent(parameters: &[Parameter], at: usize) -> bool
    ensures { result ≡ lends_at parameters.now at }
{
    match parameters.get(at) {
        Some(parameter) => parameter.ownership.is_lent(),
        None => false,
    }
}

/// Whether an argument is lent at a position, or whether it is owned there.
fn passes(parameters: &[Parameter], lent: bool, at: usize) -> bool
    ensures { result ≡ passes parameters.now lent at }
{
    if lent {
        is_lent(parameters, at)
    } else {
        !is_lent(parameters, at)
    }
}

/// Takes out a place of each argument at a position that is not lent.
pub fn take_used(owed: &mut Vec<u32>, arguments: &[u32], parameters: &[Parameter])
    ensures items { owed.new.items ≡ minus_all (used_at parameters.now arguments.now) owed.old.items }
    ensures room { vec_capacity owed.new ≡ vec_capacity owed.old }
    ensures fewer { vec_len owed.new ≤ vec_len owed.old }
{
    for at in 0..arguments.len() {
        if passes(parameters, false, at) {
            take_out(owed, arguments[at]);
        }
    }
}

/// So many numbers from a first one on, and the one behind them.
pub fn numbers(alloc: Global, from: u32, count: usize) -> Result<(Vec<u32>, u32), NoMemory>
    ensures items { IfOk result (λ found. found.0.items ≡ numbers_from from count) }
    ensures next { IfOk result (λ found. found.1 ≡ from + count) }
{
    let mut found = Vec::new(alloc);
    let mut next = from;
    'grow: while found.len() < count {
        if next == u32::MAX {
            return Err(NoMemory);
        }
        found.push(next)?;
        next += 1;
    }
    Ok((found, next))
}

/// Those of some variables that a mask names: its lowest bit tells whether the first one is among them.
pub fn chosen(alloc: Global, variables: &[u32], mask: u8) -> Result<Vec<u32>, NoMemory>
    ensures { IfOk result (λ found. found.items ≡ chosen_of mask variables.now) }
{
    let mut found = Vec::new(alloc);
    let mut rest = mask;
    for variable in variables {
        if rest % 2 == 1 {
            found.push(*variable)?;
        }
        rest /= 2;
    }
    Ok(found)
}

/// The fields of the cell that a variable names, if it is lent.
pub fn lent_fields(
    alloc: Global,
    lent: &[u32],
    variable: u32,
    fields: &[u32],
) -> Result<Vec<u32>, NoMemory>
    ensures { IfOk result (λ found. found.items ≡ (if is_among lent.now variable then fields.now else [])) }
{
    if !lent.contains(&variable) {
        return Ok(Vec::new(alloc));
    }
    let found = Vec::from_slice(alloc, fields)?;
    Ok(found)
}

/// So many copies of a list.
pub fn copies(alloc: Global, variables: &[u32], count: u32) -> Result<Vec<Vec<u32>>, NoMemory>
    ensures { IfOk result (λ found. map items_of found.items ≡ copies count variables.now) }
{
    let mut found = Vec::new(alloc);
    'grow: while found.len() < count as usize {
        let copy = Vec::from_slice(alloc, variables)?;
        found.push(copy)?;
    }
    Ok(found)
}

/// The variables of the parameters that are lent, or of those that are owned.
pub fn parameters_passed(
    alloc: Global,
    parameters: &[Parameter],
    lent: bool,
) -> Result<Vec<u32>, NoMemory>
    requires { length parameters.now < 2 ^ 32 }
    ensures { IfOk result (λ found. found.items ≡ at_positions (passes parameters.now lent) 0 (numbers_from 0 (length parameters.now))) }
{
    let mut found = Vec::new(alloc);
    for at in 0..parameters.len() {
        if passes(parameters, lent, at) {
            found.push(at as u32)?;
        }
    }
    Ok(found)
}
