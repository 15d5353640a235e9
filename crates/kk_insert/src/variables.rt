ghost use Rattle.std.specs.Prelude.{◌≡◌, IfOk};
ghost use Rattle.kk_syntax.specs.Shapes.{is_among, without};
ghost use Rattle.kk_insert.specs.Insertion.{before, extra, common, owns, wants};

use kk_base::NoMemory;
use std::alloc::Global;

/// Whether a variable is among others.
pub fn is_in(variables: &[u32], variable: u32) -> bool
    ensures { result ≡ is_among variables.now variable }
{
    variables.contains(&variable)
}

/// Some variables without others.
pub fn without(alloc: Global, others: &[u32], variables: &[u32]) -> Result<Vec<u32>, NoMemory>
    ensures { IfOk result (λ found. found.items ≡ without others.now variables.now) }
{
    let mut found = Vec::new(alloc);
    for variable in variables {
        if !others.contains(variable) {
            found.push(*variable)?;
        }
    }
    Ok(found)
}

/// Those of some variables that are among others.
pub fn common(alloc: Global, others: &[u32], variables: &[u32]) -> Result<Vec<u32>, NoMemory>
    ensures { IfOk result (λ found. found.items ≡ common others.now variables.now) }
{
    let mut found = Vec::new(alloc);
    for variable in variables {
        if others.contains(variable) {
            found.push(*variable)?;
        }
    }
    Ok(found)
}

/// Some variables and others, each once.
pub fn before(alloc: Global, variables: &[u32], after: &[u32]) -> Result<Vec<u32>, NoMemory>
    ensures { IfOk result (λ found. found.items ≡ before variables.now after.now) }
{
    let mut found = Vec::from_slice(alloc, after)?;
    let mut left = variables.len();
    'back: while left > 0 {
        left -= 1;
        let variable = variables[left];
        if !is_in(&found, variable) {
            found.insert(0, variable)?;
        }
    }
    Ok(found)
}

/// The uses that are not the last ones, where `after` is owned when all are done.
fn extra(alloc: Global, variables: &[u32], after: &[u32]) -> Result<Vec<u32>, NoMemory>
    ensures { IfOk result (λ found. found.items ≡ extra variables.now after.now) }
{
    let mut later = Vec::from_slice(alloc, after)?;
    let mut found = Vec::new(alloc);
    let mut left = variables.len();
    'back: while left > 0 {
        left -= 1;
        let variable = variables[left];
        if is_in(&later, variable) {
            found.insert(0, variable)?;
        } else {
            later.insert(0, variable)?;
        }
    }
    Ok(found)
}

/// What is owned before variables are used up, where `after` is owned then.
pub fn owns(
    alloc: Global,
    lent: &[u32],
    variables: &[u32],
    after: &[u32],
) -> Result<Vec<u32>, NoMemory>
    ensures { IfOk result (λ found. found.items ≡ owns lent.now variables.now after.now) }
{
    let owned = without(alloc, lent, variables)?;
    before(alloc, &owned, after)
}

/// The uses that take a dup, where `after` is owned when all are done: those of lent variables, and those that are not the last
/// ones.
pub fn wants(
    alloc: Global,
    lent: &[u32],
    variables: &[u32],
    after: &[u32],
) -> Result<Vec<u32>, NoMemory>
    ensures { IfOk result (λ found. found.items ≡ wants lent.now variables.now after.now) }
{
    let mut found = common(alloc, lent, variables)?;
    let owned = without(alloc, lent, variables)?;
    let more = extra(alloc, &owned, after)?;
    found.extend_from_slice(&more)?;
    Ok(found)
}
