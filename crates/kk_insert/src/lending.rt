ghost use Rattle.std.specs.Prelude.{◌≡◌, ◌++◌, if◌then◌else◌, map, IfOk};
ghost use Rattle.kk_syntax.specs.Shapes.{is_among};
ghost use Rattle.kk_core.specs.Codes.{block_code, last_code, step_piece, arm_code, arms_of};
ghost use Rattle.kk_insert.specs.Insertion.{lent_in, lent_in_arms};
ghost use Rattle.kk_insert.specs.Steps.{lent_after};

use crate::variables::is_in;
use kk_base::NoMemory;
use kk_core::{Arm, Block, Last, Step};
use std::alloc::Global;

/// The lent variables of a block: those that are lent before it, and the fields of cells that lent variables name.
#[cycle(lent_block)]
pub fn lent_block(alloc: Global, lent: Vec<u32>, block: &Block) -> Result<Vec<u32>, NoMemory>
    ensures { IfOk result (λ found. found.items ≡ lent_in lent.items (block_code block.now)) }
{
    let mut found = lent;
    for step in &block.steps {
        found = lent_step(alloc, found, step)?;
    }
    lent_last(alloc, found, &block.last)
}

#[cycle(lent_block)]
fn lent_step(alloc: Global, lent: Vec<u32>, step: &Step) -> Result<Vec<u32>, NoMemory>
    ensures { IfOk result (λ found. found.items ≡ lent_after lent.items (step_piece step.now)) }
{
    match step {
        Step::Let(_, _, _) => Ok(lent),
        Step::Use(_) => Ok(lent),
        Step::Open(variable, _, fields) => lent_fields(alloc, lent, *variable, fields),
        Step::Inside(_, block) => lent_block(alloc, lent, block),
    }
}

/// What is lent with the fields of a cell, where its variable is lent.
fn lent_fields(
    alloc: Global,
    lent: Vec<u32>,
    variable: u32,
    fields: &[u32],
) -> Result<Vec<u32>, NoMemory>
    ensures { IfOk result (λ found. found.items
        ≡ (if is_among lent.items variable then fields.now ++ lent.items else lent.items)) }
{
    if !is_in(&lent, variable) {
        return Ok(lent);
    }
    let mut found = Vec::from_slice(alloc, fields)?;
    found.extend_from_slice(&lent)?;
    Ok(found)
}

#[cycle(lent_block)]
fn lent_last(alloc: Global, lent: Vec<u32>, last: &Last) -> Result<Vec<u32>, NoMemory>
    ensures { IfOk result (λ found. found.items ≡ lent_in lent.items (last_code last.now)) }
{
    match last {
        Last::Return(_) => Ok(lent),
        Last::TailCall(_, _) => Ok(lent),
        Last::Case(_, _, arms) => lent_arms(alloc, lent, arms),
    }
}

#[cycle(lent_block)]
fn lent_arms(alloc: Global, lent: Vec<u32>, arms: &[Arm]) -> Result<Vec<u32>, NoMemory>
    ensures { IfOk result (λ found. found.items ≡ lent_in_arms lent.items (arms_of (map arm_code arms.now))) }
{
    let mut found = lent;
    for arm in arms {
        found = lent_block(alloc, found, &arm.body)?;
    }
    Ok(found)
}
