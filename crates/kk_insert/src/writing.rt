ghost use Rattle.std.specs.Prelude.{◌≡◌, OnOk};
ghost use Rattle.kk_counted.specs.CountedForms.{block_code, put, step_move};
ghost use Rattle.kk_insert.specs.Insertion.{dups, drops, dropping, opening};

use crate::variables::without;
use kk_base::NoMemory;
use kk_counted::{Block, Step};
use std::alloc::Global;

/// Puts a step before the others of a block.
pub fn put_before(block: &mut Block, step: Step) -> Result<(), NoMemory>
    ensures { OnOk result (block_code block.new ≡ put (step_move step) (block_code block.old)) }
{
    block.steps.insert(0, step)?;
    Ok(())
}

/// Puts a dup of each of some variables before a block.
pub fn put_dups(block: &mut Block, variables: &[u32]) -> Result<(), NoMemory>
    ensures { OnOk result (block_code block.new ≡ dups variables.now (block_code block.old)) }
{
    let mut left = variables.len();
    'back: while left > 0 {
        left -= 1;
        put_before(block, Step::Dup(variables[left]))?;
    }
    Ok(())
}

/// Puts a drop of each of some variables before a block.
fn put_drops(block: &mut Block, variables: &[u32]) -> Result<(), NoMemory>
    ensures { OnOk result (block_code block.new ≡ drops variables.now (block_code block.old)) }
{
    let mut left = variables.len();
    'back: while left > 0 {
        left -= 1;
        put_before(block, Step::Drop(variables[left]))?;
    }
    Ok(())
}

/// Puts the drops before a block that owns `now`, where `all` is owned.
pub fn put_dropping(
    alloc: Global,
    block: &mut Block,
    all: &[u32],
    now: &[u32],
) -> Result<(), NoMemory>
    ensures { OnOk result (block_code block.new ≡ dropping all.now now.now (block_code block.old)) }
{
    let unused = without(alloc, now, all)?;
    put_drops(block, &unused)?;
    Ok(())
}

/// Puts the opening of a cell before a block, with the fields in use: a reading where the cell stays, and else what gives the
/// variable up.
pub fn put_opening(
    alloc: Global,
    block: &mut Block,
    stays: bool,
    variable: u32,
    by: u32,
    fields: &[u32],
    in_use: Vec<u32>,
) -> Result<(), NoMemory>
    ensures { OnOk result (block_code block.new ≡ opening stays variable by fields.now in_use.items (block_code block.old)) }
{
    let copy = Vec::from_slice(alloc, fields)?;
    if stays {
        put_dups(block, &in_use)?;
        return put_before(block, Step::Read(variable, by, copy));
    }
    put_before(block, Step::Open(variable, by, copy, in_use))
}
