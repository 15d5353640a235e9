// Reuse specialisation of a block, in place.

ghost use Rattle.std.specs.Prelude.{◌≡◌, map, OnOk};
ghost use Rattle.kk_counted.specs.TokenedForms.{tokened_arms, tokened_code, tokened_last_code, tokened_move};
ghost use Rattle.kk_respec.specs.KnownTokens.{known_of};
ghost use Rattle.kk_respec.specs.Respecialised.{respec, respec_arms};
ghost use Rattle.kk_respec.specs.RespecialisedForms.{respec_move};

use crate::known::{KnownToken, copied, kept, learn};
use kk_base::NoMemory;
use kk_counted::{TokenedBlock, TokenedLast, TokenedStep};
use std::alloc::Global;

/// Marks the fields that the constructions of a block leave, by what is known in front of it.
#[cycle(mark_block)]
pub fn mark_block(
    alloc: Global,
    known: &[KnownToken],
    block: &mut TokenedBlock,
) -> Result<(), NoMemory>
    ensures { OnOk result (tokened_code block.new ≡ respec (map known_of known.now) (tokened_code block.old)) }
{
    let mut known = copied(alloc, known)?;
    for step in block.steps.iter_mut() {
        mark_step(alloc, &known, step)?;
        learn(alloc, &mut known, step)?;
    }
    mark_last(alloc, &known, &mut block.last)
}

/// The same of a step.
#[cycle(mark_block)]
fn mark_step(alloc: Global, known: &[KnownToken], step: &mut TokenedStep) -> Result<(), NoMemory>
    ensures { OnOk result (tokened_move step.new ≡ respec_move (map known_of known.now) (tokened_move step.old)) }
{
    match step {
        TokenedStep::Inside { block, .. } => mark_block(alloc, known, block),
        TokenedStep::Fill {
            slot,
            first,
            arguments,
            kept: marked,
            ..
        } => {
            *marked = kept(alloc, known, *slot, *first, arguments)?;
            Ok(())
        }
        _ => Ok(()),
    }
}

/// The same of the end of a block.
#[cycle(mark_block)]
fn mark_last(alloc: Global, known: &[KnownToken], last: &mut TokenedLast) -> Result<(), NoMemory>
    ensures { OnOk result (tokened_last_code last.new ≡ respec (map known_of known.now) (tokened_last_code last.old)) }
{
    match last {
        TokenedLast::Return(_) | TokenedLast::TailCall(_, _) => Ok(()),
        TokenedLast::Case(_, _, arms) => mark_arms(alloc, known, arms),
        TokenedLast::IfToken(_, there, absent) => {
            mark_boxed(alloc, known, there)?;
            mark_boxed(alloc, known, absent)
        }
    }
}

/// The same of a block in a box.
#[cycle(mark_block)]
fn mark_boxed(
    alloc: Global,
    known: &[KnownToken],
    block: &mut Box<TokenedBlock>,
) -> Result<(), NoMemory>
    ensures { OnOk result (tokened_code block.new.value ≡ respec (map known_of known.now) (tokened_code block.old.value)) }
{
    mark_block(alloc, known, block)
}

/// The same of the blocks of rows.
#[cycle(mark_block)]
fn mark_arms(
    alloc: Global,
    known: &[KnownToken],
    arms: &mut Vec<TokenedBlock>,
) -> Result<(), NoMemory>
    ensures { OnOk result (tokened_arms (map tokened_code arms.new.items)
        ≡ respec_arms (map known_of known.now) (tokened_arms (map tokened_code arms.old.items))) }
{
    for arm in arms.iter_mut() {
        mark_block(alloc, known, arm)?;
    }
    Ok(())
}
