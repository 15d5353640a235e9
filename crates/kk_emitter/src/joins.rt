ghost use Rattle.std.specs.Prelude.{◌≡◌, ℕ, List, ◌∷◌, ◌++◌, map, max, reverse, IfOk, OnOk};
ghost use Rattle.kk_counted.specs.CountedForms.{decisions_of};
ghost use Rattle.kk_counted.specs.TokenedCodes.{Tokened};
ghost use Rattle.kk_counted.specs.TokenedForms.{tokened_move, tokened_code, tokened_last_code, tokened_arms, plug_tokened};
ghost use Rattle.kk_emitter.specs.TokenDrafts.{next_slot, most_left, above_all, joined_slots, renames, renamed};
ghost use Rattle.kk_emitter.specs.Works.{arm_of};

use crate::lists::numbers;
use crate::steps::{newest_first, next_slot};
use crate::work::TokenArm;
use kk_base::NoMemory;
use kk_core::Decisions;
use kk_counted::{TokenedBlock, TokenedLast, TokenedStep};
use std::alloc::Global;

/// The slots in which all arms leave tokens, the newest last: as many as an arm leaves at most.
fn joined_slots(alloc: Global, arms: &[TokenArm]) -> Result<Vec<u32>, NoMemory>
    ensures { IfOk result (λ slots. slots.items ≡ joined_slots (map arm_of arms.now)) }
{
    let count = most_left(arms);
    let Ok(most) = u32::try_from(count) else {
        return Err(NoMemory);
    };
    let above = above_all(arms)?;
    let (slots, _) = numbers(alloc, above.saturating_sub(most), count)?;
    Ok(slots)
}

/// How many tokens the arms leave at most.
fn most_left(arms: &[TokenArm]) -> usize
    ensures { result ≡ most_left (map arm_of arms.now) }
{
    let mut most = 0;
    for arm in arms {
        most = larger_count(most, arm.spare.len());
    }
    most
}

/// A number that is above the slots of the tokens that the arms leave.
fn above_all(arms: &[TokenArm]) -> Result<u32, NoMemory>
    ensures { IfOk result (λ above. above ≡ above_all (map arm_of arms.now)) }
{
    let mut above = 0;
    for arm in arms {
        let next = next_slot(&arm.spare)?;
        above = larger(above, next);
    }
    Ok(above)
}

fn larger_count(one: usize, other: usize) -> usize
    ensures { result ≡ max one other }
{
    if one < other { other } else { one }
}

fn larger(one: u32, other: u32) -> u32
    ensures { result ≡ max one other }
{
    if one < other { other } else { one }
}

/// The blocks of arms that leave their tokens in these slots, the newest first.
fn blocks_of(
    alloc: Global,
    arms: Vec<TokenArm>,
    slots: &[u32],
) -> Result<Vec<TokenedBlock>, NoMemory>
    ensures { IfOk result (λ blocks. map tokened_code blocks.items ≡ map (renamed slots.now) (map arm_of arms.items)) }
{
    let mut left = arms;
    let mut blocks = Vec::new(alloc);
    while let Some(arm) = left.pop() {
        let block = renamed(arm, slots)?;
        blocks.push(block)?;
    }
    blocks.reverse();
    Ok(blocks)
}

/// The block of an arm that leaves its tokens in these slots, the newest first.
fn renamed(arm: TokenArm, slots: &[u32]) -> Result<TokenedBlock, NoMemory>
    ensures { IfOk result (λ block. tokened_code block ≡ renamed slots.now (arm_of arm)) }
{
    let TokenArm {
        mut steps,
        last,
        mut spare,
    } = arm;
    spare.reverse();
    rename(&mut steps, &spare, slots)?;
    Ok(block_of(steps, last))
}

/// Steps and how the block ends.
pub fn block_of(steps: Vec<TokenedStep>, last: TokenedLast) -> TokenedBlock
    ensures { tokened_code result ≡ plug_tokened (map tokened_move steps.items) (tokened_last_code last) }
{
    TokenedBlock { steps, last }
}

/// The end of a block by a branch.
fn case_of(on: u32, tests: Decisions, arms: Vec<TokenedBlock>) -> TokenedLast
    ensures { tokened_last_code result ≡ Tokened.case on (decisions_of tests) (tokened_arms (map tokened_code arms.items)) }
{
    TokenedLast::Case(on, tests, arms)
}

/// The end of a block by a branch on a variable whose arms leave their tokens in the same slots, and these slots, the newest last.
pub fn joined_branch(
    alloc: Global,
    on: u32,
    tests: Decisions,
    arms: Vec<TokenArm>,
) -> Result<(TokenedLast, Vec<u32>), NoMemory>
    ensures last { IfOk result (λ joined. tokened_last_code joined.0 ≡ Tokened.case on (decisions_of tests) (tokened_arms (map (renamed (reverse (joined_slots (map arm_of arms.items)))) (map arm_of arms.items)))) }
    ensures slots { IfOk result (λ joined. joined.1.items ≡ joined_slots (map arm_of arms.items)) }
{
    let slots = joined_slots(alloc, &arms)?;
    let newest_first = newest_first(alloc, &slots)?;
    let blocks = blocks_of(alloc, arms, &newest_first)?;
    Ok((case_of(on, tests, blocks), slots))
}

/// Moves tokens to other slots, in both lists the newest first. Slots for which there is no token are null.
fn rename(steps: &mut Vec<TokenedStep>, from: &[u32], to: &[u32]) -> Result<(), NoMemory>
    ensures { OnOk result (map tokened_move steps.new.items ≡ map tokened_move steps.old.items ++ renames from.now to.now) }
{
    let mut left = from;
    let mut slots = to;
    while let Some((slot, others)) = slots.split_first() {
        left = rename_one(steps, left, *slot)?;
        slots = others;
    }
    Ok(())
}

/// Moves the first token to a slot, which is null where there is none. It gives the other tokens.
fn rename_one<'a>(
    steps: &mut Vec<TokenedStep>,
    from: &'a [u32],
    to: u32,
) -> Result<&'a [u32], NoMemory>
    ensures { IfOk result (λ left. (slots : List ℕ) → map tokened_move steps.new.items ++ renames left.now slots ≡ map tokened_move steps.old.items ++ renames from.now (to ∷ slots)) }
{
    let Some((slot, left)) = from.split_first() else {
        steps.push(TokenedStep::Null { slot: to })?;
        return Ok(from);
    };
    if *slot != to {
        steps.push(TokenedStep::Move { to, from: *slot })?;
    }
    Ok(left)
}
