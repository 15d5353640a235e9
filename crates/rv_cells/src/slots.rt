// How many slots code with tokens has.

ghost use Rattle.std.specs.Prelude.{◌≡◌, map, max, IfOk};
ghost use Rattle.kk_counted.specs.TokenLowerable.{slots_of, slots_in, slots_in_arms};
ghost use Rattle.kk_counted.specs.TokenedForms.{tokened_code, tokened_last_code, tokened_move, tokened_arms};
ghost use Rattle.rv_cells.specs.TokenedMarking.{slots_of_step, slots_of_steps};

use kk_base::NoMemory;
use kk_counted::{TokenedBlock, TokenedLast, TokenedStep};
use rv_lower::next;

/// One more than the greatest of some slots.
fn slots_behind(slots: &[u32]) -> Result<u32, NoMemory>
    ensures { IfOk result (λ count. count ≡ slots_of slots.now) }
{
    let mut most = 0;
    for slot in slots {
        most = next(*slot)?.max(most);
    }
    Ok(most)
}

/// How many slots a block has: one more than the greatest that it names. The recursion is as deep as the block.
#[cycle(slots)]
pub fn slots_of_block(block: &TokenedBlock) -> Result<u32, NoMemory>
    ensures { IfOk result (λ count. count ≡ slots_in (tokened_code block.now)) }
{
    let first = slots_of_steps(&block.steps)?;
    let last = slots_of_last(&block.last)?;
    Ok(first.max(last))
}

#[cycle(slots)]
fn slots_of_steps(steps: &[TokenedStep]) -> Result<u32, NoMemory>
    ensures { IfOk result (λ count. count ≡ slots_of_steps (map tokened_move steps.now)) }
{
    let mut most = 0;
    for step in steps {
        most = slots_of_step(step)?.max(most);
    }
    Ok(most)
}

#[cycle(slots)]
fn slots_of_step(step: &TokenedStep) -> Result<u32, NoMemory>
    ensures { IfOk result (λ count. count ≡ slots_of_step (tokened_move step.now)) }
{
    match step {
        TokenedStep::Let { others, .. } => slots_behind(others),
        TokenedStep::Inside { block, .. } => slots_of_block(block),
        TokenedStep::Open { slot, .. } => next(*slot),
        TokenedStep::IfUnique { slot, .. } => next(*slot),
        TokenedStep::Fill { slot, others, .. } => greater(next(*slot)?, slots_behind(others)?),
        TokenedStep::Free { slot } => next(*slot),
        TokenedStep::Null { slot } => next(*slot),
        TokenedStep::Move { to, from } => greater(next(*to)?, next(*from)?),
        TokenedStep::Hold { slot } => next(*slot),
        TokenedStep::Unhold { slot } => next(*slot),
        TokenedStep::Read { .. } | TokenedStep::Dup { .. } | TokenedStep::Drop { .. } => Ok(0),
    }
}

/// The greater of two numbers.
fn greater(first: u32, second: u32) -> Result<u32, NoMemory>
    ensures { IfOk result (λ count. count ≡ max first second) }
{
    Ok(first.max(second))
}

#[cycle(slots)]
fn slots_of_last(last: &TokenedLast) -> Result<u32, NoMemory>
    ensures { IfOk result (λ count. count ≡ slots_in (tokened_last_code last.now)) }
{
    match last {
        TokenedLast::Return(_) | TokenedLast::TailCall(_, _) => Ok(0),
        TokenedLast::Case(_, _, arms) => slots_of_arms(arms),
        TokenedLast::IfToken(slot, there, absent) => {
            let first = slots_of_block(there)?;
            let second = slots_of_block(absent)?;
            Ok(next(*slot)?.max(first.max(second)))
        }
    }
}

#[cycle(slots)]
fn slots_of_arms(arms: &[TokenedBlock]) -> Result<u32, NoMemory>
    ensures { IfOk result (λ count. count ≡ slots_in_arms (tokened_arms (map tokened_code arms.now))) }
{
    let mut most = 0;
    for arm in arms {
        most = slots_of_block(arm)?.max(most);
    }
    Ok(most)
}
