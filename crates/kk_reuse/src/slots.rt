// What is done with all tokens of a function, which stand in the slots below their number, the newest in the last.

ghost use Rattle.std.specs.Prelude.{◌≡◌, ◌+◌, ◌-◌, ◌^◌, ◌<◌, OnOk, IfOk};
ghost use Rattle.kk_counted.specs.TokenedCodes.{Tokened};
ghost use Rattle.kk_counted.specs.TokenedForms.{put_steps};
ghost use Rattle.kk_reuse.specs.Pairing.{slots_below, frees, holds, unholds, nulls, moves_up, filled_up};

use kk_base::NoMemory;
use kk_counted::TokenedStep;
use std::alloc::Global;

/// The slots below a number, the newest token first.
pub fn slots_below(alloc: Global, tokens: u32) -> Result<Vec<u32>, NoMemory>
    ensures { IfOk result (λ slots. slots.items ≡ slots_below tokens) }
{
    let mut slots = Vec::new(alloc);
    let mut left = tokens;
    'down: while left > 0 {
        left -= 1;
        slots.push(left)?;
    }
    Ok(slots)
}

/// Frees so many tokens.
pub fn free_all(steps: &mut Vec<TokenedStep>, tokens: u32) -> Result<(), NoMemory>
    ensures { OnOk result ((rest : Tokened) → put_steps steps.new.items rest ≡ put_steps steps.old.items (frees tokens rest)) }
{
    let mut slot = tokens;
    'down: while slot > 0 {
        slot -= 1;
        steps.push(TokenedStep::Free { slot })?;
    }
    Ok(())
}

/// Holds so many tokens, the oldest first.
pub fn hold_all(steps: &mut Vec<TokenedStep>, tokens: u32) -> Result<(), NoMemory>
    ensures { OnOk result ((rest : Tokened) → put_steps steps.new.items rest ≡ put_steps steps.old.items (holds tokens rest)) }
{
    for slot in 0..tokens {
        steps.push(TokenedStep::Hold { slot })?;
    }
    Ok(())
}

/// Takes so many held tokens back, the newest first.
pub fn unhold_all(steps: &mut Vec<TokenedStep>, tokens: u32) -> Result<(), NoMemory>
    ensures { OnOk result ((rest : Tokened) → put_steps steps.new.items rest ≡ put_steps steps.old.items (unholds tokens rest)) }
{
    let mut slot = tokens;
    'down: while slot > 0 {
        slot -= 1;
        steps.push(TokenedStep::Unhold { slot })?;
    }
    Ok(())
}

/// Makes so many tokens that are null.
fn null_all(steps: &mut Vec<TokenedStep>, tokens: u32) -> Result<(), NoMemory>
    ensures { OnOk result ((rest : Tokened) → put_steps steps.new.items rest ≡ put_steps steps.old.items (nulls tokens rest)) }
{
    let mut slot = tokens;
    'down: while slot > 0 {
        slot -= 1;
        steps.push(TokenedStep::Null { slot })?;
    }
    Ok(())
}

/// Moves so many tokens up by so many slots.
fn move_up(steps: &mut Vec<TokenedStep>, by: u32, tokens: u32) -> Result<(), NoMemory>
    requires { tokens + by < 2 ^ 32 }
    ensures { OnOk result ((rest : Tokened) → put_steps steps.new.items rest ≡ put_steps steps.old.items (moves_up by tokens rest)) }
{
    let mut from = tokens;
    'down: while from > 0 {
        from -= 1;
        steps.push(TokenedStep::Move {
            to: from + by,
            from,
        })?;
    }
    Ok(())
}

/// Of some tokens as many are made as are asked for at the end of a block: null ones come in as the oldest.
pub fn fill_up(steps: &mut Vec<TokenedStep>, left: u32, tokens: u32) -> Result<(), NoMemory>
    ensures { OnOk result ((rest : Tokened) → put_steps steps.new.items rest ≡ put_steps steps.old.items (filled_up (left - tokens) tokens rest)) }
{
    if tokens < left {
        let more = left - tokens;
        move_up(steps, more, tokens)?;
        null_all(steps, more)?;
    }
    Ok(())
}
