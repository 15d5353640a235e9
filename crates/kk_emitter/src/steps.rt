ghost use Rattle.std.specs.Prelude.{◌≡◌, ◌∷◌, ◌++◌, ◌==◌, [], not, filter, map, reverse, IfOk, OnOk};
ghost use Rattle.kk_counted.specs.TokenedForms.{TokenedMove, tokened_move};
ghost use Rattle.kk_emitter.specs.TokenDrafts.{next_slot, under_holds, reads_with};

use kk_base::NoMemory;
use kk_counted::TokenedStep;
use kk_syntax::Form;
use std::alloc::Global;

/// The slot above all of some slots, of which the newest one stands last.
pub fn next_slot(slots: &[u32]) -> Result<u32, NoMemory>
    ensures { IfOk result (λ slot. slot ≡ next_slot (reverse slots.now)) }
{
    match slots.last() {
        None => Ok(0),
        Some(newest) => newest.checked_add(1).ok_or(NoMemory),
    }
}

/// Takes the slot of a token out.
pub fn take_slot(slots: &mut Vec<u32>, slot: u32)
    ensures { slots.new.items ≡ filter (λ other. not (other == slot)) slots.old.items }
{
    slots.retain(|other| *other != slot);
}

/// The same slots, the newest first.
pub fn newest_first(alloc: Global, slots: &[u32]) -> Result<Vec<u32>, NoMemory>
    ensures { IfOk result (λ found. found.items ≡ reverse slots.now) }
{
    let mut found = Vec::from_slice(alloc, slots)?;
    found.reverse();
    Ok(found)
}

/// The step that computes a variable, while tokens stand in slots. It names all of them, the newest first.
pub fn computing(
    alloc: Global,
    variable: u32,
    form: Form,
    arguments: &[u32],
    slots: &[u32],
) -> Result<TokenedStep, NoMemory>
    ensures { IfOk result (λ step. tokened_move step ≡ TokenedMove.computes variable form arguments.now (reverse slots.now)) }
{
    let arguments = Vec::from_slice(alloc, arguments)?;
    let others = newest_first(alloc, slots)?;
    Ok(TokenedStep::Let {
        variable,
        form,
        arguments,
        others,
    })
}

/// The steps of a call under tokens: they are held before it and taken back behind it.
pub fn under_holds(
    alloc: Global,
    call: TokenedStep,
    slots: &[u32],
) -> Result<Vec<TokenedStep>, NoMemory>
    ensures { IfOk result (λ steps. map tokened_move steps.items ≡ under_holds (reverse slots.now) (tokened_move call)) }
{
    let mut calling = Vec::new(alloc);
    calling.push(call)?;
    let newest_first = newest_first(alloc, slots)?;
    let mut steps = Vec::new(alloc);
    hold_all(&mut steps, slots)?;
    steps.append(&mut calling)?;
    unhold_all(&mut steps, &newest_first)?;
    Ok(steps)
}

/// The steps that read the fields of a cell, and then duplicate some of them.
pub fn reading(
    alloc: Global,
    variable: u32,
    constructor: u32,
    fields: Vec<u32>,
    used: &[u32],
) -> Result<Vec<TokenedStep>, NoMemory>
    ensures { IfOk result (λ steps. map tokened_move steps.items ≡ reads_with variable constructor fields.items used.now) }
{
    let mut steps = Vec::new(alloc);
    steps.push(TokenedStep::Read {
        variable,
        constructor,
        fields,
    })?;
    for field in used {
        steps.push(TokenedStep::Dup { variable: *field })?;
    }
    Ok(steps)
}

/// Holds tokens, in the order of their slots.
fn hold_all(steps: &mut Vec<TokenedStep>, slots: &[u32]) -> Result<(), NoMemory>
    ensures { OnOk result (map tokened_move steps.new.items ≡ map tokened_move steps.old.items ++ map TokenedMove.holds slots.now) }
{
    for slot in slots {
        steps.push(TokenedStep::Hold { slot: *slot })?;
    }
    Ok(())
}

/// Takes held tokens back, in the order of their slots.
fn unhold_all(steps: &mut Vec<TokenedStep>, slots: &[u32]) -> Result<(), NoMemory>
    ensures { OnOk result (map tokened_move steps.new.items ≡ map tokened_move steps.old.items ++ map TokenedMove.unholds slots.now) }
{
    for slot in slots {
        steps.push(TokenedStep::Unhold { slot: *slot })?;
    }
    Ok(())
}
