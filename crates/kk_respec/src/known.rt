// What is known of tokens: the fields of a token's cell are the values of variables.

ghost use Rattle.std.specs.Prelude.{◌≡◌, ◌+◌, ◌∷◌, map, OnOk, IfOk};
ghost use Rattle.kk_counted.specs.KeptFields.{are_apart, fields_in, forget_slot, forget_variable, forget_variables, known_opened};
ghost use Rattle.kk_counted.specs.TokenedForms.{tokened_move};
ghost use Rattle.kk_respec.specs.KnownTokens.{known_of};
ghost use Rattle.kk_respec.specs.Respecialised.{kept_from};
ghost use Rattle.kk_respec.specs.RespecialisedForms.{known_behind};

use kk_base::NoMemory;
use kk_counted::TokenedStep;
use std::alloc::Global;

/// What is known of the token in a slot: the fields of its cell are the values of these variables.
#[derive(Drop)]
pub struct KnownToken {
    pub slot: u32,
    pub fields: Vec<u32>,
}

/// The same again.
pub fn copied(alloc: Global, known: &[KnownToken]) -> Result<Vec<KnownToken>, NoMemory>
    ensures { IfOk result (λ copy. map known_of copy.items ≡ map known_of known.now) }
{
    let mut copy = Vec::new(alloc);
    for one in known {
        let fields = Vec::from_slice(alloc, &one.fields)?;
        copy.push(KnownToken {
            slot: one.slot,
            fields,
        })?;
    }
    Ok(copy)
}

/// What is known behind a step.
pub fn learn(alloc: Global, known: &mut Vec<KnownToken>, step: &TokenedStep) -> Result<(), NoMemory>
    ensures { OnOk result (map known_of known.new.items ≡ known_behind (map known_of known.old.items) (tokened_move step.now)) }
{
    match step {
        TokenedStep::Let { variable, .. } => forget_variable(known, *variable),
        TokenedStep::Inside { .. } => known.clear(),
        TokenedStep::Read { fields, .. } => forget_variables(known, fields),
        TokenedStep::Open { fields, slot, .. } => open(alloc, known, fields, *slot)?,
        TokenedStep::IfUnique { fields, slot, .. } => open(alloc, known, fields, *slot)?,
        TokenedStep::Fill { variable, slot, .. } => {
            forget_slot(known, *slot);
            forget_variable(known, *variable);
        }
        TokenedStep::Free { slot } => forget_slot(known, *slot),
        TokenedStep::Null { slot } => forget_slot(known, *slot),
        TokenedStep::Move { to, from } => {
            forget_slot(known, *from);
            forget_slot(known, *to);
        }
        TokenedStep::Dup { .. } => {}
        TokenedStep::Drop { .. } => {}
        TokenedStep::Hold { .. } => {}
        TokenedStep::Unhold { .. } => {}
    }
    Ok(())
}

/// A slot gets another token, or none.
fn forget_slot(known: &mut Vec<KnownToken>, slot: u32)
    ensures { map known_of known.new.items ≡ forget_slot slot (map known_of known.old.items) }
{
    known.retain(|one| one.slot != slot);
}

/// A variable gets another value.
fn forget_variable(known: &mut Vec<KnownToken>, variable: u32)
    ensures { map known_of known.new.items ≡ forget_variable variable (map known_of known.old.items) }
{
    known.retain(|one| !one.fields.contains(&variable));
}

/// Variables get other values.
fn forget_variables(known: &mut Vec<KnownToken>, variables: &[u32])
    ensures { map known_of known.new.items ≡ forget_variables variables.now (map known_of known.old.items) }
{
    for variable in variables {
        forget_variable(known, *variable);
    }
}

/// Whether no variable occurs twice.
fn are_apart(variables: &[u32]) -> bool
    ensures { result ≡ are_apart variables.now }
{
    for i in 0..variables.len() {
        if variables[i + 1..].contains(&variables[i]) {
            return false;
        }
    }
    true
}

/// A cell is opened, whose fields the variables take, and the slot gets it.
fn open(
    alloc: Global,
    known: &mut Vec<KnownToken>,
    variables: &[u32],
    slot: u32,
) -> Result<(), NoMemory>
    ensures { OnOk result (map known_of known.new.items ≡ known_opened variables.now slot (map known_of known.old.items)) }
{
    forget_variables(known, variables);
    forget_slot(known, slot);
    if are_apart(variables) {
        let fields = Vec::from_slice(alloc, variables)?;
        known.insert(0, KnownToken { slot, fields })?;
    }
    Ok(())
}

/// The positions at which a construction in the cell of the slot's token has the field that the cell has there.
pub fn kept(
    alloc: Global,
    known: &[KnownToken],
    slot: u32,
    first: u32,
    others: &[u32],
) -> Result<Vec<u32>, NoMemory>
    ensures { IfOk result (λ kept. kept.items ≡ kept_from 0 (fields_in (map known_of known.now) slot) (first ∷ others.now)) }
{
    let mut arguments = Vec::new(alloc);
    arguments.push(first)?;
    arguments.extend_from_slice(others)?;
    for one in known {
        if one.slot == slot {
            return same_positions(alloc, &one.fields, &arguments);
        }
    }
    Ok(Vec::new(alloc))
}

/// The positions at which two lists of variables have the same one.
fn same_positions(alloc: Global, fields: &[u32], arguments: &[u32]) -> Result<Vec<u32>, NoMemory>
    ensures { IfOk result (λ kept. kept.items ≡ kept_from 0 fields.now arguments.now) }
{
    let mut kept = Vec::new(alloc);
    let mut position = 0;
    for i in 0..fields.len().min(arguments.len()) {
        if fields[i] == arguments[i] {
            kept.push(position)?;
        }
        position = next(position)?;
    }
    Ok(kept)
}

/// The next position. An overflow of `u32` is answered as out of memory.
fn next(position: u32) -> Result<u32, NoMemory>
    ensures { IfOk result (λ next. next ≡ position + 1) }
{
    match position.checked_add(1) {
        Some(next) => Ok(next),
        None => Err(NoMemory),
    }
}
