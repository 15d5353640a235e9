// Places of values that have a slot each. A register has a copy of each while a statement reads it, and has it while one writes it.

ghost use Rattle.std.specs.Prelude.{◌≡◌, ◌+◌, ◌<◌, ◌≤◌, IfOk, length, map};
ghost use Rattle.std.specs.List.{filter};
ghost use Rattle.kk_base.specs.Limits.{greatest_of};
ghost use Rattle.kk_base.specs.declared.limit.LimitKind.TheVariants.{Parameters};
ghost use Rattle.rv_isa.specs.declared.asm.Action.TheVariants.{Hold};
ghost use Rattle.rv_isa.specs.Frames.{is_among};
ghost use Rattle.rv_regs.specs.declared.slots.Loaded.{Loaded};
ghost use Rattle.rv_regs.specs.Plain.{numbered, place_in, copy_in, listings, operand_at, first_register, result_register, load_from, register_args, loaded_for, operands_for, pending, stored_later, copied_in};
ghost use Rattle.rv_regs.specs.Views.{lists_of};

use kk_base::NoMemory;
use rv_isa::{Action, Listed, Operand, Place, Register, Routine};
use rv_propose::{Point, is_one_of};
use std::alloc::Global;

/// A value that is in a register for a while.
#[derive(Clone, Copy)]
pub struct Loaded {
    pub value: u32,
    pub register: Register,
}

// The number of the register that the first argument of an action is loaded into.
fn first_number(action: Action) -> u8
    ensures { result ≡ first_register action }
{
    match action {
        Action::Compute(_) | Action::Branch(..) => Register::T0.number,
        _ => Register::A0.number,
    }
}

fn register_at(first: u8, index: usize) -> Register
    requires { first + index < 32 }
    ensures { result ≡ numbered (first + index) }
{
    Register::new(first + index as u8)
}

/// The register that the result of an action comes in.
pub fn register_of_result(action: Action) -> Register
    ensures { result ≡ numbered (result_register action) }
{
    match action {
        Action::Compute(_) => Register::T2,
        Action::Routine(Routine::Take) => Register::T0,
        _ => Register::A0,
    }
}

/// The values in registers from the one of this number on. A value that comes again later is loaded there alone.
pub fn loaded_from(alloc: Global, first: u8, values: &[u32]) -> Result<Vec<Loaded>, NoMemory>
    requires { first + length values.now ≤ 32 }
    ensures { IfOk result (λ loaded. loaded.items ≡ load_from first values.now) }
{
    let mut loaded = Vec::new(alloc);
    for (index, value) in values.iter().enumerate() {
        if !is_one_of(*value, &values[index + 1..]) {
            let register = register_at(first, index);
            loaded.push(Loaded {
                value: *value,
                register,
            })?;
        }
    }
    Ok(loaded)
}

// The arguments that an action takes in registers. A token that is held or taken back is in its slot.
fn args_in_registers<'a>(action: Action, args: &'a [u32]) -> &'a [u32]
    ensures { result.now ≡ register_args action args.now }
{
    match action {
        Action::Hold => match args.split_first() {
            Some((_, others)) => others,
            None => args,
        },
        Action::Unhold => &[],
        _ => args,
    }
}

/// The arguments of an action in the registers that it takes them in. A token that is held or taken back stays in its slot.
pub fn loaded_for(alloc: Global, action: Action, args: &[u32]) -> Result<Vec<Loaded>, NoMemory>
    requires { length args.now ≤ greatest_of Parameters }
    ensures { IfOk result (λ loaded. loaded.items ≡ loaded_for action args.now) }
{
    loaded_from(alloc, first_number(action), args_in_registers(action, args))
}

fn place_of(loaded: &[Loaded], value: u32) -> Place
    ensures { result ≡ place_in loaded.now value }
{
    for other in loaded {
        if other.value == value {
            return Place::Register(other.register);
        }
    }
    Place::Slot(value)
}

fn copy_of(copied: &[Loaded], value: u32) -> Option<Register>
    ensures { result ≡ copy_in copied.now value }
{
    for other in copied {
        if other.value == value {
            return Some(other.register);
        }
    }
    None
}

// The listings of a point, some of whose values are in registers, while registers have copies of others.
fn listed(
    alloc: Global,
    loaded: &[Loaded],
    copied: &[Loaded],
    point: &Point,
) -> Result<Vec<Listed>, NoMemory>
    ensures { IfOk result (λ alive. alive.items ≡ listings (place_in loaded.now) (copy_in copied.now) (lists_of point.now)) }
{
    let held: &[u32] = &point.held;
    Ok(
        point
            .alive
            .iter()
            .map(|value| Listed {
                value: *value,
                place: place_of(loaded, *value),
                held: is_one_of(*value, held),
                copy: copy_of(copied, *value),
            })
            .collect(alloc)?,
    )
}

/// The listings of a point, some of whose values are in registers and not yet in their slots.
pub fn stored_later(
    alloc: Global,
    pending: &[Loaded],
    point: &Point,
) -> Result<Vec<Listed>, NoMemory>
    ensures { IfOk result (λ alive. alive.items ≡ stored_later pending.now (lists_of point.now)) }
{
    listed(alloc, pending, &[], point)
}

/// The listings of a point whose values are in their slots, while registers have copies of some.
pub fn copied_in(alloc: Global, loaded: &[Loaded], point: &Point) -> Result<Vec<Listed>, NoMemory>
    ensures { IfOk result (λ alive. alive.items ≡ copied_in loaded.now (lists_of point.now)) }
{
    listed(alloc, &[], loaded, point)
}

// The operands of values, some of which are in registers.
fn operands(alloc: Global, loaded: &[Loaded], values: &[u32]) -> Result<Vec<Operand>, NoMemory>
    ensures { IfOk result (λ operands. operands.items ≡ map (operand_at (place_in loaded.now)) values.now) }
{
    Ok(
        values
            .iter()
            .map(|value| Operand {
                value: *value,
                place: place_of(loaded, *value),
            })
            .collect(alloc)?,
    )
}

// The operands of a Hold: the token in its slot, and the others.
fn operands_of_hold(
    alloc: Global,
    loaded: &[Loaded],
    args: &[u32],
) -> Result<Vec<Operand>, NoMemory>
    ensures { IfOk result (λ operands. operands.items ≡ operands_for Hold loaded.now args.now) }
{
    match args.split_first() {
        Some((value, others)) => {
            let mut all = operands(alloc, &[], &[*value])?;
            all.extend_from_slice(&operands(alloc, loaded, others)?)?;
            Ok(all)
        }
        None => Ok(Vec::new(alloc)),
    }
}

/// The operands of the arguments of an action, some of which are in registers.
pub fn operands_for(
    alloc: Global,
    action: Action,
    loaded: &[Loaded],
    args: &[u32],
) -> Result<Vec<Operand>, NoMemory>
    ensures { IfOk result (λ operands. operands.items ≡ operands_for action loaded.now args.now) }
{
    match action {
        Action::Hold => operands_of_hold(alloc, loaded, args),
        _ => operands(alloc, loaded, args),
    }
}

/// What is stored behind a statement: its result, if it is alive there.
pub fn left_behind(
    alloc: Global,
    action: Action,
    into: Option<u32>,
    behind: &[u32],
) -> Result<Vec<Loaded>, NoMemory>
    ensures { IfOk result (λ left. left.items ≡ pending action into behind.now) }
{
    let mut left = Vec::new(alloc);
    if let Some(value) = into {
        if is_one_of(value, behind) {
            let register = register_of_result(action);
            left.push(Loaded { value, register })?;
        }
    }
    Ok(left)
}

/// Those of the values in registers that are alive.
pub fn those_alive(alloc: Global, loaded: &[Loaded], alive: &[u32]) -> Result<Vec<Loaded>, NoMemory>
    ensures { IfOk result (λ left. left.items ≡ filter (λ (l : Loaded). is_among l.value alive.now) loaded.now) }
{
    let mut left = Vec::new(alloc);
    for other in loaded {
        if is_one_of(other.value, alive) {
            left.push(*other)?;
        }
    }
    Ok(left)
}
