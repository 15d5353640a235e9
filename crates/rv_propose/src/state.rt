// Where values stand while code is written with registers, and which registers are free.

ghost use Rattle.std.specs.Prelude.{◌≡◌};
ghost use Rattle.rv_propose.specs.Listings.{listed_as};

use crate::liveness::{Point, is_one_of, is_result};
use crate::plans::{Plan, Wish, may_spoil};
use kk_base::NoMemory;
use rv_isa::{Action, Listed, Operand, Place, Register};
use std::alloc::Global;

/// The first listing of a value, if it is listed: where it stands.
pub fn listing(state: &[Listed], value: u32) -> Option<Listed>
    ensures { result ≡ listed_as value state.now }
{
    for listed in state {
        if listed.value == value {
            return Some(*listed);
        }
    }
    None
}

/// The register that has the value: its place, or its copy.
pub fn register_of(listed: Listed) -> Option<Register> {
    match listed.place {
        Place::Register(register) => Some(register),
        Place::Slot(_) => listed.copy,
    }
}

/// Whether the value's place is the register.
pub fn stands_in(listed: Listed, register: Register) -> bool {
    match listed.place {
        Place::Register(other) => other.number == register.number,
        Place::Slot(_) => false,
    }
}

/// The value whose place is the register.
pub fn standing_in(state: &[Listed], register: Register) -> Option<Listed> {
    for listed in state {
        if stands_in(*listed, register) {
            return Some(*listed);
        }
    }
    None
}

/// Whether the register has a copy of the value.
pub fn is_copied_in(listed: Listed, register: Register) -> bool {
    match listed.copy {
        Some(other) => other.number == register.number,
        None => false,
    }
}

/// Whether the register has the value.
pub fn is_in(listed: Listed, register: Register) -> bool {
    stands_in(listed, register) || is_copied_in(listed, register)
}

// The listing without its copy, if this register has it.
fn without_copy_in(listed: Listed, register: Register) -> Listed {
    if is_copied_in(listed, register) {
        Listed {
            copy: None,
            ..listed
        }
    } else {
        listed
    }
}

/// Whether no value has the register.
pub fn is_free(state: &[Listed], register: Register) -> bool {
    for listed in state {
        if is_in(*listed, register) {
            return false;
        }
    }
    true
}

/// Whether the register has at most copies, and none of these values.
pub fn is_to_be_had(state: &[Listed], keep: &[u32], register: Register) -> bool {
    for listed in state {
        let is_kept = is_one_of(listed.value, keep) && is_copied_in(*listed, register);
        if stands_in(*listed, register) || is_kept {
            return false;
        }
    }
    true
}

// The registers that a value may stay in, by number. Calls spoil them, and prints and reads some of them; no other action does.
const VALUE_REGISTERS: [u8; 18] = [
    6, 7, 28, 29, 30, 31, 21, 22, 23, 24, 25, 26, 27, 4, 17, 16, 15, 14,
];

/// A register that values may stay in and that no value has, neither here nor there.
pub fn free_register(state: &[Listed], there: &[Listed]) -> Option<Register> {
    for number in VALUE_REGISTERS {
        if let Some(register) = Register::try_new(number) {
            if is_free(state, register) && is_free(there, register) {
                return Some(register);
            }
        }
    }
    None
}

fn register_to_be_had(state: &[Listed], keep: &[u32]) -> Option<Register> {
    for number in VALUE_REGISTERS {
        if let Some(register) = Register::try_new(number) {
            if is_to_be_had(state, keep, register) {
                return Some(register);
            }
        }
    }
    None
}

/// A register for a value: a free one if there is one, else one that has at most copies, and none of these values.
pub fn any_register(state: &[Listed], keep: &[u32]) -> Option<Register> {
    match free_register(state, &[]) {
        Some(register) => Some(register),
        None => register_to_be_had(state, keep),
    }
}

/// The register of the argument of this index.
pub fn argument_register(index: usize) -> Option<Register> {
    if index < 8 {
        Register::try_new(10 + index as u8)
    } else {
        None
    }
}

// Whether the register has a copy of one of these values, and no other register has the value.
fn is_only_copy(state: &[Listed], values: &[u32], register: Register) -> bool {
    for listed in state {
        if is_in_slot(*listed)
            && is_copied_in(*listed, register)
            && is_one_of(listed.value, values)
        {
            return true;
        }
    }
    false
}

/// The register that the value wishes for, if that is to be had, and has no copy that would have to be loaded again.
pub fn wished_register(
    state: &[Listed],
    keep: &[u32],
    plan: &Plan,
    value: u32,
) -> Option<Register> {
    for wish in &plan.wishes {
        if wish.value == value
            && is_to_be_had(state, keep, wish.register)
            && !is_only_copy(state, &plan.needs.read, wish.register)
        {
            return Some(wish.register);
        }
    }
    None
}

/// Whether another value wishes for the register where this one stands.
pub fn is_wished_for(listed: Listed, wishes: &[Wish]) -> bool {
    for wish in wishes {
        if wish.value != listed.value && stands_in(listed, wish.register) {
            return true;
        }
    }
    false
}

/// Whether the value is in its slot.
pub fn is_in_slot(listed: Listed) -> bool {
    matches!(listed.place, Place::Slot(_))
}

fn listed_at(state: &[Listed], point: &Point, value: u32) -> Listed {
    let held = is_one_of(value, &point.held);
    match listing(state, value) {
        Some(listed) => Listed {
            held,
            copy: if held { None } else { listed.copy },
            ..listed
        },
        None => Listed {
            value,
            place: Place::Slot(value),
            held,
            copy: None,
        },
    }
}

/// The listings of a point, by where values stand, but for that of one value. One of which this does not tell is in its slot.
pub fn state_at(
    alloc: Global,
    state: &[Listed],
    point: &Point,
    but: Option<u32>,
) -> Result<Vec<Listed>, NoMemory> {
    let mut next = Vec::new(alloc);
    for value in &point.alive {
        if !is_result(but, *value) {
            next.push(listed_at(state, point, *value))?;
        }
    }
    Ok(next)
}

// The listing behind an action: without a copy that the action may spoil, or at the copy where it may spoil the place.
fn unspoilt(listed: Listed, action: Action) -> Listed {
    match (listed.place, listed.copy) {
        (_, Some(copy)) if may_spoil(action, copy.number) => Listed {
            copy: None,
            ..listed
        },
        (Place::Register(register), Some(copy)) if may_spoil(action, register.number) => {
            Listed {
                place: Place::Register(copy),
                copy: None,
                ..listed
            }
        }
        _ => listed,
    }
}

/// Values stand as they do behind an action: one that stands in two registers, of which the action may spoil one, in the other one.
pub fn leave_spoilt_registers(state: &mut [Listed], action: Action) {
    for listed in state.iter_mut() {
        *listed = unspoilt(*listed, action);
    }
}

/// The register has no copy any longer.
pub fn lose_copies_in(state: &mut [Listed], register: Register) {
    for listed in state.iter_mut() {
        *listed = without_copy_in(*listed, register);
    }
}

/// A value is listed as `after`.
pub fn list_as(state: &mut [Listed], after: Listed) {
    for listed in state.iter_mut() {
        if listed.value == after.value {
            *listed = after;
        }
    }
}

/// The same listings, in memory of their own.
pub fn same_state(alloc: Global, state: &[Listed]) -> Result<Vec<Listed>, NoMemory> {
    Ok(Vec::from_slice(alloc, state)?)
}

fn operand_of(state: &[Listed], action: Action, index: usize, value: u32) -> Operand {
    let slot = Place::Slot(value);
    let found = match action {
        Action::Hold if index == 0 => None,
        Action::Unhold => None,
        Action::Compute(_) | Action::Branch(..) | Action::Hold => match listing(state, value) {
            Some(listed) => register_of(listed),
            None => None,
        },
        _ => argument_register(index),
    };
    let place = match found {
        Some(register) => Place::Register(register),
        None => slot,
    };
    Operand { value, place }
}

/// The operands of the arguments of an action.
pub fn operands_at(
    alloc: Global,
    state: &[Listed],
    action: Action,
    args: &[u32],
) -> Result<Vec<Operand>, NoMemory> {
    let mut operands = Vec::with_capacity(alloc, args.len())?;
    for (index, value) in args.iter().enumerate() {
        operands.push(operand_of(state, action, index, *value))?;
    }
    Ok(operands)
}
