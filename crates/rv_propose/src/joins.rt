// The ways to labels: each value that is alive at a label stands there where it stands on all ways to it.

ghost use Rattle.std.specs.Prelude.{◌<◌, length, IfSome};

use crate::liveness::{Point, is_one_of};
use crate::plans::{Care, Copied, Plans};
use crate::state::{
    any_register, free_register, is_copied_in, is_in_slot, is_to_be_had, list_as, listing,
    lose_copies_in, register_of, same_state, stands_in, state_at,
};
use kk_base::NoMemory;
use rv_isa::{Action, Item, Listed, Place, Register, Way};
use std::alloc::Global;

/// A value that is to be moved, and the register that is to be its place.
#[derive(Clone, Copy)]
struct PlaceMove {
    listed: Listed,
    to: Register,
}

/// The most moves that bring values to where they stand at a label.
const MOST_MOVES: u32 = 64;

// The index of what is kept of a label.
fn index_of(kept: &[KeptState], label: u32) -> Option<usize>
    ensures { IfSome result (λ at. at < length kept.now) }
{
    for (index, other) in kept.iter().enumerate() {
        if other.label == label {
            return Some(index);
        }
    }
    None
}

// The register that is the value's place at the label, if a move has to bring the value there.
fn register_to_reach(state: &[Listed], goal: Listed) -> Option<PlaceMove> {
    match (goal.place, listing(state, goal.value)) {
        (Place::Register(to), Some(listed))
            if !stands_in(listed, to) && !is_copied_in(listed, to) => {
            Some(PlaceMove { listed, to })
        }
        _ => None,
    }
}

// The first value that can be moved to where it stands at the label.
fn next_move(state: &[Listed], goals: &[Listed]) -> Option<PlaceMove> {
    for goal in goals {
        if let Some(found) = register_to_reach(state, *goal) {
            if is_to_be_had(state, &[], found.to) {
                return Some(found);
            }
        }
    }
    None
}

// The first value that stands where another one is to stand at the label.
fn next_in_the_way(state: &[Listed], goals: &[Listed]) -> Option<Listed> {
    for goal in goals {
        if let Some(found) = register_to_reach(state, *goal) {
            for listed in state {
                if stands_in(*listed, found.to) {
                    return Some(*listed);
                }
            }
        }
    }
    None
}

// Each value that is in its slot at the label comes there, but for one whose copy at the label is its place here.
fn store_for(
    alloc: Global,
    walk: &mut Walk,
    goals: &[Listed],
    care: &Care,
) -> Result<(), NoMemory> {
    for goal in goals {
        if let Some(listed) = listing(&walk.state, goal.value) {
            let is_wanted = match (goal.copy, listed.place) {
                (Some(copy), Place::Register(register)) => {
                    copy.number != register.number || care.is_early(goal.value)
                }
                _ => true,
            };
            if is_in_slot(*goal) && is_wanted {
                put_store(alloc, walk, listed)?;
            }
        }
    }
    Ok(())
}

/// A value leaves the register where it stands: for its copy, where another register has one, which is its place then; else for any.
pub fn make_way(alloc: Global, walk: &mut Walk, listed: Listed) -> Result<(), NoMemory> {
    match listed.copy {
        Some(register) => {
            list_as(&mut walk.state, placed_in(listed, register));
            Ok(())
        }
        None => {
            let to = spare_register(walk, &[])?;
            put_away(alloc, walk, listed, to)
        }
    }
}

// Each value comes to where it stands at the label.
fn reach(alloc: Global, walk: &mut Walk, goals: &[Listed], care: &Care) -> Result<(), NoMemory> {
    store_for(alloc, walk, goals, care)?;
    for _ in 0..MOST_MOVES {
        if let Some(next) = next_move(&walk.state, goals) {
            put_away(alloc, walk, next.listed, next.to)?;
        } else if let Some(listed) = next_in_the_way(&walk.state, goals) {
            make_way(alloc, walk, listed)?;
        } else {
            return Ok(());
        }
    }
    Ok(())
}

// The copy of a value at a label, if both ways there have it.
fn copy_on_both(goal: Listed, listed: Listed) -> Option<Register> {
    match (goal.copy, listed.copy) {
        (Some(a), Some(b)) if a.number == b.number => goal.copy,
        _ => None,
    }
}

// Where a value stands at a label, by where it stands on the ways so far and on one more.
fn on_both_ways(goal: Listed, listed: Listed) -> Listed {
    match (goal.place, listed.place) {
        (Place::Slot(_), Place::Slot(_)) => Listed {
            copy: copy_on_both(goal, listed),
            ..goal
        },
        (Place::Slot(_), Place::Register(_)) => Listed {
            copy: None,
            ..listed
        },
        (Place::Register(a), Place::Register(b)) if a.number == b.number => Listed {
            copy: copy_on_both(goal, listed),
            ..goal
        },
        (Place::Register(_), _) => Listed { copy: None, ..goal },
    }
}

// Values stand where they stand on both ways.
fn join_states(goals: &mut [Listed], state: &[Listed]) {
    for goal in goals.iter_mut() {
        if let Some(listed) = listing(state, goal.value) {
            *goal = on_both_ways(*goal, listed);
        }
    }
}

// Where the first way to a label finds the values that are alive there. Those that go early are in their slots there.
fn found_first(
    alloc: Global,
    state: &[Listed],
    label: u32,
    plans: &Plans,
    care: &Care,
) -> Result<Vec<Listed>, NoMemory> {
    let is_lone = is_one_of(label, &plans.lone);
    let mut goals = Vec::new(alloc);
    for value in plans.alive_at(label) {
        if let Some(listed) = listing(state, *value) {
            let is_apart = match listed.copy {
                Some(register) => register.is_of_constant(),
                None => false,
            };
            let is_alone = !is_lone && (is_apart || care.is_early(*value));
            goals.push(Listed {
                copy: if is_alone { None } else { listed.copy },
                ..listed
            })?;
        }
    }
    Ok(goals)
}

// Values leave the registers of constants.
fn leave_constants(alloc: Global, walk: &mut Walk, values: &[u32]) -> Result<(), NoMemory> {
    for value in values {
        if let Some(listed) = listing(&walk.state, *value) {
            if listed.place.is_of_constant() {
                let to = spare_register(walk, &[])?;
                put_away(alloc, walk, listed, to)?;
            }
        }
    }
    Ok(())
}

// Those of the values that go early come to their slots.
fn store_early(
    alloc: Global,
    walk: &mut Walk,
    values: &[u32],
    care: &Care,
) -> Result<(), NoMemory> {
    for value in values {
        if care.is_early(*value) {
            put_store_of(alloc, walk, *value)?;
        }
    }
    Ok(())
}

/// The code goes to the label from here, or may: each value comes to where it stands there. Where that is not known, and more than
/// one way leads there, values that go early come to their slots, and values leave the registers of constants.
pub fn go_to(
    alloc: Global,
    walk: &mut Walk,
    label: u32,
    plans: &Plans,
    care: &Care,
) -> Result<(), NoMemory> {
    if let Some(at) = index_of(&walk.kept, label) {
        let goals = same_state(alloc, &walk.kept[at].state)?;
        reach(alloc, walk, &goals, care)
    } else if is_one_of(label, &plans.lone) {
        Ok(())
    } else {
        let values = plans.alive_at(label);
        store_early(alloc, walk, values, care)?;
        leave_constants(alloc, walk, values)
    }
}

/// The register that the value has at the next label ahead that tells it, if that is to be had.
pub fn kept_register(walk: &Walk, keep: &[u32], ahead: &[u32], value: u32) -> Option<Register> {
    for label in ahead {
        if let Some(at) = index_of(&walk.kept, *label) {
            if let Some(listed) = listing(&walk.kept[at].state, value) {
                return match register_of(listed) {
                    Some(register)
                        if is_to_be_had(&walk.state, keep, register)
                            && !register.is_of_constant() => { Some(register) }
                    _ => None,
                };
            }
        }
    }
    None
}

// The register where the value stands at a label ahead, if a register is its place there, and that is to be had.
fn register_ahead(walk: &Walk, value: u32) -> Option<Register> {
    for kept in &walk.kept {
        if let Some(listed) = listing(&kept.state, value) {
            if let Place::Register(register) = listed.place {
                if is_to_be_had(&walk.state, &[], register) && !register.is_of_constant() {
                    return Some(register);
                }
            }
        }
    }
    None
}

/// For a value that is a copy on another way, from a label ahead: the register where the other value stands at that label, if that
/// is to be had. Where that value ends with the copy, neither way needs a move then.
pub fn twin_register(walk: &Walk, copies: &[Copied], value: u32) -> Option<Register> {
    for copied in copies {
        if copied.into == value {
            return register_ahead(walk, copied.from);
        }
    }
    None
}

/// Where values stand here, they stand at the label too.
pub fn join(
    alloc: Global,
    walk: &mut Walk,
    label: u32,
    plans: &Plans,
    care: &Care,
) -> Result<(), NoMemory> {
    if let Some(at) = index_of(&walk.kept, label) {
        join_states(&mut walk.kept[at].state, &walk.state);
    } else {
        let state = found_first(alloc, &walk.state, label, plans, care)?;
        walk.kept.push(KeptState {
            label,
            from: walk.index,
            state,
        })?;
    }
    Ok(())
}

/// The index of the statement from which the first way led to a label.
pub fn index_from(kept: &[KeptState], label: u32) -> Option<usize> {
    let at = index_of(kept, label)?;
    Some(kept[at].from)
}

/// Where values stand at a label, behind all ways to it. It is not kept any longer.
pub fn take_state(
    alloc: Global,
    kept: &mut Vec<KeptState>,
    label: u32,
    point: &Point,
) -> Result<Vec<Listed>, NoMemory> {
    let Some(at) = index_of(kept, label) else {
        return state_at(alloc, &[], point, None);
    };
    let here = kept.swap_remove(at);
    state_at(alloc, &here.state, point, None)
}

/// Where values stand at a label, by the ways to it so far.
#[derive(Drop)]
pub struct KeptState {
    pub label: u32,
    /// The index of the statement from which the first way led there.
    pub from: usize,
    pub state: Vec<Listed>,
}

/// A walk through the code: the lines so far, where values stand behind them, and where they stand at the labels ahead to which a
/// way has led.
#[derive(Drop)]
pub struct Walk {
    pub items: Vec<Item>,
    pub state: Vec<Listed>,
    pub kept: Vec<KeptState>,
    /// Whether the code goes on behind the last line.
    pub is_reached: bool,
    /// The index of the next statement.
    pub index: usize,
    /// The index of the last statement on the one way here; or `None` behind a label to which more than one way leads.
    pub last: Option<usize>,
    /// The next labels on the way on from here.
    pub ahead: Vec<u32>,
    /// The moves that may still stand before the next statement.
    pub left: usize,
    /// The values that were moved since the last statement.
    pub moved: Vec<u32>,
    /// How many of these moves are too many.
    pub excess: usize,
    /// The values that would have to be treated with more care: those that have to be where they are needed earlier, and those that were
    /// in registers where one more was wanted.
    pub more: Care,
}

// Writes a move, behind which its value is listed as `after`.
fn put_move(alloc: Global, walk: &mut Walk, way: Way, after: Listed) -> Result<(), NoMemory> {
    let value = after.value;
    walk.moved.push(value)?;
    if walk.left == 0 {
        walk.excess = walk.excess.saturating_add(1);
    } else {
        walk.left -= 1;
    }
    let alive = same_state(alloc, &walk.state)?;
    walk.items.push(Item::Moves { alive, value, way })?;
    if let Way::Copy { to, .. } | Way::Load { to, .. } = way {
        lose_copies_in(&mut walk.state, to);
    }
    list_as(&mut walk.state, after);
    Ok(())
}

fn way_to(listed: Listed, to: Register) -> Way {
    match (register_of(listed), listed.place) {
        (Some(from), _) => Way::Copy { from, to },
        (None, Place::Slot(from)) => Way::Load { from, to },
        (None, Place::Register(from)) => Way::Copy { from, to },
    }
}

// The listing behind a move to a register, which has a copy then.
fn copied_to(listed: Listed, to: Register) -> Listed {
    Listed {
        copy: Some(to),
        ..listed
    }
}

// The listing behind a move to a register, which is the value's place then.
fn placed_in(listed: Listed, to: Register) -> Listed {
    Listed {
        place: Place::Register(to),
        copy: None,
        ..listed
    }
}

/// Writes a move of a value to a register, which has a copy then.
pub fn put_copy(
    alloc: Global,
    walk: &mut Walk,
    listed: Listed,
    to: Register,
) -> Result<(), NoMemory> {
    put_move(alloc, walk, way_to(listed, to), copied_to(listed, to))
}

/// Writes a move of a value to a register, which is its place then.
pub fn put_away(
    alloc: Global,
    walk: &mut Walk,
    listed: Listed,
    to: Register,
) -> Result<(), NoMemory> {
    put_move(alloc, walk, way_to(listed, to), placed_in(listed, to))
}

/// Writes the store of a value, if a register is its place.
pub fn put_store(alloc: Global, walk: &mut Walk, listed: Listed) -> Result<(), NoMemory> {
    match listed.place {
        Place::Register(from) => {
            let to = listed.value;
            let after = Listed {
                place: Place::Slot(to),
                copy: Some(from),
                ..listed
            };
            put_move(alloc, walk, Way::Store { from, to }, after)
        }
        Place::Slot(_) => Ok(()),
    }
}

/// Writes the store of a value, if it is listed and a register is its place.
pub fn put_store_of(alloc: Global, walk: &mut Walk, value: u32) -> Result<(), NoMemory> {
    match listing(&walk.state, value) {
        Some(listed) => put_store(alloc, walk, listed),
        None => Ok(()),
    }
}

// The value in a register that is alive longest, but for these. It is listed first.
fn longest_alive(state: &[Listed], keep: &[u32]) -> Option<u32> {
    for listed in state {
        if let Place::Register(_) = listed.place {
            if !is_one_of(listed.value, keep) {
                return Some(listed.value);
            }
        }
    }
    None
}

// Where values stand at the next label ahead that tells it.
fn awaited(walk: &Walk) -> &[Listed] {
    for label in &walk.ahead {
        if let Some(at) = index_of(&walk.kept, *label) {
            return &walk.kept[at].state;
        }
    }
    &[]
}

/// A register for a value: a free one that no value is to be in at the next label ahead, or else one that has at most copies, and none
/// of these values. Where there is none, it is any, and the walk tells which value stood in the way.
pub fn spare_register(walk: &mut Walk, keep: &[u32]) -> Result<Register, NoMemory> {
    if let Some(register) = free_register(&walk.state, awaited(walk)) {
        return Ok(register);
    }
    match any_register(&walk.state, keep) {
        Some(register) => Ok(register),
        None => {
            if let Some(value) = longest_alive(&walk.state, keep) {
                walk.more.slotted.push(value)?;
            }
            Ok(Register::T0)
        }
    }
}
