// The code of a function whose values stay in registers as long as they can.

use crate::joins::{
    Walk, go_to, index_from, join, kept_register, make_way, put_away, put_copy, put_store,
    put_store_of, spare_register, take_state, twin_register,
};
use crate::liveness::{copy_of, is_one_of};
use crate::plans::{
    Care, Due, Plan, Plans, goes_on, may_spoil, named_label, plans_of, spoils_many, spoils_some,
};
use crate::state::{
    argument_register, is_free, is_in, is_to_be_had, is_wished_for, leave_spoilt_registers,
    listing, lose_copies_in, operands_at, register_of, same_state, standing_in, stands_in,
    state_at, wished_register,
};
use kk_base::NoMemory;
use rv_isa::{
    Action, AsmFunction, Item, Listed, Operand, Operation, Place, PlacedFunction, Register,
    Routine, Statement,
};
use std::alloc::Global;
use std::mem;

/// How often a function is written anew with more care.
const MOST_ROUNDS: u32 = 8;

/// The most moves that bring arguments to their registers.
const MOST_ARGUMENT_MOVES: u32 = 16;

// Whether the place is a register that a drop spoils.
fn is_soon_spoilt(place: Place) -> bool {
    match place {
        Place::Register(register) => Routine::Drop.spoils(register.number),
        Place::Slot(_) => false,
    }
}

// Puts a value that has come to a register where it is needed, if it goes early: to its slot, or to a register that is not spoilt.
fn settle(
    alloc: Global,
    walk: &mut Walk,
    listed: Listed,
    register: Register,
    plan: &Plan,
    care: &Care,
) -> Result<(), NoMemory> {
    let value = listed.value;
    let is_spoilt = is_soon_spoilt(Place::Register(register));
    let is_early = care.is_early(value);
    if is_one_of(value, &care.slotted) || is_early && is_one_of(value, &plan.needs.slotted) {
        put_store(alloc, walk, listed)
    } else if is_spoilt && is_early && is_one_of(value, &plan.needs.crossing) {
        let to = spare_register(walk, &[])?;
        put_away(alloc, walk, listed, to)
    } else {
        Ok(())
    }
}

// A register for a value: the one that it has at a label ahead, or the one that it wishes for, or this one that costs nothing, else
// any. For a value that has to go to its slot it is this one rather than the one that it wishes for.
fn register_for(
    walk: &mut Walk,
    keep: &[u32],
    plan: &Plan,
    value: u32,
    idle: Option<Register>,
) -> Result<Register, NoMemory> {
    if let Some(register) = kept_register(walk, keep, &plan.ahead, value) {
        return Ok(register);
    }
    if let Some(register) = idle
        && is_one_of(value, &plan.needs.slotted)
    {
        return Ok(register);
    }
    if let Some(register) = wished_register(&walk.state, keep, plan, value) {
        return Ok(register);
    }
    match idle {
        Some(register) => Ok(register),
        None => spare_register(walk, keep),
    }
}

// A register that costs nothing: for a constant its own, where the value comes to no label to which other ways lead; for a copy
// that of its value, where this has no other use.
fn idle_register(
    state: &[Listed],
    operation: Operation,
    args: &[Operand],
    value: u32,
    plan: &Plan,
) -> Option<Register> {
    if let Some(register) = Action::Compute(operation).home() {
        let is_open = is_to_be_had(state, &[], register) && !is_one_of(value, &plan.needs.joining);
        return is_open.then_some(register);
    }
    if let (Operation::Mv, Some(arg)) = (operation, args.first()) {
        if let Place::Register(register) = arg.place {
            if is_free(state, register) && !register.is_of_constant() {
                return Some(register);
            }
        }
    }
    None
}

// Each argument of a computation comes to a register.
fn fetch(alloc: Global, walk: &mut Walk, args: &[u32], plan: &Plan) -> Result<(), NoMemory> {
    for value in args {
        if let Some(listed) = listing(&walk.state, *value) {
            if register_of(listed).is_none() {
                let to = register_for(walk, args, plan, *value, None)?;
                put_copy(alloc, walk, listed, to)?;
            }
        }
    }
    Ok(())
}

/// A move that is to be made for an argument, and whether the value's place is to be its end.
#[derive(Clone, Copy)]
struct ArgumentMove {
    listed: Listed,
    to: Register,
    is_away: bool,
}

fn is_in_the_way(listed: Listed, args: &[u32]) -> bool {
    for (index, _) in args.iter().enumerate() {
        if let Some(register) = argument_register(index) {
            if stands_in(listed, register) {
                return true;
            }
        }
    }
    false
}

// What is copied, and has to be in its slot on each way on, goes there first: then the copy can have its register.
fn store_copied(
    alloc: Global,
    walk: &mut Walk,
    statement: &Statement,
    behind: &Plan,
) -> Result<(), NoMemory> {
    if let Action::Compute(Operation::Mv) = statement.action {
        for value in &statement.args {
            if walk.left > 0 && is_one_of(*value, &behind.needs.stored) {
                put_store_of(alloc, walk, *value)?;
            }
        }
    }
    Ok(())
}

// How many of the arguments are in no register.
fn loads_for(state: &[Listed], args: &[u32]) -> usize {
    let mut loads: usize = 0;
    for value in args {
        if let Some(listed) = listing(state, *value) {
            if register_of(listed).is_none() {
                loads = loads.saturating_add(1);
            }
        }
    }
    loads
}

// A value that is alive behind a computation leaves a register.
fn leave_wished(
    alloc: Global,
    walk: &mut Walk,
    listed: Listed,
    args: &[u32],
    behind: &Plan,
) -> Result<(), NoMemory> {
    if is_one_of(listed.value, &behind.needs.stored) {
        put_store(alloc, walk, listed)
    } else if !is_one_of(listed.value, &behind.point.alive) {
        Ok(())
    } else if let Some(to) = wished_register(&walk.state, args, behind, listed.value) {
        put_away(alloc, walk, listed, to)
    } else {
        Ok(())
    }
}

// Another value leaves the register that the result of a computation wishes for: it goes to its slot, where it has to be on each way
// on, or to a register that it wishes for itself. A constant that a register holds always, and a value that a label ahead has in
// another register, need no room.
fn make_room(
    alloc: Global,
    walk: &mut Walk,
    statement: &Statement,
    behind: &Plan,
) -> Result<(), NoMemory> {
    let (Action::Compute(_), Some(value)) = (statement.action, statement.into) else {
        return Ok(());
    };
    let is_kept = kept_register(walk, &statement.args, &behind.ahead, value).is_some();
    if is_kept || statement.action.home().is_some() {
        return Ok(());
    }
    let loads = loads_for(&walk.state, &statement.args);
    for wish in &behind.wishes {
        if wish.value == value && walk.left > loads {
            if let Some(listed) = standing_in(&walk.state, wish.register) {
                leave_wished(alloc, walk, listed, &statement.args, behind)?;
            }
        }
    }
    Ok(())
}

// The first argument that is not where it is taken, and can be brought there: with `is_gentle`, where that loses no copy.
fn next_argument(state: &[Listed], args: &[u32], is_gentle: bool) -> Option<ArgumentMove> {
    for (index, value) in args.iter().enumerate() {
        if let (Some(to), Some(listed)) = (argument_register(index), listing(state, *value)) {
            let is_open = if is_gentle {
                is_free(state, to)
            } else {
                is_to_be_had(state, &[], to)
            };
            if !is_in(listed, to) && is_open {
                let is_away = is_in_the_way(listed, args);
                return Some(ArgumentMove {
                    listed,
                    to,
                    is_away,
                });
            }
        }
    }
    None
}

// The first value that stands where an argument is taken that is not there.
fn next_in_the_way(state: &[Listed], args: &[u32]) -> Option<Listed> {
    for (index, value) in args.iter().enumerate() {
        if let Some(to) = argument_register(index) {
            for listed in state {
                if listed.value != *value && stands_in(*listed, to) {
                    return Some(*listed);
                }
            }
        }
    }
    None
}

fn next_move(state: &[Listed], args: &[u32]) -> Option<ArgumentMove> {
    match next_argument(state, args, true) {
        Some(found) => Some(found),
        None => next_argument(state, args, false),
    }
}

// Each argument comes to the register where it is taken.
fn arrange(alloc: Global, walk: &mut Walk, args: &[u32]) -> Result<(), NoMemory> {
    for _ in 0..MOST_ARGUMENT_MOVES {
        if let Some(next) = next_move(&walk.state, args) {
            if next.is_away {
                put_away(alloc, walk, next.listed, next.to)?;
            } else {
                put_copy(alloc, walk, next.listed, next.to)?;
            }
        } else if let Some(listed) = next_in_the_way(&walk.state, args) {
            make_way(alloc, walk, listed)?;
        } else {
            return Ok(());
        }
    }
    Ok(())
}

// What is alive behind an action goes to its slot.
fn store_all(alloc: Global, walk: &mut Walk, values: &[u32]) -> Result<(), NoMemory> {
    for value in values {
        put_store_of(alloc, walk, *value)?;
    }
    Ok(())
}

// Values that have to be in their slots on each way on go there, while moves are left: those in registers that others wish for first.
// One that stands in two registers, of which the statement takes one, goes there later: a store would forget the copy.
fn store_some(
    alloc: Global,
    walk: &mut Walk,
    values: &[u32],
    behind: &Plan,
) -> Result<(), NoMemory> {
    for is_wished in [true, false] {
        for value in values {
            if let Some(listed) = listing(&walk.state, *value) {
                let is_open = !is_wished || is_wished_for(listed, &behind.wishes);
                if walk.left > 0 && listed.copy.is_none() && is_open {
                    put_store(alloc, walk, listed)?;
                }
            }
        }
    }
    Ok(())
}

// Whether the value stands in the register where it is taken as an argument.
fn stands_as_taken(listed: Listed, args: &[u32]) -> bool {
    for (index, value) in args.iter().enumerate() {
        if let Some(register) = argument_register(index) {
            if *value == listed.value && stands_in(listed, register) {
                return true;
            }
        }
    }
    false
}

// Whether a register that the action does not spoil has a copy of the value.
fn has_safe_copy(listed: Listed, action: Action) -> bool {
    match listed.copy {
        Some(register) => !may_spoil(action, register.number),
        None => false,
    }
}

// A value leaves the register where it stands. As an argument that is taken there it stays, and another register has a copy.
fn leave_place(
    alloc: Global,
    walk: &mut Walk,
    listed: Listed,
    statement: &Statement,
    stored: &[u32],
) -> Result<(), NoMemory> {
    let is_taken = stands_as_taken(listed, &statement.args);
    if is_one_of(listed.value, stored) {
        put_store(alloc, walk, listed)
    } else if has_safe_copy(listed, statement.action) {
        if is_taken {
            Ok(())
        } else {
            make_way(alloc, walk, listed)
        }
    } else {
        let to = spare_register(walk, &statement.args)?;
        if is_taken {
            put_copy(alloc, walk, listed, to)
        } else {
            put_away(alloc, walk, listed, to)
        }
    }
}

// What is alive behind a statement leaves the registers that its action spoils.
fn leave_spoilt(
    alloc: Global,
    walk: &mut Walk,
    statement: &Statement,
    behind: &Plan,
) -> Result<(), NoMemory> {
    for value in &behind.point.alive {
        if let Some(listed) = listing(&walk.state, *value) {
            if let Place::Register(register) = listed.place {
                if may_spoil(statement.action, register.number) {
                    leave_place(alloc, walk, listed, statement, &behind.needs.stored)?;
                }
            }
        }
    }
    Ok(())
}

// Whether a word is loaded that nothing reads: it can be lost.
fn is_unread(state: &[Listed], operation: Operation, value: u32, behind: &Plan) -> bool {
    matches!(operation, Operation::Lw(_))
        && !is_one_of(value, &behind.point.alive)
        && is_free(state, Register::ZERO)
}

// The register that the result of an action comes in.
fn result_for(
    walk: &mut Walk,
    action: Action,
    args: &[Operand],
    value: u32,
    plan: &Plan,
) -> Result<Register, NoMemory> {
    match action {
        Action::Compute(operation) if is_unread(&walk.state, operation, value, plan) => {
            Ok(Register::ZERO)
        }
        Action::Compute(operation) => {
            let idle = match idle_register(&walk.state, operation, args, value, plan) {
                Some(register) => Some(register),
                None => twin_register(walk, &plan.copies, value),
            };
            register_for(walk, &[], plan, value, idle)
        }
        Action::Unhold => register_for(walk, &[], plan, value, None),
        Action::Routine(Routine::Take) => Ok(Register::T0),
        _ => Ok(Register::A0),
    }
}

// The result of a statement is listed at its register, and comes to where it is needed.
fn put_result(
    alloc: Global,
    walk: &mut Walk,
    into: Operand,
    register: Register,
    behind: &Plan,
    care: &Care,
) -> Result<(), NoMemory> {
    lose_copies_in(&mut walk.state, register);
    if is_one_of(into.value, &behind.point.alive) {
        let listed = Listed {
            value: into.value,
            place: into.place,
            held: false,
            copy: None,
        };
        walk.state.push(listed)?;
        settle(alloc, walk, listed, register, behind, care)?;
    }
    Ok(())
}

// The moves that may stand before a statement, for its arguments. A token that is taken back is in its slot. Before a drop one more may
// stand, with which a value leaves the register that it takes its reference in.
fn loads_before(statement: &Statement) -> usize {
    match statement.action {
        Action::Unhold => 0,
        Action::Routine(Routine::Drop) => statement.args.len().saturating_add(1),
        _ => statement.args.len(),
    }
}

// The moves that may stand behind a statement.
fn moves_behind(statement: &Statement) -> usize {
    let results = match statement.into {
        Some(_) => 1,
        None => 0,
    };
    match statement.action {
        Action::Compute(_) => statement.args.len().saturating_add(results),
        _ => results,
    }
}

// Values stand as they do behind a statement, but for its result, which stands nowhere yet. No move was made behind it so far.
fn pass(
    alloc: Global,
    walk: &mut Walk,
    statement: &Statement,
    behind: &Plan,
) -> Result<(), NoMemory> {
    if spoils_some(statement.action) {
        leave_spoilt_registers(&mut walk.state, statement.action);
    }
    walk.state = state_at(alloc, &walk.state, &behind.point, statement.into)?;
    walk.left = moves_behind(statement);
    walk.moved.clear();
    walk.excess = 0;
    Ok(())
}

// Writes a statement whose arguments are in place, and brings its result to where it is needed.
fn put_line(
    alloc: Global,
    walk: &mut Walk,
    statement: &Statement,
    behind: &Plan,
    care: &Care,
) -> Result<(), NoMemory> {
    let action = statement.action;
    let alive = same_state(alloc, &walk.state)?;
    let args = operands_at(alloc, &walk.state, action, &statement.args)?;
    pass(alloc, walk, statement, behind)?;
    match statement.into {
        Some(value) => {
            let register = result_for(walk, action, &args, value, behind)?;
            let place = Place::Register(register);
            let into = Operand { value, place };
            walk.items.push(Item::Does {
                alive,
                action,
                args,
                into: Some(into),
            })?;
            put_result(alloc, walk, into, register, behind, care)
        }
        None => {
            walk.items.push(Item::Does {
                alive,
                action,
                args,
                into: None,
            })?;
            Ok(())
        }
    }
}

// Values come to where the statement takes them, and leave where it spoils them.
fn prepare(
    alloc: Global,
    walk: &mut Walk,
    statement: &Statement,
    before: &Plan,
    behind: &Plan,
) -> Result<(), NoMemory> {
    let action = statement.action;
    match action {
        Action::Compute(_) | Action::Branch(..) => {
            store_copied(alloc, walk, statement, behind)?;
            make_room(alloc, walk, statement, behind)?;
            fetch(alloc, walk, &statement.args, before)
        }
        Action::TailCall(_) | Action::Return => arrange(alloc, walk, &statement.args),
        Action::Call(_) | Action::Routine(_) => {
            if spoils_many(action) {
                store_all(alloc, walk, &behind.point.alive)?;
            } else {
                leave_spoilt(alloc, walk, statement, behind)?;
            }
            arrange(alloc, walk, &statement.args)
        }
        Action::Hold => {
            store_all(alloc, walk, &statement.args)?;
            fetch(alloc, walk, &statement.args, before)
        }
        Action::Unhold => store_all(alloc, walk, &statement.args),
        Action::Label(_) | Action::Jump(_) | Action::Room => Ok(()),
    }
}

// What is alive before the last statement.
fn alive_before_last(items: &[Item]) -> &[Listed] {
    for item in items.iter().rev() {
        if let Item::Does { alive, .. } = item {
            return alive;
        }
    }
    &[]
}

// Some of the values that were moved are due before the statement of this index, while there are too many moves: those that were
// there before the last statement, and are not due there already.
fn put_due(
    walk: &mut Walk,
    index: usize,
    moved: &[u32],
    args: &[u32],
    care: &Care,
) -> Result<(), NoMemory> {
    for is_argument in [false, true] {
        for value in moved {
            let is_open = is_one_of(*value, args) == is_argument
                && listing(alive_before_last(&walk.items), *value).is_some()
                && !care.is_due(index, *value);
            if is_open && walk.excess > 0 {
                let value = *value;
                walk.more.due.push(Due { index, value })?;
                walk.excess -= 1;
            }
        }
    }
    Ok(())
}

// Where too many moves stand before a statement, some of these values move earlier: before the statement in front of it, or, if
// that is a label with one branch to it, before this branch. Where that is not enough, they move as soon as they are there.
fn blame(alloc: Global, walk: &mut Walk, args: &[u32], care: &Care) -> Result<(), NoMemory> {
    if walk.excess == 0 {
        return Ok(());
    }
    let moved = mem::replace(&mut walk.moved, Vec::new(alloc));
    if let Some(index) = walk.last {
        put_due(walk, index, &moved, args, care)?;
    }
    if walk.excess > 0 {
        walk.more.early.extend_from_slice(&moved)?;
    }
    Ok(())
}

// Moves a value early: to its slot, if it has to come there in any case; else to a register that keeps it; else a register that is not
// spoilt soon gets a copy of it.
fn move_early(alloc: Global, walk: &mut Walk, listed: Listed, plan: &Plan) -> Result<(), NoMemory> {
    if is_one_of(listed.value, &plan.needs.slotted) {
        put_store(alloc, walk, listed)
    } else if let Some(to) = kept_register(walk, &[], &plan.ahead, listed.value) {
        put_away(alloc, walk, listed, to)
    } else if is_soon_spoilt(listed.place) && listed.copy.is_none() {
        let to = spare_register(walk, &[])?;
        put_copy(alloc, walk, listed, to)
    } else {
        Ok(())
    }
}

// Moves the values that have to move before the next statement.
fn pay(alloc: Global, walk: &mut Walk, plan: &Plan, care: &Care) -> Result<(), NoMemory> {
    for due in &care.due {
        if due.index == walk.index {
            if let Some(listed) = listing(&walk.state, due.value) {
                move_early(alloc, walk, listed, plan)?;
            }
        }
    }
    Ok(())
}

// The label to which the code goes from before a statement, or may.
fn label_ahead(is_reached: bool, action: Action) -> Option<u32> {
    match action {
        Action::Label(label) if is_reached => Some(label),
        _ => named_label(action),
    }
}

// The index of the statement in front of the next one: behind a label with one branch to it, the index of that branch.
fn last_behind(walk: &Walk, action: Action, plans: &Plans) -> Option<usize> {
    match action {
        Action::Label(label) if is_one_of(label, &plans.lone) => index_from(&walk.kept, label),
        Action::Label(_) => None,
        _ => Some(walk.index),
    }
}

// Values come to where they stand at the label to which the code goes, or may, and to where the statement takes them.
fn step(
    alloc: Global,
    walk: &mut Walk,
    statement: &Statement,
    before: &Plan,
    behind: &Plan,
    plans: &Plans,
    care: &Care,
) -> Result<(), NoMemory> {
    walk.left = walk.left.saturating_add(loads_before(statement));
    walk.ahead = copy_of(alloc, &before.ahead)?;
    if walk.is_reached {
        pay(alloc, walk, before, care)?;
    }
    let ahead = label_ahead(walk.is_reached, statement.action);
    if let Some(label) = ahead {
        go_to(alloc, walk, label, plans, care)?;
    }
    if !matches!(statement.action, Action::Label(_) | Action::Jump(_)) {
        prepare(alloc, walk, statement, before, behind)?;
        store_some(alloc, walk, &before.needs.stored, behind)?;
    }
    if let Some(label) = ahead {
        join(alloc, walk, label, plans, care)?;
    }
    let last = last_behind(walk, statement.action, plans);
    if let Action::Label(label) = statement.action {
        walk.state = take_state(alloc, &mut walk.kept, label, &before.point)?;
    }
    blame(alloc, walk, &statement.args, care)?;
    put_line(alloc, walk, statement, behind, care)?;
    walk.last = last;
    walk.index = walk.index.saturating_add(1);
    walk.is_reached = goes_on(statement.action);
    if !walk.is_reached {
        walk.state = state_at(alloc, &[], &behind.point, None)?;
    }
    Ok(())
}

// Where parameters stand at the start.
fn passed(alloc: Global, params: &[u32], plan: &Plan) -> Result<Vec<Listed>, NoMemory> {
    let mut state = Vec::new(alloc);
    for (index, value) in params.iter().enumerate() {
        if let Some(register) = argument_register(index) {
            if is_one_of(*value, &plan.point.alive) {
                state.push(Listed {
                    value: *value,
                    place: Place::Register(register),
                    held: false,
                    copy: None,
                })?;
            }
        }
    }
    Ok(state)
}

// The start of a function: each parameter that goes early comes to where it is needed.
fn start(alloc: Global, params: &[u32], plan: &Plan, care: &Care) -> Result<Walk, NoMemory> {
    let mut walk = Walk {
        items: Vec::new(alloc),
        state: passed(alloc, params, plan)?,
        kept: Vec::new(alloc),
        is_reached: true,
        ahead: copy_of(alloc, &plan.ahead)?,
        left: params.len(),
        moved: Vec::new(alloc),
        index: 0,
        last: Some(0),
        excess: 0,
        more: Care::none(alloc, false),
    };
    for (index, value) in params.iter().enumerate() {
        if let (Some(register), Some(listed)) = (
            argument_register(index),
            listing(&walk.state, *value),
        ) {
            settle(alloc, &mut walk, listed, register, plan, care)?;
        }
    }
    Ok(walk)
}

// The walk through a function; or `None` where its plans would be too much work.
fn walked(alloc: Global, function: &AsmFunction, care: &Care) -> Result<Option<Walk>, NoMemory> {
    let Some(plans) = plans_of(alloc, &function.code, care)? else {
        return Ok(None);
    };
    let mut points = plans.points.iter().rev();
    let Some(mut before) = points.next() else {
        return Ok(None);
    };
    let mut walk = start(alloc, &function.params, before, care)?;
    for statement in &function.code {
        let Some(behind) = points.next() else {
            return Ok(None);
        };
        step(alloc, &mut walk, statement, before, behind, &plans, care)?;
        before = behind;
    }
    Ok(Some(walk))
}

// Adds the values that are not there yet, and tells whether there are some.
fn add_new(values: &mut Vec<u32>, more: &[u32]) -> Result<bool, NoMemory> {
    let mut is_more = false;
    for value in more {
        if !is_one_of(*value, values) {
            values.push(*value)?;
            is_more = true;
        }
    }
    Ok(is_more)
}

// Takes more care, and tells whether there is something new to care for.
fn take_care(care: &mut Care, more: &Care) -> Result<bool, NoMemory> {
    let has_more_early = add_new(&mut care.early, &more.early)?;
    let has_more_slotted = add_new(&mut care.slotted, &more.slotted)?;
    care.due.extend_from_slice(&more.due)?;
    Ok(has_more_early | has_more_slotted | !more.due.is_empty())
}

/// The function with its values in registers as long as they can be; or `None` where that would be too much work. Where it goes
/// early, each value goes to its slot as soon as it is there, if it has to be there at some point. Whether it is right, only a
/// check tells.
pub fn local_function(
    alloc: Global,
    function: &AsmFunction,
    is_early: bool,
) -> Result<Option<PlacedFunction>, NoMemory> {
    let mut care = Care::none(alloc, is_early);
    for _ in 0..MOST_ROUNDS {
        let Some(walk) = walked(alloc, function, &care)? else {
            return Ok(None);
        };
        if !take_care(&mut care, &walk.more)? {
            let params = copy_of(alloc, &function.params)?;
            return Ok(Some(PlacedFunction {
                params,
                code: walk.items,
            }));
        }
    }
    Ok(None)
}
