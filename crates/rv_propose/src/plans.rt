// What the code of a function needs at each of its points, for one who gives its values registers.

ghost use Rattle.std.specs.Prelude.{◌≡◌};
ghost use Rattle.rv_isa.specs.Conventions.{spoils};

use crate::liveness::{Point, alive_before, copy_of, held_before, is_one_of, is_result};
use crate::state::argument_register;
use kk_base::NoMemory;
use rv_isa::{Action, Operation, Register, Routine, Statement};
use std::alloc::Global;

/// The most work that code with registers is worth: its lines times the square of the most values that are alive at a point.
const MOST_WORK: usize = 50_000_000;

/// The most values that a function with registers may have.
const MOST_VALUES: usize = 10_000;

/// The most labels and the most copies ahead of a point that are told.
const MOST_AHEAD: usize = 16;

/// A register where a value would best be, and how much that is worth.
#[derive(Clone, Copy)]
pub struct Wish {
    pub value: u32,
    pub register: Register,
    pub worth: u32,
}

/// A copy of a value: the one that it takes, and the one that it gives.
#[derive(Clone, Copy)]
pub struct Copied {
    pub from: u32,
    pub into: u32,
}

/// A value that is to be where it is needed before the statement of this index, since too few moves may stand before a later one.
#[derive(Clone, Copy)]
pub struct Due {
    pub index: usize,
    pub value: u32,
}

/// The values that are treated with care, since there were too few moves or registers for them.
#[derive(Drop)]
pub struct Care {
    /// Whether all values go early.
    pub is_for_all: bool,
    pub due: Vec<Due>,
    /// The values that go to their slots, or out of the registers that are spoilt, as soon as they are there.
    pub early: Vec<u32>,
    /// The values that go to their slots as soon as they are there, whether they have to be there or not.
    pub slotted: Vec<u32>,
}

/// What the code needs of values on the ways on from a point.
#[derive(Drop)]
pub struct Needs {
    /// The values that have to be in their slots on some way on from here.
    pub slotted: Vec<u32>,
    /// The values that have to be in their slots on each way on from here.
    pub stored: Vec<u32>,
    /// The values that are alive behind a later action that spoils some registers.
    pub crossing: Vec<u32>,
    /// The values that are alive at a later label to which more than one way leads, before any call.
    pub joining: Vec<u32>,
    /// The values that lines other than copies compute with or branch by on some way on from here, before any call and any routine but
    /// take.
    pub read: Vec<u32>,
}

/// What is needed at a point.
#[derive(Drop)]
pub struct Plan {
    pub point: Point,
    pub needs: Needs,
    pub wishes: Vec<Wish>,
    /// The next labels on the way on from here.
    pub ahead: Vec<u32>,
    /// The next copies in the code, on this way or another one.
    pub copies: Vec<Copied>,
}

/// A label, and the index of the point before it.
#[derive(Clone, Copy)]
struct LabelIndex {
    label: u32,
    index: usize,
}

/// What is needed at the points of a function. It is made from the end of the code back.
#[derive(Drop)]
pub struct Plans {
    /// Before each statement and at the end, the first one last.
    pub points: Vec<Plan>,
    /// The labels so far.
    labels: Vec<LabelIndex>,
    /// The labels to which one way alone leads.
    pub lone: Vec<u32>,
}

impl Plans {
    // What is needed at a label. Where the label is not known, nothing is, as at the end of the code.
    fn at_label(&self, label: u32) -> Option<&Plan> {
        for known in &self.labels {
            if known.label == label {
                return self.points.get(known.index);
            }
        }
        self.points.first()
    }

    /// What is alive at a label.
    pub fn alive_at(&self, label: u32) -> &[u32] {
        match self.at_label(label) {
            Some(plan) => &plan.point.alive,
            None => &[],
        }
    }

    // What is needed at the label that an action names, or nothing.
    fn named_by(&self, action: Action) -> Option<&Plan> {
        match named_label(action) {
            Some(label) => self.at_label(label),
            None => self.points.first(),
        }
    }
}

impl Care {
    /// No value is treated with care, or each value goes early.
    pub fn none(alloc: Global, is_for_all: bool) -> Care {
        Care {
            is_for_all,
            due: Vec::new(alloc),
            early: Vec::new(alloc),
            slotted: Vec::new(alloc),
        }
    }

    /// Whether the value is due before the statement of this index.
    pub fn is_due(&self, index: usize, value: u32) -> bool {
        for due in &self.due {
            if due.index == index && due.value == value {
                return true;
            }
        }
        false
    }

    /// Whether the value goes to where it is needed as soon as it is there.
    pub fn is_early(&self, value: u32) -> bool {
        self.is_for_all || is_one_of(value, &self.early)
    }
}

/// Whether the action goes on at the next statement.
pub fn goes_on(action: Action) -> bool {
    !matches!(
        action,
        Action::Jump(_) | Action::TailCall(_) | Action::Return
    )
}

/// Whether the action may change the register of this number, besides giving its value.
pub fn may_spoil(action: Action, register: u8) -> bool
    ensures { result ≡ spoils action register }
{
    match action {
        Action::Call(_) => true,
        Action::Routine(routine) => routine.spoils(register),
        _ => false,
    }
}

/// Whether the action spoils registers.
pub fn spoils_some(action: Action) -> bool {
    matches!(action, Action::Call(_) | Action::Routine(_))
}

/// Whether it spoils registers that values may stay in.
pub fn spoils_many(action: Action) -> bool {
    matches!(
        action,
        Action::Call(_)
            | Action::Routine(Routine::PrintInt | Routine::PrintText | Routine::ReadByte)
    )
}

// Whether an action takes its arguments in their registers.
fn takes_in_registers(action: Action) -> bool {
    matches!(
        action,
        Action::Call(_) | Action::TailCall(_) | Action::Return | Action::Routine(_)
    )
}

// Whether an argument of a statement is alive behind it too, and not its result.
fn is_read_on(statement: &Statement, value: u32, behind: &[u32]) -> bool {
    is_one_of(value, behind) && !is_result(statement.into, value)
}

/// The label to which a jump or a branch leads.
pub fn named_label(action: Action) -> Option<u32> {
    match action {
        Action::Jump(label) | Action::Branch(_, label) => Some(label),
        _ => None,
    }
}

// How often a label is named.
fn count_of(named: &[u32], label: u32) -> usize {
    let mut count: usize = 0;
    for other in named {
        if *other == label {
            count = count.saturating_add(1);
        }
    }
    count
}

// The labels to which one way alone leads: that of a jump or branch, or that of the line before.
fn lone_labels(alloc: Global, code: &[Statement]) -> Result<Vec<u32>, NoMemory> {
    let mut named = Vec::new(alloc);
    let mut lone = Vec::new(alloc);
    let mut is_reached = true;
    for statement in code {
        if let Some(label) = named_label(statement.action) {
            named.push(label)?;
        }
        if let Action::Label(label) = statement.action {
            let most = if is_reached { 0 } else { 1 };
            if count_of(&named, label) == most {
                lone.push(label)?;
            }
        }
        is_reached = goes_on(statement.action);
    }
    Ok(lone)
}

// Those of the values that go early.
fn early_of(alloc: Global, values: &[u32], care: &Care) -> Result<Vec<u32>, NoMemory> {
    let mut early = Vec::new(alloc);
    for value in values {
        if care.is_early(*value) {
            early.push(*value)?;
        }
    }
    Ok(early)
}

// The values of a list behind an action, by those at the next statement and those at the label that it names.
fn list_behind(
    alloc: Global,
    action: Action,
    next: &[u32],
    named: &[u32],
) -> Result<Vec<u32>, NoMemory> {
    match action {
        Action::Jump(_) => copy_of(alloc, named),
        Action::Branch(..) => alive_before(alloc, next, None, named),
        Action::TailCall(_) | Action::Return => Ok(Vec::new(alloc)),
        _ => copy_of(alloc, next),
    }
}

// The values of a list before a statement: those behind it, but for its result, and those that it adds.
fn list_before(
    alloc: Global,
    statement: &Statement,
    next: &[u32],
    named: &[u32],
    here: &[u32],
) -> Result<Vec<u32>, NoMemory> {
    let behind = list_behind(alloc, statement.action, next, named)?;
    alive_before(alloc, here, statement.into, &behind)
}

// What comes to have to be in its slot before a statement.
fn slotted_by(alloc: Global, statement: &Statement, behind: &[u32]) -> Result<Vec<u32>, NoMemory> {
    match statement.action {
        Action::Hold | Action::Unhold => copy_of(alloc, &statement.args),
        action if spoils_many(action) => alive_before(alloc, &[], statement.into, behind),
        _ => Ok(Vec::new(alloc)),
    }
}

// The same, where values that go early are in their slots at labels to which more than one way leads.
fn slotted_with_care(
    alloc: Global,
    statement: &Statement,
    behind: &[u32],
    lone: &[u32],
    care: &Care,
) -> Result<Vec<u32>, NoMemory> {
    match statement.action {
        Action::Label(label) if !is_one_of(label, lone) => early_of(alloc, behind, care),
        _ => slotted_by(alloc, statement, behind),
    }
}

fn crossing_by(alloc: Global, statement: &Statement, behind: &[u32]) -> Result<Vec<u32>, NoMemory> {
    if spoils_some(statement.action) {
        alive_before(alloc, &[], statement.into, behind)
    } else {
        Ok(Vec::new(alloc))
    }
}

// The values that are alive behind a later action that spoils some registers, before a statement.
fn crossing_before(
    alloc: Global,
    statement: &Statement,
    next: &[u32],
    named: &[u32],
    behind: &[u32],
) -> Result<Vec<u32>, NoMemory> {
    let here = crossing_by(alloc, statement, behind)?;
    list_before(alloc, statement, next, named, &here)
}

// The values that a statement computes with, or branches by. A copy of a value in a register saves nothing where that is copied again:
// a load takes as long.
fn read_by(statement: &Statement) -> &[u32] {
    match statement.action {
        Action::Compute(Operation::Mv) => &[],
        Action::Compute(_) | Action::Branch(..) => &statement.args,
        _ => &[],
    }
}

// Those of the next values to be read that are read before any call and any routine but take.
fn read_next(action: Action, next: &Needs) -> &[u32] {
    match action {
        Action::Routine(Routine::Take) => &next.read,
        action if spoils_some(action) => &[],
        _ => &next.read,
    }
}

// Those of the next values to come to labels that come there before any call.
fn joining_next(action: Action, next: &Needs) -> &[u32] {
    if spoils_many(action) {
        &[]
    } else {
        &next.joining
    }
}

// The values that come to a label to which more than one way leads, by those behind a statement and those at the label that it names.
fn joining_by<'a>(action: Action, behind: &'a [u32], named: &'a [u32], lone: &[u32]) -> &'a [u32] {
    match action {
        Action::Label(label) if !is_one_of(label, lone) => behind,
        Action::Jump(label) | Action::Branch(_, label) if !is_one_of(label, lone) => named,
        _ => &[],
    }
}

// The values that both lists have.
fn in_both(alloc: Global, values: &[u32], others: &[u32]) -> Result<Vec<u32>, NoMemory> {
    let mut both = Vec::new(alloc);
    for value in values {
        if is_one_of(*value, others) {
            both.push(*value)?;
        }
    }
    Ok(both)
}

// What has to be stored behind an action on each way on.
fn stored_behind(
    alloc: Global,
    action: Action,
    next: &[u32],
    named: &[u32],
) -> Result<Vec<u32>, NoMemory> {
    match action {
        Action::Branch(..) => in_both(alloc, next, named),
        _ => list_behind(alloc, action, next, named),
    }
}

// What has to be stored before a statement on each way on.
fn stored_before(
    alloc: Global,
    statement: &Statement,
    next: &[u32],
    named: &[u32],
    behind: &[u32],
) -> Result<Vec<u32>, NoMemory> {
    let later = stored_behind(alloc, statement.action, next, named)?;
    let here = slotted_by(alloc, statement, behind)?;
    alive_before(alloc, &here, statement.into, &later)
}

// What a wish for an argument of the action is worth: code that calls its own function again runs most often.
fn worth_of(action: Action) -> u32 {
    match action {
        Action::TailCall(_) => 8,
        Action::Call(_) => 3,
        Action::Routine(_) => 2,
        _ => 1,
    }
}

// Adds a wish. Of two for one value, the one of more worth stays: so each value has one wish at most.
fn add_wish(wishes: &mut Vec<Wish>, wish: Wish) -> Result<(), NoMemory> {
    for other in wishes.iter_mut() {
        if other.value == wish.value {
            if other.worth < wish.worth {
                *other = wish;
            }
            return Ok(());
        }
    }
    wishes.push(wish)?;
    Ok(())
}

// The wishes behind an action, by those at the next statement and those at the label that it names.
fn wishes_behind(
    alloc: Global,
    action: Action,
    next: &[Wish],
    named: &[Wish],
) -> Result<Vec<Wish>, NoMemory> {
    match action {
        Action::Jump(_) => Ok(Vec::from_slice(alloc, named)?),
        Action::Branch(..) => {
            let mut wishes = Vec::from_slice(alloc, next)?;
            for wish in named {
                add_wish(&mut wishes, *wish)?;
            }
            Ok(wishes)
        }
        Action::TailCall(_) | Action::Return => Ok(Vec::new(alloc)),
        _ => Ok(Vec::from_slice(alloc, next)?),
    }
}

// What a copy wishes for, its value wishes for too, unless this keeps its register behind the copy.
fn copied_wish(next: &Plan, statement: &Statement, wish: Wish) -> Option<Wish> {
    let copied = copied_by(statement)?;
    let keeps_its_register = is_one_of(copied.from, &next.point.alive)
        && !is_one_of(copied.from, &next.needs.stored);
    let wanted = Wish {
        value: copied.from,
        ..wish
    };
    (copied.into == wish.value && !keeps_its_register).then_some(wanted)
}

// Adds the wishes for the arguments of a statement that are taken in their registers. One that is read on behind the statement wishes
// for none of them, since the statement may spoil it.
fn add_arguments(
    wishes: &mut Vec<Wish>,
    statement: &Statement,
    behind: &[u32],
) -> Result<(), NoMemory> {
    for (index, value) in statement.args.iter().enumerate() {
        if let Some(register) = argument_register(index)
            && !is_read_on(statement, *value, behind)
        {
            let wish = Wish {
                value: *value,
                register,
                worth: worth_of(statement.action),
            };
            add_wish(wishes, wish)?;
        }
    }
    Ok(())
}

// The wishes before a statement: those behind it, but for its result and for registers that it spoils, and those for its arguments.
fn wishes_before(
    alloc: Global,
    next: &Plan,
    named: &Plan,
    statement: &Statement,
    behind: &[u32],
) -> Result<Vec<Wish>, NoMemory> {
    let action = statement.action;
    let later = wishes_behind(alloc, action, &next.wishes, &named.wishes)?;
    let mut wishes = Vec::new(alloc);
    let mut copied = None;
    for wish in &later {
        if let Some(wish) = copied_wish(next, statement, *wish) {
            copied = Some(wish);
        }
        if !is_result(statement.into, wish.value) && !may_spoil(action, wish.register.number) {
            wishes.push(*wish)?;
        }
    }
    if let Some(wish) = copied {
        add_wish(&mut wishes, wish)?;
    }
    if takes_in_registers(action) {
        add_arguments(&mut wishes, statement, behind)?;
    }
    Ok(wishes)
}

// The next labels on the way on from a statement.
fn ahead_before(
    alloc: Global,
    action: Action,
    next: &[u32],
    named: &[u32],
) -> Result<Vec<u32>, NoMemory> {
    match action {
        Action::Label(label) => {
            let mut ahead = Vec::new(alloc);
            ahead.push(label)?;
            for other in next {
                if ahead.len() < MOST_AHEAD {
                    ahead.push(*other)?;
                }
            }
            Ok(ahead)
        }
        Action::Branch(..) if next.is_empty() => copy_of(alloc, named),
        Action::Branch(..) => copy_of(alloc, next),
        _ => list_behind(alloc, action, next, named),
    }
}

// The copy that a statement makes.
fn copied_by(statement: &Statement) -> Option<Copied> {
    match (statement.action, statement.args.first(), statement.into) {
        (Action::Compute(Operation::Mv), Some(from), Some(into)) => Some(Copied {
            from: *from,
            into,
        }),
        _ => None,
    }
}

// The next copies in the code, before a statement, by those before the next one.
fn copies_before(
    alloc: Global,
    statement: &Statement,
    next: &[Copied],
) -> Result<Vec<Copied>, NoMemory> {
    let Some(first) = copied_by(statement) else {
        return Ok(Vec::from_slice(alloc, next)?);
    };
    let mut copies = Vec::new(alloc);
    copies.push(first)?;
    for copied in next {
        if copies.len() < MOST_AHEAD {
            copies.push(*copied)?;
        }
    }
    Ok(copies)
}

// What is alive and what is held before a statement, by what is alive behind it.
fn point_before(
    alloc: Global,
    statement: &Statement,
    next: &Point,
    behind: &[u32],
) -> Result<Point, NoMemory> {
    let held = held_before(alloc, statement.action, &statement.args, &next.held)?;
    let alive = alive_before(alloc, &statement.args, statement.into, behind)?;
    Ok(Point { alive, held })
}

// What the code needs of values before a statement.
fn needs_before(
    alloc: Global,
    lone: &[u32],
    next: &Plan,
    named: &Plan,
    statement: &Statement,
    behind: &[u32],
    care: &Care,
) -> Result<Needs, NoMemory> {
    let action = statement.action;
    let (later, there) = (&next.needs, &named.needs);
    let slots = slotted_with_care(alloc, statement, behind, lone, care)?;
    let joined = joining_by(action, behind, &named.point.alive, lone);
    Ok(Needs {
        slotted: list_before(alloc, statement, &later.slotted, &there.slotted, &slots)?,
        stored: stored_before(alloc, statement, &later.stored, &there.stored, behind)?,
        crossing: crossing_before(alloc, statement, &later.crossing, &there.crossing, behind)?,
        joining: list_before(
            alloc,
            statement,
            joining_next(action, later),
            &there.joining,
            joined,
        )?,
        read: list_before(
            alloc,
            statement,
            read_next(action, later),
            &there.read,
            read_by(statement),
        )?,
    })
}

// What is needed before a statement, by what is needed at the next one and at the label that it names.
fn plan_before(
    alloc: Global,
    lone: &[u32],
    next: &Plan,
    named: &Plan,
    statement: &Statement,
    care: &Care,
) -> Result<Plan, NoMemory> {
    let action = statement.action;
    let behind = list_behind(alloc, action, &next.point.alive, &named.point.alive)?;
    Ok(Plan {
        point: point_before(alloc, statement, &next.point, &behind)?,
        needs: needs_before(alloc, lone, next, named, statement, &behind, care)?,
        wishes: wishes_before(alloc, next, named, statement, &behind)?,
        ahead: ahead_before(alloc, action, &next.ahead, &named.ahead)?,
        copies: copies_before(alloc, statement, &next.copies)?,
    })
}

// Adds what is needed before a statement, and tells how many values are alive there.
fn step(
    alloc: Global,
    plans: &mut Plans,
    statement: &Statement,
    care: &Care,
) -> Result<usize, NoMemory> {
    let action = statement.action;
    let (Some(next), Some(named)) = (plans.points.last(), plans.named_by(action)) else {
        return Ok(0);
    };
    let before = plan_before(alloc, &plans.lone, next, named, statement, care)?;
    let count = before.point.alive.len();
    if let Action::Label(label) = action {
        let index = plans.points.len();
        plans.labels.push(LabelIndex { label, index })?;
    }
    plans.points.push(before)?;
    Ok(count)
}

fn is_too_much(lines: usize, values: usize) -> bool {
    values > MOST_VALUES || lines > MOST_WORK / (values * values + 1)
}

fn no_needs(alloc: Global) -> Needs {
    Needs {
        slotted: Vec::new(alloc),
        stored: Vec::new(alloc),
        crossing: Vec::new(alloc),
        joining: Vec::new(alloc),
        read: Vec::new(alloc),
    }
}

// At the end of the code, nothing is needed.
fn no_plan(alloc: Global) -> Plan {
    Plan {
        point: Point {
            alive: Vec::new(alloc),
            held: Vec::new(alloc),
        },
        needs: no_needs(alloc),
        wishes: Vec::new(alloc),
        ahead: Vec::new(alloc),
        copies: Vec::new(alloc),
    }
}

/// What is needed at the points of code; or `None` where it would be too much work.
pub fn plans_of(alloc: Global, code: &[Statement], care: &Care) -> Result<Option<Plans>, NoMemory> {
    let mut plans = Plans {
        points: Vec::new(alloc),
        labels: Vec::new(alloc),
        lone: lone_labels(alloc, code)?,
    };
    plans.points.push(no_plan(alloc))?;
    for statement in code.iter().rev() {
        let count = step(alloc, &mut plans, statement, care)?;
        if is_too_much(code.len(), count) {
            return Ok(None);
        }
    }
    Ok(Some(plans))
}
