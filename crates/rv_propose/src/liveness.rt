// Which values are alive, and which are held tokens: the lists of a line, by those of what follows it.

ghost use Rattle.std.specs.Prelude.{◌≡◌, ◌==◌, ℕ, [], IfOk, OnOk, cond, length};
ghost use Rattle.rv_isa.specs.AsmMachine.{is_label};
ghost use Rattle.rv_isa.specs.Frames.{is_among};
ghost use Rattle.rv_isa.specs.WellFormed.{is_written, first_of};
ghost use Rattle.rv_propose.specs.Alive.{with_values, without, values_before, values_behind, held_before};
ghost use Rattle.rv_propose.specs.Tables.{last_at};

use kk_base::NoMemory;
use rv_isa::Action;
use std::alloc::Global;

/// The values that are alive at a point of the code, and the tokens that are held there, the newest first.
#[derive(Drop)]
pub struct Point {
    pub alive: Vec<u32>,
    pub held: Vec<u32>,
}

/// The values that are alive at a label.
#[derive(Drop)]
pub struct LabelPoint {
    pub label: u32,
    pub alive: Vec<u32>,
}

/// Whether a value is in a list.
pub fn is_one_of(value: u32, values: &[u32]) -> bool
    ensures { result ≡ is_among value values.now }
{
    for other in values {
        if *other == value {
            return true;
        }
    }
    false
}

/// Whether a statement that writes `into` writes the value.
pub fn is_result(into: Option<u32>, value: u32) -> bool
    ensures { result ≡ is_written into value }
{
    match into {
        Some(into) => into == value,
        None => false,
    }
}

fn add_all(values: &mut Vec<u32>, more: &[u32]) -> Result<(), NoMemory>
    ensures { OnOk result (values.new.items ≡ with_values more.now values.old.items) }
{
    for value in more {
        if !is_one_of(*value, values) {
            values.push(*value)?;
        }
    }
    Ok(())
}

/// The same values, in memory of their own.
pub fn copy_of(alloc: Global, values: &[u32]) -> Result<Vec<u32>, NoMemory>
    ensures { IfOk result (λ copy. copy.items ≡ values.now) }
{
    Ok(Vec::from_slice(alloc, values)?)
}

fn other_than(alloc: Global, into: Option<u32>, values: &[u32]) -> Result<Vec<u32>, NoMemory>
    ensures { IfOk result (λ others. others.items ≡ without into values.now) }
{
    Ok(
        values
            .iter()
            .copied()
            .filter(|value| !is_result(into, *value))
            .collect(alloc)?,
    )
}

/// The values that are alive before a statement, by those behind it.
pub fn alive_before(
    alloc: Global,
    args: &[u32],
    into: Option<u32>,
    behind: &[u32],
) -> Result<Vec<u32>, NoMemory>
    ensures { IfOk result (λ values. values.items ≡ values_before args.now into behind.now) }
{
    let mut values = other_than(alloc, into, behind)?;
    add_all(&mut values, args)?;
    Ok(values)
}

/// What is alive at a label, by the table.
pub fn alive_at(points: &[LabelPoint], label: u32) -> &[u32]
    ensures { result.now ≡ last_at label [] points.now }
{
    let mut found: &[u32] = &[];
    for point in points {
        if point.label == label {
            found = &point.alive;
        }
    }
    found
}

/// The values that are alive behind an action, by those before the next statement and those at labels.
pub fn alive_behind(
    alloc: Global,
    action: Action,
    next: &[u32],
    points: &[LabelPoint],
) -> Result<Vec<u32>, NoMemory>
    ensures { IfOk result (λ values. values.items ≡ values_behind action next.now (λ l. last_at l [] points.now)) }
{
    match action {
        Action::Jump(label) => copy_of(alloc, alive_at(points, label)),
        Action::Branch(_, label) => {
            let mut values = copy_of(alloc, alive_at(points, label))?;
            add_all(&mut values, next)?;
            Ok(values)
        }
        Action::TailCall(_) | Action::Return => Ok(Vec::new(alloc)),
        _ => copy_of(alloc, next),
    }
}

/// The table with one point more, if the action is a label.
pub fn with_point(
    mut points: Vec<LabelPoint>,
    action: Action,
    alive: Vec<u32>,
) -> Result<Vec<LabelPoint>, NoMemory>
    ensures { IfOk result (λ more. (l : ℕ) → last_at l [] more.items ≡ cond (is_label l action) alive.items (last_at l [] points.items)) }
{
    if let Action::Label(label) = action {
        points.push(LabelPoint { label, alive })?;
    }
    Ok(points)
}

// How many tokens a Hold with these arguments holds: the first one.
fn count_of_tokens(args: &[u32]) -> usize
    ensures { result ≡ length (first_of args.now) }
{
    match args.first() {
        Some(_) => 1,
        None => 0,
    }
}

/// The tokens that are held before a statement, by those behind it, the newest first.
pub fn held_before(
    alloc: Global,
    action: Action,
    args: &[u32],
    behind: &[u32],
) -> Result<Vec<u32>, NoMemory>
    ensures { IfOk result (λ held. held.items ≡ held_before action args.now behind.now) }
{
    match action {
        Action::Hold => Ok(
            behind
                .iter()
                .copied()
                .skip(count_of_tokens(args))
                .collect(alloc)?,
        ),
        Action::Unhold => {
            let mut held = copy_of(alloc, args)?;
            held.extend_from_slice(behind)?;
            Ok(held)
        }
        _ => copy_of(alloc, behind),
    }
}
