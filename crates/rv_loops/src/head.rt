// The head of a loop: its lines up to the test.

ghost use Rattle.std.specs.Prelude.{◌≡◌, [], false, cond, None, IfOk, IfSome, map, ◌++◌, OnOk};
ghost use Rattle.rv_isa.specs.declared.asm.Action.TheVariants.{Branch};
ghost use Rattle.rv_isa.specs.Frames.{found};
ghost use Rattle.rv_isa.specs.PlacedCode.{does, placed_line_of};
ghost use Rattle.rv_isa.specs.PlacedMachine.{is_label_line};
ghost use Rattle.rv_loops.specs.Rotation.{is_straight_action, is_straight, calls, is_call_of, test, goes_on};
ghost use Rattle.rv_loops.specs.Rotation.{is_return, turns_off, is_return_line, is_turn, returns_straight};
ghost use Rattle.rv_loops.specs.Heads.{loop_of, Begins};

use kk_base::NoMemory;
use rv_isa::{Action, Condition, Item, LIST_HEADER, Listed, Operand, Operation};
use std::alloc::Global;

/// The label behind the test. Code that has it already is not rotated.
pub const AGAIN: u32 = u32::MAX;

/// The most lines before a test: the test is written again with them.
pub const MOST_BEFORE: usize = 3;

/// The head of a loop.
#[derive(Drop)]
pub struct Head {
    /// The number of the function.
    pub function: usize,
    /// The lines before the test.
    pub before: Vec<Item>,
    /// What the test lists as alive.
    pub alive: Vec<Listed>,
    pub condition: Condition,
    /// The label to which the test leads.
    pub exit: u32,
    pub args: Vec<Operand>,
    /// Whether the test stands again as it is: behind it the code goes straight on to a return.
    pub stays: bool,
}

/// A copy may be no instruction, and so may a constant that a register always holds; a label is none.
fn is_straight_action(action: Action) -> bool
    ensures { result ≡ is_straight_action action }
{
    matches!(
        action,
        Action::Compute(Operation::Mv | Operation::Li(0 | 1 | LIST_HEADER)) | Action::Label(_)
    )
}

/// Whether a line goes straight on: a move or a label, a copy, or a constant that a register always holds.
fn is_straight(item: &Item) -> bool
    ensures { result ≡ is_straight (placed_line_of item.now) }
{
    match item {
        Item::Does { action, .. } => is_straight_action(*action),
        Item::Moves { .. } => true,
    }
}

fn calls(function: usize, action: Action) -> bool
    ensures { result ≡ calls function action }
{
    match action {
        Action::TailCall(callee) => callee as usize == function,
        _ => false,
    }
}

/// Whether a line is a tail call of a function.
pub fn is_call_of(function: usize, item: &Item) -> bool
    ensures { result ≡ is_call_of function (placed_line_of item.now) }
{
    match item {
        Item::Does { action, .. } => calls(function, *action),
        Item::Moves { .. } => false,
    }
}

/// Whether code may have a label.
pub fn has_label(label: u32, code: &[Item]) -> bool
    ensures { result ≡ false → found (is_label_line label) (map placed_line_of code.now) ≡ None }
{
    for item in code {
        if let Item::Does {
            action: Action::Label(other),
            ..
        } = item
        {
            if *other == label {
                return true;
            }
        }
    }
    false
}

fn is_return(action: Action) -> bool
    ensures { result ≡ is_return action }
{
    matches!(action, Action::Return)
}

/// Whether an action may lead elsewhere than to the next line and to a label, where the other way begins.
fn turns_off(label: u32, action: Action) -> bool
    ensures { result ≡ turns_off label action }
{
    match action {
        Action::Label(other) => other == label,
        Action::Branch(_, other) => other != label,
        Action::Jump(_) | Action::TailCall(_) => true,
        _ => false,
    }
}

fn is_return_line(item: &Item) -> bool
    ensures { result ≡ is_return_line (placed_line_of item.now) }
{
    match item {
        Item::Does { action, .. } => is_return(*action),
        Item::Moves { .. } => false,
    }
}

fn is_turn(label: u32, item: &Item) -> bool
    ensures { result ≡ is_turn label (placed_line_of item.now) }
{
    match item {
        Item::Does { action, .. } => turns_off(label, *action),
        Item::Moves { .. } => false,
    }
}

/// Whether code goes straight on to a return, but for branches to a label, which stands behind that return.
fn returns_straight(label: u32, code: &[Item]) -> bool
    ensures { result ≡ returns_straight label (map placed_line_of code.now) }
{
    for item in code {
        if is_return_line(item) {
            return true;
        }
        if is_turn(label, item) {
            return false;
        }
    }
    false
}

impl Head {
    /// The head of a function's code, if that has one. A branch on one word is no test of a loop: so the tests of tokens stay.
    pub fn of(alloc: Global, function: usize, code: &[Item]) -> Result<Option<Head>, NoMemory>
        ensures { IfOk result (λ found. IfSome found (λ head. Begins head function (map placed_line_of code.now))) }
    {
        let mut before = Vec::new(alloc);
        for item in code {
            if let Item::Does {
                alive,
                action: Action::Branch(condition, exit),
                args,
                into: None,
            } = item
            {
                if args.len() == 1 {
                    return Ok(None);
                }
                return Ok(Some(Head {
                    function,
                    before,
                    alive: copy_of_listed(alloc, alive)?,
                    condition: *condition,
                    exit: *exit,
                    args: copy_of_operands(alloc, args)?,
                    stays: returns_straight(*exit, code),
                }));
            }
            if !is_straight(item) || before.len() == MOST_BEFORE {
                return Ok(None);
            }
            before.push(item.copied(alloc)?)?;
        }
        Ok(None)
    }

    /// A branch with the arguments of the test.
    fn branch(&self, alloc: Global, condition: Condition, label: u32) -> Result<Item, NoMemory>
        ensures { IfOk result (λ item. placed_line_of item ≡ does self.now.alive.items
            (Branch condition label) self.now.args.items None) }
    {
        Ok(Item::Does {
            alive: copy_of_listed(alloc, &self.alive)?,
            action: Action::Branch(condition, label),
            args: copy_of_operands(alloc, &self.args)?,
            into: None,
        })
    }

    /// The test.
    pub fn test(&self, alloc: Global) -> Result<Item, NoMemory>
        ensures { IfOk result (λ item. placed_line_of item ≡ test (loop_of self.now [])) }
    {
        self.branch(alloc, self.condition, self.exit)
    }

    /// The test as it stands again: as it is, or turned round.
    pub fn test_again(&self, alloc: Global) -> Result<Item, NoMemory>
        ensures { IfOk result (λ item. placed_line_of item ≡ goes_on (loop_of self.now [])) }
    {
        if self.stays {
            return self.test(alloc);
        }
        self.branch(alloc, self.condition.opposite(), AGAIN)
    }

    /// Where the jump behind that leads.
    pub fn way_out(&self) -> u32
        ensures { result ≡ cond self.now.stays AGAIN self.now.exit }
    {
        if self.stays { AGAIN } else { self.exit }
    }
}

/// A copy of what is listed as alive, or that memory was refused.
pub fn copy_of_listed(alloc: Global, alive: &[Listed]) -> Result<Vec<Listed>, NoMemory>
    ensures { IfOk result (λ copy. copy.items ≡ alive.now) }
{
    match Vec::from_slice(alloc, alive) {
        Ok(copy) => Ok(copy),
        Err(_) => Err(NoMemory),
    }
}

/// A copy of a list of operands, or that memory was refused.
pub fn copy_of_operands(alloc: Global, operands: &[Operand]) -> Result<Vec<Operand>, NoMemory>
    ensures { IfOk result (λ copy. copy.items ≡ operands.now) }
{
    match Vec::from_slice(alloc, operands) {
        Ok(copy) => Ok(copy),
        Err(_) => Err(NoMemory),
    }
}

/// Adds copies of lines to code.
pub fn add_copies(alloc: Global, code: &mut Vec<Item>, items: &[Item]) -> Result<(), NoMemory>
    ensures { OnOk result (map placed_line_of code.new.items ≡ map placed_line_of code.old.items ++ map placed_line_of items.now) }
{
    for item in items {
        code.push(item.copied(alloc)?)?;
    }
    Ok(())
}
