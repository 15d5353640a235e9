// What can follow in a block: whether a construction with fields can, and how many tokens a path leaves at most.

ghost use Rattle.std.specs.Prelude.{◌≡◌, ◌+◌, true, map, IfOk};
ghost use Rattle.kk_counted.specs.CountedForms.{arms_of, block_code, last_code, step_move};
ghost use Rattle.kk_reuse.specs.Following.{makes_cell, may_make, arms_may_make, taken, leaves, arms_leave};
ghost use Rattle.kk_reuse.specs.PairedForms.{move_may_make, moves_may_make, left_behind};

use kk_base::NoMemory;
use kk_counted::{Block, Last, Step};
use kk_syntax::Form;

/// Whether a form on variables is a construction with fields.
fn makes_cell(form: Form, arguments: &[u32]) -> bool
    ensures { result ≡ makes_cell form arguments.now }
{
    matches!(form, Form::Construct(_)) && !arguments.is_empty()
}

/// Whether on some path of a block its function makes a cell, in the block or behind it. It asks each form of the block once.
#[cycle(may_make)]
pub fn may_make(behind: bool, block: &Block) -> bool
    ensures { result ≡ may_make behind (block_code block.now) }
{
    steps_may_make(last_may_make(behind, &block.last), &block.steps)
}

/// The same of some steps, by the same of what comes behind them.
#[cycle(may_make)]
pub fn steps_may_make(behind: bool, steps: &[Step]) -> bool
    ensures { result ≡ moves_may_make behind (map step_move steps.now) }
{
    let mut makes = behind;
    let mut left = steps.len();
    'back: while left > 0 {
        left -= 1;
        makes = step_may_make(makes, &steps[left]);
    }
    makes
}

#[cycle(may_make)]
fn step_may_make(behind: bool, step: &Step) -> bool
    ensures { result ≡ move_may_make behind (step_move step.now) }
{
    match step {
        Step::Let(_, form, arguments) => makes_cell(*form, arguments) || behind,
        Step::Inside(_, block) => may_make(behind, block),
        Step::Read(_, _, _)
        | Step::Open(_, _, _, _)
        | Step::IfUnique(_, _, _, _)
        | Step::Dup(_)
        | Step::Drop(_) => behind,
    }
}

/// The same of the end of a block.
#[cycle(may_make)]
pub fn last_may_make(behind: bool, last: &Last) -> bool
    ensures { result ≡ may_make behind (last_code last.now) }
{
    match last {
        Last::Return(_) => behind,
        Last::TailCall(_, _) => false,
        Last::Case(_, _, arms) => arms_may_make(behind, arms),
    }
}

#[cycle(may_make)]
fn arms_may_make(behind: bool, arms: &[Block]) -> bool
    ensures { result ≡ arms_may_make behind (arms_of (map block_code arms.now)) }
{
    for arm in arms {
        if may_make(behind, arm) {
            return true;
        }
    }
    false
}

/// One token more. An overflow of `u32` is answered as out of memory.
pub fn one_more(tokens: u32) -> Result<u32, NoMemory>
    ensures { IfOk result (λ more. more ≡ tokens + 1) }
{
    match tokens.checked_add(1) {
        Some(more) => Ok(more),
        None => Err(NoMemory),
    }
}

/// The tokens behind a form: one fewer, if it makes a cell and there is one.
pub fn taken(form: Form, arguments: &[u32], tokens: u32) -> u32
    ensures { result ≡ taken form arguments.now tokens }
{
    if makes_cell(form, arguments) {
        tokens.saturating_sub(1)
    } else {
        tokens
    }
}

/// The most tokens that a path leaves at the end of a block that begins with so many, where a cell may be made behind it: on a
/// path that comes there no token is freed. It asks each form of the block once.
#[cycle(leaves)]
pub fn leaves(tokens: u32, block: &Block) -> Result<u32, NoMemory>
    ensures { IfOk result (λ left. left ≡ leaves true tokens (block_code block.now)) }
{
    let mut left = tokens;
    for step in &block.steps {
        left = left_behind(left, step)?;
    }
    last_leaves(left, &block.last)
}

#[cycle(leaves)]
fn left_behind(tokens: u32, step: &Step) -> Result<u32, NoMemory>
    ensures { IfOk result (λ left. left ≡ left_behind tokens (step_move step.now)) }
{
    match step {
        Step::Let(_, form, arguments) => Ok(taken(*form, arguments, tokens)),
        Step::Inside(_, block) => leaves(tokens, block),
        Step::Open(_, _, _, _) | Step::IfUnique(_, _, _, _) => one_more(tokens),
        Step::Read(_, _, _) | Step::Dup(_) | Step::Drop(_) => Ok(tokens),
    }
}

#[cycle(leaves)]
fn last_leaves(tokens: u32, last: &Last) -> Result<u32, NoMemory>
    ensures { IfOk result (λ left. left ≡ leaves true tokens (last_code last.now)) }
{
    match last {
        Last::Return(_) => Ok(tokens),
        Last::TailCall(_, _) => Ok(0),
        Last::Case(_, _, arms) => arms_leave(tokens, arms),
    }
}

#[cycle(leaves)]
fn arms_leave(tokens: u32, arms: &[Block]) -> Result<u32, NoMemory>
    ensures { IfOk result (λ left. left ≡ arms_leave true tokens (arms_of (map block_code arms.now))) }
{
    let mut most = 0;
    for arm in arms {
        most = leaves(tokens, arm)?.max(most);
    }
    Ok(most)
}
