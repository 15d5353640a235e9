// The pairing of a block.

ghost use Rattle.std.specs.Prelude.{◌≡◌, [], map, false, if◌then◌else◌, OnOk, IfOk};
ghost use Rattle.kk_counted.specs.CountedForms.{arms_of, block_code, last_code, runs, step_move};
ghost use Rattle.kk_counted.specs.TokenedCodes.{Tokened};
ghost use Rattle.kk_counted.specs.TokenedForms.{TokenedMove, tokened_arms, tokened_code, tokened_last_code, tokened_move, put_steps, opens_with};
ghost use Rattle.kk_reuse.specs.Pairing.{frees, paired, paired_arms};
ghost use Rattle.kk_reuse.specs.PairedForms.{held_before, held_behind, paired_block, paired_move, tokens_behind, written_form};

use crate::calls::stay_held;
use crate::following::{last_may_make, leaves, may_make, one_more, steps_may_make, taken};
use crate::slots::{fill_up, free_all, hold_all, slots_below, unhold_all};
use kk_base::NoMemory;
use kk_counted::{
    Block, Last, Step, TokenedBlock, TokenedLast, TokenedStep, copied_decisions, filling_step,
    opening_step,
};
use kk_syntax::Form;
use std::alloc::Global;

/// What comes behind a block.
#[derive(Clone, Copy)]
pub struct Behind {
    /// Whether a cell may be made there.
    pub makes: bool,
    /// How many tokens the block leaves to it.
    pub left: u32,
}

/// Where the tokens are held: at calls one behind the other, with drops alone between them, they are held once.
#[derive(Clone, Copy)]
pub struct Held {
    /// Whether they are held in front of a step already.
    pub already: bool,
    /// Whether they stay held behind it.
    pub stays: bool,
}

/// A block with its tokens, which begins with so many. Where it can make no cell, nor what comes behind it, they are freed first.
#[cycle(paired_block)]
pub fn paired_block(
    alloc: Global,
    behind: Behind,
    tokens: u32,
    block: &Block,
) -> Result<TokenedBlock, NoMemory>
    ensures { IfOk result (λ made. tokened_code made ≡ paired_block behind.makes behind.left tokens (block_code block.now)) }
{
    let mut steps = Vec::new(alloc);
    let mut tokens = settle(&mut steps, may_make(behind.makes, block), tokens)?;
    let end_makes = last_may_make(behind.makes, &block.last);
    let mut already = false;
    for (i, step) in block.steps.iter().enumerate() {
        let rest = &block.steps[i + 1..];
        let makes = steps_may_make(end_makes, rest);
        let stays = stay_held(makes, already, step, rest);
        let held = Held { already, stays };
        tokens = paired_step(alloc, makes, held, tokens, step, &mut steps)?;
        tokens = settle(&mut steps, makes, tokens)?;
        already = stays;
    }
    let last = paired_last(alloc, behind, tokens, &block.last, &mut steps)?;
    Ok(TokenedBlock { steps, last })
}

/// The tokens that are kept in front of code: all where it may make a cell. Else they are freed.
fn settle(steps: &mut Vec<TokenedStep>, makes: bool, tokens: u32) -> Result<u32, NoMemory>
    ensures code { IfOk result (λ left. (rest : Tokened) → put_steps steps.new.items rest ≡ put_steps steps.old.items (if makes then rest else frees tokens rest)) }
    ensures left { IfOk result (λ left. left ≡ (if makes then tokens else 0)) }
{
    if makes {
        return Ok(tokens);
    }
    free_all(steps, tokens)?;
    Ok(0)
}

/// Adds a step with its tokens, of which there are so many in front of it, and answers how many there are behind it. `makes` is
/// whether a cell may be made behind it.
#[cycle(paired_block)]
fn paired_step(
    alloc: Global,
    makes: bool,
    held: Held,
    tokens: u32,
    step: &Step,
    steps: &mut Vec<TokenedStep>,
) -> Result<u32, NoMemory>
    ensures code { IfOk result (λ left. (rest : Tokened) → put_steps steps.new.items rest ≡ put_steps steps.old.items (paired_move held.already held.stays makes tokens (step_move step.now) rest)) }
    ensures left { IfOk result (λ left. left ≡ tokens_behind makes tokens (step_move step.now)) }
{
    match step {
        Step::Let(variable, form, arguments) => {
            paired_form(alloc, held, tokens, *variable, *form, arguments, steps)?;
            Ok(taken(*form, arguments, tokens))
        }
        Step::Inside(variable, block) => paired_inside(
            alloc, makes, tokens, *variable, block, steps,
        ),
        Step::Read(variable, constructor, fields) => {
            let read = reading(alloc, *variable, *constructor, fields)?;
            steps.push(read)?;
            Ok(tokens)
        }
        Step::Open(variable, constructor, fields, used) => {
            let more = one_more(tokens)?;
            let open = opening(alloc, *variable, *constructor, fields, used, tokens, false)?;
            steps.push(open)?;
            Ok(more)
        }
        Step::IfUnique(variable, constructor, fields, used) => {
            let more = one_more(tokens)?;
            let open = opening(alloc, *variable, *constructor, fields, used, tokens, true)?;
            steps.push(open)?;
            Ok(more)
        }
        Step::Dup(variable) => {
            steps.push(TokenedStep::Dup {
                variable: *variable,
            })?;
            Ok(tokens)
        }
        Step::Drop(variable) => {
            steps.push(TokenedStep::Drop {
                variable: *variable,
            })?;
            Ok(tokens)
        }
    }
}

/// A step that reads fields.
fn reading(
    alloc: Global,
    variable: u32,
    constructor: u32,
    fields: &[u32],
) -> Result<TokenedStep, NoMemory>
    ensures { IfOk result (λ made. tokened_move made ≡ TokenedMove.reads variable constructor fields.now) }
{
    let fields = Vec::from_slice(alloc, fields)?;
    Ok(TokenedStep::Read {
        variable,
        constructor,
        fields,
    })
}

/// A step that opens a cell, by its count or not.
fn opening(
    alloc: Global,
    variable: u32,
    constructor: u32,
    fields: &[u32],
    used: &[u32],
    slot: u32,
    by_count: bool,
) -> Result<TokenedStep, NoMemory>
    ensures { IfOk result (λ made. tokened_move made ≡ opens_with by_count variable constructor fields.now used.now slot) }
{
    let fields = Vec::from_slice(alloc, fields)?;
    let used = Vec::from_slice(alloc, used)?;
    Ok(opening_step(variable, constructor, fields, used, slot, by_count))
}

/// Adds a form on variables with so many tokens. A construction with fields takes the newest one. At a call all are held.
fn paired_form(
    alloc: Global,
    held: Held,
    tokens: u32,
    variable: u32,
    form: Form,
    arguments: &[u32],
    steps: &mut Vec<TokenedStep>,
) -> Result<(), NoMemory>
    ensures { OnOk result ((rest : Tokened) → put_steps steps.new.items rest ≡ put_steps steps.old.items (written_form held.already held.stays tokens variable form arguments.now rest)) }
{
    match (form, arguments) {
        (Form::Construct(constructor), [_, ..]) if tokens > 0 => {
            let slot = tokens - 1;
            let kept = Vec::new(alloc);
            let others = slots_below(alloc, slot)?;
            let fill = filling_step(alloc, variable, slot, constructor, arguments, kept, others)?;
            steps.push(fill)?;
            Ok(())
        }
        (Form::Call(_), _) => {
            hold_before(steps, held.already, tokens)?;
            put_form(alloc, variable, form, arguments, steps)?;
            unhold_behind(steps, held.stays, tokens)
        }
        _ => put_form(alloc, variable, form, arguments, steps),
    }
}

/// Holds so many tokens, but where they are held already.
fn hold_before(steps: &mut Vec<TokenedStep>, held: bool, tokens: u32) -> Result<(), NoMemory>
    ensures { OnOk result ((rest : Tokened) → put_steps steps.new.items rest ≡ put_steps steps.old.items (held_before held tokens rest)) }
{
    if held {
        return Ok(());
    }
    hold_all(steps, tokens)
}

/// Takes so many held tokens back, but where they stay held.
fn unhold_behind(steps: &mut Vec<TokenedStep>, held: bool, tokens: u32) -> Result<(), NoMemory>
    ensures { OnOk result ((rest : Tokened) → put_steps steps.new.items rest ≡ put_steps steps.old.items (held_behind held tokens rest)) }
{
    if held {
        return Ok(());
    }
    unhold_all(steps, tokens)
}

/// Adds a form on variables that takes no token.
fn put_form(
    alloc: Global,
    variable: u32,
    form: Form,
    arguments: &[u32],
    steps: &mut Vec<TokenedStep>,
) -> Result<(), NoMemory>
    ensures { OnOk result ((rest : Tokened) → put_steps steps.new.items rest ≡ put_steps steps.old.items (Tokened.compute variable form arguments.now [] rest)) }
{
    let arguments = Vec::from_slice(alloc, arguments)?;
    let others = Vec::new(alloc);
    steps.push(TokenedStep::Let {
        variable,
        form,
        arguments,
        others,
    })?;
    Ok(())
}

/// Adds a block whose value a variable takes, and answers how many tokens it leaves.
#[cycle(paired_block)]
fn paired_inside(
    alloc: Global,
    makes: bool,
    tokens: u32,
    variable: u32,
    block: &Block,
    steps: &mut Vec<TokenedStep>,
) -> Result<u32, NoMemory>
    ensures code { IfOk result (λ left. (rest : Tokened) → put_steps steps.new.items rest ≡ put_steps steps.old.items (paired_move false false makes tokens (runs variable (block_code block.now)) rest)) }
    ensures left { IfOk result (λ left. left ≡ tokens_behind makes tokens (runs variable (block_code block.now))) }
{
    let left = if makes { leaves(tokens, block)? } else { 0 };
    let block = paired_block(alloc, Behind { makes, left }, tokens, block)?;
    steps.push(TokenedStep::Inside { variable, block })?;
    Ok(left)
}

/// The end of a block with so many tokens in front of it. A value's block leaves as many as are asked for; in front of a tail call
/// all are freed.
#[cycle(paired_block)]
fn paired_last(
    alloc: Global,
    behind: Behind,
    tokens: u32,
    last: &Last,
    steps: &mut Vec<TokenedStep>,
) -> Result<TokenedLast, NoMemory>
    ensures { IfOk result (λ made. put_steps steps.new.items (tokened_last_code made) ≡ put_steps steps.old.items (paired behind.makes behind.left tokens (last_code last.now))) }
{
    match last {
        Last::Return(variable) => {
            fill_up(steps, behind.left, tokens)?;
            Ok(TokenedLast::Return(*variable))
        }
        Last::TailCall(function, arguments) => {
            free_all(steps, tokens)?;
            Ok(TokenedLast::TailCall(*function, Vec::from_slice(alloc, arguments)?))
        }
        Last::Case(variable, decisions, arms) => {
            let decisions = copied_decisions(alloc, decisions)?;
            let arms = paired_arms(alloc, behind, tokens, arms)?;
            Ok(TokenedLast::Case(*variable, decisions, arms))
        }
    }
}

#[cycle(paired_block)]
fn paired_arms(
    alloc: Global,
    behind: Behind,
    tokens: u32,
    arms: &[Block],
) -> Result<Vec<TokenedBlock>, NoMemory>
    ensures { IfOk result (λ made. tokened_arms (map tokened_code made.items) ≡ paired_arms behind.makes behind.left tokens (arms_of (map block_code arms.now))) }
{
    let mut made = Vec::new(alloc);
    for arm in arms {
        made.push(paired_block(alloc, behind, tokens, arm)?)?;
    }
    Ok(made)
}
