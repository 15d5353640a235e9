// What stands in the cells of a function's tokens: words that a construction in such a cell need not store.

ghost use Rattle.std.specs.Prelude.{◌≡◌, ◌&&◌, map};
ghost use Rattle.kk_counted.specs.TokenedForms.{tokened_code, tokened_last_code, tokened_move, tokened_arms};
ghost use Rattle.rv_cells.specs.TokenedLines.{count_stands, header_stands, Keeps};
ghost use Rattle.rv_cells.specs.Standings.{is_of, calls_none, holds_none, keeps_in, keeps_in_arms, keeps_step, keeps_steps};

use kk_counted::{TokenedBlock, TokenedLast, TokenedStep};
use kk_syntax::Form;

/// What is known of the first words of each cell that is a token of a function and is not held.
#[derive(Clone, Copy)]
pub enum Standing {
    /// Nothing.
    Nothing,
    /// The count is 1.
    Count,
    /// The count is 1, and the header is that of this constructor.
    Cell(u32),
}

/// Whether the count stands.
pub fn has_count(standing: Standing) -> bool
    ensures { result ≡ count_stands standing }
{
    match standing {
        Standing::Nothing => false,
        Standing::Count | Standing::Cell(_) => true,
    }
}

/// Whether the header of a constructor stands.
pub fn has_header(standing: Standing, constructor: u32) -> bool
    ensures { result ≡ header_stands standing constructor }
{
    match standing {
        Standing::Nothing | Standing::Count => false,
        Standing::Cell(one) => one == constructor,
    }
}

/// Whether a cell of a constructor has what stands.
fn is_of(standing: Standing, constructor: u32) -> bool
    ensures { result ≡ is_of standing constructor }
{
    match standing {
        Standing::Nothing | Standing::Count => true,
        Standing::Cell(one) => one == constructor,
    }
}

/// Whether nothing stands, or a form calls no other function.
fn calls_none(standing: Standing, form: Form) -> bool
    ensures { result ≡ calls_none standing form }
{
    match form {
        Form::Call(_) => !has_count(standing),
        _ => true,
    }
}

/// Whether nothing stands, or no token is held.
fn holds_none(standing: Standing, others: &[u32]) -> bool
    ensures { result ≡ holds_none standing others.now }
{
    match others {
        [] => true,
        _ => !has_count(standing),
    }
}

/// Both are true.
fn both(first: bool, second: bool) -> bool
    ensures { result ≡ (first && second) }
{
    first && second
}

/// What stands in the cells of the tokens of a function with this code: nothing, where it holds or moves a token; else the count,
/// and the header too where all cells that it opens are of one constructor.
#[tactic(auto, using(crate::proofs::Standings::nothing_kept))]
pub fn standing_of(block: &TokenedBlock) -> Standing
    ensures { Keeps result (tokened_code block.now) }
{
    let Some(constructor) = first_opened(block) else {
        return Standing::Nothing;
    };
    let count = kept_or_less(Standing::Count, Standing::Nothing, block);
    kept_or_less(Standing::Cell(constructor), count, block)
}

/// What a block keeps: this, or else what is less.
fn kept_or_less(standing: Standing, less: Standing, block: &TokenedBlock) -> Standing
    requires less { Keeps less (tokened_code block.now) }
    ensures { Keeps result (tokened_code block.now) }
{
    if keeps_block(standing, block) {
        return standing;
    }
    less
}

/// Whether a block keeps what stands. The recursion is as deep as the block.
#[cycle(keeps)]
fn keeps_block(standing: Standing, block: &TokenedBlock) -> bool
    ensures { result ≡ keeps_in standing (tokened_code block.now) }
{
    let first = keeps_steps(standing, &block.steps);
    let last = keeps_last(standing, &block.last);
    both(first, last)
}

#[cycle(keeps)]
fn keeps_steps(standing: Standing, steps: &[TokenedStep]) -> bool
    ensures { result ≡ keeps_steps standing (map tokened_move steps.now) }
{
    let mut keeps = true;
    for step in steps {
        let one = keeps_step(standing, step);
        keeps = both(keeps, one);
    }
    keeps
}

#[cycle(keeps)]
fn keeps_step(standing: Standing, step: &TokenedStep) -> bool
    ensures { result ≡ keeps_step standing (tokened_move step.now) }
{
    match step {
        TokenedStep::Let { form, others, .. } => {
            both(calls_none(standing, *form), holds_none(standing, others))
        }
        TokenedStep::Inside { block, .. } => keeps_block(standing, block),
        TokenedStep::Open { constructor, .. } => is_of(standing, *constructor),
        TokenedStep::IfUnique { constructor, .. } => is_of(standing, *constructor),
        TokenedStep::Fill { others, .. } => holds_none(standing, others),
        TokenedStep::Move { .. } => !has_count(standing),
        TokenedStep::Hold { .. } => !has_count(standing),
        TokenedStep::Unhold { .. } => !has_count(standing),
        TokenedStep::Read { .. } | TokenedStep::Dup { .. } | TokenedStep::Drop { .. } => true,
        TokenedStep::Free { .. } | TokenedStep::Null { .. } => true,
    }
}

#[cycle(keeps)]
fn keeps_last(standing: Standing, last: &TokenedLast) -> bool
    ensures { result ≡ keeps_in standing (tokened_last_code last.now) }
{
    match last {
        TokenedLast::Return(_) | TokenedLast::TailCall(_, _) => true,
        TokenedLast::Case(_, _, arms) => keeps_arms(standing, arms),
        TokenedLast::IfToken(_, there, absent) => {
            let first = keeps_block(standing, there);
            let second = keeps_block(standing, absent);
            both(first, second)
        }
    }
}

#[cycle(keeps)]
fn keeps_arms(standing: Standing, arms: &[TokenedBlock]) -> bool
    ensures { result ≡ keeps_in_arms standing (tokened_arms (map tokened_code arms.now)) }
{
    let mut keeps = true;
    for arm in arms {
        let one = keeps_block(standing, arm);
        keeps = both(keeps, one);
    }
    keeps
}

/// The constructor of a cell that a block opens, the first of all. The recursion is as deep as the block.
#[cycle(opened)]
fn first_opened(block: &TokenedBlock) -> Option<u32> {
    for step in &block.steps {
        let opened = opened_in_step(step);
        if opened.is_some() {
            return opened;
        }
    }
    opened_in_last(&block.last)
}

#[cycle(opened)]
fn opened_in_step(step: &TokenedStep) -> Option<u32> {
    match step {
        TokenedStep::Open { constructor, .. } => Some(*constructor),
        TokenedStep::IfUnique { constructor, .. } => Some(*constructor),
        TokenedStep::Inside { block, .. } => first_opened(block),
        _ => None,
    }
}

#[cycle(opened)]
fn opened_in_last(last: &TokenedLast) -> Option<u32> {
    match last {
        TokenedLast::Return(_) | TokenedLast::TailCall(_, _) => None,
        TokenedLast::Case(_, _, arms) => opened_in_arms(arms),
        TokenedLast::IfToken(_, there, absent) => {
            let opened = first_opened(there);
            if opened.is_some() {
                return opened;
            }
            first_opened(absent)
        }
    }
}

#[cycle(opened)]
fn opened_in_arms(arms: &[TokenedBlock]) -> Option<u32> {
    for arm in arms {
        let opened = first_opened(arm);
        if opened.is_some() {
            return opened;
        }
    }
    None
}
