// The code of blocks with tokens.

ghost use Rattle.std.specs.Prelude.{ℕ, [], ◌∷◌, ◌≤◌, length, map, drop, OnOk, IsTrue};
ghost use Rattle.kk_counted.specs.CountedForms.{decisions_of};
ghost use Rattle.kk_counted.specs.TokenedCodes.{Tokened};
ghost use Rattle.kk_counted.specs.TokenedForms.{TokenedMove, plug_tokened, tokened_arms, tokened_code, tokened_last_code};
ghost use Rattle.kk_counted.specs.TokenedForms.{tokened_move};
ghost use Rattle.rv_isa.specs.declared.asm.Action.TheVariants.{Branch};
ghost use Rattle.rv_lower.specs.Lines.{acts};
ghost use Rattle.rv_lower.specs.Written.{goal_of, Wrote};
ghost use Rattle.rv_tokens.specs.TokenedWritten.{variables_known, IfOpens, IfFills};
ghost use Rattle.rv_tokens.specs.TokenedWritten.{WroteTokened, WroteBehind, WroteTokenedArms, WroteTokenedSteps};
ghost use Rattle.rv_cells.specs.ComparisonBranch.{AreNoLines};
ghost use Rattle.rv_cells.specs.TokenedLines.{MayFill};
ghost use Rattle.rv_tokens.specs.Written.{facts_of, holds_known};

use crate::block::take_targets;
use crate::cells::{Filling, write_drop, write_dup, write_opening, write_reading};
use crate::decide::{CaseWays, write_nodes};
use crate::known::Known;
use crate::token_cells::{
    with_first, write_asking, write_fill, write_freed, write_hold, write_move, write_null,
    write_token_test, write_unhold,
};
use kk_base::NoMemory;
use kk_core::Decisions;
use kk_counted::{TokenedBlock, TokenedLast, TokenedStep};
use kk_syntax::Form;
use rv_cells::{Branching, branch_between, has_count, has_header};
use rv_isa::Action;
use rv_lower::{Goal, Lowering, Reads, act, next, write_label, write_tail_call, write_value};

/// Writes the code of a block. The recursion is as deep as the block.
#[cycle(write)]
pub fn write_tokened(
    lowering: &mut Lowering,
    known: &Known<'_>,
    block: &TokenedBlock,
    goal: Goal,
) -> Result<(), NoMemory>
    ensures { OnOk result (WroteTokened (facts_of known.now) (variables_known known.now) (goal_of goal) (tokened_code block.now)
        lowering.old lowering.new) }
{
    let (front, _) = block.steps.split_at(steps_with_lines(known, &block.steps));
    if let Some((step, before)) = front.split_last()
        && let Some(branch) = branch_between(step, &block.last)
        && let TokenedLast::Case(_, decisions, arms) = &block.last
    {
        write_steps(lowering, known, before)?;
        return write_branching(lowering, known, branch, decisions, arms, goal);
    }
    write_steps(lowering, known, &block.steps)?;
    write_last(lowering, known, &block.last, goal)
}

/// How many steps come before those at the end that only give up variables of types without cells.
fn steps_with_lines(known: &Known<'_>, steps: &[TokenedStep]) -> usize
    ensures within { result ≤ length steps.now }
    ensures others { AreNoLines (holds_known known.now) (map tokened_move (drop result steps.now)) }
{
    let mut count = steps.len();
    while count > 0 {
        if !has_no_line(known, &steps[count - 1]) {
            return count;
        }
        count -= 1;
    }
    0
}

/// Whether a step only gives up a variable of a type without cells.
fn has_no_line(known: &Known<'_>, step: &TokenedStep) -> bool
    ensures { IsTrue result → AreNoLines (holds_known known.now) (tokened_move step.now ∷ []) }
{
    match step {
        TokenedStep::Drop { variable } => !known.holds(*variable),
        _ => false,
    }
}

/// The code of a case that is a branch to the arm of `False`, before the arm of `True`.
#[cycle(write)]
fn write_branching(
    lowering: &mut Lowering,
    known: &Known<'_>,
    branch: Branching,
    decisions: &Decisions,
    arms: &[TokenedBlock],
    goal: Goal,
) -> Result<(), NoMemory>
    ensures { OnOk result ((x : ℕ) → WroteBehind (facts_of known.now) (variables_known known.now) (goal_of goal) branch
        (Tokened.case x (decisions_of decisions.now) (tokened_arms (map tokened_code arms.now))) lowering.old lowering.new) }
{
    let targets = take_targets(lowering, decisions, arms.len())?;
    let negative = next(targets.arms)?;
    write_branch(lowering, branch, negative)?;
    write_arms(lowering, known, targets.arms, arms, goal)
}

/// Goes to a label where the condition of a branch holds.
pub fn write_branch(lowering: &mut Lowering, branch: Branching, label: u32) -> Result<(), NoMemory>
    ensures { OnOk result (Wrote (acts (Branch branch.condition label) (branch.first ∷ branch.second ∷ []) ∷ []) lowering.old
        lowering.new) }
{
    lowering.write(&[act(
        Action::Branch(branch.condition, label),
        Reads::Two(branch.first, branch.second),
    )])
}

#[cycle(write)]
fn write_steps(
    lowering: &mut Lowering,
    known: &Known<'_>,
    steps: &[TokenedStep],
) -> Result<(), NoMemory>
    ensures { OnOk result (WroteTokenedSteps (facts_of known.now) (variables_known known.now) (map tokened_move steps.now) []
        lowering.old lowering.new) }
{
    for (index, step) in steps.iter().enumerate() {
        write_step(lowering, known, step, &steps[index + 1..])?;
    }
    Ok(())
}

/// The lines of a step, before those of the steps behind it.
#[cycle(write)]
fn write_step(
    lowering: &mut Lowering,
    known: &Known<'_>,
    step: &TokenedStep,
    behind: &[TokenedStep],
) -> Result<(), NoMemory>
    ensures { OnOk result (WroteTokenedSteps (facts_of known.now) (variables_known known.now) (tokened_move step.now ∷ [])
        (map tokened_move behind.now) lowering.old lowering.new) }
{
    match step {
        TokenedStep::Let {
            variable,
            form,
            arguments,
            others,
        } => write_asking(lowering, known, *variable, *form, arguments, others),
        TokenedStep::Inside { variable, block } => write_inside(lowering, known, *variable, block),
        TokenedStep::Read {
            variable,
            fields,
            ..
        } => write_reading(lowering, *variable, fields, first_argument(behind)),
        TokenedStep::Open { .. } => write_opened(lowering, known, step, behind),
        TokenedStep::IfUnique { .. } => write_opened(lowering, known, step, behind),
        TokenedStep::Dup { variable } => write_dup(lowering, known, *variable),
        TokenedStep::Drop { variable } => write_drop(lowering, known, *variable),
        TokenedStep::Fill { .. } => write_filled(lowering, known, step),
        TokenedStep::Free { slot } => write_freed(lowering, known, *slot),
        TokenedStep::Null { slot } => write_null(lowering, known, *slot),
        TokenedStep::Move { to, from } => write_move(lowering, known, *to, *from),
        TokenedStep::Hold { slot } => write_hold(lowering, known, *slot),
        TokenedStep::Unhold { slot } => write_unhold(lowering, known, *slot),
    }
}

/// The first argument of the first call among steps. A tail call does not count, nor does a call in a block inside or in an arm.
fn first_argument(steps: &[TokenedStep]) -> Option<u32> {
    for step in steps {
        if let TokenedStep::Let {
            form: Form::Call(_),
            arguments,
            ..
        } = step
        {
            return arguments.first().copied();
        }
    }
    None
}

/// The lines of a step that opens a cell, whose slot may take it, before those of the steps behind it.
fn write_opened(
    lowering: &mut Lowering,
    known: &Known<'_>,
    step: &TokenedStep,
    behind: &[TokenedStep],
) -> Result<(), NoMemory>
    ensures { OnOk result (IfOpens step.now (WroteTokenedSteps (facts_of known.now) (variables_known known.now)
        (tokened_move step.now ∷ []) (map tokened_move behind.now) lowering.old lowering.new)) }
{
    match step {
        TokenedStep::Open {
            variable,
            fields,
            used,
            slot,
            ..
        }
        | TokenedStep::IfUnique {
            variable,
            fields,
            used,
            slot,
            ..
        } => {
            let into = filled_by(*slot, behind);
            write_opening(lowering, known, *variable, fields, used, *slot, into)
        }
        _ => Ok(()),
    }
}

/// The variable of the first step, where that is a construction in the cell of a slot.
fn filled_by(slot: u32, steps: &[TokenedStep]) -> Option<u32>
    ensures { (rest : Tokened) → MayFill result slot (plug_tokened (map tokened_move steps.now) rest) }
{
    match steps {
        [
            TokenedStep::Fill {
                variable,
                slot: taken,
                ..
            },
            ..
        ] if *taken == slot => Some(*variable),
        _ => None,
    }
}

/// The lines of a step that makes a construction in the cell of a token.
fn write_filled(
    lowering: &mut Lowering,
    known: &Known<'_>,
    step: &TokenedStep,
) -> Result<(), NoMemory>
    ensures { OnOk result (IfFills step.now (WroteTokenedSteps (facts_of known.now) (variables_known known.now)
        (tokened_move step.now ∷ []) [] lowering.old lowering.new)) }
{
    let TokenedStep::Fill {
        variable,
        slot,
        constructor,
        first,
        arguments,
        kept,
        others,
    } = step
    else {
        return Ok(());
    };
    let token = known.slot(*slot)?;
    let header = known.header(*constructor)?;
    let fields = with_first(lowering.alloc, *first, arguments)?;
    let filling = Filling {
        header,
        arguments: &fields,
        kept,
        head: has_header(known.standing, *constructor),
        count: has_count(known.standing),
    };
    write_fill(lowering, known, *variable, token, &filling, others)
}

/// The code of a block whose value a variable takes.
#[cycle(write)]
fn write_inside(
    lowering: &mut Lowering,
    known: &Known<'_>,
    into: u32,
    block: &TokenedBlock,
) -> Result<(), NoMemory>
    ensures { OnOk result (WroteTokenedSteps (facts_of known.now) (variables_known known.now)
        (TokenedMove.runs into (tokened_code block.now) ∷ []) [] lowering.old lowering.new) }
{
    let label = lowering.take_label()?;
    write_tokened(lowering, known, block, Goal::Join(into, label))?;
    write_label(lowering, label)
}

#[cycle(write)]
fn write_last(
    lowering: &mut Lowering,
    known: &Known<'_>,
    last: &TokenedLast,
    goal: Goal,
) -> Result<(), NoMemory>
    ensures { OnOk result (WroteTokened (facts_of known.now) (variables_known known.now) (goal_of goal) (tokened_last_code last.now)
        lowering.old lowering.new) }
{
    match last {
        TokenedLast::Return(variable) => write_value(lowering, *variable, goal),
        TokenedLast::TailCall(function, arguments) => {
            write_tail_call(lowering, *function, arguments)
        }
        TokenedLast::Case(variable, decisions, arms) => {
            let targets = take_targets(lowering, decisions, arms.len())?;
            let nodes = decisions.nodes();
            write_nodes(lowering, known, &CaseWays { nodes, targets }, *variable)?;
            write_arms(lowering, known, targets.arms, arms, goal)
        }
        TokenedLast::IfToken(slot, there, absent) => {
            let label = lowering.take_label()?;
            write_token_test(lowering, known, *slot, label)?;
            write_tokened(lowering, known, there, goal)?;
            write_label(lowering, label)?;
            write_tokened(lowering, known, absent, goal)
        }
    }
}

/// The arms of a case, each behind its label.
#[cycle(write)]
fn write_arms(
    lowering: &mut Lowering,
    known: &Known<'_>,
    label: u32,
    arms: &[TokenedBlock],
    goal: Goal,
) -> Result<(), NoMemory>
    ensures { OnOk result (WroteTokenedArms (facts_of known.now) (variables_known known.now) (goal_of goal) label
        (map tokened_code arms.now) lowering.old lowering.new) }
{
    let mut here = label;
    for arm in arms {
        write_label(lowering, here)?;
        write_tokened(lowering, known, arm, goal)?;
        here = next(here)?;
    }
    Ok(())
}
