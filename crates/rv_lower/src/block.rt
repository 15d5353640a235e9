// Where a code ends.

ghost use Rattle.std.specs.Prelude.{[], ◌∷◌, OnOk};
ghost use Rattle.rv_isa.specs.declared.asm.Action.TheVariants.{Label};
ghost use Rattle.rv_lower.specs.Lines.{acts};
ghost use Rattle.rv_lower.specs.Lowered.{goal_lines, tail_lines};
ghost use Rattle.rv_lower.specs.Written.{goal_of, Wrote};

use crate::lowering::{Lowering, Reads, act, copy};
use kk_base::NoMemory;
use rv_isa::Action;

/// Where the value of a code goes.
#[derive(Clone, Copy)]
pub enum Goal {
    /// To the caller.
    Return,
    /// To the variable, and the code goes on at the label.
    Join(u32, u32),
}

/// Writes a label.
pub fn write_label(lowering: &mut Lowering, label: u32) -> Result<(), NoMemory>
    ensures { OnOk result (Wrote (acts (Label label) [] ∷ []) lowering.old lowering.new) }
{
    lowering.write(&[act(Action::Label(label), Reads::Nothing)])
}

/// The value of a variable goes to the goal.
pub fn write_value(lowering: &mut Lowering, variable: u32, goal: Goal) -> Result<(), NoMemory>
    ensures { OnOk result (Wrote (goal_lines (goal_of goal) variable) lowering.old lowering.new) }
{
    match goal {
        Goal::Return => lowering.write(&[act(Action::Return, Reads::One(variable))]),
        Goal::Join(into, label) => lowering.write(&[
            copy(variable, into),
            act(Action::Jump(label), Reads::Nothing),
        ]),
    }
}

/// A call that takes the function's place.
pub fn write_tail_call(
    lowering: &mut Lowering,
    function: u32,
    arguments: &[u32],
) -> Result<(), NoMemory>
    ensures { OnOk result (Wrote (tail_lines lowering.old.base function arguments.now) lowering.old lowering.new) }
{
    let handed = lowering.hand_over(arguments)?;
    lowering.push(Action::TailCall(function), &handed, None)
}
