// Calls that stand one behind the other, with drops alone between them.

ghost use Rattle.std.specs.Prelude.{◌≡◌, map};
ghost use Rattle.kk_counted.specs.CountedForms.{step_move};
ghost use Rattle.kk_reuse.specs.PairedForms.{is_call, move_is_call, move_is_drop, lead_to_call, stay_held};

use kk_counted::Step;
use kk_syntax::Form;

fn is_call(form: Form) -> bool
    ensures { result ≡ is_call form }
{
    matches!(form, Form::Call(_))
}

/// Whether a step is a call.
fn step_is_call(step: &Step) -> bool
    ensures { result ≡ move_is_call (step_move step.now) }
{
    match step {
        Step::Let(_, form, _) => is_call(*form),
        Step::Inside(_, _)
        | Step::Read(_, _, _)
        | Step::Open(_, _, _, _)
        | Step::IfUnique(_, _, _, _)
        | Step::Dup(_)
        | Step::Drop(_) => false,
    }
}

/// Whether a step is a drop.
fn is_drop(step: &Step) -> bool
    ensures { result ≡ move_is_drop (step_move step.now) }
{
    matches!(step, Step::Drop(_))
}

/// Whether the first of some steps is a call, behind drops.
fn lead_to_call(steps: &[Step]) -> bool
    ensures { result ≡ lead_to_call (map step_move steps.now) }
{
    for step in steps {
        if !is_drop(step) {
            return step_is_call(step);
        }
    }
    false
}

/// Whether the tokens stay held behind a step: `makes` is whether they are kept there, and `already` whether they are held in front
/// of the step.
pub fn stay_held(makes: bool, already: bool, step: &Step, rest: &[Step]) -> bool
    ensures { result ≡ stay_held makes already (step_move step.now) (map step_move rest.now) }
{
    if is_drop(step) {
        already
    } else {
        makes && step_is_call(step) && lead_to_call(rest)
    }
}
