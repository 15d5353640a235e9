ghost use Rattle.std.specs.Prelude.{◌≡◌, IfOk};
ghost use Rattle.kk_counted.specs.CountedCodes.{tail_call};
ghost use Rattle.kk_counted.specs.CountedForms.{computes, last_code, step_move};
ghost use Rattle.kk_counted.specs.Int32.{IsFormInt32, HasInt32};
ghost use Rattle.kk_dropspec.specs.Numbers.{IsMoveInt32};

use kk_base::NoMemory;
use kk_counted::{Last, Step};
use kk_syntax::Form;
use std::alloc::Global;

/// The step in which a variable takes the value of a form. Its number is one of 32 bits.
pub fn copied_form(
    alloc: Global,
    variable: u32,
    form: Form,
    arguments: &[u32],
) -> Result<Step, NoMemory>
    ensures same { IfOk result (λ made. step_move made ≡ computes variable form arguments.now) }
    ensures numbers { IfOk result (λ made. IsMoveInt32 (step_move made)) }
{
    numbers_of_forms_are_small(form);
    Ok(Step::Let(variable, form, Vec::from_slice(alloc, arguments)?))
}

/// The end of a block by a tail call.
pub fn copied_call(alloc: Global, instance: u32, arguments: &[u32]) -> Result<Last, NoMemory>
    ensures same { IfOk result (λ made. last_code made ≡ tail_call instance arguments.now) }
    ensures numbers { IfOk result (λ made. HasInt32 (last_code made)) }
{
    Ok(Last::TailCall(instance, Vec::from_slice(alloc, arguments)?))
}

// The number of a form is one of 32 bits. It is a law, and does nothing.
fn numbers_of_forms_are_small(form: Form)
    ensures { IsFormInt32 form }
{}
