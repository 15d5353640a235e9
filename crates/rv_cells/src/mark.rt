// The marks of parameters, of fields, and of the values of forms.

ghost use Rattle.std.specs.Prelude.{◌≡◌, map, OnOk, IfOk, []};
ghost use Rattle.kk_counted.specs.Marks.{parameter_marks, result_mark, field_marks, made_mark};
ghost use Rattle.rv_cells.specs.Marking.{marked, all_marked, mark_of_form, mark_given, marks_behind, marks_behind_arms};
ghost use Rattle.rv_cells.specs.Marking.{function_marks};
ghost use Rattle.rv_cells.specs.Tables.{table_of};
ghost use Rattle.kk_counted.specs.BareForms.{bare, bare_arms, bare_function};
ghost use Rattle.kk_counted.specs.Lowerable.{given_by, given_by_arms};
ghost use Rattle.kk_counted.specs.TokenedForms.{tokened_code, tokened_last_code, tokened_move, tokened_arms, tokened_function};
ghost use Rattle.rv_cells.specs.TokenedMarking.{marks_behind_step, marks_behind_steps};

use kk_base::NoMemory;
use kk_counted::{Parameter, Shape, TokenedBlock, TokenedFun, TokenedLast, TokenedStep};
use kk_syntax::Form;
use std::alloc::Global;

/// The marks of the parameters of an instance. Behind the last instance there are none.
pub fn parameters_of(alloc: Global, shape: &Shape, number: usize) -> Result<Vec<bool>, NoMemory>
    ensures { IfOk result (λ marks. marks.items ≡ parameter_marks (table_of shape.now) number) }
{
    match shape.instances().get(number) {
        Some(instance) => marks_in(alloc, &instance.parameters),
        None => Ok(Vec::new(alloc)),
    }
}

/// The marks of parameters.
fn marks_in(alloc: Global, parameters: &[Parameter]) -> Result<Vec<bool>, NoMemory>
    ensures { IfOk result (λ marks. marks.items ≡ map (λ parameter. parameter.has_cells) parameters.now) }
{
    let mut marks = Vec::new(alloc);
    for parameter in parameters {
        marks.push(parameter.has_cells)?;
    }
    Ok(marks)
}

/// Gives a variable a mark.
pub fn set_mark(marks: &mut Vec<bool>, variable: u32, mark: bool) -> Result<(), NoMemory>
    ensures { OnOk result (marks.new.items ≡ marked variable mark marks.old.items) }
{
    let index = variable as usize;
    while marks.len() <= index {
        marks.push(false)?;
    }
    marks[index] = mark;
    Ok(())
}

/// Of each field of a constructor, whether its type has cells. Behind the last constructor there are none.
pub fn fields_of(shape: &Shape, constructor: u32) -> &[bool]
    ensures { result.now ≡ field_marks (table_of shape.now) constructor }
{
    match shape.constructors().get(constructor as usize) {
        Some(one) => &one.fields,
        None => &[],
    }
}

/// Gives the variables that take the fields of a cell their marks. The recursion is as deep as the fields are many.
pub fn mark_fields(marks: &mut Vec<bool>, fields: &[u32], each: &[bool]) -> Result<(), NoMemory>
    ensures { OnOk result (marks.new.items ≡ all_marked fields.now each.now marks.old.items) }
{
    let [field, fields @ ..] = fields else {
        return Ok(());
    };
    let [mark, each @ ..] = each else {
        return Ok(());
    };
    set_mark(marks, *field, *mark)?;
    mark_fields(marks, fields, each)
}

/// The mark of the result of a function. Behind the last one it is none.
fn mark_of_result(shape: &Shape, function: u32) -> bool
    ensures { result ≡ result_mark (table_of shape.now) function }
{
    match shape.instances().get(function as usize) {
        Some(instance) => instance.result_has_cells,
        None => false,
    }
}

/// The mark of what a constructor makes.
fn mark_of_made(shape: &Shape, constructor: u32, arguments: &[u32]) -> bool
    ensures { result ≡ made_mark (table_of shape.now) constructor arguments.now }
{
    if !arguments.is_empty() {
        return true;
    }
    match shape.constructors().get(constructor as usize) {
        Some(one) => one.has_cells,
        None => false,
    }
}

/// The mark of the value of a form.
pub fn mark_of_form(shape: &Shape, form: Form, arguments: &[u32]) -> bool
    ensures { result ≡ mark_of_form (table_of shape.now) form arguments.now }
{
    match form {
        Form::Construct(constructor) => mark_of_made(shape, constructor, arguments),
        Form::Call(function) => mark_of_result(shape, function),
        _ => false,
    }
}

/// The marks of the variables of a function, by their numbers: whether a variable's type has cells.
pub fn tokened_marks_of(
    alloc: Global,
    shape: &Shape,
    number: usize,
    function: &TokenedFun,
) -> Result<Vec<bool>, NoMemory>
    ensures { IfOk result (λ marks. marks.items ≡ function_marks (table_of shape.now) number
        (bare_function (tokened_function function.now))) }
{
    let mut marks = parameters_of(alloc, shape, number)?;
    mark_block(&mut marks, shape, &function.body)?;
    Ok(marks)
}

/// The variable whose value a block gives first. Where it tests a token both ways give the same.
#[cycle(given)]
fn given(block: &TokenedBlock) -> Option<u32>
    ensures { result ≡ given_by (bare (tokened_code block.now)) }
{
    given_at(&block.last)
}

#[cycle(given)]
fn given_at(last: &TokenedLast) -> Option<u32>
    ensures { result ≡ given_by (bare (tokened_last_code last.now)) }
{
    match last {
        TokenedLast::Return(variable) => Some(*variable),
        TokenedLast::TailCall(_, _) => None,
        TokenedLast::Case(_, _, arms) => given_in(arms),
        TokenedLast::IfToken(_, there, _) => given(there),
    }
}

/// The variable whose value one of some arms gives first.
#[cycle(given)]
fn given_in(arms: &[TokenedBlock]) -> Option<u32>
    ensures { result ≡ given_by_arms (bare_arms (tokened_arms (map tokened_code arms.now))) }
{
    for arm in arms {
        if let Some(variable) = given(arm) {
            return Some(variable);
        }
    }
    None
}

/// The mark of the value of a block whose variables are marked.
fn mark_of_given(marks: &[bool], block: &TokenedBlock) -> bool
    ensures { result ≡ mark_given (given_by (bare (tokened_code block.now))) marks.now }
{
    match given(block) {
        Some(variable) => match marks.get(variable as usize) {
            Some(mark) => *mark,
            None => false,
        },
        None => false,
    }
}

/// Gives the variables that a block binds their marks. Where it tests a token both ways bind the same. The recursion is as deep as
/// the block.
#[cycle(mark)]
fn mark_block(marks: &mut Vec<bool>, shape: &Shape, block: &TokenedBlock) -> Result<(), NoMemory>
    ensures { OnOk result (marks.new.items ≡ marks_behind (table_of shape.now) (bare (tokened_code block.now)) marks.old.items) }
{
    mark_steps(marks, shape, &block.steps)?;
    mark_last(marks, shape, &block.last)
}

#[cycle(mark)]
fn mark_steps(marks: &mut Vec<bool>, shape: &Shape, steps: &[TokenedStep]) -> Result<(), NoMemory>
    ensures { OnOk result (marks.new.items ≡ marks_behind_steps (table_of shape.now) (map tokened_move steps.now) marks.old.items) }
{
    for step in steps {
        mark_step(marks, shape, step)?;
    }
    Ok(())
}

#[cycle(mark)]
fn mark_step(marks: &mut Vec<bool>, shape: &Shape, step: &TokenedStep) -> Result<(), NoMemory>
    ensures { OnOk result (marks.new.items ≡ marks_behind_step (table_of shape.now) (tokened_move step.now) marks.old.items) }
{
    match step {
        TokenedStep::Let {
            variable,
            form,
            arguments,
            ..
        } => set_mark(marks, *variable, mark_of_form(shape, *form, arguments)),
        TokenedStep::Inside { variable, block } => {
            mark_block(marks, shape, block)?;
            let mark = mark_of_given(marks, block);
            set_mark(marks, *variable, mark)
        }
        TokenedStep::Read {
            constructor,
            fields,
            ..
        } => mark_fields(marks, fields, fields_of(shape, *constructor)),
        TokenedStep::Open {
            constructor,
            fields,
            ..
        } => mark_fields(marks, fields, fields_of(shape, *constructor)),
        TokenedStep::IfUnique {
            constructor,
            fields,
            ..
        } => mark_fields(marks, fields, fields_of(shape, *constructor)),
        TokenedStep::Fill { variable, .. } => set_mark(marks, *variable, true),
        TokenedStep::Dup { .. } | TokenedStep::Drop { .. } => Ok(()),
        TokenedStep::Free { .. } | TokenedStep::Null { .. } => Ok(()),
        TokenedStep::Move { .. } | TokenedStep::Hold { .. } | TokenedStep::Unhold { .. } => Ok(()),
    }
}

#[cycle(mark)]
fn mark_last(marks: &mut Vec<bool>, shape: &Shape, last: &TokenedLast) -> Result<(), NoMemory>
    ensures { OnOk result (marks.new.items ≡ marks_behind (table_of shape.now) (bare (tokened_last_code last.now)) marks.old.items) }
{
    match last {
        TokenedLast::Return(_) => Ok(()),
        TokenedLast::TailCall(_, _) => Ok(()),
        TokenedLast::Case(_, _, arms) => mark_arms(marks, shape, arms),
        TokenedLast::IfToken(_, there, _) => mark_block(marks, shape, there),
    }
}

#[cycle(mark)]
fn mark_arms(marks: &mut Vec<bool>, shape: &Shape, arms: &[TokenedBlock]) -> Result<(), NoMemory>
    ensures { OnOk result (marks.new.items ≡ marks_behind_arms (table_of shape.now)
        (bare_arms (tokened_arms (map tokened_code arms.now))) marks.old.items) }
{
    for arm in arms {
        mark_block(marks, shape, arm)?;
    }
    Ok(())
}
