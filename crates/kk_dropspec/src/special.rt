ghost use Rattle.std.specs.Prelude.{◌≡◌, map, IfOk};
ghost use Rattle.kk_counted.specs.CountedForms.{arms_of, block_code, last_code, step_move};
ghost use Rattle.kk_counted.specs.Int32.{HasInt32, HaveInt32};
ghost use Rattle.kk_dropspec.specs.ChangedPrograms.{IsChangedProgram};
ghost use Rattle.kk_dropspec.specs.Specialised.{special};
ghost use Rattle.kk_dropspec.specs.SpecialForms.{special_move};
ghost use Rattle.kk_dropspec.specs.Numbers.{IsMoveInt32, AreMovesInt32};

use crate::copies::{copied_call, copied_form};
use kk_base::NoMemory;
use kk_counted::{Block, Counted, CountedFun, Last, Step, copied_decisions};
use kk_syntax::Form;
use std::alloc::Global;

/// The program with each opening of a cell by the cell's count: a cell with a single reference gives its used fields away, and
/// its other fields are given up; else the used fields get a reference more, and the cell's count is lowered. Its numbers are
/// numbers of 32 bits.
///
/// The recursion is as deep as the blocks of the code.
pub fn run(alloc: Global, counted: Counted) -> Result<Counted, NoMemory>
    ensures { IfOk result (λ made. IsChangedProgram special counted made) }
{
    let (shape, functions, body_nodes, nodes) = counted.parts();
    let mut made = Counted::new(alloc, shape, body_nodes, nodes);
    for function in &functions {
        let body = special_block(alloc, function.body())?;
        made.add(CountedFun::new(function.instance(), function.parameters(), body))?;
    }
    Ok(made)
}

/// A block whose openings go by the count.
#[cycle(special_block)]
fn special_block(alloc: Global, block: &Block) -> Result<Block, NoMemory>
    ensures same { IfOk result (λ made. block_code made ≡ special (block_code block.now)) }
    ensures numbers { IfOk result (λ made. HasInt32 (block_code made)) }
{
    let steps = special_steps(alloc, &block.steps)?;
    let last = special_last(alloc, &block.last)?;
    Ok(Block { steps, last })
}

#[cycle(special_block)]
fn special_steps(alloc: Global, steps: &[Step]) -> Result<Vec<Step>, NoMemory>
    ensures same { IfOk result (λ made. map step_move made.items ≡ map special_move (map step_move steps.now)) }
    ensures numbers { IfOk result (λ made. AreMovesInt32 (map step_move made.items)) }
{
    let mut made = Vec::new(alloc);
    for step in steps {
        made.push(special_step(alloc, step)?)?;
    }
    Ok(made)
}

#[cycle(special_block)]
fn special_step(alloc: Global, step: &Step) -> Result<Step, NoMemory>
    ensures same { IfOk result (λ made. step_move made ≡ special_move (step_move step.now)) }
    ensures numbers { IfOk result (λ made. IsMoveInt32 (step_move made)) }
{
    match step {
        Step::Let(variable, form, arguments) => copied_form(alloc, *variable, *form, arguments),
        Step::Inside(variable, block) => Ok(Step::Inside(*variable, special_block(alloc, block)?)),
        Step::Read(variable, by, fields) => {
            Ok(Step::Read(*variable, *by, Vec::from_slice(alloc, fields)?))
        }
        Step::Open(variable, by, fields, used) | Step::IfUnique(variable, by, fields, used) => {
            let fields = Vec::from_slice(alloc, fields)?;
            let used = Vec::from_slice(alloc, used)?;
            Ok(Step::IfUnique(*variable, *by, fields, used))
        }
        Step::Dup(variable) => Ok(Step::Dup(*variable)),
        Step::Drop(variable) => Ok(Step::Drop(*variable)),
    }
}

#[cycle(special_block)]
fn special_last(alloc: Global, last: &Last) -> Result<Last, NoMemory>
    ensures same { IfOk result (λ made. last_code made ≡ special (last_code last.now)) }
    ensures numbers { IfOk result (λ made. HasInt32 (last_code made)) }
{
    match last {
        Last::Return(variable) => Ok(Last::Return(*variable)),
        Last::TailCall(instance, arguments) => copied_call(alloc, *instance, arguments),
        Last::Case(variable, decisions, arms) => {
            let arms = special_arms(alloc, arms)?;
            let decisions = copied_decisions(alloc, decisions)?;
            Ok(Last::Case(*variable, decisions, arms))
        }
    }
}

#[cycle(special_block)]
fn special_arms(alloc: Global, arms: &[Block]) -> Result<Vec<Block>, NoMemory>
    ensures same { IfOk result (λ made. map block_code made.items ≡ map special (map block_code arms.now)) }
    ensures numbers { IfOk result (λ made. HaveInt32 (arms_of (map block_code made.items))) }
{
    let mut made = Vec::new(alloc);
    for arm in arms {
        made.push(special_block(alloc, arm)?)?;
    }
    Ok(made)
}
