ghost use Rattle.std.specs.Prelude.{◌≡◌, ◌+◌, ◌<◌, ◌∷◌, ◌++◌, None, Some, length, map, take, drop, IfNone, IfSome, IfOk, OnOk};
ghost use Rattle.kk_counted.specs.CountedForms.{arms_of, block_code, last_code, step_move};
ghost use Rattle.kk_counted.specs.Int32.{HasInt32, HaveInt32};
ghost use Rattle.kk_dropspec.specs.ChangedPrograms.{IsChangedProgram};
ghost use Rattle.kk_dropspec.specs.Numbers.{IsMoveInt32, AreMovesInt32};
ghost use Rattle.kk_fuse.specs.Fused.{is_plain, fuse};
ghost use Rattle.kk_fuse.specs.FusedForms.{backwards, drops_it, lets_past, moves_without, put_fused, fused_move, fused_moves};

use kk_base::NoMemory;
use kk_counted::{Block, Counted, CountedFun, Last, Step, copied_decisions};
use kk_dropspec::{copied_call, copied_form};
use kk_syntax::Form;
use std::alloc::Global;

/// The program in which each dup cancels with the next drop of its variable, if between them stand only dups and drops of other
/// variables, readings, and forms on values that make no cell and call no function, and none names the variable. Its numbers are
/// numbers of 32 bits.
///
/// The recursion is as deep as the blocks of the code. At each dup the steps behind it are looked through: it takes time as the
/// square of the length of a body.
pub fn run(alloc: Global, counted: Counted) -> Result<Counted, NoMemory>
    ensures { IfOk result (λ made. IsChangedProgram fuse counted made) }
{
    let (shape, functions, body_nodes, nodes) = counted.parts();
    let mut made = Counted::new(alloc, shape, body_nodes, nodes);
    for function in &functions {
        let body = fused_block(alloc, function.body())?;
        made.add(CountedFun::new(function.instance(), function.parameters(), body))?;
    }
    Ok(made)
}

/// A block with its dups fused, as `run` has it.
#[cycle(fused_block)]
fn fused_block(alloc: Global, block: &Block) -> Result<Block, NoMemory>
    ensures same { IfOk result (λ made. block_code made ≡ fuse (block_code block.now)) }
    ensures numbers { IfOk result (λ made. HasInt32 (block_code made)) }
{
    let steps = fused_steps(alloc, &block.steps)?;
    let last = fused_last(alloc, &block.last)?;
    Ok(Block { steps, last })
}

#[cycle(fused_block)]
fn fused_steps(alloc: Global, steps: &[Step]) -> Result<Vec<Step>, NoMemory>
    ensures same { IfOk result (λ made. map step_move made.items ≡ fused_moves (map step_move steps.now)) }
    ensures numbers { IfOk result (λ made. AreMovesInt32 (map step_move made.items)) }
{
    let mut made = Vec::new(alloc);
    let mut left = steps.len();
    'back: while left > 0 {
        left -= 1;
        let step = fused_step(alloc, &steps[left])?;
        put_fused(&mut made, step)?;
    }
    made.reverse();
    Ok(made)
}

#[cycle(fused_block)]
fn fused_step(alloc: Global, step: &Step) -> Result<Step, NoMemory>
    ensures same { IfOk result (λ made. step_move made ≡ fused_move (step_move step.now)) }
    ensures numbers { IfOk result (λ made. IsMoveInt32 (step_move made)) }
{
    match step {
        Step::Let(variable, form, arguments) => copied_form(alloc, *variable, *form, arguments),
        Step::Inside(variable, block) => Ok(Step::Inside(*variable, fused_block(alloc, block)?)),
        Step::Read(variable, by, fields) => {
            Ok(Step::Read(*variable, *by, Vec::from_slice(alloc, fields)?))
        }
        Step::Open(variable, by, fields, used) => {
            let fields = Vec::from_slice(alloc, fields)?;
            let used = Vec::from_slice(alloc, used)?;
            Ok(Step::Open(*variable, *by, fields, used))
        }
        Step::IfUnique(variable, by, fields, used) => {
            let fields = Vec::from_slice(alloc, fields)?;
            let used = Vec::from_slice(alloc, used)?;
            Ok(Step::IfUnique(*variable, *by, fields, used))
        }
        Step::Dup(variable) => Ok(Step::Dup(*variable)),
        Step::Drop(variable) => Ok(Step::Drop(*variable)),
    }
}

#[cycle(fused_block)]
fn fused_last(alloc: Global, last: &Last) -> Result<Last, NoMemory>
    ensures same { IfOk result (λ made. last_code made ≡ fuse (last_code last.now)) }
    ensures numbers { IfOk result (λ made. HasInt32 (last_code made)) }
{
    match last {
        Last::Return(variable) => Ok(Last::Return(*variable)),
        Last::TailCall(instance, arguments) => copied_call(alloc, *instance, arguments),
        Last::Case(variable, decisions, arms) => {
            let arms = fused_arms(alloc, arms)?;
            let decisions = copied_decisions(alloc, decisions)?;
            Ok(Last::Case(*variable, decisions, arms))
        }
    }
}

#[cycle(fused_block)]
fn fused_arms(alloc: Global, arms: &[Block]) -> Result<Vec<Block>, NoMemory>
    ensures same { IfOk result (λ made. map block_code made.items ≡ map fuse (map block_code arms.now)) }
    ensures numbers { IfOk result (λ made. HaveInt32 (arms_of (map block_code made.items))) }
{
    let mut made = Vec::new(alloc);
    for arm in arms {
        made.push(fused_block(alloc, arm)?)?;
    }
    Ok(made)
}

/// Puts a step in front of fused ones, of which the last one was written first.
fn put_fused(made: &mut Vec<Step>, step: Step) -> Result<(), NoMemory>
    ensures { OnOk result (backwards made.new.items ≡ put_fused (step_move step) (backwards made.old.items)) }
{
    match cancelled_by(&step, made) {
        Some(at) => {
            made.remove(at);
        }
        None => made.push(step)?,
    }
    Ok(())
}

/// Where the drop stands that cancels with a step, if the step is a dup and there is one.
fn cancelled_by(step: &Step, made: &[Step]) -> Option<usize>
    ensures none { IfNone result (put_fused (step_move step.now) (backwards made.now) ≡ step_move step.now ∷ backwards made.now) }
    ensures fits { IfSome result (λ at. at < length made.now) }
    ensures some { IfSome result (λ at. put_fused (step_move step.now) (backwards made.now)
        ≡ backwards (take at made.now ++ drop (at + 1) made.now)) }
{
    match step {
        Step::Dup(variable) => next_drop(made, *variable),
        Step::Let(_, _, _)
        | Step::Inside(_, _)
        | Step::Read(_, _, _)
        | Step::Open(_, _, _, _)
        | Step::IfUnique(_, _, _, _)
        | Step::Drop(_) => None,
    }
}

/// Where the next drop of a variable stands, if a dup in front of the steps cancels with it. The last step was written first.
fn next_drop(made: &[Step], variable: u32) -> Option<usize>
    ensures none { IfNone result (moves_without variable (backwards made.now) ≡ None) }
    ensures fits { IfSome result (λ at. at < length made.now) }
    ensures some { IfSome result (λ at. moves_without variable (backwards made.now)
        ≡ Some (backwards (take at made.now ++ drop (at + 1) made.now))) }
{
    let mut left = made.len();
    'back: while left > 0 {
        left -= 1;
        let step = &made[left];
        if drops_it(step, variable) {
            return Some(left);
        }
        if !lets_past(step, variable) {
            return None;
        }
    }
    None
}

/// Whether a step drops a variable.
fn drops_it(step: &Step, variable: u32) -> bool
    ensures { result ≡ drops_it variable (step_move step.now) }
{
    matches!(step, Step::Drop(other) if *other == variable)
}

/// Whether a step may stand between a dup of a variable and the drop that cancels with it.
fn lets_past(step: &Step, variable: u32) -> bool
    ensures { result ≡ lets_past variable (step_move step.now) }
{
    match step {
        Step::Let(bound, form, arguments) => {
            !(*bound == variable || arguments.contains(&variable)) && is_plain(*form, arguments)
        }
        Step::Read(cell, _, fields) => !(*cell == variable || fields.contains(&variable)),
        Step::Dup(other) | Step::Drop(other) => *other != variable,
        Step::Inside(_, _) | Step::Open(_, _, _, _) | Step::IfUnique(_, _, _, _) => false,
    }
}

/// Whether a form on variables makes no cell and calls no function.
fn is_plain(form: Form, arguments: &[u32]) -> bool
    ensures { result ≡ is_plain form arguments.now }
{
    match form {
        Form::Call(_) => false,
        Form::Construct(_) => arguments.is_empty(),
        _ => true,
    }
}
