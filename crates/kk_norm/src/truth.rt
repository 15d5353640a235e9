ghost use Rattle.std.specs.Prelude.{◌≡◌, IfOk};
ghost use Rattle.kk_syntax.specs.Patterns.{constructor, no_part};
ghost use Rattle.kk_core.specs.Codes.{block_code, last_code, arm_code};
ghost use Rattle.kk_core.specs.Truths.{truth_case};

use kk_base::NoMemory;
use kk_core::{Arm, Block, Last, truth_decisions};
use kk_syntax::{Pat, Program};
use std::alloc::Global;

/// The end of a block that goes on by a variable: as the first block where it is `True`, and as the second where it is `False`.
pub fn case_by_truth(
    alloc: Global,
    on: u32,
    positive: Block,
    negative: Block,
) -> Result<Last, NoMemory>
    ensures { IfOk result (λ last. last_code last ≡ truth_case on (block_code positive) (block_code negative)) }
{
    let decisions = truth_decisions(alloc)?;
    let first = arm_of(alloc, Program::TRUE, positive);
    let second = arm_of(alloc, Program::FALSE, negative);
    let arms = vec![in alloc; first, second]?;
    Ok(Last::Case(on, decisions, arms))
}

// The arm of a constructor without fields.
fn arm_of(alloc: Global, of: u32, body: Block) -> Arm
    ensures { arm_code result ≡ record { pattern = constructor of no_part; body = block_code body } }
{
    let pattern = Pat::Constructor(of, Vec::new(alloc));
    Arm { pattern, body }
}
