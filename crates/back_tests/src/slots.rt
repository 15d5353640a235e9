ghost use Rattle.std.specs.Prelude.{◌≡◌, IfOk};
ghost use Rattle.rv_isa.specs.AsmCode.{line_of, asm_functions};
ghost use Rattle.rv_isa.specs.WellFormed.{AreWellFormed};

use kk_base::NoMemory;
use rv_isa::{
    Action, Asm, AsmFunction, Item, Operation, RegisterOperation, Routine, Statement, Way,
};
use rv_regs::{assign, valid};
use std::alloc::Global;
use std::test::Fail;

fn statement(
    alloc: Global,
    action: Action,
    args: &[u32],
    into: Option<u32>,
) -> Result<Statement, NoMemory>
    ensures { IfOk result (λ s. line_of s ≡ record { action = action; args = args.now; into = into }) }
{
    let args = Vec::from_slice(alloc, args)?;
    Ok(Statement { action, args, into })
}

/// A function that returns the sum of its two parameters and, once more, of the first.
pub(crate) fn sum_of_two(alloc: Global) -> Result<Asm, NoMemory>
    ensures { IfOk result (λ asm. AreWellFormed (asm_functions asm)) }
{
    let add = Action::Compute(Operation::Register(RegisterOperation::Add));
    let first = statement(alloc, add, &[0, 1], Some(2))?;
    let second = statement(alloc, add, &[2, 0], Some(3))?;
    let third = statement(alloc, Action::Return, &[3], None)?;
    let mut code = Vec::new(alloc);
    code.push(first)?;
    code.push(second)?;
    code.push(third)?;
    let params = Vec::from_slice(alloc, &[0, 1])?;
    let mut functions = Vec::new(alloc);
    functions.push(AsmFunction { params, code })?;
    Ok(Asm {
        functions,
        constants: Vec::new(alloc),
    })
}

/// A function that gives up a reference of its parameter and returns it.
fn drop_and_return(alloc: Global) -> Result<Asm, NoMemory>
    ensures { IfOk result (λ asm. AreWellFormed (asm_functions asm)) }
{
    let first = statement(alloc, Action::Routine(Routine::Drop), &[0], None)?;
    let second = statement(alloc, Action::Return, &[0], None)?;
    let mut code = Vec::new(alloc);
    code.push(first)?;
    code.push(second)?;
    let params = Vec::from_slice(alloc, &[0])?;
    let mut functions = Vec::new(alloc);
    functions.push(AsmFunction { params, code })?;
    Ok(Asm {
        functions,
        constants: Vec::new(alloc),
    })
}

/// Parameters stay where they come, and a result comes to where it is returned, so nothing is moved.
#[test]
fn values_stay_in_registers(rt: HostRuntime) -> Result<(), Fail> {
    let asm = sum_of_two(rt.alloc())?;
    let placed = assign(rt.alloc(), &asm)?;
    assert!(rt; valid(&asm, &placed));
    assert_eq!(rt; placed.functions().len(), 1);
    let code = &placed.functions()[0].code;
    assert_eq!(rt; code.len(), 3);
    for item in code {
        assert!(rt; matches!(item, Item::Does { .. }));
    }
    Ok(())
}

/// A drop spoils the register in which it takes its argument. A value that is read on behind it has a copy in another one, and comes
/// to no slot.
#[test]
fn a_value_is_read_on_behind_a_drop(rt: HostRuntime) -> Result<(), Fail> {
    let asm = drop_and_return(rt.alloc())?;
    let placed = assign(rt.alloc(), &asm)?;
    assert!(rt; valid(&asm, &placed));
    assert_eq!(rt; placed.functions().len(), 1);
    let code = &placed.functions()[0].code;
    assert_eq!(rt; code.len(), 4);
    assert!(rt;
        matches!(
            code[0],
            Item::Moves {
                way: Way::Copy { .. },
                ..
            }
        )
    );
    assert!(rt;
        matches!(
            code[2],
            Item::Moves {
                way: Way::Copy { .. },
                ..
            }
        )
    );
    Ok(())
}
