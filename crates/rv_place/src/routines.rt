// Calls of the runtime's routines as instructions. Before that of a drop the count of the cell is lowered.

ghost use Rattle.std.specs.Prelude.{◌≡◌, ◌+◌, ◌*◌, ◌≤◌, OnOk};
ghost use Rattle.rv_place.specs.Instructions.{words_of_jump, words_to_load, words_to_lower, LoadsCount, LowersCount, DropsReference, CallsRoutine, words_of_routine};
ghost use Rattle.rv_place.specs.Texts.{greatest_address};
ghost use Rattle.rv_place.specs.Emitted.{Grew, JumpReaches, RoutineReaches};

use crate::emit::{emit, emit_call, over_jump};
use crate::reach::{Reach, WORDS_TO_LOWER};
use kk_base::NoMemory;
use rv_isa::{BranchOffset, Immediate, Instr, Register, Routine};

/// Loads the count of the cell to which `a0` refers into `ra`. An odd reference names no cell: there the branch `over` skips the rest
/// of the drop.
fn emit_count(code: &mut Vec<Instr>, over: BranchOffset) -> Result<(), NoMemory>
    ensures { OnOk result (Grew words_to_load (LoadsCount over) code.old.items code.new.items) }
{
    let one = Immediate::new(1);
    emit(
        code,
        Instr::Andi {
            rd: Register::RA,
            rs1: Register::A0,
            imm: one,
        },
    )?;
    emit(
        code,
        Instr::Bne {
            rs1: Register::RA,
            rs2: Register::ZERO,
            offset: over,
        },
    )?;
    emit(
        code,
        Instr::Lw {
            rd: Register::RA,
            rs1: Register::A0,
            imm: Immediate::ZERO,
        },
    )?;
    Ok(())
}

/// Lowers the count in `ra` and stores it. Where it is not 0, the branch `over` skips the call of the routine.
fn emit_lowered(code: &mut Vec<Instr>, over: BranchOffset) -> Result<(), NoMemory>
    ensures { OnOk result (Grew 3 (LowersCount over) code.old.items code.new.items) }
{
    let less = Immediate::new(0xffff_ffff);
    emit(
        code,
        Instr::Addi {
            rd: Register::RA,
            rs1: Register::RA,
            imm: less,
        },
    )?;
    emit(
        code,
        Instr::Sw {
            rs1: Register::A0,
            rs2: Register::RA,
            imm: Immediate::ZERO,
        },
    )?;
    emit(
        code,
        Instr::Bne {
            rs1: Register::RA,
            rs2: Register::ZERO,
            offset: over,
        },
    )?;
    Ok(())
}

/// The distance from the test whether a reference is odd to the end of its drop.
fn over_drop(jumps: Reach) -> BranchOffset
    ensures { result.word ≡ 20 + 4 * words_of_jump jumps }
{
    BranchOffset::new(20 + 4 * jumps.words_of_jump())
}

/// Gives up the reference in `a0`, from the address `at`: the routine at `target` frees the cell where it was the last one.
fn emit_drop(code: &mut Vec<Instr>, at: u32, jumps: Reach, target: u32) -> Result<(), NoMemory>
    requires at { at ≤ greatest_address }
    ensures { OnOk result (Grew (words_to_lower + words_of_jump jumps) (λ c p. p ≡ at → JumpReaches jumps (p + 4 * words_to_lower) target → DropsReference jumps c p target) code.old.items code.new.items) }
{
    let over = over_drop(jumps);
    let over_call = over_jump(jumps);
    emit_count(code, over)?;
    emit_lowered(code, over_call)?;
    emit_call(code, at + 4 * WORDS_TO_LOWER, jumps, target)?;
    Ok(())
}

/// Calls the routine at `target`, from the address `at`.
pub fn emit_routine(
    code: &mut Vec<Instr>,
    at: u32,
    jumps: Reach,
    routine: Routine,
    target: u32,
) -> Result<(), NoMemory>
    requires at { at ≤ greatest_address }
    ensures { OnOk result (Grew (words_of_routine jumps routine) (λ c p. p ≡ at → RoutineReaches jumps routine p target → CallsRoutine jumps c p routine target) code.old.items code.new.items) }
{
    match routine {
        Routine::Drop => emit_drop(code, at, jumps, target),
        Routine::Take | Routine::PrintInt | Routine::PrintText | Routine::ReadByte => {
            emit_call(code, at, jumps, target)
        }
    }
}
