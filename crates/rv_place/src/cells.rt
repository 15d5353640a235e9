// Counts and tokens as instructions.

ghost use Rattle.std.specs.Prelude.{◌≡◌, ℕ, ◌*◌, ◌+◌, ◌≤◌, false, Some, OnOk};
ghost use Rattle.rv_isa.specs.PlacedMachine.{first_slot};
ghost use Rattle.rv_isa.specs.FrameSizes.{slots_of_operands};
ghost use Rattle.rv_isa.specs.declared.register.Register.{Register};
ghost use Rattle.rv_isa.specs.declared.instr.Instr.TheVariants.{Sw};
ghost use Rattle.rv_isa.specs.declared.immediate.Immediate.{Immediate};
ghost use Rattle.rv_place.specs.Addresses.{greatest_frame, is_at_pointer, slot_offset};
ghost use Rattle.rv_place.specs.Instructions.{RaisesBy, RaisesCount, FreesToken, NamesSlot, words_to_name, LinksToken, HoldsToken, words_to_hold, UnholdsToken};
ghost use Rattle.rv_place.specs.Lines.{IsFromPointer, token_into};
ghost use Rattle.rv_place.specs.Emitted.{Grew, TokenBy};

use crate::emit::{emit, slot_offset};
use crate::operations::register_or_zero;
use crate::reach::{Reach, words_to_name};
use kk_base::NoMemory;
use rv_isa::{BranchOffset, Immediate, Instr, Operand, Place, Register};

/// Raises the count of the cell to which a register refers by a number.
fn emit_raised(code: &mut Vec<Instr>, cell: Register, number: Immediate) -> Result<(), NoMemory>
    ensures { OnOk result (Grew 3 (RaisesBy number cell) code.old.items code.new.items) }
{
    emit(
        code,
        Instr::Lw {
            rd: Register::RA,
            rs1: cell,
            imm: Immediate::ZERO,
        },
    )?;
    emit(
        code,
        Instr::Addi {
            rd: Register::RA,
            rs1: Register::RA,
            imm: number,
        },
    )?;
    emit(
        code,
        Instr::Sw {
            rs1: cell,
            rs2: Register::RA,
            imm: Immediate::ZERO,
        },
    )?;
    Ok(())
}

/// Raises the count of the cell to which a register refers; an odd reference names none.
pub fn emit_dup(code: &mut Vec<Instr>, reference: Register) -> Result<(), NoMemory>
    ensures { OnOk result (Grew 5 (λ c at. RaisesCount c at reference) code.old.items code.new.items) }
{
    let one = Immediate::new(1);
    let over = BranchOffset::new(16);
    emit(
        code,
        Instr::Andi {
            rd: Register::RA,
            rs1: reference,
            imm: one,
        },
    )?;
    emit(
        code,
        Instr::Bne {
            rs1: Register::RA,
            rs2: Register::ZERO,
            offset: over,
        },
    )?;
    emit_raised(code, reference, one)?;
    Ok(())
}

/// Puts the token in a register before the free cells; the null token is none.
pub fn emit_free(code: &mut Vec<Instr>, token: Register) -> Result<(), NoMemory>
    ensures { OnOk result (Grew 3 (λ c at. FreesToken c at token) code.old.items code.new.items) }
{
    let over = BranchOffset::new(12);
    emit(
        code,
        Instr::Beq {
            rs1: token,
            rs2: Register::ZERO,
            offset: over,
        },
    )?;
    emit(
        code,
        Instr::Sw {
            rs1: token,
            rs2: Register::S0,
            imm: Immediate::ZERO,
        },
    )?;
    emit(
        code,
        Instr::Addi {
            rd: Register::S0,
            rs1: token,
            imm: Immediate::ZERO,
        },
    )?;
    Ok(())
}

/// The offset of the slot of a token from the stack pointer.
fn token_offset(jumps: Reach, args: &[Operand]) -> Immediate
    requires { 4 * slots_of_operands args.now + 4 ≤ greatest_frame jumps }
    ensures { (k : ℕ) → first_slot args.now ≡ Some k → IsFromPointer jumps (slot_offset k) result }
{
    match args.first() {
        Some(
            Operand {
                place: Place::Slot(slot),
                ..
            },
        ) => slot_offset(jumps, *slot),
        _ => Immediate::ZERO,
    }
}

/// Stores a register in the second word of a token.
fn emit_second(code: &mut Vec<Instr>, token: Register, from: Register) -> Result<(), NoMemory>
    ensures { OnOk result (Grew 1 (λ c at. (second : Immediate) × (second.word ≡ 4) × (c at ≡ Some (Sw token from second)))
        code.old.items code.new.items) }
{
    let second = Immediate::new(4);
    emit(
        code,
        Instr::Sw {
            rs1: token,
            rs2: from,
            imm: second,
        },
    )
}

/// Stores the address of a slot, which is not the stack pointer, in the second word of a token.
fn emit_address(code: &mut Vec<Instr>, token: Register, slot: Immediate) -> Result<(), NoMemory>
    ensures { OnOk result (Grew 2 (λ c at. NamesSlot false token c at slot) code.old.items code.new.items) }
{
    emit(
        code,
        Instr::Addi {
            rd: Register::S1,
            rs1: Register::SP,
            imm: slot,
        },
    )?;
    emit_second(code, token, Register::S1)?;
    Ok(())
}

/// Stores the address of a slot in the second word of a token.
fn emit_name(
    code: &mut Vec<Instr>,
    token: Register,
    slot: Immediate,
    at_pointer: bool,
) -> Result<(), NoMemory>
    ensures { OnOk result (Grew (words_to_name at_pointer) (λ c at. NamesSlot at_pointer token c at slot) code.old.items code.new.items) }
{
    if at_pointer {
        emit_second(code, token, Register::SP)
    } else {
        emit_address(code, token, slot)
    }
}

/// Makes a token, which its slot has, the newest held one.
fn emit_link(
    code: &mut Vec<Instr>,
    token: Register,
    slot: Immediate,
    at_pointer: bool,
) -> Result<(), NoMemory>
    ensures { OnOk result (Grew (2 + words_to_name at_pointer) (λ c at. LinksToken at_pointer token c at slot) code.old.items code.new.items) }
{
    emit(
        code,
        Instr::Sw {
            rs1: token,
            rs2: Register::S1,
            imm: Immediate::ZERO,
        },
    )?;
    emit_name(code, token, slot, at_pointer)?;
    emit(
        code,
        Instr::Addi {
            rd: Register::S1,
            rs1: token,
            imm: Immediate::ZERO,
        },
    )?;
    Ok(())
}

/// Over a link: the distance of a branch that stands right before one.
fn over_link(at_pointer: bool) -> BranchOffset
    ensures { result.word ≡ 12 + 4 * words_to_name at_pointer }
{
    BranchOffset::new(12 + 4 * words_to_name(at_pointer))
}

/// Holds the token in a register, which its slot has too: it is the newest one then. Where it is null, does nothing.
pub fn emit_hold(
    code: &mut Vec<Instr>,
    jumps: Reach,
    args: &[Operand],
    token: Register,
) -> Result<(), NoMemory>
    requires slots { 4 * slots_of_operands args.now + 4 ≤ greatest_frame jumps }
    ensures { OnOk result (Grew (words_to_hold (is_at_pointer jumps args.now)) (TokenBy (HoldsToken (is_at_pointer jumps args.now) token) jumps args.now)
        code.old.items code.new.items) }
{
    let slot = token_offset(jumps, args);
    let at_pointer = jumps.is_at_pointer(args);
    let over = over_link(at_pointer);
    emit(
        code,
        Instr::Beq {
            rs1: token,
            rs2: Register::ZERO,
            offset: over,
        },
    )?;
    emit_link(code, token, slot, at_pointer)?;
    Ok(())
}

/// The register that a token is taken back to: `ra` where it is not given.
pub fn token_into(into: Option<Operand>) -> Register
    ensures { (token : Register) → token_into into ≡ Some token → result ≡ token }
{
    match into {
        None => Register::RA,
        Some(_) => register_or_zero(into),
    }
}

/// Takes the newest held token, that of a slot, back to a register; where the slot has none, loads its 0 and does nothing else.
pub fn emit_unhold(
    code: &mut Vec<Instr>,
    jumps: Reach,
    args: &[Operand],
    token: Register,
) -> Result<(), NoMemory>
    requires slots { 4 * slots_of_operands args.now + 4 ≤ greatest_frame jumps }
    ensures { OnOk result (Grew 3 (TokenBy (UnholdsToken token) jumps args.now) code.old.items code.new.items) }
{
    let slot = token_offset(jumps, args);
    let over = BranchOffset::new(8);
    emit(
        code,
        Instr::Lw {
            rd: token,
            rs1: Register::SP,
            imm: slot,
        },
    )?;
    emit(
        code,
        Instr::Beq {
            rs1: token,
            rs2: Register::ZERO,
            offset: over,
        },
    )?;
    emit(
        code,
        Instr::Lw {
            rd: Register::S1,
            rs1: token,
            imm: Immediate::ZERO,
        },
    )?;
    Ok(())
}
