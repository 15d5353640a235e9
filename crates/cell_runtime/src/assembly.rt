//! Lines of the text by the names of their instructions.

ghost use Rattle.std.specs.Prelude.{◌≡◌, ◌-◌, ◌^◌, ◌<◌};
ghost use Rattle.cell_runtime.specs.Lines.{IsSet, IsWayBack};

use rv_isa::{Condition, Immediate, Instr, JumpOffset, Native, Register, Section, Symbol};

/// A number from 0 to 2047 as an immediate.
pub fn small(number: u32) -> Immediate
    requires { number < 2048 }
    ensures { result.word ≡ number }
{
    Immediate::new(number)
}

/// The immediate -1.
pub fn minus_one() -> Immediate
    ensures { result.word ≡ 2 ^ 32 - 1 }
{
    Immediate::new(0xffff_ffff)
}

/// `rd` = the address of the data section's byte at an offset.
pub fn address(rd: Register, offset: u32) -> Native
    ensures { result ≡ Native.Address rd Section.Data offset }
{
    Native::Address {
        rd,
        section: Section::Data,
        offset,
    }
}

/// `rd = rs1 + imm`.
pub fn addi(rd: Register, rs1: Register, imm: Immediate) -> Native
    ensures { result ≡ Native.Instruction (Instr.Addi rd rs1 imm) }
{
    Native::Instruction(Instr::Addi { rd, rs1, imm })
}

/// `rd = number`, for a number from 0 to 2047.
pub fn set(rd: Register, number: u32) -> Native
    requires { number < 2048 }
    ensures { IsSet rd number result }
{
    addi(rd, Register::ZERO, small(number))
}

/// `rd = rs1 + rs2`.
pub fn add(rd: Register, rs1: Register, rs2: Register) -> Native
    ensures { result ≡ Native.Instruction (Instr.Add rd rs1 rs2) }
{
    Native::Instruction(Instr::Add { rd, rs1, rs2 })
}

/// `rd = rs1 - rs2`.
pub fn sub(rd: Register, rs1: Register, rs2: Register) -> Native
    ensures { result ≡ Native.Instruction (Instr.Sub rd rs1 rs2) }
{
    Native::Instruction(Instr::Sub { rd, rs1, rs2 })
}

/// `rd = rs1 / rs2`, of unsigned numbers.
pub fn divu(rd: Register, rs1: Register, rs2: Register) -> Native
    ensures { result ≡ Native.Instruction (Instr.Divu rd rs1 rs2) }
{
    Native::Instruction(Instr::Divu { rd, rs1, rs2 })
}

/// `rd = rs1 % rs2`, of unsigned numbers.
pub fn remu(rd: Register, rs1: Register, rs2: Register) -> Native
    ensures { result ≡ Native.Instruction (Instr.Remu rd rs1 rs2) }
{
    Native::Instruction(Instr::Remu { rd, rs1, rs2 })
}

/// Loads the byte at `rs1 + imm`.
pub fn lbu(rd: Register, rs1: Register, imm: Immediate) -> Native
    ensures { result ≡ Native.Instruction (Instr.Lbu rd rs1 imm) }
{
    Native::Instruction(Instr::Lbu { rd, rs1, imm })
}

/// Loads the word at `rs1 + imm`.
pub fn lw(rd: Register, rs1: Register, imm: Immediate) -> Native
    ensures { result ≡ Native.Instruction (Instr.Lw rd rs1 imm) }
{
    Native::Instruction(Instr::Lw { rd, rs1, imm })
}

/// Stores the lowest byte of `rs2` at `rs1 + imm`.
pub fn sb(rs2: Register, imm: Immediate, rs1: Register) -> Native
    ensures { result ≡ Native.Instruction (Instr.Sb rs1 rs2 imm) }
{
    Native::Instruction(Instr::Sb { rs1, rs2, imm })
}

/// Stores the word `rs2` at `rs1 + imm`.
pub fn sw(rs2: Register, imm: Immediate, rs1: Register) -> Native
    ensures { result ≡ Native.Instruction (Instr.Sw rs1 rs2 imm) }
{
    Native::Instruction(Instr::Sw { rs1, rs2, imm })
}

/// A label of a routine's own.
pub fn label(number: u32) -> Native
    ensures { result ≡ Native.Label (Symbol.Local number) }
{
    Native::Label(Symbol::Local(number))
}

/// A branch to a label of the routine's own.
fn branch(condition: Condition, left: Register, right: Register, label: u32) -> Native
    ensures { result ≡ Native.Branch condition left right (Symbol.Local label) }
{
    Native::Branch {
        condition,
        left,
        right,
        target: Symbol::Local(label),
    }
}

/// Branches to a label of the routine's own, as `bne` and `bge` do.
pub fn beq(rs1: Register, rs2: Register, label: u32) -> Native
    ensures { result ≡ Native.Branch Condition.Equal rs1 rs2 (Symbol.Local label) }
{
    branch(Condition::Equal, rs1, rs2, label)
}

/// Goes to the label where `rs1` and `rs2` differ.
pub fn bne(rs1: Register, rs2: Register, label: u32) -> Native
    ensures { result ≡ Native.Branch Condition.NotEqual rs1 rs2 (Symbol.Local label) }
{
    branch(Condition::NotEqual, rs1, rs2, label)
}

/// Goes to the label where `rs1` is at least `rs2`, as signed numbers.
pub fn bge(rs1: Register, rs2: Register, label: u32) -> Native
    ensures { result ≡ Native.Branch Condition.GreaterEqual rs1 rs2 (Symbol.Local label) }
{
    branch(Condition::GreaterEqual, rs1, rs2, label)
}

/// A call of the environment.
pub fn ecall() -> Native
    ensures { result ≡ Native.Instruction Instr.Ecall }
{
    Native::Instruction(Instr::Ecall)
}

/// Jumps by an offset, and leaves the way back in `rd`.
pub fn jal(rd: Register, offset: JumpOffset) -> Native
    ensures { result ≡ Native.Instruction (Instr.Jal rd offset) }
{
    Native::Instruction(Instr::Jal { rd, offset })
}

/// Jumps to `rs1 + imm`, and leaves the way back in `rd`.
pub fn jalr(rd: Register, rs1: Register, imm: Immediate) -> Native
    ensures { result ≡ Native.Instruction (Instr.Jalr rd rs1 imm) }
{
    Native::Instruction(Instr::Jalr { rd, rs1, imm })
}

/// The way back, to the address in `ra`.
pub fn ret() -> Native
    ensures { IsWayBack result }
{
    jalr(Register::ZERO, Register::RA, small(0))
}
