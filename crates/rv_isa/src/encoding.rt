// From instructions to words.

ghost use Rattle.std.specs.Prelude.{◌≡◌, ◌≢◌, ℕ, ◌<◌, ◌^◌};
ghost use Rattle.rv_isa.specs.Field.{field};
ghost use Rattle.rv_isa.specs.Table.{IsWord};
ghost use Rattle.rv_isa.specs.Format.{IsR, IsI, IsShift, IsS, IsB, IsU, IsJ};

use crate::code::{AUIPC, BRANCH, EBREAK, ECALL, FENCE, JAL, JALR, LOAD, LUI, OP, OP_IMM, STORE};
use crate::{BranchOffset, Immediate, Instr, JumpOffset, Register, ShiftAmount, UpperImmediate};

/// The word of an instruction. FENCE, which has many, is written as `fence iorw, iorw`: it orders all
/// accesses.
///
/// So `decode` gives the instruction back, and a word of any instruction but FENCE decodes to one whose
/// word it is.
pub fn encode(i: Instr) -> u32
    ensures word { IsWord i result }
    ensures only { (w : ℕ) → w < 2 ^ 32 → IsWord i w → i ≢ Instr.Fence → result ≡ w }
    ensures fence { i ≡ Instr.Fence → result ≡ 0x0ff0_000f }
{
    word_of(i)
}

fn word_of(i: Instr) -> u32
    ensures word { IsWord i result }
    ensures fence { i ≡ Instr.Fence → result ≡ 0x0ff0_000f }
{
    match i {
        Instr::Lui { rd, imm } => u_word(LUI, rd, imm),
        Instr::Auipc { rd, imm } => u_word(AUIPC, rd, imm),
        Instr::Jal { rd, offset } => j_word(JAL, rd, offset),
        Instr::Jalr { rd, rs1, imm } => i_word(JALR, 0, rd, rs1, imm),
        Instr::Beq { rs1, rs2, offset } => b_word(BRANCH, 0, rs1, rs2, offset),
        Instr::Bne { rs1, rs2, offset } => b_word(BRANCH, 1, rs1, rs2, offset),
        Instr::Blt { rs1, rs2, offset } => b_word(BRANCH, 4, rs1, rs2, offset),
        Instr::Bge { rs1, rs2, offset } => b_word(BRANCH, 5, rs1, rs2, offset),
        Instr::Bltu { rs1, rs2, offset } => b_word(BRANCH, 6, rs1, rs2, offset),
        Instr::Bgeu { rs1, rs2, offset } => b_word(BRANCH, 7, rs1, rs2, offset),
        Instr::Lb { rd, rs1, imm } => i_word(LOAD, 0, rd, rs1, imm),
        Instr::Lh { rd, rs1, imm } => i_word(LOAD, 1, rd, rs1, imm),
        Instr::Lw { rd, rs1, imm } => i_word(LOAD, 2, rd, rs1, imm),
        Instr::Lbu { rd, rs1, imm } => i_word(LOAD, 4, rd, rs1, imm),
        Instr::Lhu { rd, rs1, imm } => i_word(LOAD, 5, rd, rs1, imm),
        Instr::Sb { rs1, rs2, imm } => s_word(STORE, 0, rs1, rs2, imm),
        Instr::Sh { rs1, rs2, imm } => s_word(STORE, 1, rs1, rs2, imm),
        Instr::Sw { rs1, rs2, imm } => s_word(STORE, 2, rs1, rs2, imm),
        Instr::Addi { rd, rs1, imm } => i_word(OP_IMM, 0, rd, rs1, imm),
        Instr::Slti { rd, rs1, imm } => i_word(OP_IMM, 2, rd, rs1, imm),
        Instr::Sltiu { rd, rs1, imm } => i_word(OP_IMM, 3, rd, rs1, imm),
        Instr::Xori { rd, rs1, imm } => i_word(OP_IMM, 4, rd, rs1, imm),
        Instr::Ori { rd, rs1, imm } => i_word(OP_IMM, 6, rd, rs1, imm),
        Instr::Andi { rd, rs1, imm } => i_word(OP_IMM, 7, rd, rs1, imm),
        Instr::Slli { rd, rs1, shamt } => shift_word(OP_IMM, 1, 0x00, rd, rs1, shamt),
        Instr::Srli { rd, rs1, shamt } => shift_word(OP_IMM, 5, 0x00, rd, rs1, shamt),
        Instr::Srai { rd, rs1, shamt } => shift_word(OP_IMM, 5, 0x20, rd, rs1, shamt),
        Instr::Add { rd, rs1, rs2 } => r_word(OP, 0, 0x00, rd, rs1, rs2),
        Instr::Sub { rd, rs1, rs2 } => r_word(OP, 0, 0x20, rd, rs1, rs2),
        Instr::Sll { rd, rs1, rs2 } => r_word(OP, 1, 0x00, rd, rs1, rs2),
        Instr::Slt { rd, rs1, rs2 } => r_word(OP, 2, 0x00, rd, rs1, rs2),
        Instr::Sltu { rd, rs1, rs2 } => r_word(OP, 3, 0x00, rd, rs1, rs2),
        Instr::Xor { rd, rs1, rs2 } => r_word(OP, 4, 0x00, rd, rs1, rs2),
        Instr::Srl { rd, rs1, rs2 } => r_word(OP, 5, 0x00, rd, rs1, rs2),
        Instr::Sra { rd, rs1, rs2 } => r_word(OP, 5, 0x20, rd, rs1, rs2),
        Instr::Or { rd, rs1, rs2 } => r_word(OP, 6, 0x00, rd, rs1, rs2),
        Instr::And { rd, rs1, rs2 } => r_word(OP, 7, 0x00, rd, rs1, rs2),
        Instr::Fence => FENCE,
        Instr::Ecall => ECALL,
        Instr::Ebreak => EBREAK,
        Instr::Mul { rd, rs1, rs2 } => r_word(OP, 0, 0x01, rd, rs1, rs2),
        Instr::Mulh { rd, rs1, rs2 } => r_word(OP, 1, 0x01, rd, rs1, rs2),
        Instr::Mulhsu { rd, rs1, rs2 } => r_word(OP, 2, 0x01, rd, rs1, rs2),
        Instr::Mulhu { rd, rs1, rs2 } => r_word(OP, 3, 0x01, rd, rs1, rs2),
        Instr::Div { rd, rs1, rs2 } => r_word(OP, 4, 0x01, rd, rs1, rs2),
        Instr::Divu { rd, rs1, rs2 } => r_word(OP, 5, 0x01, rd, rs1, rs2),
        Instr::Rem { rd, rs1, rs2 } => r_word(OP, 6, 0x01, rd, rs1, rs2),
        Instr::Remu { rd, rs1, rs2 } => r_word(OP, 7, 0x01, rd, rs1, rs2),
    }
}

#[tactic(auto, using(crate::proofs::Bits::five_parts))]
fn word(upper: u32, rs1: Register, funct3: u32, lower: u32, opcode: u32) -> u32
    requires upper { upper < 2 ^ 12 }
    requires funct3 { funct3 < 2 ^ 3 }
    requires lower { lower < 2 ^ 5 }
    requires opcode { opcode < 2 ^ 7 }
    ensures upper { field result 31 20 ≡ upper }
    ensures rs1 { field result 19 15 ≡ rs1.number }
    ensures funct3 { field result 14 12 ≡ funct3 }
    ensures lower { field result 11 7 ≡ lower }
    ensures opcode { field result 6 0 ≡ opcode }
{
    upper << 20 | u32::from(rs1.number) << 15 | funct3 << 12 | lower << 7 | opcode
}

fn r_word(opcode: u32, funct3: u32, funct7: u32, rd: Register, rs1: Register, rs2: Register) -> u32
    requires opcode { opcode < 2 ^ 7 }
    requires funct3 { funct3 < 2 ^ 3 }
    requires funct7 { funct7 < 2 ^ 7 }
    ensures { IsR opcode funct3 funct7 rd rs1 rs2 result }
{
    let upper = funct7 << 5 | u32::from(rs2.number);
    word(upper, rs1, funct3, u32::from(rd.number), opcode)
}

fn i_word(opcode: u32, funct3: u32, rd: Register, rs1: Register, imm: Immediate) -> u32
    requires opcode { opcode < 2 ^ 7 }
    requires funct3 { funct3 < 2 ^ 3 }
    ensures { IsI opcode funct3 rd rs1 imm result }
{
    word(imm.word & 0xfff, rs1, funct3, u32::from(rd.number), opcode)
}

fn shift_word(
    opcode: u32,
    funct3: u32,
    funct7: u32,
    rd: Register,
    rs1: Register,
    shamt: ShiftAmount,
) -> u32
    requires opcode { opcode < 2 ^ 7 }
    requires funct3 { funct3 < 2 ^ 3 }
    requires funct7 { funct7 < 2 ^ 7 }
    ensures { IsShift opcode funct3 funct7 rd rs1 shamt result }
{
    let upper = funct7 << 5 | u32::from(shamt.places);
    word(upper, rs1, funct3, u32::from(rd.number), opcode)
}

fn s_word(opcode: u32, funct3: u32, rs1: Register, rs2: Register, imm: Immediate) -> u32
    requires opcode { opcode < 2 ^ 7 }
    requires funct3 { funct3 < 2 ^ 3 }
    ensures { IsS opcode funct3 rs1 rs2 imm result }
{
    let upper = (imm.word >> 5 & 0x7f) << 5 | u32::from(rs2.number);
    word(upper, rs1, funct3, imm.word & 0x1f, opcode)
}

#[tactic(auto, using(crate::proofs::Bits::branch_upper_of))]
fn b_word(opcode: u32, funct3: u32, rs1: Register, rs2: Register, offset: BranchOffset) -> u32
    requires opcode { opcode < 2 ^ 7 }
    requires funct3 { funct3 < 2 ^ 3 }
    ensures { IsB opcode funct3 rs1 rs2 offset result }
{
    let bit_12 = offset.word >> 12 & 0x1;
    let bits_10_to_5 = offset.word >> 5 & 0x3f;
    let bits_4_to_1 = offset.word >> 1 & 0xf;
    let bit_11 = offset.word >> 11 & 0x1;
    let upper = bit_12 << 11 | bits_10_to_5 << 5 | u32::from(rs2.number);
    word(upper, rs1, funct3, bits_4_to_1 << 1 | bit_11, opcode)
}

#[tactic(auto, using(crate::proofs::Bits::three_parts))]
fn upper_word(upper: u32, rd: Register, opcode: u32) -> u32
    requires upper { upper < 2 ^ 20 }
    requires opcode { opcode < 2 ^ 7 }
    ensures upper { field result 31 12 ≡ upper }
    ensures rd { field result 11 7 ≡ rd.number }
    ensures opcode { field result 6 0 ≡ opcode }
{
    upper << 12 | u32::from(rd.number) << 7 | opcode
}

fn u_word(opcode: u32, rd: Register, imm: UpperImmediate) -> u32
    requires { opcode < 2 ^ 7 }
    ensures { IsU opcode rd imm result }
{
    upper_word(imm.word >> 12, rd, opcode)
}

#[tactic(auto, using(crate::proofs::Bits::jump_upper_of))]
fn j_word(opcode: u32, rd: Register, offset: JumpOffset) -> u32
    requires { opcode < 2 ^ 7 }
    ensures { IsJ opcode rd offset result }
{
    let bit_20 = offset.word >> 20 & 0x1;
    let bits_10_to_1 = offset.word >> 1 & 0x3ff;
    let bit_11 = offset.word >> 11 & 0x1;
    let bits_19_to_12 = offset.word >> 12 & 0xff;
    upper_word(
        bit_20 << 19 | bits_10_to_1 << 9 | bit_11 << 8 | bits_19_to_12,
        rd,
        opcode,
    )
}
