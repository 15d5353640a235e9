// From words to instructions.

ghost use Rattle.std.specs.Prelude.{◌≡◌, ◌*◌, ◌+◌, ◌<◌, ◌↔◌, ◌^◌, Some, IsNone};
ghost use Rattle.rv_isa.specs.Field.{field};
ghost use Rattle.rv_isa.specs.Extension.{extended};
ghost use Rattle.rv_isa.specs.Read.{rd_at, rs1_at, rs2_at, shamt_at, i_immediate, s_immediate, b_immediate, u_immediate, j_immediate, branch_of, load_of, store_of, immediate_operation_of, shift_of, operation_of, read};
ghost use Rattle.rv_isa.specs.Table.{IsWord};
ghost use Rattle.rv_isa.specs.declared.instr.Instr.{Instr};

use crate::code::{
    AUIPC, BRANCH, EBREAK, ECALL, JAL, JALR, LOAD, LUI, MISC_MEM, OP, OP_IMM, STORE, SYSTEM,
};
use crate::{BranchOffset, Immediate, Instr, JumpOffset, Register, ShiftAmount, UpperImmediate};

/// The instruction whose word this is, or `None` where the word is reserved or belongs to another
/// extension.
///
/// Every word with FENCE's opcode and function code is FENCE, whatever its other fields hold.
pub fn decode(word: u32) -> Option<Instr>
    ensures table { (i : Instr) → (result ≡ Some i) ↔ IsWord i word }
    ensures none { IsNone result ↔ ((i : Instr) → ¬ IsWord i word) }
    ensures reads { result ≡ read word }
{
    look_up(word)
}

#[tactic(auto, unfolding(crate::specs::Read::read))]
fn look_up(word: u32) -> Option<Instr>
    ensures { result ≡ read word }
{
    let (funct3, funct7) = (funct3(word), funct7(word));
    let (rd, rs1, rs2) = (rd(word), rs1(word), rs2(word));
    match opcode(word) {
        LUI => Some(Instr::Lui {
            rd,
            imm: u_immediate(word),
        }),
        AUIPC => Some(Instr::Auipc {
            rd,
            imm: u_immediate(word),
        }),
        JAL => Some(Instr::Jal {
            rd,
            offset: j_immediate(word),
        }),
        JALR if funct3 == 0 => Some(Instr::Jalr {
            rd,
            rs1,
            imm: i_immediate(word),
        }),
        BRANCH => branch(funct3, rs1, rs2, b_immediate(word)),
        LOAD => load(funct3, rd, rs1, i_immediate(word)),
        STORE => store(funct3, rs1, rs2, s_immediate(word)),
        OP_IMM if funct3 == 1 || funct3 == 5 => shift(funct7, funct3, rd, rs1, shamt(word)),
        OP_IMM => immediate_operation(funct3, rd, rs1, i_immediate(word)),
        OP => operation(funct7, funct3, rd, rs1, rs2),
        MISC_MEM if funct3 == 0 => Some(Instr::Fence),
        SYSTEM => match word {
            ECALL => Some(Instr::Ecall),
            EBREAK => Some(Instr::Ebreak),
            _ => None,
        },
        _ => None,
    }
}

fn opcode(word: u32) -> u32
    ensures { result ≡ field word 6 0 }
{
    word & 0x7f
}

fn funct3(word: u32) -> u32
    ensures { result ≡ field word 14 12 }
{
    word >> 12 & 0x7
}

fn funct7(word: u32) -> u32
    ensures { result ≡ field word 31 25 }
{
    word >> 25
}

fn rd(word: u32) -> Register
    ensures { result ≡ rd_at word }
{
    Register::new((word >> 7 & 0x1f) as u8)
}

fn rs1(word: u32) -> Register
    ensures { result ≡ rs1_at word }
{
    Register::new((word >> 15 & 0x1f) as u8)
}

fn rs2(word: u32) -> Register
    ensures { result ≡ rs2_at word }
{
    Register::new((word >> 20 & 0x1f) as u8)
}

fn shamt(word: u32) -> ShiftAmount
    ensures { result ≡ shamt_at word }
{
    ShiftAmount::new((word >> 20 & 0x1f) as u8)
}

// A number below twice `half` as a word: from `half` on it stands for a negative number.
fn sign_extended(half: u32, bits: u32) -> u32
    requires positive { 0 < half }
    requires in_range { bits + 2 * half < 2 ^ 32 }
    ensures { result ≡ extended half bits }
{
    ((bits + half) % (2 * half)).wrapping_sub(half)
}

fn i_immediate(word: u32) -> Immediate
    ensures { result ≡ i_immediate word }
{
    Immediate::new(sign_extended(0x800, word >> 20))
}

fn s_immediate(word: u32) -> Immediate
    ensures { result ≡ s_immediate word }
{
    Immediate::new(sign_extended(0x800, (word >> 25) * 0x20 + (word >> 7 & 0x1f)))
}

fn b_immediate(word: u32) -> BranchOffset
    ensures { result ≡ b_immediate word }
{
    let bit_12 = word >> 31;
    let bit_11 = word >> 7 & 0x1;
    let bits_10_to_5 = word >> 25 & 0x3f;
    let bits_4_to_1 = word >> 8 & 0xf;
    let halves = bit_12 * 0x800 + bit_11 * 0x400 + bits_10_to_5 * 0x10 + bits_4_to_1;
    BranchOffset::new(sign_extended(0x1000, halves * 2))
}

fn u_immediate(word: u32) -> UpperImmediate
    ensures { result ≡ u_immediate word }
{
    UpperImmediate::new((word >> 12) * 0x1000)
}

fn j_immediate(word: u32) -> JumpOffset
    ensures { result ≡ j_immediate word }
{
    let bit_20 = word >> 31;
    let bits_19_to_12 = word >> 12 & 0xff;
    let bit_11 = word >> 20 & 0x1;
    let bits_10_to_1 = word >> 21 & 0x3ff;
    let halves = bit_20 * 0x8_0000 + bits_19_to_12 * 0x800 + bit_11 * 0x400 + bits_10_to_1;
    JumpOffset::new(sign_extended(0x10_0000, halves * 2))
}

#[tactic(auto, unfolding(crate::specs::Read::branch_of))]
fn branch(funct3: u32, rs1: Register, rs2: Register, offset: BranchOffset) -> Option<Instr>
    ensures { result ≡ branch_of funct3 rs1 rs2 offset }
{
    match funct3 {
        0 => Some(Instr::Beq { rs1, rs2, offset }),
        1 => Some(Instr::Bne { rs1, rs2, offset }),
        4 => Some(Instr::Blt { rs1, rs2, offset }),
        5 => Some(Instr::Bge { rs1, rs2, offset }),
        6 => Some(Instr::Bltu { rs1, rs2, offset }),
        7 => Some(Instr::Bgeu { rs1, rs2, offset }),
        _ => None,
    }
}

#[tactic(auto, unfolding(crate::specs::Read::load_of))]
fn load(funct3: u32, rd: Register, rs1: Register, imm: Immediate) -> Option<Instr>
    ensures { result ≡ load_of funct3 rd rs1 imm }
{
    match funct3 {
        0 => Some(Instr::Lb { rd, rs1, imm }),
        1 => Some(Instr::Lh { rd, rs1, imm }),
        2 => Some(Instr::Lw { rd, rs1, imm }),
        4 => Some(Instr::Lbu { rd, rs1, imm }),
        5 => Some(Instr::Lhu { rd, rs1, imm }),
        _ => None,
    }
}

#[tactic(auto, unfolding(crate::specs::Read::store_of))]
fn store(funct3: u32, rs1: Register, rs2: Register, imm: Immediate) -> Option<Instr>
    ensures { result ≡ store_of funct3 rs1 rs2 imm }
{
    match funct3 {
        0 => Some(Instr::Sb { rs1, rs2, imm }),
        1 => Some(Instr::Sh { rs1, rs2, imm }),
        2 => Some(Instr::Sw { rs1, rs2, imm }),
        _ => None,
    }
}

#[tactic(auto, unfolding(crate::specs::Read::immediate_operation_of))]
fn immediate_operation(funct3: u32, rd: Register, rs1: Register, imm: Immediate) -> Option<Instr>
    ensures { result ≡ immediate_operation_of funct3 rd rs1 imm }
{
    match funct3 {
        0 => Some(Instr::Addi { rd, rs1, imm }),
        2 => Some(Instr::Slti { rd, rs1, imm }),
        3 => Some(Instr::Sltiu { rd, rs1, imm }),
        4 => Some(Instr::Xori { rd, rs1, imm }),
        6 => Some(Instr::Ori { rd, rs1, imm }),
        7 => Some(Instr::Andi { rd, rs1, imm }),
        _ => None,
    }
}

#[tactic(auto, unfolding(crate::specs::Read::shift_of))]
fn shift(funct7: u32, funct3: u32, rd: Register, rs1: Register, shamt: ShiftAmount) -> Option<Instr>
    ensures { result ≡ shift_of funct7 funct3 rd rs1 shamt }
{
    match (funct7, funct3) {
        (0x00, 1) => Some(Instr::Slli { rd, rs1, shamt }),
        (0x00, 5) => Some(Instr::Srli { rd, rs1, shamt }),
        (0x20, 5) => Some(Instr::Srai { rd, rs1, shamt }),
        _ => None,
    }
}

#[tactic(auto, unfolding(crate::specs::Read::operation_of, crate::specs::Read::base_operation_of, crate::specs::Read::multiplication_of))]
fn operation(funct7: u32, funct3: u32, rd: Register, rs1: Register, rs2: Register) -> Option<Instr>
    ensures { result ≡ operation_of funct7 funct3 rd rs1 rs2 }
{
    match (funct7, funct3) {
        (0x00, 0) => Some(Instr::Add { rd, rs1, rs2 }),
        (0x00, 1) => Some(Instr::Sll { rd, rs1, rs2 }),
        (0x00, 2) => Some(Instr::Slt { rd, rs1, rs2 }),
        (0x00, 3) => Some(Instr::Sltu { rd, rs1, rs2 }),
        (0x00, 4) => Some(Instr::Xor { rd, rs1, rs2 }),
        (0x00, 5) => Some(Instr::Srl { rd, rs1, rs2 }),
        (0x00, 6) => Some(Instr::Or { rd, rs1, rs2 }),
        (0x00, 7) => Some(Instr::And { rd, rs1, rs2 }),
        (0x20, 0) => Some(Instr::Sub { rd, rs1, rs2 }),
        (0x20, 5) => Some(Instr::Sra { rd, rs1, rs2 }),
        (0x01, 0) => Some(Instr::Mul { rd, rs1, rs2 }),
        (0x01, 1) => Some(Instr::Mulh { rd, rs1, rs2 }),
        (0x01, 2) => Some(Instr::Mulhsu { rd, rs1, rs2 }),
        (0x01, 3) => Some(Instr::Mulhu { rd, rs1, rs2 }),
        (0x01, 4) => Some(Instr::Div { rd, rs1, rs2 }),
        (0x01, 5) => Some(Instr::Divu { rd, rs1, rs2 }),
        (0x01, 6) => Some(Instr::Rem { rd, rs1, rs2 }),
        (0x01, 7) => Some(Instr::Remu { rd, rs1, rs2 }),
        _ => None,
    }
}
