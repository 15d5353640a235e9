// What an instruction does.

ghost use Rattle.std.specs.Prelude.{◌≡◌};
ghost use Rattle.rv_isa.specs.Meaning.{effect_of, goes_on, sets, jumps, branches, loads, stores};

use crate::arithmetic::{
    quotient_signed, quotient_unsigned, remainder_signed, remainder_unsigned, shift_left,
    shift_right_arithmetic, shift_right_logical, upper_signed, upper_signed_unsigned,
    upper_unsigned,
};
use crate::{Act, BranchOffset, Effect, Immediate, Instr};

/// What the instruction does where it stands at `pc`, rs1 holds `a` and rs2 holds `b`.
///
/// Addresses wrap. Whether the next address and that of a load or a store are aligned, and whether
/// there is memory there, is the machine's to see.
pub fn effect(i: Instr, pc: u32, a: u32, b: u32) -> Effect
    ensures { result ≡ effect_of i pc a b }
{
    match i {
        Instr::Lui { imm, .. } => set(pc, imm.word),
        Instr::Auipc { imm, .. } => set(pc, pc.wrapping_add(imm.word)),
        Instr::Jal { offset, .. } => jump(pc, pc.wrapping_add(offset.word)),
        Instr::Jalr { imm, .. } => jump(pc, a.wrapping_add(imm.word) & !1),
        Instr::Beq { offset, .. } => branch(pc, a == b, offset),
        Instr::Bne { offset, .. } => branch(pc, a != b, offset),
        Instr::Blt { offset, .. } => branch(pc, a.cast_signed() < b.cast_signed(), offset),
        Instr::Bge { offset, .. } => branch(pc, a.cast_signed() >= b.cast_signed(), offset),
        Instr::Bltu { offset, .. } => branch(pc, a < b, offset),
        Instr::Bgeu { offset, .. } => branch(pc, a >= b, offset),
        Instr::Lb { imm, .. } => load(pc, a, imm, 1, true),
        Instr::Lh { imm, .. } => load(pc, a, imm, 2, true),
        Instr::Lw { imm, .. } => load(pc, a, imm, 4, true),
        Instr::Lbu { imm, .. } => load(pc, a, imm, 1, false),
        Instr::Lhu { imm, .. } => load(pc, a, imm, 2, false),
        Instr::Sb { imm, .. } => store(pc, a, b, imm, 1),
        Instr::Sh { imm, .. } => store(pc, a, b, imm, 2),
        Instr::Sw { imm, .. } => store(pc, a, b, imm, 4),
        Instr::Addi { imm, .. } => set(pc, a.wrapping_add(imm.word)),
        Instr::Slti { imm, .. } => set(pc, u32::from(a.cast_signed() < imm.word.cast_signed())),
        Instr::Sltiu { imm, .. } => set(pc, u32::from(a < imm.word)),
        Instr::Xori { imm, .. } => set(pc, a ^ imm.word),
        Instr::Ori { imm, .. } => set(pc, a | imm.word),
        Instr::Andi { imm, .. } => set(pc, a & imm.word),
        Instr::Slli { shamt, .. } => set(pc, shift_left(a, u32::from(shamt.places))),
        Instr::Srli { shamt, .. } => set(pc, shift_right_logical(a, u32::from(shamt.places))),
        Instr::Srai { shamt, .. } => set(pc, shift_right_arithmetic(a, u32::from(shamt.places))),
        Instr::Add { .. } => set(pc, a.wrapping_add(b)),
        Instr::Sub { .. } => set(pc, a.wrapping_sub(b)),
        Instr::Sll { .. } => set(pc, shift_left(a, b)),
        Instr::Slt { .. } => set(pc, u32::from(a.cast_signed() < b.cast_signed())),
        Instr::Sltu { .. } => set(pc, u32::from(a < b)),
        Instr::Xor { .. } => set(pc, a ^ b),
        Instr::Srl { .. } => set(pc, shift_right_logical(a, b)),
        Instr::Sra { .. } => set(pc, shift_right_arithmetic(a, b)),
        Instr::Or { .. } => set(pc, a | b),
        Instr::And { .. } => set(pc, a & b),
        Instr::Fence => go_on(pc, Act::Nothing),
        Instr::Ecall => go_on(pc, Act::Call),
        Instr::Ebreak => go_on(pc, Act::Break),
        Instr::Mul { .. } => set(pc, a.wrapping_mul(b)),
        Instr::Mulh { .. } => set(pc, upper_signed(a, b)),
        Instr::Mulhsu { .. } => set(pc, upper_signed_unsigned(a, b)),
        Instr::Mulhu { .. } => set(pc, upper_unsigned(a, b)),
        Instr::Div { .. } => set(pc, quotient_signed(a, b)),
        Instr::Divu { .. } => set(pc, quotient_unsigned(a, b)),
        Instr::Rem { .. } => set(pc, remainder_signed(a, b)),
        Instr::Remu { .. } => set(pc, remainder_unsigned(a, b)),
    }
}

fn go_on(pc: u32, act: Act) -> Effect
    ensures { result ≡ goes_on pc act }
{
    Effect {
        next: pc.wrapping_add(4),
        act,
    }
}

fn set(pc: u32, value: u32) -> Effect
    ensures { result ≡ sets pc value }
{
    go_on(pc, Act::Set(value))
}

fn jump(pc: u32, target: u32) -> Effect
    ensures { result ≡ jumps pc target }
{
    Effect {
        next: target,
        act: Act::Set(pc.wrapping_add(4)),
    }
}

fn branch(pc: u32, taken: bool, offset: BranchOffset) -> Effect
    ensures { result ≡ branches pc taken offset }
{
    let distance = if taken { offset.word } else { 4 };
    Effect {
        next: pc.wrapping_add(distance),
        act: Act::Nothing,
    }
}

fn load(pc: u32, a: u32, imm: Immediate, width: u8, signed: bool) -> Effect
    ensures { result ≡ loads pc a imm width signed }
{
    go_on(
        pc,
        Act::Load {
            at: a.wrapping_add(imm.word),
            width,
            signed,
        },
    )
}

fn store(pc: u32, a: u32, b: u32, imm: Immediate, width: u8) -> Effect
    ensures { result ≡ stores pc a b imm width }
{
    go_on(
        pc,
        Act::Store {
            at: a.wrapping_add(imm.word),
            width,
            value: b,
        },
    )
}
