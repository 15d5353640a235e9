// Operations on words as instructions.

ghost use Rattle.std.specs.Prelude.{◌≡◌, OnOk, slice_get};
ghost use Rattle.rv_place.specs.Instructions.{register_instruction, immediate_instruction, shift_instruction, words_of_operation};
ghost use Rattle.rv_place.specs.Emitted.{Grew, register_or_zero, OperationBy};

use crate::cells::{emit_dup, emit_free};
use crate::chart::Chart;
use crate::emit::{emit, emit_constant, emit_load};
use kk_base::NoMemory;
use rv_isa::{
    Immediate, ImmediateOperation, Instr, Operand, Operation, Place, Register, RegisterOperation,
    ShiftAmount, ShiftOperation,
};

fn register_instruction(
    operation: RegisterOperation,
    rd: Register,
    rs1: Register,
    rs2: Register,
) -> Instr
    ensures { result ≡ register_instruction operation rd rs1 rs2 }
{
    match operation {
        RegisterOperation::Add => Instr::Add { rd, rs1, rs2 },
        RegisterOperation::Sub => Instr::Sub { rd, rs1, rs2 },
        RegisterOperation::Sll => Instr::Sll { rd, rs1, rs2 },
        RegisterOperation::Slt => Instr::Slt { rd, rs1, rs2 },
        RegisterOperation::Sltu => Instr::Sltu { rd, rs1, rs2 },
        RegisterOperation::Xor => Instr::Xor { rd, rs1, rs2 },
        RegisterOperation::Srl => Instr::Srl { rd, rs1, rs2 },
        RegisterOperation::Sra => Instr::Sra { rd, rs1, rs2 },
        RegisterOperation::Or => Instr::Or { rd, rs1, rs2 },
        RegisterOperation::And => Instr::And { rd, rs1, rs2 },
        RegisterOperation::Mul => Instr::Mul { rd, rs1, rs2 },
        RegisterOperation::Mulh => Instr::Mulh { rd, rs1, rs2 },
        RegisterOperation::Mulhsu => Instr::Mulhsu { rd, rs1, rs2 },
        RegisterOperation::Mulhu => Instr::Mulhu { rd, rs1, rs2 },
        RegisterOperation::Div => Instr::Div { rd, rs1, rs2 },
        RegisterOperation::Divu => Instr::Divu { rd, rs1, rs2 },
        RegisterOperation::Rem => Instr::Rem { rd, rs1, rs2 },
        RegisterOperation::Remu => Instr::Remu { rd, rs1, rs2 },
    }
}

fn immediate_instruction(
    operation: ImmediateOperation,
    rd: Register,
    rs1: Register,
    imm: Immediate,
) -> Instr
    ensures { result ≡ immediate_instruction operation rd rs1 imm }
{
    match operation {
        ImmediateOperation::Addi => Instr::Addi { rd, rs1, imm },
        ImmediateOperation::Slti => Instr::Slti { rd, rs1, imm },
        ImmediateOperation::Sltiu => Instr::Sltiu { rd, rs1, imm },
        ImmediateOperation::Xori => Instr::Xori { rd, rs1, imm },
        ImmediateOperation::Ori => Instr::Ori { rd, rs1, imm },
        ImmediateOperation::Andi => Instr::Andi { rd, rs1, imm },
    }
}

fn shift_instruction(
    operation: ShiftOperation,
    rd: Register,
    rs1: Register,
    shamt: ShiftAmount,
) -> Instr
    ensures { result ≡ shift_instruction operation rd rs1 shamt }
{
    match operation {
        ShiftOperation::Slli => Instr::Slli { rd, rs1, shamt },
        ShiftOperation::Srli => Instr::Srli { rd, rs1, shamt },
        ShiftOperation::Srai => Instr::Srai { rd, rs1, shamt },
    }
}

/// The register of an operand. Where it is in a slot, or there is none, the zero register.
pub fn register_or_zero(operand: Option<Operand>) -> Register
    ensures { result ≡ register_or_zero operand }
{
    match operand {
        Some(
            Operand {
                place: Place::Register(register),
                ..
            },
        ) => register,
        _ => Register::ZERO,
    }
}

/// The register of the argument of an index.
pub fn argument(args: &[Operand], index: usize) -> Register
    ensures { result ≡ register_or_zero (slice_get args.now index) }
{
    register_or_zero(args.get(index).copied())
}

/// An operation on words. One with an operand in a slot, or with another number of arguments, is any instruction.
pub fn emit_operation(
    code: &mut Vec<Instr>,
    chart: &Chart,
    operation: Operation,
    args: &[Operand],
    into: Option<Operand>,
) -> Result<(), NoMemory>
    ensures { OnOk result (Grew (words_of_operation operation) (OperationBy chart.now operation args.now into) code.old.items code.new.items) }
{
    let rd = register_or_zero(into);
    let rs1 = argument(args, 0);
    let rs2 = argument(args, 1);
    match operation {
        Operation::Register(of) => emit(code, register_instruction(of, rd, rs1, rs2)),
        Operation::Immediate(of, imm) => emit(code, immediate_instruction(of, rd, rs1, imm)),
        Operation::Shift(of, amount) => emit(code, shift_instruction(of, rd, rs1, amount)),
        Operation::Li(word) => emit_constant(code, rd, word),
        Operation::Mv => {
            let imm = Immediate::ZERO;
            emit(code, Instr::Addi { rd, rs1, imm })
        }
        Operation::La(index) => emit_load(code, rd, chart.constant(index)),
        Operation::Lw(imm) => emit(code, Instr::Lw { rd, rs1, imm }),
        Operation::Sw(imm) => emit(code, Instr::Sw { rs1, rs2, imm }),
        Operation::Dup => emit_dup(code, rs1),
        Operation::Free => emit_free(code, rs1),
    }
}
