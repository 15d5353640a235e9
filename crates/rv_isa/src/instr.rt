// The instructions of RV32I and of its standard extension M.

ghost use Rattle.std.specs.Prelude.{◌≡◌};

use crate::{BranchOffset, Immediate, JumpOffset, Register, ShiftAmount, UpperImmediate};

/// An instruction of RV32IM, with the fields of its format.
///
/// Source: The RISC-V Instruction Set Manual, Volume I: Unprivileged ISA, chapter 2 "RV32I Base
/// Integer Instruction Set" and the chapter '"M" Standard Extension for Integer Multiplication
/// and Division'.
#[derive(Clone, Copy)]
pub enum Instr {
    // Integer computational instructions with an upper immediate
    Lui {
        rd: Register,
        imm: UpperImmediate,
    },
    Auipc {
        rd: Register,
        imm: UpperImmediate,
    },

    // Control transfer instructions
    Jal {
        rd: Register,
        offset: JumpOffset,
    },
    Jalr {
        rd: Register,
        rs1: Register,
        imm: Immediate,
    },
    Beq {
        rs1: Register,
        rs2: Register,
        offset: BranchOffset,
    },
    Bne {
        rs1: Register,
        rs2: Register,
        offset: BranchOffset,
    },
    Blt {
        rs1: Register,
        rs2: Register,
        offset: BranchOffset,
    },
    Bge {
        rs1: Register,
        rs2: Register,
        offset: BranchOffset,
    },
    Bltu {
        rs1: Register,
        rs2: Register,
        offset: BranchOffset,
    },
    Bgeu {
        rs1: Register,
        rs2: Register,
        offset: BranchOffset,
    },

    // Load and store instructions
    Lb {
        rd: Register,
        rs1: Register,
        imm: Immediate,
    },
    Lh {
        rd: Register,
        rs1: Register,
        imm: Immediate,
    },
    Lw {
        rd: Register,
        rs1: Register,
        imm: Immediate,
    },
    Lbu {
        rd: Register,
        rs1: Register,
        imm: Immediate,
    },
    Lhu {
        rd: Register,
        rs1: Register,
        imm: Immediate,
    },
    Sb {
        rs1: Register,
        rs2: Register,
        imm: Immediate,
    },
    Sh {
        rs1: Register,
        rs2: Register,
        imm: Immediate,
    },
    Sw {
        rs1: Register,
        rs2: Register,
        imm: Immediate,
    },

    // Integer computational instructions on a register and an immediate
    Addi {
        rd: Register,
        rs1: Register,
        imm: Immediate,
    },
    Slti {
        rd: Register,
        rs1: Register,
        imm: Immediate,
    },
    Sltiu {
        rd: Register,
        rs1: Register,
        imm: Immediate,
    },
    Xori {
        rd: Register,
        rs1: Register,
        imm: Immediate,
    },
    Ori {
        rd: Register,
        rs1: Register,
        imm: Immediate,
    },
    Andi {
        rd: Register,
        rs1: Register,
        imm: Immediate,
    },
    Slli {
        rd: Register,
        rs1: Register,
        shamt: ShiftAmount,
    },
    Srli {
        rd: Register,
        rs1: Register,
        shamt: ShiftAmount,
    },
    Srai {
        rd: Register,
        rs1: Register,
        shamt: ShiftAmount,
    },

    // Integer computational instructions on two registers
    Add {
        rd: Register,
        rs1: Register,
        rs2: Register,
    },
    Sub {
        rd: Register,
        rs1: Register,
        rs2: Register,
    },
    Sll {
        rd: Register,
        rs1: Register,
        rs2: Register,
    },
    Slt {
        rd: Register,
        rs1: Register,
        rs2: Register,
    },
    Sltu {
        rd: Register,
        rs1: Register,
        rs2: Register,
    },
    Xor {
        rd: Register,
        rs1: Register,
        rs2: Register,
    },
    Srl {
        rd: Register,
        rs1: Register,
        rs2: Register,
    },
    Sra {
        rd: Register,
        rs1: Register,
        rs2: Register,
    },
    Or {
        rd: Register,
        rs1: Register,
        rs2: Register,
    },
    And {
        rd: Register,
        rs1: Register,
        rs2: Register,
    },

    // Memory ordering, environment call and breakpoint
    Fence,
    Ecall,
    Ebreak,

    // Multiplication and division
    Mul {
        rd: Register,
        rs1: Register,
        rs2: Register,
    },
    Mulh {
        rd: Register,
        rs1: Register,
        rs2: Register,
    },
    Mulhsu {
        rd: Register,
        rs1: Register,
        rs2: Register,
    },
    Mulhu {
        rd: Register,
        rs1: Register,
        rs2: Register,
    },
    Div {
        rd: Register,
        rs1: Register,
        rs2: Register,
    },
    Divu {
        rd: Register,
        rs1: Register,
        rs2: Register,
    },
    Rem {
        rd: Register,
        rs1: Register,
        rs2: Register,
    },
    Remu {
        rd: Register,
        rs1: Register,
        rs2: Register,
    },
}

/// The registers of an instruction: its destination and its two sources. `x0` stands for one that
/// its format has not.
#[derive(Clone, Copy)]
pub struct Operands {
    pub rd: Register,
    pub rs1: Register,
    pub rs2: Register,
}

impl Instr {
    ghost use Rattle.rv_isa.specs.Operands.{rd_of, rs1_of, rs2_of};

    /// The registers that the instruction names.
    pub fn operands(self) -> Operands
        ensures rd { result.rd.number ≡ rd_of self }
        ensures rs1 { result.rs1.number ≡ rs1_of self }
        ensures rs2 { result.rs2.number ≡ rs2_of self }
    {
        let none = Register::ZERO;
        match self {
            Instr::Add { rd, rs1, rs2 }
            | Instr::Sub { rd, rs1, rs2 }
            | Instr::Sll { rd, rs1, rs2 }
            | Instr::Slt { rd, rs1, rs2 }
            | Instr::Sltu { rd, rs1, rs2 }
            | Instr::Xor { rd, rs1, rs2 }
            | Instr::Srl { rd, rs1, rs2 }
            | Instr::Sra { rd, rs1, rs2 }
            | Instr::Or { rd, rs1, rs2 }
            | Instr::And { rd, rs1, rs2 }
            | Instr::Mul { rd, rs1, rs2 }
            | Instr::Mulh { rd, rs1, rs2 }
            | Instr::Mulhsu { rd, rs1, rs2 }
            | Instr::Mulhu { rd, rs1, rs2 }
            | Instr::Div { rd, rs1, rs2 }
            | Instr::Divu { rd, rs1, rs2 }
            | Instr::Rem { rd, rs1, rs2 }
            | Instr::Remu { rd, rs1, rs2 } => Operands { rd, rs1, rs2 },
            Instr::Jalr { rd, rs1, .. }
            | Instr::Lb { rd, rs1, .. }
            | Instr::Lh { rd, rs1, .. }
            | Instr::Lw { rd, rs1, .. }
            | Instr::Lbu { rd, rs1, .. }
            | Instr::Lhu { rd, rs1, .. }
            | Instr::Addi { rd, rs1, .. }
            | Instr::Slti { rd, rs1, .. }
            | Instr::Sltiu { rd, rs1, .. }
            | Instr::Xori { rd, rs1, .. }
            | Instr::Ori { rd, rs1, .. }
            | Instr::Andi { rd, rs1, .. }
            | Instr::Slli { rd, rs1, .. }
            | Instr::Srli { rd, rs1, .. }
            | Instr::Srai { rd, rs1, .. } => Operands { rd, rs1, rs2: none },
            Instr::Beq { rs1, rs2, .. }
            | Instr::Bne { rs1, rs2, .. }
            | Instr::Blt { rs1, rs2, .. }
            | Instr::Bge { rs1, rs2, .. }
            | Instr::Bltu { rs1, rs2, .. }
            | Instr::Bgeu { rs1, rs2, .. }
            | Instr::Sb { rs1, rs2, .. }
            | Instr::Sh { rs1, rs2, .. }
            | Instr::Sw { rs1, rs2, .. } => Operands { rd: none, rs1, rs2 },
            Instr::Lui { rd, .. } | Instr::Auipc { rd, .. } | Instr::Jal { rd, .. } => Operands {
                rd,
                rs1: none,
                rs2: none,
            },
            Instr::Fence | Instr::Ecall | Instr::Ebreak => Operands {
                rd: none,
                rs1: none,
                rs2: none,
            },
        }
    }
}
