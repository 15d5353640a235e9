//! How a cell is taken, and how the reference to one is given up.

ghost use Rattle.cell_runtime.specs.Lines.{Makes};
ghost use Rattle.cell_runtime.specs.Links.{linked};
ghost use Rattle.cell_runtime.specs.Takes.{IsTakeOfPools};
ghost use Rattle.std.specs.Prelude.{◌≡◌};
ghost use Rattle.cell_runtime.specs.Drops.{IsDrop};

use crate::Ending;
use crate::assembly::{addi, beq, bne, ecall, label, lw, minus_one, ret, set, small, sw};
use rv_isa::environment::{CELL_SIZE, EXIT};
use rv_isa::{Immediate, Instr, Native, Register, ShiftAmount};

/// In `take`: where the chain is empty.
const FRESH: u32 = 0;

/// In `take`: where all cells were used.
const HELD: u32 = 1;

/// In `take`: where there is no cell.
const FULL: u32 = 2;

/// Gives a cell in `t0`: the first one of the chain in `s0`, else the first one that was never used, else the newest held
/// token, whose slot loses it. Where there is none it exits.
pub fn take() -> [Native; 20]
    ensures { Makes (linked result) 17 0 (λ memory. IsTakeOfPools) }
{
    [
        beq(Register::S0, Register::ZERO, FRESH),
        addi(Register::T0, Register::S0, small(0)),
        lw(Register::S0, Register::S0, small(0)),
        ret(),
        // The chain is empty: the border rises by a cell.
        label(FRESH),
        beq(Register::S2, Register::S3, HELD),
        addi(Register::T0, Register::S2, small(0)),
        addi(Register::S2, Register::S2, small(CELL_SIZE)),
        ret(),
        // All cells were used.
        label(HELD),
        beq(Register::S1, Register::ZERO, FULL),
        addi(Register::T0, Register::S1, small(0)),
        lw(Register::S1, Register::T0, small(4)),
        sw(Register::ZERO, small(0), Register::S1),
        lw(Register::S1, Register::T0, small(0)),
        ret(),
        // There is no cell.
        label(FULL),
        set(Register::A0, Ending::HeapFull.number()),
        set(Register::A7, EXIT),
        ecall(),
    ]
}

fn andi(rd: Register, rs1: Register, imm: Immediate) -> Native
    ensures { result ≡ Native.Instruction (Instr.Andi rd rs1 imm) }
{
    Native::Instruction(Instr::Andi { rd, rs1, imm })
}

fn srli(rd: Register, rs1: Register, shamt: ShiftAmount) -> Native
    ensures { result ≡ Native.Instruction (Instr.Srli rd rs1 shamt) }
{
    Native::Instruction(Instr::Srli { rd, rs1, shamt })
}

/// In `give_up`: a reference is given up. An odd one names no cell; else its count is lowered, and the cell waits where it was the last.
const GIVE: u32 = 0;

/// In `give_up`: the fields of the opened cell whose bit is set are given up.
const NEXT: u32 = 1;

/// In `give_up`: the cell waits.
const LAST: u32 = 2;

/// In `give_up`: the next waiting cell is opened, or all is done.
const POP: u32 = 3;

/// In `give_up`: the first waiting cell is freed and opened.
const OPEN: u32 = 4;

/// Frees the cell in `a0`, whose count was lowered to 0, and gives up all that it was the last to hold.
///
/// A cell whose count reaches zero waits, in a chain through its own first word, until its references are given up; it
/// stands on the chain of free cells before that. So no stack is used. `a1` and `a2` are the address of the next field
/// of an opened cell and the mask of the fields from there on, `a3` is the chain of waiting cells. The cell in `a0` is
/// that chain at first: its count of 0 is the end of it.
pub fn give_up() -> [Native; 33]
    ensures { Makes (linked result) 28 0 (λ memory. IsDrop) }
{
    [
        addi(Register::A3, Register::A0, small(0)),
        beq(Register::ZERO, Register::ZERO, OPEN),
        label(GIVE),
        andi(Register::T0, Register::A0, small(1)),
        bne(Register::T0, Register::ZERO, NEXT),
        lw(Register::T0, Register::A0, small(0)),
        addi(Register::T0, Register::T0, minus_one()),
        beq(Register::T0, Register::ZERO, LAST),
        sw(Register::T0, small(0), Register::A0),
        label(NEXT),
        beq(Register::A2, Register::ZERO, POP),
        andi(Register::T0, Register::A2, small(1)),
        lw(Register::A0, Register::A1, small(0)),
        addi(Register::A1, Register::A1, small(4)),
        srli(Register::A2, Register::A2, ShiftAmount::new(1)),
        bne(Register::T0, Register::ZERO, GIVE),
        beq(Register::ZERO, Register::ZERO, NEXT),
        label(LAST),
        sw(Register::A3, small(0), Register::A0),
        addi(Register::A3, Register::A0, small(0)),
        beq(Register::ZERO, Register::ZERO, NEXT),
        label(POP),
        bne(Register::A3, Register::ZERO, OPEN),
        ret(),
        label(OPEN),
        lw(Register::T0, Register::A3, small(0)),
        sw(Register::S0, small(0), Register::A3),
        addi(Register::S0, Register::A3, small(0)),
        lw(Register::A2, Register::A3, small(4)),
        srli(Register::A2, Register::A2, ShiftAmount::new(8)),
        addi(Register::A1, Register::A3, small(8)),
        addi(Register::A3, Register::T0, small(0)),
        beq(Register::ZERO, Register::ZERO, NEXT),
    ]
}
