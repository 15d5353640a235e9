//! The prints of a number and of a text, and the read of a byte.

ghost use Rattle.cell_runtime.specs.Lines.{Makes};
ghost use Rattle.cell_runtime.specs.Links.{linked};
ghost use Rattle.cell_runtime.specs.Prints.{IsPrintInt, IsPrintText, IsReadByte};

use crate::assembly::{
    add, addi, address, bge, bne, divu, ecall, label, lbu, minus_one, remu, ret, sb, set, small,
    sub,
};
use rv_isa::environment::{READ, STANDARD_INPUT, STANDARD_OUTPUT, WRITE};
use rv_isa::{Native, Register};

/// The greatest number of bytes of a number: a sign and ten digits. The buffer has one more, for the line end.
const INT_BYTES: u32 = 11;

/// In `print_int`: where a digit is put.
const DIGIT: u32 = 0;

/// In `print_int`: where the bytes are put.
const PUT: u32 = 1;

/// Puts the decimal digits of the signed number in `a0`, with a line end behind them where `a1` is 1 and none where it
/// is 0, at once.
///
/// The line end always stands in the buffer's last byte; the digits are stored before it, the last one first.
pub fn print_int() -> [Native; 25]
    ensures { Makes (linked result) 24 11 IsPrintInt }
{
    [
        address(Register::T0, INT_BYTES),
        add(Register::A2, Register::T0, Register::A1),
        set(Register::T1, 10),
        sb(Register::T1, small(0), Register::T0),
        // t2 is the number's size, as an unsigned word.
        addi(Register::T2, Register::A0, small(0)),
        bge(Register::A0, Register::ZERO, DIGIT),
        sub(Register::T2, Register::ZERO, Register::A0),
        // A digit is put before those that are there, until none is left.
        label(DIGIT),
        remu(Register::A1, Register::T2, Register::T1),
        divu(Register::T2, Register::T2, Register::T1),
        addi(Register::A1, Register::A1, small(b'0' as u32)),
        addi(Register::T0, Register::T0, minus_one()),
        sb(Register::A1, small(0), Register::T0),
        bne(Register::T2, Register::ZERO, DIGIT),
        // The sign.
        bge(Register::A0, Register::ZERO, PUT),
        set(Register::A1, b'-' as u32),
        addi(Register::T0, Register::T0, minus_one()),
        sb(Register::A1, small(0), Register::T0),
        // The bytes from t0 to a2 are put.
        label(PUT),
        sub(Register::A2, Register::A2, Register::T0),
        addi(Register::A1, Register::T0, small(0)),
        set(Register::A0, STANDARD_OUTPUT),
        set(Register::A7, WRITE),
        ecall(),
        ret(),
    ]
}

/// Puts the bytes from the address in `a0` on, as many as `a1` says, at once.
pub fn print_text() -> [Native; 6]
    ensures { Makes (linked result) 6 0 (λ memory. IsPrintText) }
{
    [
        addi(Register::A2, Register::A1, small(0)),
        addi(Register::A1, Register::A0, small(0)),
        set(Register::A0, STANDARD_OUTPUT),
        set(Register::A7, WRITE),
        ecall(),
        ret(),
    ]
}

/// In `read_byte`: the way back.
const DONE: u32 = 0;

/// Takes the next byte of the input: `a0` is the byte, or -1 at the input's end.
pub fn read_byte() -> [Native; 10]
    ensures { Makes (linked result) 10 0 IsReadByte }
{
    [
        address(Register::A1, 0),
        set(Register::A2, 1),
        set(Register::A0, STANDARD_INPUT),
        set(Register::A7, READ),
        ecall(),
        // The call leaves how many bytes came: a byte is loaded where one did, and 0 less 1 stays at the end.
        addi(Register::A0, Register::A0, minus_one()),
        bne(Register::A0, Register::ZERO, DONE),
        lbu(Register::A0, Register::A1, small(0)),
        label(DONE),
        ret(),
    ]
}
