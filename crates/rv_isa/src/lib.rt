//! The instructions of RV32IM: their words and what each does; and the numbers of the environment that they run in.
#![tactic(auto)]

mod act;
mod agreement;
mod arithmetic;
mod asm;
mod code;
mod conventions;
mod decoding;
mod encoding;
pub mod environment;
mod frame;
mod immediate;
mod instr;
mod meaning;
mod placed;
mod register;
mod routine;
pub mod sizes;

pub use act::{Act, Effect};
pub use agreement::{AgreedImage, agreed_image_agrees};
pub use asm::{
    Action, Asm, AsmFunction, Condition, ImmediateOperation, Operation, RegisterOperation,
    ShiftOperation, Statement,
};
pub use conventions::LIST_HEADER;
pub use decoding::decode;
pub use encoding::encode;
pub use frame::frame_bytes;
pub use immediate::{BranchOffset, Immediate, JumpOffset, ShiftAmount, UpperImmediate};
pub use instr::{Instr, Operands};
pub use meaning::effect;
pub use placed::{
    DataSection, Item, Listed, Native, Operand, Place, Placed, PlacedFunction, Section, Symbol, Way,
};
pub use register::Register;
pub use routine::Routine;
