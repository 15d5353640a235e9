// Assembler code over values: a function has as many values as it needs, and none has a place yet.

ghost use Rattle.std.specs.Prelude.{◌≡◌};
ghost use Rattle.rv_isa.specs.Opposites.{opposite};

use crate::routine::Routine;
use crate::{Immediate, ShiftAmount};
use kk_base::Text;

/// A program in assembler form. A call names a function by its index.
#[derive(Drop)]
pub struct Asm {
    pub functions: Vec<AsmFunction>,
    /// Constant bytes, as the texts of prints. They stand in memory one behind the other; where is known when the text is
    /// placed.
    pub constants: Vec<Text>,
}

/// A function: the values that its caller passes, and its code. Values are numbers of the function's own.
#[derive(Drop)]
pub struct AsmFunction {
    pub params: Vec<u32>,
    pub code: Vec<Statement>,
}

/// What is done, the values that are read for it, and the value that is written.
#[derive(Drop)]
pub struct Statement {
    pub action: Action,
    pub args: Vec<u32>,
    pub into: Option<u32>,
}

/// What a statement does, apart from its values.
#[derive(Clone, Copy)]
pub enum Action {
    /// An operation on words.
    Compute(Operation),
    /// The place that jumps and branches of this function name by this number. It does nothing.
    Label(u32),
    /// `j`: goes on at a label of this function.
    Jump(u32),
    /// Goes on at a label of this function where the condition holds, and behind the branch else. One argument is compared
    /// with zero (`beqz`), two are compared with one another (`beq`).
    Branch(Condition, u32),
    /// `call`: the arguments are the function's parameters, and what is written is its result.
    Call(u32),
    /// `tail`: a call that takes the place of the function that makes it.
    TailCall(u32),
    /// `ret`, with a result where there is an argument.
    Return,
    /// A call of a routine of the runtime.
    Routine(Routine),
    /// Puts a token on the chain of held tokens. The null token stays off it. The token is both arguments: the first one is in
    /// its slot, which holds it, and the second one in a register.
    Hold,
    /// Takes the argument off the chain of held tokens again, unless it is the null token, and gives it.
    Unhold,
    /// Ends the run with the stack full where there is no room for one more frame, as a call does. It reads and writes nothing.
    Room,
}

/// When a branch is taken, by the names of the instructions.
#[derive(Clone, Copy)]
pub enum Condition {
    /// `beq`
    Equal,
    /// `bne`
    NotEqual,
    /// `blt`: less, both signed.
    Less,
    /// `bge`: greater or equal, both signed.
    GreaterEqual,
    /// `bltu`: less, both unsigned.
    LessUnsigned,
    /// `bgeu`: greater or equal, both unsigned.
    GreaterEqualUnsigned,
}

impl Condition {
    /// The condition that holds exactly where this one does not.
    pub fn opposite(self) -> Condition
        ensures { result ≡ opposite self }
    {
        match self {
            Condition::Equal => Condition::NotEqual,
            Condition::NotEqual => Condition::Equal,
            Condition::Less => Condition::GreaterEqual,
            Condition::GreaterEqual => Condition::Less,
            Condition::LessUnsigned => Condition::GreaterEqualUnsigned,
            Condition::GreaterEqualUnsigned => Condition::LessUnsigned,
        }
    }
}

/// An operation on words: an instruction of RV32IM that sets a register, loads or stores; or a pseudo-instruction of the
/// assembler.
#[derive(Clone, Copy)]
pub enum Operation {
    /// On two values.
    Register(RegisterOperation),
    /// On a value and an immediate.
    Immediate(ImmediateOperation, Immediate),
    /// On a value, by so many places.
    Shift(ShiftOperation, ShiftAmount),
    /// `li`: this word.
    Li(u32),
    /// `mv`: a copy.
    Mv,
    /// `la`: the address of the constant of this index.
    La(u32),
    /// `lw`: the word at the argument and this offset.
    Lw(Immediate),
    /// `sw`: stores the second argument at the first and this offset. It writes no value.
    Sw(Immediate),
    /// Raises the count of the cell that the argument refers to. An odd reference names none. It writes no value.
    Dup,
    /// Frees the cell of the argument, a token. The null token has none. It writes no value.
    Free,
}

/// An instruction on two registers.
#[derive(Clone, Copy)]
pub enum RegisterOperation {
    Add,
    Sub,
    Sll,
    Slt,
    Sltu,
    Xor,
    Srl,
    Sra,
    Or,
    And,
    Mul,
    Mulh,
    Mulhsu,
    Mulhu,
    Div,
    Divu,
    Rem,
    Remu,
}

/// An instruction on a register and an immediate.
#[derive(Clone, Copy)]
pub enum ImmediateOperation {
    Addi,
    Slti,
    Sltiu,
    Xori,
    Ori,
    Andi,
}

/// A shift by a number of places that the instruction names.
#[derive(Clone, Copy)]
pub enum ShiftOperation {
    Slli,
    Srli,
    Srai,
}
