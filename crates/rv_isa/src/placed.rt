// Assembler code whose values have places, with moves between places; and code that names its registers itself.

ghost use Rattle.std.specs.Prelude.{◌≡◌, IfOk, length, map};
ghost use Rattle.rv_isa.specs.PlacedCode.{placed_line_of, placed_lines_of, placed_natives, placed_memory, placed_functions, placed_constants};

use crate::asm::{Action, Condition};
use crate::routine::Routine;
use crate::{Instr, Register};
use kk_base::{NoMemory, Text};
use std::alloc::Global;

/// A text in its placed form.
#[derive(Drop)]
pub enum Placed {
    /// Code over named registers, as the runtime is, and the memory that it keeps.
    Runtime {
        lines: Vec<Native>,
        memory: DataSection,
    },
    /// Functions whose values have places, and constant bytes, as in the assembler form. A call names a function by its index.
    Program {
        functions: Vec<PlacedFunction>,
        constants: Vec<Text>,
    },
}

impl Placed {
    /// The lines over named registers: a program has none.
    pub fn natives(&self) -> &[Native]
        ensures { result.now ≡ placed_natives self.now }
    {
        match self {
            Placed::Runtime { lines, .. } => lines,
            Placed::Program { .. } => &[],
        }
    }

    /// The memory that the text may write: a program has none of its own.
    pub fn memory(&self) -> DataSection
        ensures { result ≡ placed_memory self.now }
    {
        match self {
            Placed::Runtime { memory, .. } => *memory,
            Placed::Program { .. } => DataSection {
                size: 0,
                stack_bottom: 0,
            },
        }
    }

    /// The functions: a runtime has none.
    pub fn functions(&self) -> &[PlacedFunction]
        ensures functions { map placed_lines_of result.now ≡ placed_functions self.now }
        ensures count { length result.now ≡ length (placed_functions self.now) }
    {
        match self {
            Placed::Runtime { .. } => &[],
            Placed::Program { functions, .. } => functions,
        }
    }

    /// The constant bytes: a runtime has none.
    pub fn constants(&self) -> &[Text]
        ensures { result.now ≡ placed_constants self.now }
    {
        match self {
            Placed::Runtime { .. } => &[],
            Placed::Program { constants, .. } => constants,
        }
    }
}

/// The memory that a text may write.
#[derive(Clone, Copy)]
pub struct DataSection {
    /// Its size in bytes.
    pub size: u32,
    /// The distance in bytes from its begin to where the stack pointer stands in the lowest frame, which begins at the end of the cells.
    pub stack_bottom: u32,
}

/// A function: the values that its caller passes, the n-th of them in register a<n>, and its code.
#[derive(Drop)]
pub struct PlacedFunction {
    pub params: Vec<u32>,
    pub code: Vec<Item>,
}

/// Where a value stands.
#[derive(Clone, Copy)]
pub enum Place {
    Register(Register),
    /// A word of the function's frame, by its index.
    Slot(u32),
}

/// A value that is read or written, and where.
#[derive(Clone, Copy)]
pub struct Operand {
    pub value: u32,
    pub place: Place,
}

/// A value that is alive, and where it stands; besides, a register may have it too. It is held where it may stand on the chain
/// of held tokens.
#[derive(Clone, Copy)]
pub struct Listed {
    pub value: u32,
    pub place: Place,
    pub held: bool,
    /// A register that has the value too.
    pub copy: Option<Register>,
}

/// A way from one place to another: on one side there is a register.
#[derive(Clone, Copy)]
pub enum Way {
    /// `mv`
    Copy { from: Register, to: Register },
    /// `lw`: from a slot.
    Load { from: u32, to: Register },
    /// `sw`: to a slot.
    Store { from: Register, to: u32 },
}

/// A statement whose values have places, or a move of a value. `alive` lists the values that are alive before it.
#[derive(Drop)]
pub enum Item {
    Does {
        alive: Vec<Listed>,
        action: Action,
        args: Vec<Operand>,
        into: Option<Operand>,
    },
    Moves {
        alive: Vec<Listed>,
        value: u32,
        way: Way,
    },
}

impl Item {
    /// The same line again.
    pub fn copied(&self, alloc: Global) -> Result<Item, NoMemory>
        ensures { IfOk result (λ copy. placed_line_of copy ≡ placed_line_of self.now) }
    {
        match self {
            Item::Does {
                alive,
                action,
                args,
                into,
            } => Ok(Item::Does {
                alive: Vec::from_slice(alloc, alive)?,
                action: *action,
                args: Vec::from_slice(alloc, args)?,
                into: *into,
            }),
            Item::Moves { alive, value, way } => Ok(Item::Moves {
                alive: Vec::from_slice(alloc, alive)?,
                value: *value,
                way: *way,
            }),
        }
    }
}

/// A line of code that names its registers itself.
#[derive(Clone, Copy)]
pub enum Native {
    /// An instruction as it stands: none that jumps or branches within the text.
    Instruction(Instr),
    Label(Symbol),
    /// `j`
    Jump(Symbol),
    /// A branch that is taken where the condition holds of the two registers.
    Branch {
        condition: Condition,
        left: Register,
        right: Register,
        target: Symbol,
    },
    /// `call`: the return address is in ra.
    Call(Symbol),
    /// `la`: an address that is known only when the text is placed. It is always two instructions.
    Address {
        rd: Register,
        section: Section,
        offset: u32,
    },
}

/// A place in a text, by its name.
#[derive(Clone, Copy)]
pub enum Symbol {
    /// Where the machine starts.
    Start,
    Routine(Routine),
    /// Where `main` returns to.
    Stop,
    /// Where a call goes that finds as many frames as the stack has room for.
    StackFull,
    /// A function of the program, by its index.
    Function(u32),
    /// A label of the runtime's own.
    Local(u32),
}

/// What stands in memory beside the code.
#[derive(Clone, Copy)]
pub enum Section {
    /// The memory that the text may write.
    Data,
    /// The constant bytes of the program, one behind the other.
    Constants,
}
