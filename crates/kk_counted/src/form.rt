use kk_core::Decisions;
use kk_syntax::Form;

/// Steps in their order, and how the block ends.
#[cycle(block)]
#[derive(Drop)]
pub struct Block {
    pub steps: Vec<Step>,
    pub last: Last,
}

/// A step of a block.
#[cycle(block)]
#[derive(Drop)]
pub enum Step {
    /// The variable takes the value of the form on the variables behind it: of a number or another form without
    /// arguments, an operator, a print, a construction, or a call that is no tail call.
    Let(u32, Form, Vec<u32>),
    /// The variable takes the value of the block, which is run first.
    Inside(u32, Block),
    /// The variables behind the constructor's number take the fields of the cell that the first one names, in their
    /// order. The cell stays, and no count changes. The constructor has made that cell.
    Read(u32, u32, Vec<u32>),
    /// The same, and the first variable's reference is given up. The fields that the second list names get a
    /// reference more.
    Open(u32, u32, Vec<u32>, Vec<u32>),
    /// The same as `Open`, by the count of the cell: one with a single reference gives the named fields away.
    IfUnique(u32, u32, Vec<u32>, Vec<u32>),
    /// The value of the variable gets a reference more.
    Dup(u32),
    /// A reference of the value of the variable is given up.
    Drop(u32),
}

/// How a block ends. A block that is a step of another ends by giving its value to that step's variable, and has no
/// tail call.
#[cycle(block)]
#[derive(Drop)]
pub enum Last {
    /// By giving the value of a variable.
    Return(u32),
    /// By calling a function, whose value is given.
    TailCall(u32, Vec<u32>),
    /// As the block of the row that the decisions choose for the variable's value.
    Case(u32, Decisions, Vec<Block>),
}
