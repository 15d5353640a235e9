ghost use Rattle.std.specs.Prelude.{◌<◌, vec_len};

use crate::decisions::Decisions;
use crate::shape::ConstructorShape;
use kk_syntax::{Form, Pat, StringLiteral};

/// A program in core form.
#[derive(Drop)]
pub struct Core {
    /// The functions, in the order of the program that it was made of: a call names one by its number, from 0.
    pub functions: Vec<CoreFunction>,
    /// The ground constructors: a construction, an opening and a pattern name one by its number, from 0.
    pub constructors: Vec<ConstructorShape>,
    /// The string literals that are printed: a print of one names it by its number, from 0.
    pub texts: Vec<StringLiteral>,
    /// The number of `main`.
    pub main: u32,
    /// The greatest number of nodes of a function's body in the program, be it an instance or not.
    pub greatest_nodes: u64,
    /// The nodes of the bodies of the instances, summed.
    pub summed_nodes: u64,
    pub ghost main_in: { main < vec_len functions },
}

/// A function in core form. Its variables are numbered: each that it binds has a number of its own, and all that is
/// computed later has a greater one.
#[derive(Drop)]
pub struct CoreFunction {
    /// The number of its parameters: parameter `i` is variable `i`.
    pub parameters: u32,
    /// Of each parameter, whether its type has cells.
    pub parameters_have_cells: Vec<bool>,
    /// Whether the type of its result has cells.
    pub result_has_cells: bool,
    /// A number above all of its variables.
    pub variables: u32,
    pub body: Block,
}

/// Steps in their order, and how the block ends.
#[cycle(block)]
#[derive(Drop)]
pub struct Block {
    pub steps: Vec<Step>,
    pub last: Last,
}

/// A step of a block.
#[cycle(block)]
#[derive(Drop)]
pub enum Step {
    /// The variable takes the value of the form on the variables behind it: of a number or another form without
    /// arguments, an operator, a print, a construction, or a call that is no tail call.
    Let(u32, Form, Vec<u32>),
    /// The variable is still of use here. Nothing is done.
    Use(u32),
    /// The variables behind the constructor's number take the fields of the cell that the first one names, in their
    /// order, if that constructor made it. Else the machine stays, as it does where a function is missing.
    Open(u32, u32, Vec<u32>),
    /// The variable takes the value of the block, which is run first.
    Inside(u32, Block),
}

/// How a block ends. A block that is a step of another ends by giving its value to that step's variable, and has no
/// tail call.
#[cycle(block)]
#[derive(Drop)]
pub enum Last {
    /// By giving the value of a variable.
    Return(u32),
    /// By calling a function, whose value is given.
    TailCall(u32, Vec<u32>),
    /// As the arm of the row that the decisions choose for the variable's value: arm `i`, from 0, is that of row `i`. Where
    /// they choose none, or a row without an arm, the machine stays; in a typed program they choose the first row whose
    /// pattern matches, and there is one.
    Case(u32, Decisions, Vec<Arm>),
}

/// An arm of a case: the pattern of its row, by which its block is typed, and the block, which opens what it needs. The
/// machine does not look at the pattern.
#[cycle(block)]
#[derive(Drop)]
pub struct Arm {
    pub pattern: Pat,
    pub body: Block,
}
