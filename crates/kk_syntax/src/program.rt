ghost use Rattle.std.specs.Prelude.{◌≡◌, ◌<◌, slice_get, vec_len};

use crate::literal::StringLiteral;
use crate::operator::{BinaryOperator, PrintForm, UnaryOperator};
use kk_base::Name;

/// A program whose names are resolved: types, constructors and functions are named by their numbers, from 0.
#[derive(Drop)]
pub struct Program {
    /// `bool`, which is built in, and then the declared types in the order of the text.
    pub types: Vec<TypeDecl>,
    /// The constructors of all types: `False`, `True`, and then those of the declared types, in their order.
    pub constructors: Vec<Constructor>,
    /// In the order of the text.
    pub functions: Vec<Fun>,
    /// The string literals that are printed, in the order of the text: a print of one names it by its number, from 0.
    pub texts: Vec<StringLiteral>,
    /// The number of `main`.
    pub main: u32,
    pub ghost main_in: { main < vec_len functions },
}

impl Program {
    /// The number of the type `bool`.
    pub const BOOL: u32 = 0;

    /// The number of the constructor `False`.
    pub const FALSE: u32 = 0;

    /// The number of the constructor `True`.
    pub const TRUE: u32 = 1;

    /// The function `main`.
    pub fn main_function(&self) -> &Fun
        ensures { slice_get self.now.functions.items self.now.main ≡ Some result.now }
    {
        &self.functions[self.main as usize]
    }
}

/// A declared type.
#[derive(Drop)]
pub struct TypeDecl {
    pub name: Name,
    /// The byte of its name, from 0; 0 for `bool`.
    pub at: u32,
    /// The number of its type variables.
    pub variables: u32,
    /// The number of its first constructor: its constructors follow one another.
    pub first_constructor: u32,
    /// The number of constructors that it has.
    pub constructor_count: u32,
}

/// A constructor of a type.
#[derive(Drop)]
pub struct Constructor {
    pub name: Name,
    /// The byte of its name, from 0; 0 for those of `bool`.
    pub at: u32,
    /// The number of its type.
    pub of_type: u32,
    /// Its place among the constructors of its type, from 0.
    pub tag: u32,
    /// The types of its fields, over the variables of its type.
    pub fields: Vec<Ty>,
}

/// A declared function.
#[derive(Drop)]
pub struct Fun {
    pub name: Name,
    /// The byte of its name, from 0.
    pub at: u32,
    /// The number of its type variables.
    pub variables: u32,
    /// The types of its parameters. Parameter `i` is variable `i` of its body.
    pub parameters: Vec<Ty>,
    pub result: Ty,
    pub body: Expr,
}

/// A type, over the type variables of a declared type or of a function, which are numbered in the order in which the
/// text first names them.
#[derive(Drop)]
pub enum Ty {
    Int32,
    /// `()`
    Unit,
    Variable(u32),
    /// A type by its number, and its arguments; `bool` too.
    Named(u32, Vec<Ty>),
}

/// An expression. Its variables are numbered: each binder of a function, which is a parameter, a `val` or a variable
/// of a pattern, has a number of its own there, in the order of the text.
#[cycle(expression)]
#[derive(Drop)]
pub enum Expr {
    Variable(u32),
    /// A form and its arguments.
    Apply(Form, Vec<Expr>),
    /// A condition and two branches.
    If(Box<Expr>, Box<Expr>, Box<Expr>),
    Match(Box<Expr>, Vec<Row>),
    /// Statements in their order, and the block's value.
    Block(Vec<Statement>, Box<Expr>),
}

/// What is done with the values of arguments.
#[derive(Clone, Copy, PartialEq, Eq)]
pub enum Form {
    /// A number. No arguments.
    Number(i32),
    /// `()`. No arguments.
    Unit,
    /// The next byte of the input, or -1 at its end. No arguments.
    ReadByte,
    /// A print of a string literal, by its number among the program's. No arguments.
    PrintText(PrintForm, u32),
    Unary(UnaryOperator),
    Binary(BinaryOperator),
    /// A print of a number.
    Print(PrintForm),
    /// A construction, by the constructor's number.
    Construct(u32),
    /// A call, by the function's number.
    Call(u32),
}

/// A row of a match.
#[cycle(expression)]
#[derive(Drop)]
pub struct Row {
    pub pattern: Pat,
    pub body: Expr,
}

/// A statement of a block.
#[cycle(expression)]
#[derive(Drop)]
pub struct Statement {
    pub binder: Binder,
    pub value: Expr,
}

/// What a statement does with its value.
#[derive(Clone, Copy)]
pub enum Binder {
    /// Nothing: the statement is an expression.
    Nothing,
    /// `val _ =`
    Wildcard,
    /// `val` of this variable.
    Variable(u32),
}

/// A pattern.
#[derive(Drop)]
pub enum Pat {
    Wildcard,
    Variable(u32),
    Number(i32),
    /// A constructor by its number, and the patterns of its fields.
    Constructor(u32, Vec<Pat>),
}
