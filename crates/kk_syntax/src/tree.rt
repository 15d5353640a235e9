use crate::literal::StringLiteral;
use crate::operator::{BinaryOperator, PrintForm, UnaryOperator};
use kk_base::Name;

/// A name as it stands in a text.
#[derive(Drop)]
pub struct Identifier {
    pub name: Name,
    /// Its first byte, from 0.
    pub at: u32,
}

/// What a text spells, its names not yet resolved.
#[derive(Drop)]
pub struct Tree {
    /// In the order of the text.
    pub declarations: Vec<Declaration>,
    /// The length of the text, in bytes.
    pub length: u32,
}

/// A declaration of a text.
#[derive(Drop)]
pub enum Declaration {
    Type(TypeDeclaration),
    Function(FunctionDeclaration),
}

/// A declared type.
#[derive(Drop)]
pub struct TypeDeclaration {
    pub name: Identifier,
    /// Its type variables.
    pub parameters: Vec<Identifier>,
    pub constructors: Vec<ConstructorDeclaration>,
}

/// A declared constructor, and its fields.
#[derive(Drop)]
pub struct ConstructorDeclaration {
    pub name: Identifier,
    pub fields: Vec<Parameter>,
}

/// A parameter of a function, or a field of a constructor.
#[derive(Drop)]
pub struct Parameter {
    pub name: Identifier,
    pub of_type: SurfaceType,
}

/// A declared function.
#[derive(Drop)]
pub struct FunctionDeclaration {
    pub name: Identifier,
    pub parameters: Vec<Parameter>,
    /// What its type says that it may do. It is read, and not checked.
    pub effects: Vec<Effect>,
    /// The type of its result, which only `main` may leave out.
    pub result: Option<SurfaceType>,
    pub body: SurfaceExpr,
}

/// An effect, as in `console ()`.
#[derive(Clone, Copy)]
pub enum Effect {
    Total,
    Div,
    Exn,
    Console,
}

/// A type as it is written.
#[derive(Drop)]
pub enum SurfaceType {
    /// `()`
    Unit,
    /// A type variable: one letter, and digits or nothing.
    Variable(Identifier),
    /// A type by its name, and its arguments.
    Named(Identifier, Vec<SurfaceType>),
}

/// An expression as it is written. Brackets, and the braces of a block without statements, leave no trace.
#[cycle(surface)]
#[derive(Drop)]
pub enum SurfaceExpr {
    Number(i32),
    /// `()`
    Unit,
    Variable(Identifier),
    /// `f(e, ..)`, a print of a number and a read of a byte among them.
    Call(Identifier, Vec<SurfaceExpr>),
    /// `e.f(e, ..)`, and `e.f`, which has no arguments besides the first.
    DotCall(Box<SurfaceExpr>, Identifier, Vec<SurfaceExpr>),
    /// `C(e, ..)`, and `C`, which has no arguments.
    Construct(Identifier, Vec<SurfaceExpr>),
    Unary(UnaryOperator, Box<SurfaceExpr>),
    Binary(BinaryOperator, Box<SurfaceExpr>, Box<SurfaceExpr>),
    /// `a && b`
    And(Box<SurfaceExpr>, Box<SurfaceExpr>),
    /// `a || b`
    Or(Box<SurfaceExpr>, Box<SurfaceExpr>),
    /// A print of a string literal.
    PrintText(PrintForm, StringLiteral),
    /// A condition and two branches, of which the second may be left out. An `elif` is an `if` in the second.
    If(Box<SurfaceExpr>, Box<SurfaceExpr>, Option<Box<SurfaceExpr>>),
    Match(Box<SurfaceExpr>, Vec<SurfaceRow>),
    /// Statements in their order (at least one), and the block's value.
    Block(Vec<SurfaceStatement>, Box<SurfaceExpr>),
}

/// A row of a match.
#[cycle(surface)]
#[derive(Drop)]
pub struct SurfaceRow {
    pub pattern: SurfacePattern,
    pub body: SurfaceExpr,
}

/// A statement of a block.
#[cycle(surface)]
#[derive(Drop)]
pub struct SurfaceStatement {
    pub binder: SurfaceBinder,
    pub value: SurfaceExpr,
}

/// What a statement does with its value.
#[derive(Drop)]
pub enum SurfaceBinder {
    /// Nothing: the statement is an expression.
    Nothing,
    /// `val _ =`
    Wildcard,
    /// `val x =`
    Variable(Identifier),
}

/// A pattern as it is written.
#[derive(Drop)]
pub enum SurfacePattern {
    Wildcard,
    Variable(Identifier),
    Number(i32),
    /// `C(p, ..)`, and `C`, which has no parts.
    Constructor(Identifier, Vec<SurfacePattern>),
}
