use crate::program::Program;

/// A type as a node among others: its arguments are nodes before it, by their numbers. So a part that two types share
/// is there once.
#[derive(Drop)]
pub enum TypeNode {
    Int32,
    /// `()`
    Unit,
    /// A type variable of the function; or, from the number of those on, one that remains open.
    Variable(u32),
    /// A type by its number, and its arguments.
    Named(u32, Vec<u32>),
}

/// The types that are taken at a place of a body, by the numbers of their nodes.
#[derive(Drop)]
pub enum Taken {
    /// For the type variables of a constructor that is used, by its number, in their order: by a construction or by a
    /// pattern.
    Construct(u32, Vec<u32>),
    /// For the type variables of a function that is called, by its number, in their order.
    Call(u32, Vec<u32>),
    /// The type of the value of a statement, of the scrutinee of a match, or of a variable of a pattern.
    Value(u32),
}

/// The types that are taken in the body of a function.
#[derive(Drop)]
pub struct BodyTypes {
    pub nodes: Vec<TypeNode>,
    /// In the order of the text: a use before its arguments; a statement before its value, and a match before its
    /// scrutinee; the variables of a row's pattern, from left to right, before the pattern, and that before the body.
    pub taken: Vec<Taken>,
}

/// A program, and the types that it is taken at.
#[derive(Drop)]
pub struct Typed {
    pub program: Program,
    /// For each function, by its number.
    pub bodies: Vec<BodyTypes>,
}
