ghost use Rattle.std.proofs.Props.{props};
ghost use Rattle.kk_syntax.specs.GroundLimits.{AreWithinLimits};
ghost use Rattle.kk_syntax.specs.GroundTypes.{AreNumbered};

use crate::literal::StringLiteral;
use crate::program::{Expr, TypeDecl};
use crate::typed::Taken;

/// The instances of a program: all that `main` comes to, at types without variables. They are within the limits on parameters,
/// fields, constructors, nodes and instances.
#[derive(Drop)]
pub struct Ground {
    /// The types of the program, as they are declared.
    pub declarations: Vec<TypeDecl>,
    /// The string literals that the program prints.
    pub texts: Vec<StringLiteral>,
    /// The types without variables that the instances take, and those of the fields of their constructors, each once.
    pub types: Vec<GroundType>,
    /// `False`, `True`, and then the constructors of the other types with whose constructors an instance builds or matches:
    /// those of a type together, in the order of their declaration.
    pub constructors: Vec<GroundConstructor>,
    /// `main`'s is the first.
    pub instances: Vec<Instance>,
    /// The greatest number of nodes of a function's body in the program, be it an instance or not.
    pub greatest_nodes: u64,
    /// The nodes of the bodies of the instances, summed.
    pub summed_nodes: u64,
    pub ghost numbered: { AreNumbered types.items constructors.items } by { Prim.hlevel props },
    pub ghost within: { AreWithinLimits constructors.items instances.items greatest_nodes summed_nodes } by { Prim.hlevel props },
}

/// A type without variables, as a node among others: its arguments are nodes before it, by their numbers.
#[derive(PartialEq, Eq, Hash, Drop)]
pub enum GroundType {
    Int32,
    /// `()`
    Unit,
    /// A type by its number in the program, and its arguments.
    Named(u32, Vec<u32>),
}

/// A constructor at types without variables: it makes values of one type alone.
#[derive(Drop)]
pub struct GroundConstructor {
    /// The number of its constructor in the program.
    pub constructor: u32,
    /// The type of the values that it makes.
    pub of_type: u32,
    /// Its place among the constructors of that type, from 0.
    pub tag: u32,
    /// The types of its fields.
    pub fields: Vec<u32>,
}

/// A function at types without variables.
#[derive(Drop)]
pub struct Instance {
    /// The number of its function in the program.
    pub function: u32,
    /// The types that stand for the function's type variables.
    pub arguments: Vec<u32>,
    /// The types of its parameters.
    pub parameters: Vec<u32>,
    /// The type of its result.
    pub result: u32,
    /// The types that are taken in its body, in the order of the text; here functions and constructors are the program's.
    pub taken: Vec<Taken>,
    /// The function's body, in which a call names an instance, and a construction and a pattern name a ground constructor.
    pub body: Expr,
}
