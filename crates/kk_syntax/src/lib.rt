//! The forms of a source text: tokens, the tree that they spell, and the program that it means; and the quantities of its
//! declarations that have limits.
#![tactic(auto)]

mod accepted;
mod copy;
mod declarations;
mod ground;
mod literal;
mod operator;
mod positions;
mod program;
mod shape;
mod token;
mod tree;
mod typed;

pub use accepted::Accepted;
pub use copy::{
    copied_constructors, copied_declarations, copied_pattern, copied_texts, copied_type,
    copied_types,
};
pub use declarations::{Quantity, count_of_type};
pub use ground::{Ground, GroundConstructor, GroundType, Instance};
pub use literal::StringLiteral;
pub use operator::{BinaryOperator, PrintForm, UnaryOperator};
pub use positions::{Ownership, Position, Positions};
pub use program::{
    Binder, Constructor, Expr, Form, Fun, Pat, Program, Row, Statement, Ty, TypeDecl,
};
pub use shape::nodes;
pub use token::{Keyword, LocatedToken, Symbol, Token, Tokens};
pub use tree::{
    ConstructorDeclaration, Declaration, Effect, FunctionDeclaration, Identifier, Parameter,
    SurfaceBinder, SurfaceExpr, SurfacePattern, SurfaceRow, SurfaceStatement, SurfaceType, Tree,
    TypeDeclaration,
};
pub use typed::{BodyTypes, Taken, TypeNode, Typed};
