//! The core form of a program: its intermediate results have names, in the order in which they are computed.
#![tactic(auto)]

mod decisions;
mod form;
mod law;
mod shape;
mod truth;

pub use decisions::{Answer, Decisions, Edge, Node};
pub use form::{Arm, Block, Core, CoreFunction, Last, Step};
pub use law::{typed_code_has_its_kinds, typed_code_is_never_stuck};
pub use shape::ConstructorShape;
pub use truth::truth_decisions;
