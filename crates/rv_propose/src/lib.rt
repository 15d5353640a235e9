//! Places for the values of a function, as a proposal: values stay in registers as long as they can. Nothing is proved of what is
//! proposed: rv_regs checks it. What is alive at each point of the code, and where a value is listed, is told exactly.
#![tactic(auto)]

mod joins;
mod liveness;
mod local;
mod numbering;
mod plans;
mod state;

pub use liveness::{
    LabelPoint, Point, alive_before, alive_behind, copy_of, held_before, is_one_of, with_point,
};
pub use local::local_function;
pub use numbering::with_tokens_first;
pub use plans::may_spoil;
pub use state::listing;
