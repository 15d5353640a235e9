//! The emitter: it writes functions of the counted form with tokens, which spend each reference and each token once on each path.
#![tactic(auto)]

mod branches;
mod debts;
mod emitter;
mod forks;
mod joins;
mod lists;
mod steps;
mod work;

pub use debts::{ArmEnd, Arms, Debts, Kept, Owed, Spare, give_up};
pub use emitter::Emitter;
