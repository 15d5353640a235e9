//! The decisions of a match: which tests its rows of patterns ask for, and in which order.
#![tactic(auto)]

mod deciding;
mod graph;
mod in_turn;
mod length;
mod nodes;
mod outcome;
mod question;
mod state;
mod turned;

pub use deciding::{Rows, decide, decide_briefly};
