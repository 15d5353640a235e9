//! From the tokens of a text to the tree that they spell, or the first token with which no program goes on.
#![tactic(auto)]

mod block;
mod declared;
mod expr;
mod fault;
mod made;
mod matching;
mod name;
mod parser;
mod program;

pub use program::{each_list_is_parsed, parse};
