//! From the tree of a text to its program: each name has its one meaning.
#![tactic(auto)]

mod declaration;
mod expression;
mod fault;
mod pattern;
mod program;
mod resolver;
mod scope;
mod table;
mod types;

pub use program::{
    each_tree_is_resolved, resolve, resolved_programs_have_main,
    resolved_programs_have_truths_and_texts,
};
