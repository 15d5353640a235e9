//! The tokens of a source text.
//!
//! A text is read from left to right. Where it stands at a byte, the longest lexeme that begins there is taken: a
//! token, or what is passed over (a blank, a line's end, a comment), or what cannot be read.
#![tactic(auto)]

mod comments;
mod lexeme;
mod list;
mod names;
mod numbers;
mod strings;
mod symbols;

pub use list::{each_text_is_read, tokens};
