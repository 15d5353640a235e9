//! The generator of programs for measurements: from a seed and a size, the text of a program over lists, always the same.
#![tactic(auto)]

mod generator;

pub use generator::program;
