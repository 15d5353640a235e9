//! The limits on the declarations of a program.
#![tactic(auto)]

mod declarations;

pub use declarations::check_declarations;
