//! Places for the values of assembler code, and a check of them: whatever gave values their places, a form that passes the check
//! means what the code means.
#![tactic(auto)]

mod assigning;
mod checking;
mod conventions;
mod keeping;
mod keeps;
mod modest;
mod places;
mod reached;
mod slots;
mod walk;

pub use assigning::assign;
pub use checking::valid;
pub use keeps::{Execution, valid_forms_keep_meaning};
pub use reached::placed_forms_come_to_each_line;
