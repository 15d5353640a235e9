//! Placed code as instructions: every line, label, function and routine of the runtime has its address.
#![tactic(auto)]

mod arrivals;
mod boot;
mod cells;
mod chart;
mod emit;
mod labels;
mod law;
mod lines;
mod operations;
mod reach;
mod routines;
mod sizes;
mod text;
mod words;

pub use arrivals::placed_text_comes_to_its_lines;
pub use boot::{
    placed_text_agrees, placed_text_ends_with_its_cells, placed_text_touches_no_free_cell,
};
pub use law::{placed_code_keeps_meaning, placed_text_takes_few_bytes};
pub use text::place;
pub use words::Words;
