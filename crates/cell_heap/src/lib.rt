//! The cells of a program's data: what a reader sees of them, how they lie in memory, and what it is to give them up.
#![tactic(auto)]

mod laws;

pub use laws::{
    drops_keep_blocks, free_cells_are_listed, giving_up_comes_to_an_end, giving_up_has_one_end,
    giving_up_is_paid, giving_up_keeps_heaps_sound, loads_are_in_memory, stores_keep_blocks,
    turns_are_computed, turns_give_up,
};
