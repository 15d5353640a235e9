//! The counted heap in a program's cells: which words stand for a value, when cells hold a heap, and what requests, loads,
//! stores, duplications and drops do then. A program with tokens whose functions are all lowered runs the same as its assembler
//! code. What is read off code before its lines are written stands here too: the marks of variables, slots, and what stands in cells.
#![tactic(auto)]

mod compare;
mod law;
mod mark;
mod slots;
mod standing;
mod token_law;

pub use compare::{Branching, branch_between};
pub use law::{
    cells_are_counted_or_set_aside, cells_in_hand_are_counted, cells_in_hand_are_held,
    cells_in_hand_are_released, counts_are_stored, judged_programs_are_fit,
    lowered_tokened_programs_are_short, lowered_tokened_programs_are_well_formed,
    lowered_tokened_programs_come_to_their_lines, lowered_tokened_programs_have_few_values,
    lowered_tokened_programs_run_the_same, lowered_tokened_programs_take_few_words,
    references_are_dropped, references_are_duplicated, requests_find_free_cells,
    unique_cells_are_opened, unused_cells_hold_no_heap, words_in_hand_are_stored,
};
pub use mark::tokened_marks_of;
pub use slots::slots_of_block;
pub use standing::{Standing, has_count, has_header, standing_of};
pub use token_law::lowered_tokened_programs_follow_their_tokens;
