//! The meaning of a program: the store machine, in specs/, and laws of its runs.
#![tactic(auto)]

mod law;

pub use law::{
    more_room_goes_further, only_taken_input_counts, programs_are_run_in_one_way, runs_are_sound,
    runs_follow_without_limits, typed_programs_are_never_stuck,
};
