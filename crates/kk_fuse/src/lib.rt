//! Fusion: counted code in which a dup and the next drop of its variable cancel. What it makes of code is a function in specs/,
//! which `run` computes; laws say that its runs are the same.
#![tactic(auto)]

mod fuse;
mod law;
mod runs;

pub use fuse::run;
pub use law::{
    fused_code_can_be_lowered, fused_code_ends_as_well, fused_code_has_no_pair_left,
    fused_code_is_spent, fused_code_opens_by_count, fused_code_opens_no_more,
    fused_code_takes_no_more_words,
};
pub use runs::{fused_code_has_its_kinds, fused_code_runs_the_same, short_code_has_few_steps};
