//! Tests of rv_regs, of values that stay in registers, of rv_sim, of cells that are free where no compiled program leaves them so, and of
//! what errors tell: tests alone. What the built program shows of the crates below stands in examples/ and tests/.
#![tactic(auto)]

#[cfg(test)]
mod errors;
#[cfg(test)]
mod free_cells;
#[cfg(test)]
mod slots;
