//! Tests of the layers that `build` goes through, and of the cells and the tokens of an image beside those of a slow machine: tests
//! alone.
#![tactic(auto)]

#[cfg(test)]
mod hand_code;
#[cfg(test)]
mod layers;
#[cfg(test)]
mod rows;
#[cfg(test)]
mod same_cells;
#[cfg(test)]
mod sides;
#[cfg(test)]
mod token_heap;
#[cfg(test)]
mod token_machine;
#[cfg(test)]
mod walk;
