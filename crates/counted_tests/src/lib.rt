//! Functions that emitters of code with tokens write, by hand: tests alone.
#![tactic(auto)]

#[cfg(test)]
mod branching;
#[cfg(test)]
mod ending;
#[cfg(test)]
mod expecting;
#[cfg(test)]
mod lists;
#[cfg(test)]
mod losing;
#[cfg(test)]
mod rebuilding;
#[cfg(test)]
mod rows;
#[cfg(test)]
mod shapes;
