//! What every crate of the compiler speaks of: bytes, names and texts, places in a source text, limits, refusals,
//! statuses, and the traits of the outside.
#![tactic(auto)]

mod error;
mod exits;
mod fault_count;
mod items;
mod limit;
mod name;
mod outside;
mod refusal;
mod simulation;
mod sizes;
mod span;
mod status;
mod strings;

pub use error::{LexError, NameError, NoMemory, ParseError};
pub use exits::{HEAP_FULL_EXIT, STACK_FULL_EXIT};
pub use fault_count::FaultCount;
pub use items::{Bytes, Items, Text};
pub use limit::{Limit, LimitKind};
pub use name::Name;
pub use outside::{Next, Put, Read, Sink, Source, Store, StoreCall, Wrote};
pub use refusal::Refusal;
pub use simulation::{
    Layers, agreements_compose, every_state_is_passing, layers_compose, related_states_agree,
    seen_machines_simulate,
};
pub use sizes::{GREATEST_CELLS, GREATEST_DEPTH};
pub use span::Span;
pub use status::Status;
pub use strings::GREATEST_STRING;
