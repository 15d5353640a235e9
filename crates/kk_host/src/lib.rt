//! The outside as it really is: streams and files. Nothing is told of their content.
#![tactic(auto)]

mod sink;
mod source;
mod store;

pub use sink::StreamSink;
pub use source::StreamSource;
pub use store::FileStore;
