//! The system's reader and writer, as the source and the sink of a program.
#![tactic(auto)]

mod edge;

pub use edge::{StdSink, StdSource};
