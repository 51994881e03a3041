//! The register of live work, by which an event is refused that names work which isn't live.
#![tactic(auto)]

mod change;
mod ends;
mod flushes;
mod live;
mod register;

pub use register::Register;
