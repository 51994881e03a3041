//! One event of the machine: a call of `Stateful::step`.
//!
//! The event is taken in, and then one thing after another goes on until nothing can without
//! another event. A machine that isn't up any more after that ends all that is live; a restart does
//! so first, and then opens the databases. The register of live work says which events may come. It
//! is brought up to date at the end of each event that was taken in, from the event and its marks,
//! and by nothing else.
#![tactic(auto)]

mod acting;
mod admitting;
mod inside;
mod playing;
mod reading;
mod restarting;
mod settling;
mod stateful;
mod step;
mod stopping;

pub use reading::Readable;
pub use stateful::{Config, NewError, Stateful};
