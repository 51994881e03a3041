//! What databases that are kept as a log have in common: fields of operations with their bytes, the
//! chain of digests, and media that keep each operation once, with the digest before the first.
//!
//! A log holds the operations from where its oldest kept checkpoint begins, or from further before,
//! up to the end of the newest. `specs/Held.antt` says what these are over its changes, and which
//! digest stands at a location of them.
#![tactic(auto)]

mod blob;
mod bounds;
mod chain;
mod field;
mod linked;
mod log_medium;
mod longer;
mod open_log;
mod reads;
mod run;
mod shorter;

pub use blob::Blob;
pub use bounds::Bounds;
pub use chain::link;
pub use field::Field;
pub use linked::{Linked, link_each};
pub use log_medium::LogMedium;
pub use longer::longer as lengthened;
pub use open_log::OpenLog;
pub use run::Run;
