//! Messages between resolvers in bytes: what the bytes of a delivery hold, and how long a message is
//! at most.
#![tactic(auto)]

mod error;
mod limits;
mod reading;

pub use error::TooManyOps;
pub use limits::{max_payload_size, no_payload_is_longer};
pub use reading::read_response;
