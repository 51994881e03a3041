//! The tables of execution: requests with what they need, live runs, pauses, and the walks of
//! requests through their ancestors. Nothing here knows an application.
#![tactic(auto)]

mod cutting;
mod error;
mod met;
mod pausing;
mod queued;
mod queueing;
mod serving;
mod state;
mod stepping;
mod tables;
mod tickets;

pub use error::{ExecError, ProposalFault};
pub use met::Met;
pub use queued::Queued;
pub use state::Tables;
pub use tables::{LiveRun, Phase, Released, Requested};
pub use tickets::Tickets;
