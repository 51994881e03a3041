//! Execution of blocks that aren't final yet.
#![tactic(auto)]

mod handler;
mod processor;
mod verifying;

pub use handler::{Handler, Handling};
pub use processor::{Execution, Processing, Processor};
pub use stateful_db::ProposalKind;
pub use stateful_exec_model::{BuildStart, Building, Front, Joined, Stage, Worked};
pub use stateful_exec_pause::{Disposition, ExecutionStep, FinalizationBoundary, Pause};
pub use stateful_exec_runs::Turned;
pub use stateful_exec_tables::{
    ExecError, LiveRun, Phase, ProposalFault, Released, Requested, Tables,
};
pub use stateful_exec_walk::{Acquired, Proposal, ReplayPath, Request, Verdict};
pub use stateful_history::{Entry, Mark};
pub use verifying::Verifier;
