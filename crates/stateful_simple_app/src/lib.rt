//! Applications that take one turn: what all of them share that have one `Plain`, and run and build
//! a block in one turn.
//!
//! Such an application says by `OneTurn` what a block carries, what that does to the entries of the
//! database, when a candidate is acceptable, and what a request puts into a block.
//! `OneTurnApplication` is the application of these rules, proved once for all of them: it runs
//! blocks, builds them, and never fails. `specs/Rules.antt` says what rules are, and
//! `specs/Works.antt` what runs and builds are of.
#![tactic(auto)]

mod application;
mod block;
mod build;
mod draft;
mod one_turn;
mod run;

pub use application::{NoHook, OneTurnApplication};
pub use block::{Payload, PayloadBlock, write_number};
pub use build::OneTurnBuild;
pub use draft::Draft;
pub use one_turn::OneTurn;
pub use run::OneTurnRun;
