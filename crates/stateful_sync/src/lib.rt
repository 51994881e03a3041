//! What a sync of databases decides by itself: which targets they go for, when they have converged,
//! and what becomes of the blocks that were finalized meanwhile.
//!
//! A sync begins at a finalized block, and goes on while later ones are finalized. A
//! [`CoordinatorState`] brings all databases to what one and the same block commits to. A
//! [`Mailbox`] carries the newest finalized block to the sync, and tells each caller whether its
//! block was recorded or the sync had ended by then. Once the databases have converged,
//! [`classify`] says which of the retained blocks they already hold, and which are to be applied.
//!
//! What a node remembers of its sync, and from which block one starts, is `stateful_sync_plan`'s. Its
//! items are handed on, so that this crate is the one to import.
#![tactic(auto)]

mod action;
mod classification;
mod coordinator;
mod handover;
mod mailbox;
mod tip;

pub use action::CoordinatorAction;
pub use classification::classify;
pub use coordinator::CoordinatorState;
pub use handover::Handover;
pub use mailbox::Mailbox;
pub use stateful_sync_plan::{
    MemoryPlanStore, Missing, PlanCall, PlanError, PlanStore, Resolved, Start, StoreFault,
    SyncError, SyncPlan, SyncState, no_state_begins_another, open_set, resolve, resolve_fetched,
};
pub use tip::TipUpdate;
