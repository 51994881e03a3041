//! What a node remembers of its sync, where a sync starts, and how databases are opened after one.
//!
//! A node that begins late asks peers for the databases of a finalized block, its floor. The plan
//! keeps that floor over all restarts, until the sync is done. Then it keeps the height and the
//! digest of the block at which it was done, and the node never syncs from peers again.
//! [`SyncPlan`] is that memory over a store of one value. A floor never moves to an earlier round,
//! and a completion never to a lower height.
//!
//! [`resolve`] and [`resolve_fetched`] choose the block from which a sync starts: the floor's own,
//! or one of the block store where that has come further. [`open_set`] opens databases that no sync
//! is to fill, at the block up to which the node has come.
#![tactic(auto)]

mod choice;
mod error;
mod opening;
mod plan;
mod state;
mod store;

pub use choice::{Resolved, resolve, resolve_fetched};
pub use error::{Missing, PlanError, SyncError};
pub use opening::open_set;
pub use plan::{Start, SyncPlan};
pub use state::{SyncState, no_state_begins_another};
pub use store::{MemoryPlanStore, PlanCall, PlanStore, StoreFault};
