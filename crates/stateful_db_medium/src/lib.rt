//! What media of databases have in common, whatever is kept of a checkpoint.
//!
//! A [`Medium`] is what stays of a database while it is closed: the kept checkpoints in order, the
//! next batch id, and the calls with those that fail. `number_to_open` finds the checkpoint of a
//! target, and `open` makes it the last and the durable one: an [`Opened`]. `close` gives the
//! medium back, and `cut` leaves what a crash does.
//!
//! Each opening and each change is a call, which is counted by its kind (`calls.rt`). One whose
//! number is listed fails, and the checkpoints are as they were. `apply` adds the checkpoint of a
//! batch as the newest one. It becomes durable in two calls: `finalize` gives a token for all that
//! are there, and `flush` of that token moves the durable place up to them. `prune_first` drops the
//! oldest ones, while no token is out.
//!
//! `specs/Kept.antt` says how media look to the layer above, and `specs/Openings.antt` where they
//! open.
#![tactic(auto)]

mod calls;
mod changes;
mod checkpoints;
mod medium;
mod opened;

pub use calls::{Calls, Numbers};
pub use checkpoints::{Checkpoint, Checkpoints};
pub use medium::Medium;
pub use opened::Opened;
