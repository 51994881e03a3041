//! What it is to sync a set of databases, each from a source of its own.
//!
//! A [`StateSyncSet`] is closed. `start` begins a sync of each of its databases, and the passes have
//! their media meanwhile. `progress` makes one request for the database of a number, and `tip` adopts
//! a later target for it. Once each has reached its target, `finish` makes the set of what was fetched;
//! or the passes are abandoned, and the set is closed as before.
//!
//! One [`Held`](stateful_db::Held) database is such a set, and so is one before a set of others.
//!
//! `specs/Seeking.antt` says what is seen of one sync, whatever its operations are.
#![tactic(auto)]

mod held;
mod pair;
mod sync_set;

pub use sync_set::StateSyncSet;
