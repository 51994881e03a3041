//! What it is to sync a database from a source.
//!
//! A [`StateSyncDb`] starts a pass on its medium toward a target, makes one request a call, adopts
//! targets that lie ahead, and makes the database of what was fetched once the target is reached;
//! or the pass is abandoned, and the medium is handed back.
//!
//! A [`Served`] database answers the requests of such passes, and a [`MemoryServer`] is a source over
//! one, of which some calls fail.
//!
//! `specs/Asks.antt` says what a call that asks the source makes of a pass, and `specs/Synced.antt`
//! which database a sync makes. What the operations are that are fetched, and which of them fit, is
//! said by the passes of logs on which all databases stand.
#![tactic(auto)]

mod any;
mod asking;
mod compact;
mod compact_served;
mod config;
mod fault;
mod keyless;
mod plain;
mod served;
mod server;
mod sync_db;

pub use asking::ask;
pub use config::SyncEngineConfig;
pub use fault::{SyncFault, SyncSetFault};
pub use served::Served;
pub use server::MemoryServer;
pub use sync_db::StateSyncDb;
