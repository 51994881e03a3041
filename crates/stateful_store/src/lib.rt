//! Databases, handed on: who builds on them imports this crate alone. It has the traits of batches,
//! databases and sets, the four databases in memory with the media that they open on, and what it is
//! to sync them and to answer to others that sync.
#![tactic(auto)]

pub use stateful_db::{
    Barrier, BarrierPoll, Batch, BatchContext, BatchError, Broken, DatabaseSet, DbCall, Exhausted,
    FlushToken, Flushed, Handle, Held, InitError, ManagedDb, Merkleized, OpenBatch, SetError,
    SetInit, SetLost, Targeted, Targets, Tokens, Unmerkleized, Why,
};
pub use stateful_db_any::{
    AnyDb, AnyMedium, AnyMerkleized, AnyOp, AnyPass, AnyStaged, AnyState, AnyUnmerkleized, Slot,
};
pub use stateful_db_keyless::{
    Commit, CompactDb, CompactMedium, CompactPass, CompactState, KeylessDb, KeylessMedium,
    KeylessMerkleized, KeylessOp, KeylessPass, KeylessState, KeylessUnjournaledMerkleized,
    KeylessUnjournaledUnmerkleized, KeylessUnmerkleized,
};
pub use stateful_db_log::{Blob, Bounds, Field, Linked, LogMedium, OpenLog, link_each};
pub use stateful_db_pass::{Fetches, LogPass, Segment, answer_from, answers_fit, requests_fall};
pub use stateful_db_plain::{
    Plain, PlainMedium, PlainMerkleized, PlainOp, PlainPass, PlainState, PlainUnmerkleized,
};
pub use stateful_db_source::{AttachableResolver, AttachableResolverSet, ServeFault, SyncSource};
pub use stateful_pass_sets::StateSyncSet;
pub use stateful_passes::{
    MemoryServer, Served, StateSyncDb, SyncEngineConfig, SyncFault, SyncSetFault,
};
