//! How far applied blocks are durable, and the receipts of finalizations that wait for it.
//!
//! A finalized block is applied to the databases first, and is durable once a barrier over its
//! height is done. Until then a crash may lose it. At most two barriers are open at once. Each
//! covers the heights that were applied before it began, and later ones wait for the next barrier.
//! They complete in the order in which they began, so the durable height only rises. The receipt of
//! a finalization is held until its height is durable, and is then released for acknowledgement, so
//! that no acknowledged height can be lost.
//!
//! A caller says `applied` for each block that was applied, `record` for its receipt and
//! `record_duplicate` for the receipt of a repeat. It says `set_barrier` when a barrier begins,
//! which it may where the answer to `is_free` is yes, and `complete` when the oldest open one is
//! over. Then it takes what is `released` until there is nothing.
#![tactic(auto)]

mod durability;

pub use durability::Durability;
