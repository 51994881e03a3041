//! The states of a log of keys.

use crate::op::AnyOp;
use stateful_base::Items;
use stateful_db_medium::Checkpoint;

/// A log from its floor on: the root with the range, and the operations of the range. A database
/// keeps them otherwise.
pub type AnyState<K, V> = Checkpoint<Items<AnyOp<K, V>>>;
