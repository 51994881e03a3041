//! The states of a keyless log.

use stateful_base::Items;
use stateful_db_compact::KeylessOp;
use stateful_db_medium::Checkpoint;

/// A log from its floor on: the root with the range, and the operations of the range. A database
/// keeps them otherwise.
pub type KeylessState<V> = Checkpoint<Items<KeylessOp<V>>>;
