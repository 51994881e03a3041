//! What holds of keyless and compact databases side by side.

ghost use Rattle.stateful_db_keyless.specs.Follows.{KeepsFollowing};

use stateful_db_log::Field;

/// A compact database has the root and the size of the keyless one with the same batches of
/// appends, metadata and floors.
pub fn compact_follows_keyless<V: Field>()
    ensures { KeepsFollowing V.fields.spelling }
{}
