//! What holds of states and their ranges.

ghost use Rattle.stateful_db_any.specs.Laws.{KeepsLiveKeys, BeginsWithNeed};
ghost use Rattle.stateful_db_any.specs.Entries.{HasOneList};
ghost use Rattle.stateful_db_any.specs.Newest.{GivesNewest};

use stateful_db_log::Field;

/// A range has all that counts: what it leaves out says nothing of any key, and its first operation
/// is the last write of a live key, or the last of all.
pub fn ranges_are_tight<K: Field, V: Field>()
    ensures live { KeepsLiveKeys K.cmp K.fields.spelling V.fields.spelling }
    ensures begins { BeginsWithNeed K.cmp K.fields.spelling V.fields.spelling }
{}

/// The entries of a state are pinned: no other list has its live keys in order with their values.
pub fn entries_are_one<K: Field, V: Field>()
    ensures { HasOneList V K.cmp }
{}

/// The value of a state at a key is the newest write of the batches that were sealed one on the
/// other, or else the value of the state below them.
pub fn reads_give_newest_writes<K: Field, V: Field>()
    ensures { GivesNewest K.cmp K.fields.spelling V.fields.spelling }
{}
