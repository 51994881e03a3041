//! The log of which the latest commit alone is kept.

use crate::synced::{Number, Synced, Written, numbered};
use stateful_base::{CompactTarget, Location, OutOfMemory, Target};
use stateful_db::DbCall;
use stateful_db_keyless::{
    CompactDb, CompactMedium, CompactPass, KeylessOp, KeylessUnjournaledUnmerkleized,
};
use stateful_shell::{Page, parsed};
use std::alloc::Global;

impl<V: Number> Written for CompactDb<V> {
    fn empty(alloc: Global, failing: Vec<(DbCall, u64)>) -> CompactMedium<V> {
        CompactMedium::empty(alloc, failing)
    }

    fn config() {}

    /// A value, metadata as `m=VALUE`, or a floor as `f=LOCATION`.
    fn put(
        batch: KeylessUnjournaledUnmerkleized<V>,
        word: &str,
    ) -> Result<KeylessUnjournaledUnmerkleized<V>, OutOfMemory> {
        match word.split_once('=') {
            Some(("m", value)) => Ok(batch.with_metadata(numbered(value))),
            Some((_, floor)) => Ok(batch.with_inactivity_floor(Location(parsed(floor, 0)))),
            None => batch.append(numbered(word)),
        }
    }

    fn expected(target: Target) -> CompactTarget {
        CompactTarget {
            root: target.root,
            size: target.end,
        }
    }

    fn wrong(_alloc: Global) -> Result<KeylessOp<V>, OutOfMemory> {
        Ok(KeylessOp::Append(V::of(0)))
    }

    fn push_state(&self, page: &mut Page) {
        page.field(" size ", self.size());
        if let Some(metadata) = self.get_metadata() {
            page.field(", metadata ", metadata.number());
        }
    }
}

impl<V: Number> Synced for CompactDb<V> {
    fn is_reached(pass: &CompactPass<V>) -> bool {
        pass.pass.is_reached()
    }
}
