//! The log of values, kept from its floor on.

use crate::synced::{Number, Synced, Written, numbered};
use stateful_base::{Location, OutOfMemory, Target};
use stateful_db::DbCall;
use stateful_db_keyless::{KeylessDb, KeylessMedium, KeylessOp, KeylessPass, KeylessUnmerkleized};
use stateful_shell::{Page, parsed};
use std::alloc::Global;

impl<V: Number> Written for KeylessDb<V> {
    fn empty(alloc: Global, failing: Vec<(DbCall, u64)>) -> KeylessMedium<V> {
        KeylessMedium::empty(alloc, failing)
    }

    fn config() {}

    /// A value, metadata as `m=VALUE`, or a floor as `f=LOCATION`.
    fn put(
        batch: KeylessUnmerkleized<V>,
        word: &str,
    ) -> Result<KeylessUnmerkleized<V>, OutOfMemory> {
        match word.split_once('=') {
            Some(("m", value)) => Ok(batch.with_metadata(numbered(value))),
            Some((_, floor)) => Ok(batch.with_inactivity_floor(Location(parsed(floor, 0)))),
            None => batch.append(numbered(word)),
        }
    }

    fn expected(target: Target) -> Target {
        target
    }

    fn wrong(_alloc: Global) -> Result<KeylessOp<V>, OutOfMemory> {
        Ok(KeylessOp::Append(V::of(0)))
    }

    fn push_state(&self, page: &mut Page) {
        for at in self.range() {
            match self.get(Location(at)) {
                Ok(Some(value)) => page.field(" ", value.number()),
                Ok(None) => page.push(" none"),
                Err(error) => page.debug(&error),
            }
        }
        if let Some(metadata) = self.get_metadata() {
            page.field(", metadata ", metadata.number());
        }
    }
}

impl<V: Number> Synced for KeylessDb<V> {
    fn is_reached(pass: &KeylessPass<V>) -> bool {
        pass.pass.is_reached()
    }
}
