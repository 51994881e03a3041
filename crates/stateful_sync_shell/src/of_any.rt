//! The map that is kept as a log.

use crate::synced::{Number, Synced, Written, numbered};
use stateful_base::{OutOfMemory, Target};
use stateful_db::DbCall;
use stateful_db_any::{AnyDb, AnyMedium, AnyOp, AnyPass, AnyUnmerkleized};
use stateful_shell::Page;
use std::alloc::Global;

impl<K: Number, V: Number> Written for AnyDb<K, V> {
    fn empty(alloc: Global, failing: Vec<(DbCall, u64)>) -> AnyMedium<K, V> {
        AnyMedium::empty(alloc, failing)
    }

    fn config() {}

    /// `KEY=VALUE`, `KEY=none`, or metadata, as `m=VALUE`.
    fn put(batch: AnyUnmerkleized<K, V>, word: &str) -> Result<AnyUnmerkleized<K, V>, OutOfMemory> {
        match word.split_once('=') {
            Some(("m", value)) => Ok(batch.with_metadata(numbered(value))),
            Some((key, "none")) => batch.write(numbered(key), None),
            Some((key, value)) => batch.write(numbered(key), Some(numbered(value))),
            None => Ok(batch),
        }
    }

    fn expected(target: Target) -> Target {
        target
    }

    fn wrong(_alloc: Global) -> Result<AnyOp<K, V>, OutOfMemory> {
        Ok(AnyOp::Delete(K::of(0)))
    }

    fn push_state(&self, page: &mut Page) {
        let Ok(entries) = self.entries(page.alloc()) else {
            return page.lack();
        };
        for (key, value) in entries.as_slice() {
            page.field(" ", key.number());
            page.field("=", value.number());
        }
        if let Some(metadata) = self.get_metadata() {
            page.field(", metadata ", metadata.number());
        }
    }
}

impl<K: Number, V: Number> Synced for AnyDb<K, V> {
    fn is_reached(pass: &AnyPass<K, V>) -> bool {
        pass.pass.is_reached()
    }
}
