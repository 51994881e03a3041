//! The plainest database.

use crate::synced::{Synced, Written};
use stateful_base::{OutOfMemory, Target};
use stateful_db::DbCall;
use stateful_db_plain::{Plain, PlainMedium, PlainOp, PlainPass, PlainState, PlainUnmerkleized};
use stateful_shell::{Page, parsed};
use std::alloc::Global;

impl Written for Plain {
    fn empty(alloc: Global, failing: Vec<(DbCall, u64)>) -> PlainMedium {
        PlainMedium::empty(alloc, failing)
    }

    fn config() {}

    /// `KEY=VALUE`, or `KEY=none`.
    fn put(batch: PlainUnmerkleized, word: &str) -> Result<PlainUnmerkleized, OutOfMemory> {
        match word.split_once('=') {
            Some((key, value)) => batch.write(parsed(key, 0), value.parse::<u64>().ok()),
            None => Ok(batch),
        }
    }

    fn expected(target: Target) -> Target {
        target
    }

    fn wrong(alloc: Global) -> Result<PlainOp, OutOfMemory> {
        PlainOp::of(&PlainState::empty(alloc))
    }

    fn push_state(&self, page: &mut Page) {
        for (key, value) in self.entries() {
            page.field(" ", *key);
            page.field("=", *value);
        }
    }
}

impl Synced for Plain {
    fn is_reached(pass: &PlainPass) -> bool {
        pass.pass.is_reached()
    }
}
