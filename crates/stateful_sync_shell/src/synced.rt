//! Databases that are synced from one another, from numbers to numbers or of numbers.

use crate::bending::Bent;
use stateful_base::{OutOfMemory, Target};
use stateful_db::DbCall;
use stateful_db_log::Field;
use stateful_passes::{Served, StateSyncDb};
use stateful_shell::{Page, parsed};
use std::alloc::Global;

/// A field that stands for a number.
pub(crate) trait Number: Field {
    fn of(number: u64) -> Self;

    fn number(&self) -> u64;
}

impl Number for u64 {
    fn of(number: u64) -> u64 {
        number
    }

    fn number(&self) -> u64 {
        *self
    }
}

/// The number of a text.
pub(crate) fn numbered<V: Number>(text: &str) -> V {
    V::of(parsed(text, 0))
}

/// A database to which a shell writes, and which answers to others that sync.
pub(crate) trait Written: Served {
    /// An empty medium, at which these calls fail.
    fn empty(alloc: Global, failing: Vec<(DbCall, u64)>) -> Self::Medium;

    fn config() -> Self::Config;

    /// The batch with what a word says.
    fn put(batch: Self::Unmerkleized, word: &str) -> Result<Self::Unmerkleized, OutOfMemory>;

    /// What a block commits to, of a root with its range.
    fn expected(target: Target) -> Self::SyncTarget;

    /// An operation that no block makes.
    fn wrong(alloc: Global) -> Result<Self::Op, OutOfMemory>;

    /// Appends what can be read of it.
    fn push_state(&self, page: &mut Page);
}

/// A database that is synced from another one of its kind.
pub(crate) trait Synced: Written + StateSyncDb<Bent<Self>> {
    ghost use Rattle.std.specs.Prelude.{◌≡◌};
    ghost use Rattle.stateful_db_pass.specs.Fetched.{is_reached};

    /// Whether a pass has all that it fetches.
    fn is_reached(pass: &Self::Pass) -> bool
        ensures { result ≡ is_reached (Self.fetched pass.now) };
}
