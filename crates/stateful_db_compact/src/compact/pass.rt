//! A sync of a compact database that isn't finished.

ghost use Rattle.std.specs.Prelude.{◌≡◌};
ghost use Rattle.stateful_db_pass.specs.declared.pass.Fetches.TheVariants.{Latest};

use super::medium::CompactMedium;
use crate::op::KeylessOp;
use stateful_base::Faulty;
use stateful_db_log::Field;
use stateful_db_pass::LogPass;

/// A sync that isn't finished: the medium as it was before, and what is fetched for it, which is
/// the latest operation alone.
#[derive(Drop)]
pub struct CompactPass<V: Field> {
    pub medium: CompactMedium<V>,
    pub pass: LogPass<KeylessOp<V>>,
    ghost latest: { pass.fetches ≡ Latest },
}

impl<V: Field> Faulty for CompactPass<V> {
    ghost use Rattle.stateful_db_compact.specs.CompactStored.{calls_of};

    ghost count = { λ p. (calls_of p.medium).faults };

    fn faults(&self) -> u64 {
        self.medium.faults()
    }
}
