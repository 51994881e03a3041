//! A sync of a keyless database that isn't finished.

use super::medium::KeylessMedium;
use stateful_base::Faulty;
use stateful_db_compact::KeylessOp;
use stateful_db_log::Field;
use stateful_db_pass::LogPass;

/// A sync that isn't finished: the medium as it was before, and what is fetched for it.
#[derive(Drop)]
pub struct KeylessPass<V: Field> {
    pub medium: KeylessMedium<V>,
    pub pass: LogPass<KeylessOp<V>>,
}

impl<V: Field> Faulty for KeylessPass<V> {
    ghost use Rattle.stateful_db_keyless.specs.KeylessStored.{calls_of};

    ghost count = { λ p. (calls_of p.medium).faults };

    fn faults(&self) -> u64 {
        self.medium.faults()
    }
}
