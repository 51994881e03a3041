//! A sync of a database of keys that isn't finished.

use crate::medium::AnyMedium;
use crate::op::AnyOp;
use stateful_base::Faulty;
use stateful_db_log::Field;
use stateful_db_pass::LogPass;

/// A sync that isn't finished: the medium as it was before, and what was fetched.
#[derive(Drop)]
pub struct AnyPass<K: Field, V: Field> {
    pub medium: AnyMedium<K, V>,
    pub pass: LogPass<AnyOp<K, V>>,
}

impl<K: Field, V: Field> Faulty for AnyPass<K, V> {
    ghost use Rattle.stateful_db_any.specs.Stored.{calls_of};

    ghost count = { λ p. (calls_of p.medium).faults };

    fn faults(&self) -> u64 {
        self.medium.faults()
    }
}
