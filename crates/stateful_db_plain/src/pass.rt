//! A sync of a database that isn't finished.

ghost use Rattle.std.specs.Prelude.{◌≡◌};
ghost use Rattle.stateful_db_pass.specs.declared.pass.Fetches.TheVariants.{Latest};

use crate::medium::PlainMedium;
use crate::op::PlainOp;
use stateful_base::Faulty;
use stateful_db_pass::LogPass;

/// A sync that isn't finished: the medium as it was before, and what is fetched for it, which is
/// the latest operation alone.
#[derive(Drop)]
pub struct PlainPass {
    pub medium: PlainMedium,
    pub pass: LogPass<PlainOp>,
    ghost latest: { pass.fetches ≡ Latest },
}

impl Faulty for PlainPass {
    ghost use Rattle.stateful_db_plain.specs.Stored.{calls_of};

    ghost count = { λ p. (calls_of p.medium).faults };

    fn faults(&self) -> u64 {
        self.medium.faults()
    }
}
