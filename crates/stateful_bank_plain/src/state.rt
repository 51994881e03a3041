//! States without a database.

ghost use Rattle.std.specs.Prelude.{◌≡◌, ℕ, IfOk};
ghost use Rattle.stateful_bank_app.specs.Rules.{stepped};
ghost use Rattle.stateful_bank_plain.specs.Single.{single_rules};

use stateful_bank::{Op, apply_ops};
use stateful_base::OutOfMemory;
use stateful_db_plain::PlainState;

/// The state after a block of these operations, whatever its height. None exactly where one of them
/// isn't allowed. A state whose range would end past the last number is refused as want of memory.
pub fn step(state: &PlainState, ops: &[Op]) -> Result<Option<PlainState>, OutOfMemory>
    ensures { IfOk result (λ after. (height : ℕ) →
        after ≡ stepped single_rules state.now ops.now height) }
{
    let Some(size) = state.size().checked_add(1) else {
        return Err(OutOfMemory);
    };
    match apply_ops(state.entries(), ops)? {
        Some(entries) => Ok(Some(PlainState::new(size, entries))),
        None => Ok(None),
    }
}
