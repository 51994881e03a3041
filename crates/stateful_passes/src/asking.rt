//! One request of a sync.

ghost use Rattle.std.specs.Prelude.{◌≡◌, ◌≤◌, true, false, IfOk, IfSome, IsErrOf};
ghost use Rattle.stateful_base.specs.Causes.{Rose};
ghost use Rattle.stateful_db_pass.specs.declared.fault.SyncFault.{SyncFault};
ghost use Rattle.stateful_db_pass.specs.Fetched.{is_reached, Leads};
ghost use Rattle.stateful_passes.specs.Asks.{Asks, IsKind, told};

use stateful_base::Target;
use stateful_db_log::Linked;
use stateful_db_pass::{LogPass, SyncFault};
use stateful_db_source::SyncSource;

/// Makes one request of a pass that lacks something, and takes what the source answers. The target
/// is answered where it is reached.
pub fn ask<Op: Linked, R: SyncSource<Op = Op>>(
    pass: &mut LogPass<Op>,
    source: &mut R,
) -> Result<Option<Target>, SyncFault>
    requires { is_reached pass.old ≡ false }
    ensures asks { Asks R.serves Op.linked Op.alone pass.old source.old
        (told pass.old.target result) pass.new source.new }
    ensures target { IfOk result (λ reached. IfSome reached (λ t. t ≡ pass.old.target)) }
    ensures reached { IfOk result (λ reached. IfSome reached (λ _.
        (is_reached pass.new ≡ true) × Leads Op.linked pass.new)) }
    ensures kind { IsKind pass.old pass.new }
    ensures later { R.count source.old ≤ R.count source.new }
    ensures failed { IsErrOf result SyncFault.Failed
        → Rose (R.count source.old) (R.count source.new) }
    ensures valid { IsErrOf result SyncFault.InvalidTarget → ⊥ }
{
    prove!(!pass.is_reached());
    pass.progress(source)
}
