//! Checkpoints by their targets.

ghost use Rattle.std.specs.Prelude.{◌≡◌, ◌≢◌, ◌⊎◌, ◌<◌, ◌≤◌, length, Some, IfOk, IfErr, IsErrAnd};
ghost use Rattle.std.specs.Prelude.{◌↔◌, IsTrue};
ghost use Rattle.stateful_base.specs.Causes.{Rose};
ghost use Rattle.stateful_db.specs.Targeted.{compact_target};
ghost use Rattle.stateful_db.specs.Disk.{all};
ghost use Rattle.stateful_db.specs.Reopening.{FailsToReopen, HasNone};
ghost use Rattle.stateful_db.specs.Calls.{Called, IsListed};
ghost use Rattle.stateful_db_medium.specs.Kept.{disk_of, next_of, calls_of};
ghost use Rattle.stateful_db_medium.specs.Openings.{IsNumberOf};
ghost use Rattle.stateful_db_compact.specs.Compacted.{target_of};

use super::state::{Commit, compact_target};
use stateful_base::CompactTarget;
use stateful_db::{DbCall, InitError, Targeted};
use stateful_db_medium::Medium;

/// The number of the kept checkpoint of this target, or of the latest. This is a call of the kind
/// `Init`; `Database` exactly where it is listed as a failing one, or no kept checkpoint has the
/// expected end.
pub fn number_to_open<V: Drop>(
    medium: &mut Medium<Commit<V>>,
    expected: Option<CompactTarget>,
) -> Result<usize, InitError>
    ensures ok { IfOk result (λ n.
        IsNumberOf target_of compact_target expected (disk_of medium.old) n) }
    ensures within { IfOk result (λ n. n < length (all (disk_of medium.old))) }
    ensures cause { IfErr result (λ e.
        FailsToReopen target_of compact_target expected (disk_of medium.old)
        (Rose (calls_of medium.old).faults (calls_of medium.new).faults) e) }
    ensures listed { IsListed (calls_of medium.old) DbCall.Init
        → IsErrAnd result (λ e. e ≡ InitError.Database) }
    ensures unlisted { IfErr result (λ e.
        e ≡ InitError.Database
        → IsListed (calls_of medium.old) DbCall.Init
        ⊎ HasNone target_of compact_target expected (disk_of medium.old)) }
    ensures memory { IfErr result (λ e. e ≢ InitError.OutOfMemory) }
    ensures called { Called DbCall.Init (calls_of medium.old) (calls_of medium.new) }
    ensures count { (calls_of medium.old).faults ≤ (calls_of medium.new).faults }
    ensures disk { disk_of medium.new ≡ disk_of medium.old }
    ensures next { next_of medium.new ≡ next_of medium.old }
{
    if medium.fails(DbCall::Init) {
        return Err(InitError::Database);
    }
    match expected {
        None => Ok(medium.latest()),
        Some(expected) => number_of(medium, expected),
    }
}

/// The number of the kept checkpoint of this target.
fn number_of<V: Drop>(
    medium: &Medium<Commit<V>>,
    expected: CompactTarget,
) -> Result<usize, InitError>
    ensures ok { IfOk result (λ n.
        IsNumberOf target_of compact_target (Some expected) (disk_of medium.now) n) }
    ensures within { IfOk result (λ n. n < length (all (disk_of medium.now))) }
    ensures err { IfErr result (λ e.
        FailsToReopen target_of compact_target (Some expected) (disk_of medium.now) ⊥ e) }
    ensures memory { IfErr result (λ e. e ≢ InitError.OutOfMemory) }
{
    let number = match medium.number_with_end(expected.size) {
        Some(number) => number,
        None => return Err(InitError::Database),
    };
    let recovered = compact_target(medium.get(number));
    if is_same(recovered, expected) {
        Ok(number)
    } else {
        Err(InitError::TargetMismatch {
            expected: expected.target(),
            recovered: recovered.target(),
        })
    }
}

fn is_same(one: CompactTarget, other: CompactTarget) -> bool
    ensures { IsTrue result ↔ (one ≡ other) }
{
    one == other
}
