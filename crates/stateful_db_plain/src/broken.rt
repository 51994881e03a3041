//! Failed changes.

ghost use Rattle.std.specs.Prelude.{◌≡◌};
ghost use Rattle.stateful_db.specs.Disk.{all};
ghost use Rattle.stateful_db_medium.specs.Kept as kept;
ghost use Rattle.stateful_db_plain.specs.Rooted.{AreRooted};

use crate::medium::PlainMedium;
use crate::state::PlainState;
use stateful_db::Broken;
use stateful_db_medium::Medium;

/// The failed change of a database.
pub(crate) fn broken(change: Broken<Medium<PlainState>>) -> Broken<PlainMedium>
    requires { AreRooted (all (kept.disk_of change.medium)) }
    ensures medium { result.medium.medium ≡ change.medium }
    ensures why { result.why ≡ change.why }
{
    let Broken { medium, why } = change;
    Broken {
        medium: PlainMedium { medium },
        why,
    }
}
