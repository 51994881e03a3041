//! Failed changes.

ghost use Rattle.std.specs.Prelude.{◌≡◌};

use super::medium::CompactMedium;
use super::state::Commit;
use stateful_db::Broken;
use stateful_db_medium::Medium;

/// The failed change of a compact database.
pub fn broken<V: Drop>(change: Broken<Medium<Commit<V>>>) -> Broken<CompactMedium<V>>
    ensures medium { result.medium.medium ≡ change.medium }
    ensures why { result.why ≡ change.why }
{
    let Broken { medium, why } = change;
    Broken {
        medium: CompactMedium { medium },
        why,
    }
}
