//! Worlds whose databases can be made anew.

use crate::failing::Failing;
use crate::world::World;
use stateful_db::DatabaseSet;
use std::alloc::Global;

/// How the databases of a world are opened.
pub type Config<W> = <<W as World>::Databases as DatabaseSet>::Config;

/// A world whose databases can be made anew, on empty media.
pub trait Fresh: World + Drop {
    ghost use Rattle.std.specs.Prelude.{◌≡◌, ℕ};
    ghost use Rattle.stateful_bank_app.specs.Fresh.{AreEmpty, AreUncalled};

    /// The databases are closed on empty media.
    ghost blank: { Self.Databases → Type 0 };

    /// The databases, each closed on an empty medium on which no call was made. The calls that are
    /// to fail are those that are listed for its number.
    fn empty(alloc: Global, failing: Failing) -> Self::Databases
        ensures blank { blank result }
        ensures calls { AreUncalled Self.Databases.kind.count (Self.Databases.calls result)
            failing }
        ensures counts { (i : ℕ) → Self.Databases.counted result i ≡ 0 };

    /// How the databases are opened.
    fn config() -> Config<Self>;

    ghost blank_are: { (d : Self.Databases) → blank d
        → AreEmpty Self.Databases.kind (Self.Databases.members d) };

    /// A block that has the targets of the initial states commits to these.
    ghost commits: { Self.rules.committed (Self.rules.listed
        (Self.Databases.kind.target_of Self.Databases.kind.initial))
        ≡ Self.Databases.kind.target_of Self.Databases.kind.initial };
}
