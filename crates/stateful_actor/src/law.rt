//! What holds of runs and builds, whatever the machine is asked.

ghost use Rattle.std.specs.Prelude.{ℕ, Option};
ghost use Rattle.stateful_base.specs.Names.{Named};
ghost use Rattle.stateful_base.specs.declared.digest.Digest.{Digest};
ghost use Rattle.stateful_history.specs.Past.{Past};
ghost use Rattle.stateful_exec_model.specs.Workings.{Point};
ghost use Rattle.stateful_exec_tables.specs.declared.state.Tables.{Tables};
ghost use Rattle.stateful_exec_laws.specs.Depth.{RunsAreAsDeep, BuildsAreAsDeep};

use stateful_db::{Application, DatabaseSet};
use stateful_exec::Worked;

/// Where the tables of execution stand for a past, a run or a build begins over a chain that has one
/// point for each block from its parent down to the anchor, which isn't among them, and one more,
/// where the databases are. So no fork is deeper than its path.
pub fn forks_are_as_deep_as_their_paths<A: Application>()
    ensures runs { let w = ⟦<A as Worked>⟧.workings in
        (stored : ℕ → Option (Named A.Block)) (p : Past A.Block A.Context A.Input)
        (points : Digest → Point w) (point : Point w) (next now : w.Ids)
        (m : w.kind.Members) (old new : Tables A.Block A.Context A.Input A.Run
        A.Databases.Merkleized)
        → RunsAreAsDeep w stored p points point next now m old new }
    ensures builds { let w = ⟦<A as Worked>⟧.workings in
        (stored : ℕ → Option (Named A.Block)) (p : Past A.Block A.Context A.Input)
        (points : Digest → Point w) (point : Point w) (next now : w.Ids)
        (m : w.kind.Members) (old new : Tables A.Block A.Context A.Input A.Run
        A.Databases.Merkleized)
        → BuildsAreAsDeep w stored p points point next now m old new }
{}
