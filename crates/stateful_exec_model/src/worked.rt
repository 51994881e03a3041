//! What execution reads of an application.

use stateful_db::{Application, DatabaseSet};

/// What execution reads of an application, in one record.
pub trait Worked: Application {
    ghost use Rattle.stateful_exec_model.specs.Workings.{Workings};

    ghost workings: { Workings Self.Block Self.Context Self.Input Self.Provider Self.Run Self.Build Self.Hook
        Self.Captured Self.Databases.Merkleized };
}

impl<A: Application> Worked for A {
    ghost use Rattle.stateful_exec_model.specs.Workings.{workings};

    ghost workings = { workings A.Block.header A.Block.context_of A.Context.round_of A.works A.Databases.kind
        A.Databases.shows };
}
