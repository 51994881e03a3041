//! What contracts read of a machine and of its databases.

use stateful_db::{Application, DatabaseSet};
use stateful_exec::Worked;

/// What contracts read of an application, of its jobs and of its databases, in one record.
pub trait Readable: Worked {
    ghost use Rattle.stateful_actor_step.specs.Reading.{Reading};

    ghost reading: { Reading Self.Block Self.Context Self.Input Self.Provider Self.Run Self.Build Self.Hook
        Self.Captured Self.Databases.Merkleized Self Self.Databases };
}

impl<A: Application> Readable for A {
    ghost reading = { record {
      workings = ⟦<A as Worked>⟧.workings;
      members = A.Databases.members;
      next = A.Databases.next;
      counted = A.Databases.counted;
      count = A.count;
      counts = record { run = A.Run.count; build = A.Build.count; hook = A.Hook.count };
      notes = A.notes;
    } };
}
