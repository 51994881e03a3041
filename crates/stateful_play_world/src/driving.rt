//! Events, up to the first that is refused.

ghost use Rattle.std.specs.Prelude.{◌≡◌, ◌↔◌, IfOk, IsTrue};
ghost use Rattle.stateful_actor_laws.specs.Machine.{IsNew};
ghost use Rattle.stateful_actor_step.specs.Reading.{node};
ghost use Rattle.stateful_play_world.specs.Driven.{CameOf};

use stateful_actor::{
    Application, BlockStore, DatabaseSet, Driven, Event, Halt, Halted, OutOfMemory, Readable,
    Stateful, StepError, drive,
};
use std::alloc::Global;

/// Whether memory ran out.
fn wants_memory(error: StepError) -> bool
    ensures { IsTrue result ↔ (error ≡ StepError.OutOfMemory) }
{
    matches!(error, StepError::OutOfMemory)
}

/// What came of these events, and the refused one if one was. Nothing where it was refused for want
/// of memory. The machine is new, and no database is away.
pub fn drive_all<A: Application + Drop, S: BlockStore<A::Block>>(
    alloc: Global,
    stateful: Stateful<A>,
    databases: A::Databases,
    store: &mut S,
    events: Vec<Event<A::Block, A::Context, A::Input>>,
) -> Result<(Driven<A>, Option<Halted>), OutOfMemory>
    requires new { let r = ⟦<A as Readable>⟧.reading in IsNew r.workings stateful.failed
        stateful.register (node r stateful databases).at }
    requires none_away { A.Databases.kind.NoneAway (A.Databases.members databases) }
    ensures { IfOk result (λ told. let r = ⟦<A as Readable>⟧.reading in
        CameOf r.workings (S.stored store.old) stateful.provider r.counts events.items
        (node r stateful databases) told.0.history.items
        (node r told.0.stateful told.0.databases) told.1) }
{
    match drive(alloc, stateful, databases, store, events) {
        Ok(driven) => Ok((driven, None)),
        Err(Halt { driven, halted }) => {
            if wants_memory(halted.error) {
                return Err(OutOfMemory);
            }
            Ok((driven, Some(halted)))
        }
    }
}
