//! A whole list of events.
//!
//! `drive` takes a new machine and its databases, and steps through the events. Each event that was
//! taken in is an entry of the history, with its marks. The room for the entry is taken before the
//! step, so an event that was done is never left out for want of memory.
//!
//! The first event that is refused ends the list. `Halt` hands back the machine, the databases and
//! the history of the events before, with the place of that event and its error. After `BadEvent` a
//! caller may go on with `step` as if that event hadn't come. After any other error a restart comes
//! next.
//!
//! `TakesEvents` of `specs/Driving.antt` says what came of events that were taken in, and `HaltsAt`
//! why a list of them ends. docs/RULES.md says it in words, "One event".

ghost use Rattle.std.specs.Prelude.{◌≡◌, ◌++◌, ◌∷◌, [], List, false, IfOk, IfErr, OnOk, OnErr};
ghost use Rattle.std.specs.Prelude.{IsErrOf, map};
ghost use Rattle.stateful_history.specs.declared.mark.Mark.{Mark as Marked};
ghost use Rattle.stateful_actor.specs.Driving.{RefusesEntry, TakesEvents, HaltsAt};
ghost use Rattle.stateful_actor_laws.specs.Machine.{IsSafe, IsNew};
ghost use Rattle.stateful_actor_step.specs.Faults.{NeverFalls};
ghost use Rattle.stateful_actor_step.specs.Notes.{HasObserved};
ghost use Rattle.stateful_actor_step.specs.Reading.{node};
ghost use Rattle.stateful_actor_step.specs.Step.{TakesEvent};

use stateful_actor_step::{Readable, Stateful};
use stateful_base::{BlockStore, Items, Share};
use stateful_db::{Application, DatabaseSet};
use stateful_history::{Entry, Event};
use stateful_loop::StepError;
use std::alloc::Global;

/// What came of events that were all taken in: the machine, the databases, and the history.
#[derive(Drop)]
pub struct Driven<A: Application + Drop> {
    pub stateful: Stateful<A>,
    pub databases: A::Databases,
    pub history: Vec<Entry<A::Block, A::Context, A::Input>>,
}

/// Which event was refused, and why.
#[derive(Clone, Copy, Debug, PartialEq, Eq)]
pub struct Halted {
    pub at: usize,
    pub error: StepError,
}

/// What came of the events before one that was refused.
#[derive(Drop)]
pub struct Halt<A: Application + Drop> {
    pub driven: Driven<A>,
    pub halted: Halted,
}

/// Takes in one event, and adds its entry to the history. The room for the entry is taken before.
fn enter<A: Application + Drop, S: BlockStore<A::Block>>(
    driven: &mut Driven<A>,
    store: &mut S,
    event: Event<A::Block, A::Context, A::Input>,
) -> Result<(), StepError>
    requires working { driven.old.stateful.failed ≡ false }
    requires safe { let r = ⟦<A as Readable>⟧.reading in IsSafe r.workings
        driven.old.stateful.failed (node r driven.old.stateful driven.old.databases).at }
    ensures ok { OnOk result (let r = ⟦<A as Readable>⟧.reading in
        (marks : List (Marked A.Block))
        × (driven.new.history.items
        ≡ driven.old.history.items ++ record { event = event; marks = marks } ∷ [])
        × TakesEvent r.workings (S.stored store.old) driven.old.stateful.provider r.counts event
        (node r driven.old.stateful driven.old.databases)
        (node r driven.new.stateful driven.new.databases) marks) }
    ensures err { IfErr result (let r = ⟦<A as Readable>⟧.reading in
        RefusesEntry r.workings (S.stored store.old) driven.old.stateful.provider r.counts event
        (node r driven.old.stateful driven.old.databases)
        (node r driven.new.stateful driven.new.databases)) }
    ensures history { OnErr result (driven.new.history.items ≡ driven.old.history.items) }
    ensures calm { OnErr result (driven.new.stateful.failed ≡ false
        → driven.new.databases ≡ driven.old.databases) }
    ensures bad { IsErrOf result StepError.BadEvent → driven.new.stateful.failed ≡ false }
    ensures safe { let r = ⟦<A as Readable>⟧.reading in IsSafe r.workings
        driven.new.stateful.failed (node r driven.new.stateful driven.new.databases).at }
    ensures observed { OnOk result (HasObserved driven.old.stateful.failed
        driven.old.stateful.loop.front
        → HasObserved driven.new.stateful.failed driven.new.stateful.loop.front) }
    ensures never_falls { let r = ⟦<A as Readable>⟧.reading in
        let old = node r driven.old.stateful driven.old.databases in
        let new = node r driven.new.stateful driven.new.databases in
        NeverFalls old.faults new.faults old.at new.at }
    ensures same { (store.new ≡ store.old)
        × (driven.new.stateful.provider ≡ driven.old.stateful.provider) }
{
    driven.history.reserve(1)?;
    let kept = event.share()?;
    let marks = driven.stateful.step(&mut driven.databases, store, event)?;
    driven.history.push(Entry {
        event: kept,
        marks: Items::from_vec(marks),
    })?;
    Ok(())
}

/// Steps through all events, up to the first that is refused. The machine is new, and no database
/// is away.
pub fn drive<A: Application + Drop, S: BlockStore<A::Block>>(
    alloc: Global,
    stateful: Stateful<A>,
    databases: A::Databases,
    store: &mut S,
    events: Vec<Event<A::Block, A::Context, A::Input>>,
) -> Result<Driven<A>, Halt<A>>
    requires new { let r = ⟦<A as Readable>⟧.reading in IsNew r.workings stateful.failed
        stateful.register (node r stateful databases).at }
    requires none_away { A.Databases.kind.NoneAway (A.Databases.members databases) }

    // All events were taken in, and are the history.
    ensures all { IfOk result (λ driven. map (λ entry. entry.event) driven.history.items
        ≡ events.items) }
    ensures ok { IfOk result (λ driven. let r = ⟦<A as Readable>⟧.reading in
        TakesEvents r.workings (S.stored store.old) stateful.provider r.counts
        (node r stateful databases) driven.history.items
        (node r driven.stateful driven.databases)) }

    // Or one was refused, and those before it are the history.
    ensures err { IfErr result (λ halt. let r = ⟦<A as Readable>⟧.reading in
        HaltsAt r.workings (S.stored store.old) stateful.provider r.counts
        (node r stateful databases) halt.driven.history.items
        (node r halt.driven.stateful halt.driven.databases) events.items halt.halted) }
    ensures store { store.new ≡ store.old }
{
    let mut driven = Driven {
        stateful,
        databases,
        history: Vec::new(alloc),
    };
    for event in events {
        match enter(&mut driven, store, event) {
            Ok(()) => {}
            Err(error) => {
                let at = driven.history.len();
                return Err(Halt {
                    driven,
                    halted: Halted { at, error },
                });
            }
        }
    }
    Ok(driven)
}
