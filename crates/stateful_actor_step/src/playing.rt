//! An event other than a restart.
//!
//! The event is taken in, and then goes on what can (`advance`). Both may end `up`: a stop does so
//! as it is taken in, and a barrier that breaks while things go on. Nothing goes on from there.
//! Then `play` ends all work and marks that the machine has stopped (`stopping.rt`).
//!
//! So a stop is told after all that the event has done, and its marks are the last ones of the
//! entry. `Plays` and `Advances` of `stateful_actor_laws/specs/Steps.antt` say what is done.

ghost use Rattle.std.specs.Prelude.{◌≡◌, [], List, OnOk, OnErr, IfErr};
ghost use Rattle.stateful_loop_model.specs.Moments.{executing};
ghost use Rattle.stateful_loop_model.specs.Noted.{unobserved, NotesFollow};
ghost use Rattle.stateful_loop_model.specs.Sound.{IsUp, Sound};
ghost use Rattle.stateful_history.specs.Past.{Past};
ghost use Rattle.stateful_history.specs.declared.mark.Mark.{Mark as Marked};
ghost use Rattle.stateful_actor_register.specs.Register.{RegisterStands};
ghost use Rattle.stateful_actor_laws.specs.Left.{LeavesPlay};
ghost use Rattle.stateful_actor_laws.specs.Machine.{numbered};
ghost use Rattle.stateful_actor_laws.specs.Steps.{Advances, Plays};
ghost use Rattle.stateful_actor_step.specs.Faults.{FaultsPlay, NeverFalls};
ghost use Rattle.stateful_actor_step.specs.Notes.{NotesAlong, NotesPlay};
ghost use Rattle.stateful_actor_step.specs.Reading.{beside, tallied};

use crate::inside::Core;
use crate::reading::Readable;
use stateful_base::BlockStore;
use stateful_db::{Application, DatabaseSet};
use stateful_history::{Event, Mark};
use stateful_loop::{StepError, take_in};

impl<A: Application + Drop> Core<A> {
    /// Takes an event in, and lets go on what can.
    fn advance<S: BlockStore<A::Block>>(
        &mut self,
        databases: &mut A::Databases,
        store: &S,
        event: &Event<A::Block, A::Context, A::Input>,
        marks: &mut Vec<Mark<A::Block>>,
    ) -> Result<(), StepError>
        requires none_away { A.Databases.kind.NoneAway (A.Databases.members databases.old) }
        requires up { let r = ⟦<A as Readable>⟧.reading in IsUp r.workings
            (beside r (executing self.old.handler) self.old.processing databases.old
            marks.old.items) }
        ensures ok { OnOk result (let r = ⟦<A as Readable>⟧.reading in
            Advances r.workings (S.stored store.now) self.old.provider r.counts event.now
            (beside r (executing self.old.handler) self.old.processing databases.old
            marks.old.items)
            (beside r (executing self.new.handler) self.new.processing databases.new
            marks.new.items)) }
        ensures sound { OnOk result (let r = ⟦<A as Readable>⟧.reading in Sound r.workings
            (beside r (executing self.new.handler) self.new.processing databases.new
            marks.new.items)) }
        ensures notes { OnOk result (NotesFollow A.works.noted
            (A.notes self.old.handler.application) (A.notes self.new.handler.application)
            self.old.processing.front self.new.processing.front marks.old.items marks.new.items) }
        ensures observed { OnOk result (unobserved self.old.processing.front ≡ []
            → unobserved self.new.processing.front ≡ []) }
        ensures fault { IfErr result (let r = ⟦<A as Readable>⟧.reading in
            FaultsPlay r.workings (S.stored store.now) self.old.provider r.counts
            (tallied r self.old.handler.application databases.old)
            (tallied r self.new.handler.application databases.new)
            (r.members databases.new)
            (beside r (executing self.old.handler) self.old.processing databases.old
            marks.old.items)
            event.now) }
        ensures left { OnErr result (let r = ⟦<A as Readable>⟧.reading in
            (made : List (Marked A.Block))
            × LeavesPlay r.workings (S.stored store.now) self.old.provider r.counts event.now
            (beside r (executing self.old.handler) self.old.processing databases.old
            marks.old.items)
            (r.members databases.new) made) }
        ensures noted { IfErr result (λ e. (e ≡ StepError.OutOfMemory → ⊥)
            → let r = ⟦<A as Readable>⟧.reading in
            NotesPlay r.workings (S.stored store.now) self.old.provider A.works.noted
            (A.notes self.old.handler.application) (A.notes self.new.handler.application)
            r.counts event.now
            (beside r (executing self.old.handler) self.old.processing databases.old
            marks.old.items)) }
        ensures none_away { A.Databases.kind.NoneAway (A.Databases.members databases.new) }
        ensures never_falls { let r = ⟦<A as Readable>⟧.reading in NeverFalls
            (tallied r self.old.handler.application databases.old)
            (tallied r self.new.handler.application databases.new)
            (beside r (executing self.old.handler) self.old.processing databases.old
            marks.old.items)
            (beside r (executing self.new.handler) self.new.processing databases.new
            marks.new.items) }
        ensures same { (self.new.register ≡ self.old.register)
            × (self.new.provider ≡ self.old.provider)
            × (self.new.db_config ≡ self.old.db_config) }
    {
        take_in(
            &mut self.handler,
            &mut self.processing,
            databases,
            store,
            event,
            marks,
        )?;
        self.settle(databases, store, marks)
    }

    /// Takes an event in, and lets go on what can. A machine that isn't up any more stops.
    pub fn play<S: BlockStore<A::Block>>(
        &mut self,
        databases: &mut A::Databases,
        store: &S,
        event: &Event<A::Block, A::Context, A::Input>,
        marks: &mut Vec<Mark<A::Block>>,
    ) -> Result<(), StepError>
        requires none_away { A.Databases.kind.NoneAway (A.Databases.members databases.old) }
        requires up { let r = ⟦<A as Readable>⟧.reading in IsUp r.workings
            (beside r (executing self.old.handler) self.old.processing databases.old
            marks.old.items) }
        ensures ok { OnOk result (let r = ⟦<A as Readable>⟧.reading in
            Plays r.workings (S.stored store.now) self.old.provider r.counts self.old.register
            event.now
            (beside r (executing self.old.handler) self.old.processing databases.old
            marks.old.items)
            (beside r (executing self.new.handler) self.new.processing databases.new
            marks.new.items)) }
        ensures sound { OnOk result (let r = ⟦<A as Readable>⟧.reading in Sound r.workings
            (beside r (executing self.new.handler) self.new.processing databases.new
            marks.new.items)) }
        ensures notes { OnOk result ((p : Past A.Block A.Context A.Input)
            → RegisterStands (numbered A.Databases.kind.count) p self.old.register
            → unobserved self.old.processing.front ≡ []
            → NotesAlong A.works.noted (A.notes self.old.handler.application)
            (A.notes self.new.handler.application) marks.old.items marks.new.items) }
        ensures observed { OnOk result (unobserved self.old.processing.front ≡ []
            → unobserved self.new.processing.front ≡ []) }
        ensures fault { IfErr result (let r = ⟦<A as Readable>⟧.reading in
            FaultsPlay r.workings (S.stored store.now) self.old.provider r.counts
            (tallied r self.old.handler.application databases.old)
            (tallied r self.new.handler.application databases.new)
            (r.members databases.new)
            (beside r (executing self.old.handler) self.old.processing databases.old
            marks.old.items)
            event.now) }
        ensures other { IfErr result (λ e. e ≡ StepError.BadEvent → ⊥) }
        ensures left { OnErr result (let r = ⟦<A as Readable>⟧.reading in
            (made : List (Marked A.Block))
            × LeavesPlay r.workings (S.stored store.now) self.old.provider r.counts event.now
            (beside r (executing self.old.handler) self.old.processing databases.old
            marks.old.items)
            (r.members databases.new) made) }
        ensures noted { IfErr result (λ e. (e ≡ StepError.OutOfMemory → ⊥)
            → let r = ⟦<A as Readable>⟧.reading in
            NotesPlay r.workings (S.stored store.now) self.old.provider A.works.noted
            (A.notes self.old.handler.application) (A.notes self.new.handler.application)
            r.counts event.now
            (beside r (executing self.old.handler) self.old.processing databases.old
            marks.old.items)) }
        ensures none_away { A.Databases.kind.NoneAway (A.Databases.members databases.new) }
        ensures never_falls { let r = ⟦<A as Readable>⟧.reading in NeverFalls
            (tallied r self.old.handler.application databases.old)
            (tallied r self.new.handler.application databases.new)
            (beside r (executing self.old.handler) self.old.processing databases.old
            marks.old.items)
            (beside r (executing self.new.handler) self.new.processing databases.new
            marks.new.items) }
        ensures same { (self.new.register ≡ self.old.register)
            × (self.new.provider ≡ self.old.provider)
            × (self.new.db_config ≡ self.old.db_config) }
    {
        self.advance(databases, store, event, marks)?;
        if !self.processing.up {
            self.stop(event, marks)?;
        }
        Ok(())
    }
}
