//! What an event does: a restart opens, and after another event goes on what can.
//!
//! A restart ends all work and opens the databases (`restarting.rt`). Nothing goes on then, since
//! nothing waits. Every other event is taken in, and one thing after another goes on until nothing
//! can (`playing.rt`). Either way the marks are appended in the order in which things are done.
//!
//! `IsStep` of `stateful_actor_laws/specs/Steps.antt` says what is done.

ghost use Rattle.std.specs.Prelude.{◌≡◌, [], true, false, List, OnOk, OnErr, IfErr};
ghost use Rattle.stateful_loop_model.specs.Moments.{executing};
ghost use Rattle.stateful_loop_model.specs.Noted.{unobserved};
ghost use Rattle.stateful_loop_model.specs.Sound.{IsUp, Sound};
ghost use Rattle.stateful_history.specs.Past.{Past};
ghost use Rattle.stateful_history.specs.declared.mark.Mark.{Mark as Marked};
ghost use Rattle.stateful_actor_register.specs.Register.{RegisterStands};
ghost use Rattle.stateful_actor_laws.specs.Left.{LeavesPlay};
ghost use Rattle.stateful_actor_laws.specs.Machine.{is_restart, numbered};
ghost use Rattle.stateful_actor_laws.specs.Media.{LeavesRestart};
ghost use Rattle.stateful_actor_laws.specs.Steps.{IsStep};
ghost use Rattle.stateful_actor_step.specs.Faults.{FaultsStep, NeverFalls};
ghost use Rattle.stateful_actor_step.specs.Notes.{NotesAlong, NotesRefused};
ghost use Rattle.stateful_actor_step.specs.Reading.{beside, tallied};

use crate::inside::Core;
use crate::reading::Readable;
use stateful_base::BlockStore;
use stateful_db::{Application, DatabaseSet};
use stateful_history::{Event, Mark};
use stateful_loop::StepError;

impl<A: Application + Drop> Core<A> {
    /// Does what an event does.
    pub fn act<S: BlockStore<A::Block>>(
        &mut self,
        databases: &mut A::Databases,
        store: &S,
        event: &Event<A::Block, A::Context, A::Input>,
        marks: &mut Vec<Mark<A::Block>>,
    ) -> Result<(), StepError>
        requires none_away { A.Databases.kind.NoneAway (A.Databases.members databases.old) }
        requires up { is_restart event.now ≡ false
            → let r = ⟦<A as Readable>⟧.reading in IsUp r.workings
            (beside r (executing self.old.handler) self.old.processing databases.old
            marks.old.items) }
        ensures ok { OnOk result (let r = ⟦<A as Readable>⟧.reading in
            IsStep r.workings (S.stored store.now) self.old.provider r.counts self.old.register
            event.now
            (beside r (executing self.old.handler) self.old.processing databases.old
            marks.old.items)
            (beside r (executing self.new.handler) self.new.processing databases.new
            marks.new.items)) }
        ensures sound { OnOk result (let r = ⟦<A as Readable>⟧.reading in Sound r.workings
            (beside r (executing self.new.handler) self.new.processing databases.new
            marks.new.items)) }
        ensures notes { OnOk result ((p : Past A.Block A.Context A.Input)
            → RegisterStands (numbered A.Databases.kind.count) p self.old.register
            → (is_restart event.now ≡ false → unobserved self.old.processing.front ≡ [])
            → NotesAlong A.works.noted (A.notes self.old.handler.application)
            (A.notes self.new.handler.application) marks.old.items marks.new.items) }
        ensures observed { OnOk result (
            (is_restart event.now ≡ false → unobserved self.old.processing.front ≡ [])
            → unobserved self.new.processing.front ≡ []) }
        ensures fault { IfErr result (let r = ⟦<A as Readable>⟧.reading in
            FaultsStep r.workings (S.stored store.now) self.old.provider r.counts
            (tallied r self.old.handler.application databases.old)
            (tallied r self.new.handler.application databases.new)
            (r.members databases.new)
            (beside r (executing self.old.handler) self.old.processing databases.old
            marks.old.items)
            event.now) }
        ensures other { IfErr result (λ e. e ≡ StepError.BadEvent → ⊥) }
        ensures left { is_restart event.now ≡ false
            → OnErr result (let r = ⟦<A as Readable>⟧.reading in
            (made : List (Marked A.Block))
            × LeavesPlay r.workings (S.stored store.now) self.old.provider r.counts event.now
            (beside r (executing self.old.handler) self.old.processing databases.old
            marks.old.items)
            (r.members databases.new) made) }
        ensures opening { OnErr result (let r = ⟦<A as Readable>⟧.reading in
            LeavesRestart r.workings (S.stored store.now) event.now (r.members databases.old)
            (r.members databases.new)) }
        ensures noted { IfErr result (λ e. (e ≡ StepError.OutOfMemory → ⊥)
            → let r = ⟦<A as Readable>⟧.reading in
            NotesRefused r.workings (S.stored store.now) self.old.provider A.works.noted
            (A.notes self.old.handler.application) (A.notes self.new.handler.application)
            r.counts event.now
            (beside r (executing self.old.handler) self.old.processing databases.old
            marks.old.items)) }
        ensures restarted { is_restart event.now ≡ true
            → self.new.handler.application ≡ self.old.handler.application }
        ensures none_away { A.Databases.kind.NoneAway (A.Databases.members databases.new) }
        ensures never_falls { let r = ⟦<A as Readable>⟧.reading in NeverFalls
            (tallied r self.old.handler.application databases.old)
            (tallied r self.new.handler.application databases.new)
            (beside r (executing self.old.handler) self.old.processing databases.old
            marks.old.items)
            (beside r (executing self.new.handler) self.new.processing databases.new
            marks.new.items) }
        ensures same { (self.new.register ≡ self.old.register)
            × (self.new.provider ≡ self.old.provider)
            × (self.new.db_config ≡ self.old.db_config) }
    {
        match event {
            Event::Restart { floor, keep } => {
                self.restart(databases, store, event, floor, keep.as_slice(), marks)
            }
            _ => self.play(databases, store, event, marks),
        }
    }
}
