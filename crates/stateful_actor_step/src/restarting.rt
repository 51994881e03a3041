//! A restart.
//!
//! First all work ends that was live after the last event that was taken in: its marks are made
//! while the register still has it. Then execution and the loop are cleared, and the databases are
//! opened (`opening.rt` of `stateful_loop_opens`). The mark `Opened` is the last one.
//!
//! It is done alike whether the machine is up, down or has failed. Numbers of jobs, fetches and
//! barriers go on from where they stood, so none is used twice. Where the opening is refused no
//! mark is answered, and the machine takes a restart alone.
//!
//! `Restarts` of `stateful_actor_laws/specs/Steps.antt` says what is done, and docs/RULES.md has it in
//! words, "Stops and restarts".

ghost use Rattle.std.specs.Prelude.{◌≡◌, ◌⊎◌, OnOk, OnErr, IfErr};
ghost use Rattle.stateful_history.specs.Past.{Past};
ghost use Rattle.stateful_actor_register.specs.Register.{RegisterStands};
ghost use Rattle.stateful_loop_model.specs.Left.{LeavesOpening};
ghost use Rattle.stateful_loop_model.specs.Moments.{executing};
ghost use Rattle.stateful_loop_model.specs.Opening.{FaultsOpening};
ghost use Rattle.stateful_loop_model.specs.Sound.{Sound};
ghost use Rattle.stateful_actor_laws.specs.Machine.{numbered};
ghost use Rattle.stateful_actor_laws.specs.Steps.{Restarts};
ghost use Rattle.stateful_actor_step.specs.Faults.{NeverFalls};
ghost use Rattle.stateful_actor_step.specs.Notes.{NotesAlong};
ghost use Rattle.stateful_actor_step.specs.Reading.{beside, tallied};

use crate::inside::Core;
use crate::reading::Readable;
use stateful_base::{BlockStore, Floor};
use stateful_db::{Application, DatabaseSet};
use stateful_history::{Event, Mark};
use stateful_loop::{StepError, clear, open};

impl<A: Application + Drop> Core<A> {
    /// Ends all that is live, drops what goes on, and opens the databases on what a crash has left
    /// of them.
    pub fn restart<S: BlockStore<A::Block>>(
        &mut self,
        databases: &mut A::Databases,
        store: &S,
        event: &Event<A::Block, A::Context, A::Input>,
        floor: &Floor,
        keep: &[usize],
        marks: &mut Vec<Mark<A::Block>>,
    ) -> Result<(), StepError>
        requires none_away { A.Databases.kind.NoneAway (A.Databases.members databases.old) }
        ensures ok { OnOk result (let r = ⟦<A as Readable>⟧.reading in
            Restarts r.workings (S.stored store.now) self.old.register event.now floor.now keep.now
            (beside r (executing self.old.handler) self.old.processing databases.old
            marks.old.items)
            (beside r (executing self.new.handler) self.new.processing databases.new
            marks.new.items)) }
        ensures sound { OnOk result (let r = ⟦<A as Readable>⟧.reading in Sound r.workings
            (beside r (executing self.new.handler) self.new.processing databases.new
            marks.new.items)) }
        ensures notes { OnOk result ((p : Past A.Block A.Context A.Input)
            → RegisterStands (numbered A.Databases.kind.count) p self.old.register
            → NotesAlong A.works.noted (A.notes self.old.handler.application)
            (A.notes self.new.handler.application) marks.old.items marks.new.items) }
        ensures fault { IfErr result (let r = ⟦<A as Readable>⟧.reading in
            FaultsOpening r.workings (S.stored store.now) floor.now keep.now
            (r.counted databases.old) (r.counted databases.new)
            (r.members databases.old) (r.members databases.new)) }
        ensures other { IfErr result (λ e. e ≡ StepError.BadEvent → ⊥) }
        ensures left { OnErr result (let r = ⟦<A as Readable>⟧.reading in
            (r.members databases.new ≡ r.members databases.old)
            ⊎ LeavesOpening r.workings (S.stored store.now) floor.now keep.now
            (r.members databases.old) (r.members databases.new)) }
        ensures application { self.new.handler.application ≡ self.old.handler.application }
        ensures none_away { A.Databases.kind.NoneAway (A.Databases.members databases.new) }
        ensures never_falls { let r = ⟦<A as Readable>⟧.reading in NeverFalls
            (tallied r self.old.handler.application databases.old)
            (tallied r self.new.handler.application databases.new)
            (beside r (executing self.old.handler) self.old.processing databases.old
            marks.old.items)
            (beside r (executing self.new.handler) self.new.processing databases.new
            marks.new.items) }
        ensures same { (self.new.register ≡ self.old.register)
            × (self.new.provider ≡ self.old.provider)
            × (self.new.db_config ≡ self.old.db_config) }
    {
        self.end_work(event, marks)?;
        clear(&mut self.handler, &mut self.processing);
        open(
            &self.db_config,
            &mut self.handler,
            &mut self.processing,
            databases,
            store,
            floor,
            keep,
            marks,
        )?;
        Ok(())
    }
}
