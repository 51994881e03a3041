//! One thing after another goes on.

ghost use Rattle.std.specs.Prelude.{OnOk, OnErr, IfErr, ◌≡◌, true};
ghost use Rattle.stateful_loop_model.specs.Moments.{executing};
ghost use Rattle.stateful_loop_model.specs.Noted.{NotesFollow};
ghost use Rattle.stateful_loop_model.specs.Sound.{IsUp, Sound};
ghost use Rattle.stateful_actor_laws.specs.Left.{LeavesSettling};
ghost use Rattle.stateful_actor_laws.specs.Steps.{Settles};
ghost use Rattle.stateful_actor_step.specs.Faults.{FaultsSettling, NeverFalls};
ghost use Rattle.stateful_actor_step.specs.Notes.{NotesSettling};
ghost use Rattle.stateful_actor_step.specs.Reading.{beside, tallied};

use crate::inside::Core;
use crate::reading::Readable;
use stateful_base::BlockStore;
use stateful_db::{Application, DatabaseSet};
use stateful_history::Mark;
use stateful_loop::{StepError, go_on};

impl<A: Application + Drop> Core<A> {
    /// Lets one thing after another go on, until nothing can without another event.
    pub fn settle<S: BlockStore<A::Block>>(
        &mut self,
        databases: &mut A::Databases,
        store: &S,
        marks: &mut Vec<Mark<A::Block>>,
    ) -> Result<(), StepError>
        requires none_away { A.Databases.kind.NoneAway (A.Databases.members databases.old) }
        requires up { self.old.processing.up ≡ true
            → let r = ⟦<A as Readable>⟧.reading in IsUp r.workings
            (beside r (executing self.old.handler) self.old.processing databases.old
            marks.old.items) }
        ensures ok { OnOk result (let r = ⟦<A as Readable>⟧.reading in
            Settles r.workings (S.stored store.now) self.old.provider
            (beside r (executing self.old.handler) self.old.processing databases.old
            marks.old.items)
            (beside r (executing self.new.handler) self.new.processing databases.new
            marks.new.items)) }
        ensures sound { OnOk result (let r = ⟦<A as Readable>⟧.reading in Sound r.workings
            (beside r (executing self.new.handler) self.new.processing databases.new
            marks.new.items)) }
        ensures notes { OnOk result (NotesFollow A.works.noted
            (A.notes self.old.handler.application) (A.notes self.new.handler.application)
            self.old.processing.front self.new.processing.front marks.old.items marks.new.items) }
        ensures fault { IfErr result (let r = ⟦<A as Readable>⟧.reading in
            FaultsSettling r.workings (S.stored store.now) self.old.provider
            (tallied r self.old.handler.application databases.old)
            (tallied r self.new.handler.application databases.new)
            (r.members databases.new)
            (beside r (executing self.old.handler) self.old.processing databases.old
            marks.old.items)) }
        ensures left { OnErr result (let r = ⟦<A as Readable>⟧.reading in
            LeavesSettling r.workings (S.stored store.now) self.old.provider
            (beside r (executing self.old.handler) self.old.processing databases.old
            marks.old.items)
            (r.members databases.new)) }
        ensures noted { IfErr result (λ e. (e ≡ StepError.OutOfMemory → ⊥)
            → let r = ⟦<A as Readable>⟧.reading in
            NotesSettling r.workings (S.stored store.now) self.old.provider A.works.noted
            (A.notes self.old.handler.application) (A.notes self.new.handler.application)
            (beside r (executing self.old.handler) self.old.processing databases.old
            marks.old.items)) }
        ensures none_away { A.Databases.kind.NoneAway (A.Databases.members databases.new) }
        ensures never_falls { let r = ⟦<A as Readable>⟧.reading in NeverFalls
            (tallied r self.old.handler.application databases.old)
            (tallied r self.new.handler.application databases.new)
            (beside r (executing self.old.handler) self.old.processing databases.old
            marks.old.items)
            (beside r (executing self.new.handler) self.new.processing databases.new
            marks.new.items) }
        ensures same { (self.new.register ≡ self.old.register)
            × (self.new.provider ≡ self.old.provider)
            × (self.new.db_config ≡ self.old.db_config) }
    {
        'rules: while go_on(
            &mut self.handler,
            &mut self.processing,
            databases,
            self.provider,
            store,
            marks,
        )? {}
        Ok(())
    }
}
