//! How the machine stops.
//!
//! The work that ends is what is live after the event and the marks that it has made so far. The
//! register hasn't taken these in yet, so a copy of it does, and tells the marks that end the rest
//! (`end_work`). The mark `Stopped` follows, and execution and the loop are cleared.
//!
//! The register itself takes in all these marks at the end of the event, and is empty then. A
//! stopped machine refuses every event but a restart. `EndsWork` and `Stops` of
//! `stateful_actor_laws/specs/Steps.antt` say what is done.

ghost use Rattle.std.specs.Prelude.{◌≡◌, ◌++◌, ◌∷◌, [], OnOk, IfErr, List};
ghost use Rattle.stateful_history.specs.declared.mark.Mark.{Mark as Marked};
ghost use Rattle.stateful_history.specs.declared.mark.Mark.TheVariants as mark;
ghost use Rattle.stateful_loop_model.specs.Clearing.{IsCleared};
ghost use Rattle.stateful_loop_model.specs.Moments.{executing};
ghost use Rattle.stateful_actor_laws.specs.Steps.{EndsWork};
ghost use Rattle.stateful_actor_step.specs.Reading.{beside};

use crate::inside::Core;
use crate::reading::Readable;
use stateful_base::OutOfMemory;
use stateful_db::{Application, DatabaseSet};
use stateful_history::{Event, Mark};
use stateful_loop::{StepError, clear};

impl<A: Application + Drop> Core<A> {
    /// Ends all that is live after an event with its marks so far. The register stays as it is: it
    /// hasn't taken in the event yet.
    pub fn end_work(
        &self,
        event: &Event<A::Block, A::Context, A::Input>,
        marks: &mut Vec<Mark<A::Block>>,
    ) -> Result<(), OutOfMemory>
        ensures { OnOk result (EndsWork A.Databases.kind.count self.now.register event.now
            marks.old.items marks.new.items) }
    {
        let mut live = self.register.share()?;
        live.record(A::Databases::count(), event, marks.as_slice())?;
        live.end_all::<A::Block, A::Context, A::Input>(marks)?;
        Ok(())
    }

    /// Ends all that is live after an event with its marks so far, marks that the machine has
    /// stopped, and drops what goes on.
    pub fn stop(
        &mut self,
        event: &Event<A::Block, A::Context, A::Input>,
        marks: &mut Vec<Mark<A::Block>>,
    ) -> Result<(), StepError>
        ensures work { OnOk result ((ends : List (Marked A.Block))
            × EndsWork A.Databases.kind.count self.old.register event.now marks.old.items ends
            × (marks.new.items ≡ ends ++ mark.Stopped ∷ [])) }
        ensures cleared { OnOk result (let r = ⟦<A as Readable>⟧.reading in
            (d : A.Databases) (k : List (Marked A.Block))
            → IsCleared r.workings
            (beside r (executing self.old.handler) self.old.processing d k)
            (beside r (executing self.new.handler) self.new.processing d k)) }
        ensures memory { IfErr result (λ e. (e ≡ StepError.OutOfMemory) × (self.new ≡ self.old)) }
        ensures application { self.new.handler.application ≡ self.old.handler.application }
        ensures same { (self.new.register ≡ self.old.register)
            × (self.new.provider ≡ self.old.provider)
            × (self.new.db_config ≡ self.old.db_config) }
    {
        self.end_work(event, marks)?;
        marks.push(Mark::Stopped)?;
        clear(&mut self.handler, &mut self.processing);
        Ok(())
    }
}
