//! One event.
//!
//! 1. `admit` takes the event on or refuses it. It only reads, so after `Failed` and `BadEvent`
//!    nothing has changed.
//! 2. `failed` is set, so an error from here on leaves a machine that has failed.
//! 3. `act` does the event, and lets go on what can. It makes the marks, in their order.
//! 4. `faults` counts the event where the application or a job has failed in it.
//! 5. The register takes in the event with all its marks, `failed` is taken back, and the marks are
//!    the answer.
//!
//! An event that is refused after it was taken on has no marks and isn't in the register, though
//! databases may have changed. A restart ends what is live by the register.
//!
//! `IsStep` of `stateful_actor_laws/specs/Steps.antt` says what an event does, `IsCause` of
//! `specs/Faults.antt` why it is refused, and docs/RULES.md both in words, "One event".

ghost use Rattle.std.specs.Prelude.{◌≡◌, true, false, IfOk, IfErr, IsErrOf};
ghost use Rattle.stateful_actor_laws.specs.Machine.{IsSafe, is_restart};
ghost use Rattle.stateful_actor_step.specs.Faults.{NeverFalls};
ghost use Rattle.stateful_actor_step.specs.Machine.{faults_after};
ghost use Rattle.stateful_actor_step.specs.Notes.{HasObserved};
ghost use Rattle.stateful_actor_step.specs.Reading.{node};
ghost use Rattle.stateful_actor_step.specs.Step.{TakesEvent, RefusesEvent};

use crate::reading::Readable;
use crate::stateful::Stateful;
use stateful_base::BlockStore;
use stateful_db::{Application, DatabaseSet};
use stateful_history::{Event, Mark};
use stateful_loop::StepError;

/// One more where the application or a job has failed.
fn count_fault(faults: u64, acted: &Result<(), StepError>) -> u64
    ensures { result ≡ faults_after acted.now faults }
{
    match acted {
        Err(StepError::Application) => faults.saturating_add(1),
        _ => faults,
    }
}

impl<A: Application + Drop> Stateful<A> {
    /// Takes one event in, and answers the marks that it made. The order of refusals is `Failed`,
    /// `BadEvent`, then the cause that arises first.
    pub fn step<S: BlockStore<A::Block>>(
        &mut self,
        databases: &mut A::Databases,
        store: &mut S,
        event: Event<A::Block, A::Context, A::Input>,
    ) -> Result<Vec<Mark<A::Block>>, StepError>
        requires { let r = ⟦<A as Readable>⟧.reading in IsSafe r.workings self.old.failed
            (node r self.old databases.old).at }

        // The event was taken in, and what could go on has gone on, with these marks. Whatever past
        // the machine stood for, it stands for that with the entry added.
        ensures ok { IfOk result (λ marks. let r = ⟦<A as Readable>⟧.reading in
            TakesEvent r.workings (S.stored store.old) self.old.provider r.counts event
            (node r self.old databases.old) (node r self.new databases.new) marks.items) }

        // The event was refused: why, and what it left of the machine, the databases and the media.
        ensures err { IfErr result (let r = ⟦<A as Readable>⟧.reading in
            RefusesEvent r.workings (S.stored store.old) self.old.provider r.counts event
            (node r self.old databases.old) (node r self.new databases.new)) }

        // After BadEvent nothing has changed, and neither has it where a machine that has failed
        // takes no restart. After any other error the machine has failed.
        ensures unchanged { IsErrOf result StepError.BadEvent
            → (self.new ≡ self.old) × (databases.new ≡ databases.old) }
        ensures idle { self.old.failed ≡ true
            → is_restart event ≡ false
            → (self.new ≡ self.old)
            × (databases.new ≡ databases.old)
            × IsErrOf result StepError.Failed }
        ensures fails { IfErr result (λ e. (e ≡ StepError.BadEvent → ⊥) → self.new.failed ≡ true) }

        // Whatever came of it, the machine may be called again with these databases. As long as it
        // hasn't failed the application has observed each block that was applied. A restart leaves
        // the application as it is.
        ensures safe { let r = ⟦<A as Readable>⟧.reading in IsSafe r.workings self.new.failed
            (node r self.new databases.new).at }
        ensures observed { HasObserved self.old.failed self.old.loop.front
            → HasObserved self.new.failed self.new.loop.front }
        ensures restarted { is_restart event ≡ true
            → self.new.application ≡ self.old.application }

        // Counts of faults and numbers never fall, and the store, the provider and the
        // configuration stay.
        ensures never_falls { let r = ⟦<A as Readable>⟧.reading in
            let old = node r self.old databases.old in
            let new = node r self.new databases.new in
            NeverFalls old.faults new.faults old.at new.at }
        ensures faults { self.new.faults ≡ faults_after result self.old.faults }
        ensures same { (store.new ≡ store.old)
            × (self.new.provider ≡ self.old.provider)
            × (self.new.config ≡ self.old.config) }
    {
        self.core.admit(self.failed, &event)?;
        self.failed = true;
        let mut marks = Vec::new(self.alloc);
        let acted = self.core.act(databases, store, &event, &mut marks);
        self.faults = count_fault(self.faults, &acted);
        match acted {
            Ok(()) => {}
            Err(error) => return Err(error),
        }
        self.core
            .register
            .record(A::Databases::count(), &event, marks.as_slice())?;
        self.failed = false;
        Ok(marks)
    }
}
