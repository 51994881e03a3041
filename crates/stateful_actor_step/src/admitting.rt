//! Which events are taken on.

ghost use Rattle.std.specs.Prelude.{◌≡◌, ◌⊎◌, true, false, not, IfErr, OnOk, OnErr, IsErrOf};
ghost use Rattle.stateful_history.specs.Live.{may_come};
ghost use Rattle.stateful_history.specs.Opening.{is_down};
ghost use Rattle.stateful_history.specs.Past.{Past};
ghost use Rattle.stateful_actor_register.specs.Register.{RegisterStands};
ghost use Rattle.stateful_actor_laws.specs.Machine.{numbered, is_restart};

use crate::inside::Core;
use stateful_db::{Application, DatabaseSet};
use stateful_history::Event;
use stateful_loop::StepError;

/// Whether an event is a restart.
fn is_restart<B, C, I>(event: &Event<B, C, I>) -> bool
    ensures { result ≡ is_restart event.now }
{
    match event {
        Event::Restart { .. } => true,
        _ => false,
    }
}

impl<A: Application + Drop> Core<A> {
    /// Whether the event may come: a restart always, and another one where the machine is up and
    /// the register allows it.
    fn may_come(&self, event: &Event<A::Block, A::Context, A::Input>) -> bool
        ensures up { result ≡ true
            → is_restart event.now ≡ false
            → self.now.processing.up ≡ true }
        ensures restart { is_restart event.now ≡ true → result ≡ true }
        ensures yes { (p : Past A.Block A.Context A.Input)
            → RegisterStands (numbered A.Databases.kind.count) p self.now.register
            → result ≡ true
            → may_come (numbered A.Databases.kind.count) p event.now ≡ true }
        ensures no { (p : Past A.Block A.Context A.Input)
            → RegisterStands (numbered A.Databases.kind.count) p self.now.register
            → self.now.processing.up ≡ not (is_down p)
            → result ≡ false
            → may_come (numbered A.Databases.kind.count) p event.now ≡ false }
    {
        match event {
            Event::Restart { .. } => true,
            _ => self.processing.up && self.register.allows(event),
        }
    }

    /// Takes an event on, or refuses it: a machine that has failed takes a restart alone, and
    /// another event has to be allowed.
    pub fn admit(
        &self,
        failed: bool,
        event: &Event<A::Block, A::Context, A::Input>,
    ) -> Result<(), StepError>
        ensures works { OnOk result (is_restart event.now ≡ false → failed ≡ false) }
        ensures up { OnOk result (is_restart event.now ≡ false
            → self.now.processing.up ≡ true) }
        ensures yes { OnOk result ((p : Past A.Block A.Context A.Input)
            → RegisterStands (numbered A.Databases.kind.count) p self.now.register
            → may_come (numbered A.Databases.kind.count) p event.now ≡ true) }
        ensures one { IfErr result (λ e. (e ≡ StepError.Failed) ⊎ (e ≡ StepError.BadEvent)) }
        ensures failed { IfErr result (λ e. e ≡ StepError.Failed
            → (failed ≡ true) × (is_restart event.now ≡ false)) }
        ensures unlawful { IfErr result (λ e. e ≡ StepError.BadEvent
            → (p : Past A.Block A.Context A.Input)
            → RegisterStands (numbered A.Databases.kind.count) p self.now.register
            → self.now.processing.up ≡ not (is_down p)
            → may_come (numbered A.Databases.kind.count) p event.now ≡ false) }
        ensures idle { failed ≡ true
            → is_restart event.now ≡ false
            → IsErrOf result StepError.Failed }
        ensures other { OnErr result (is_restart event.now ≡ false) }
    {
        if failed && !is_restart(event) {
            return Err(StepError::Failed);
        }
        if !self.may_come(event) {
            return Err(StepError::BadEvent);
        }
        Ok(())
    }
}
