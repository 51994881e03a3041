//! The probe, one event at a time.
//!
//! `step` refuses an event, or does it and answers what is to be done. The probe itself sends
//! nothing and knows no time. The caller sends what it is told to, hands in what peers answer, and
//! says `Retry` when too little came.
//!
//! Each message of a peer is taken by one of two phases, and `State::is_serving` tells by which.
//! While the node isn't attached, or someone waits for a floor, it is discovery (`discovery.rt`).
//! Else it is service (`service.rt`), and stays so: who subscribes then is answered or closed at
//! once, so nobody waits again.
//!
//! A refusal other than `BadEvent` sets `failed`, and from then on every event is refused.
//! `specs/Probe.antt` has a constructor for each rule, and `specs/Laws.antt` what holds whatever
//! events come. The rules stand in docs/RULES.md, "The probe".

ghost use Rattle.std.specs.Prelude.{◌≡◌, ◌≢◌, ◌^◌, ◌<◌, ◌↔◌, All, length, true, false, IfOk, OnOk};
ghost use Rattle.std.specs.Prelude.{IfErr, IsErrOf};
ghost use Rattle.stateful_probe.specs.Setup.{setup};
ghost use Rattle.stateful_probe.specs.Probe.{Steps, may_come, IsNew, IsExhausting};
ghost use Rattle.stateful_probe.specs.Laws.{KeepsLaws};

use crate::error::ProbeError;
use crate::event::{Event, ProbeEvent, ProbeOut};
use crate::schemes::Schemes;
use crate::state::State;
use crate::subscribers::Subscribers;
use crate::{discovery, service};
use stateful_probe_sample::Sample;
use stateful_types::{Epoch, Items, Latest, OutOfMemory, Scheme};
use std::alloc::Global;
use std::marker::Model;

/// The schemes of the epochs that are known, of which the first one of an epoch counts, and the
/// lowest epoch whose finalizations are taken. The participants of that epoch are asked, and they
/// alone are heard.
#[derive(Drop)]
pub struct Config<S> {
    pub schemes: Items<(Epoch, S)>,
    pub minimum_epoch: Epoch,
}

/// A probe: one event is one call of `step`.
#[derive(Drop)]
pub struct Probe<S: Scheme> {
    alloc: Global,
    schemes: Schemes<S>,
    state: State<S::Key, S::Certificate>,
    failed: bool,
}

impl<S: Scheme> Model for Probe<S> {
    ghost use Rattle.stateful_probe.specs.Probe.{Probed};

    ghost Value = { Probed S S.Key S.Certificate };

    ghost view = { λ a. record { config = a.schemes; state = a.state; failed = a.failed } };
}

impl<S: Scheme> Probe<S> {
    /// A probe that has asked nobody, and whom nobody has asked. Each scheme has fewer than 2^32
    /// participants.
    pub fn new(alloc: Global, config: Config<S>) -> Result<Probe<S>, OutOfMemory>
    where
        S: Drop,
        requires { All (λ known. length (S.keys known.1) < 2 ^ 32) config.schemes }
        ensures config { IfOk result (λ probe. probe.config ≡ config) }
        ensures new { IfOk result (λ probe. IsNew config.minimum_epoch probe.state) }
        ensures works { IfOk result (λ probe. probe.failed ≡ false) }

        // Whatever calls of `step` follow.
        ensures laws { IfOk result (λ probe. KeepsLaws
            (setup S.Key.cmp S.Key.eq S.certificates S.keys S.certifies config) probe.state) }
    {
        let minimum_epoch = config.minimum_epoch;
        Ok(Probe {
            alloc,
            schemes: Schemes::new(alloc, config)?,
            state: State {
                sample: Sample::new(alloc, minimum_epoch),
                subscribers: Subscribers::new(alloc),
                attached: false,
                next_ticket: 0,
                stopped: false,
            },
            failed: false,
        })
    }

    /// Takes one event in, and answers what is to be done. The order of refusals is `Failed`,
    /// `BadEvent`, `Exhausted`.
    pub fn step<L: Latest<S::Certificate>>(
        &mut self,
        event: ProbeEvent<S>,
        latest: &L,
    ) -> Result<Vec<ProbeOut<S>>, ProbeError>
        // What is put out, and the state behind the event, are those of the rules.
        ensures steps { IfOk result (λ outs. Steps
            (setup S.Key.cmp S.Key.eq S.certificates S.keys S.certifies self.old.config)
            (L.newest latest.now) self.old.state event outs.items self.new.state) }
        ensures came { OnOk result ((may_come self.old.state event ≡ true)
            × (self.old.failed ≡ false)
            × (self.new.failed ≡ false)) }
        ensures config { self.new.config ≡ self.old.config }

        // Each refusal has its cause; want of memory has none.
        ensures failed { IsErrOf result ProbeError.Failed ↔ (self.old.failed ≡ true) }
        ensures bad { IsErrOf result ProbeError.BadEvent
            ↔ ((self.old.failed ≡ false) × (may_come self.old.state event ≡ false)) }
        ensures exhausted { IsErrOf result ProbeError.Exhausted
            ↔ ((self.old.failed ≡ false)
            × (may_come self.old.state event ≡ true)
            × IsExhausting event) }

        // What a refusal leaves.
        ensures idle { IsErrOf result ProbeError.Failed → self.new ≡ self.old }
        ensures unchanged { IsErrOf result ProbeError.BadEvent → self.new ≡ self.old }
        ensures fails { IfErr result (λ e. e ≢ ProbeError.BadEvent → self.new.failed ≡ true) }
    {
        if self.failed {
            return Err(ProbeError::Failed);
        }
        if !self.state.allows(&event) {
            return Err(ProbeError::BadEvent);
        }
        match handle(self.alloc, &self.schemes, &mut self.state, event, latest) {
            Ok(outs) => Ok(outs),
            Err(error) => {
                self.failed = true;
                Err(error)
            }
        }
    }
}

/// Does what an event that may come asks for.
fn handle<S: Scheme, L: Latest<S::Certificate>>(
    alloc: Global,
    schemes: &Schemes<S>,
    state: &mut State<S::Key, S::Certificate>,
    event: ProbeEvent<S>,
    latest: &L,
) -> Result<Vec<ProbeOut<S>>, ProbeError>
    ensures steps { IfOk result (λ outs. Steps
        (setup S.Key.cmp S.Key.eq S.certificates S.keys S.certifies schemes.now)
        (L.newest latest.now) state.old event outs.items state.new) }

    // It is refused for want of numbers or memory alone.
    ensures exhausted { IsErrOf result ProbeError.Exhausted ↔ IsExhausting event }
    ensures live { IsErrOf result ProbeError.BadEvent → ⊥ }
    ensures goes_on { IsErrOf result ProbeError.Failed → ⊥ }
{
    let mut outs = Vec::new(alloc);
    match event {
        Event::Subscribe { ticket } => {
            if ticket == u64::MAX {
                return Err(ProbeError::Exhausted);
            }
            discovery::subscribe(alloc, schemes, state, ticket, &mut outs)?;
        }
        Event::Cancel { ticket } => state.subscribers.remove(ticket),
        Event::Attach => state.attached = true,
        Event::Received { peer, value } => {
            if state.is_serving() {
                service::receive::<S, L>(alloc, latest, peer, value, &mut outs)?;
            } else {
                discovery::receive(alloc, schemes, state, peer, value, &mut outs)?;
            }
        }
        Event::Retry => discovery::retry(alloc, schemes, state, &mut outs)?,
        Event::Stop => discovery::stop::<S>(state, &mut outs)?,
    }
    Ok(outs)
}
