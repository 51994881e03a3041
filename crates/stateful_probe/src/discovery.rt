//! Discovery: the participants are asked, and the floor is selected from their replies.
//!
//! A round begins with the first subscription that has to wait: the participants of the lowest
//! epoch are asked, and earlier replies are dropped. `Retry` begins it again while someone waits.
//!
//! Of each peer the first good reply counts (`receive`). It is kept in `state.sample`, and what
//! isn't a good reply may block its peer. Once more replies are kept than participants may be
//! faulty, the highest is the floor. All in `state.subscribers` are handed it at once, and wait no
//! longer.
//!
//! The floor stays from then on: further replies are dropped unread, and later subscriptions are
//! answered with it. Where all that waited have left before, a good reply drops the others, and the
//! next subscription begins a round anew. `Steps` of `specs/Probe.antt` has the rules.

ghost use Rattle.std.specs.Prelude.{◌≡◌, ◌<◌, ◌-◌, ◌^◌, ◌++◌, List, [], false, Option, Some};
ghost use Rattle.std.specs.Prelude.{is_some, OnOk, length};
ghost use Rattle.stateful_base.specs.declared.finalization.Finalization.{Finalization};
ghost use Rattle.stateful_probe.specs.Setup.{setup, scheme_in, committee};
ghost use Rattle.stateful_probe.specs.Probe.{Steps, asked, restarted, handed_out, is_serving};
ghost use Rattle.stateful_probe.specs.Discovery.{Chooses};
ghost use Rattle.stateful_probe.specs.declared.probe.Config.{Config};
ghost use Rattle.stateful_probe.specs.declared.event.Event.TheVariants as events;

use crate::event::Out;
use crate::reply::{Judgement, judge};
use crate::schemes::Schemes;
use crate::state::State;
use bytes::Bytes;
use stateful_types::{Epoch, Finalization, Items, OutOfMemory, Scheme, Share};
use std::alloc::Global;

/// Begins the round anew: the replies are dropped, and the participants of the lowest epoch are
/// asked.
pub(crate) fn request_latest<S: Scheme>(
    alloc: Global,
    schemes: &Schemes<S>,
    state: &mut State<S::Key, S::Certificate>,
    outs: &mut Vec<Out<S::Key, S::Certificate>>,
) -> Result<(), OutOfMemory>
    ensures restarted { OnOk result (state.new ≡ restarted state.old) }
    ensures asked { OnOk result (outs.new.items ≡ outs.old.items ++ asked (committee
        (setup S.Key.cmp S.Key.eq S.certificates S.keys S.certifies schemes.now))) }
{
    state.sample.reset();
    let Some(scheme) = schemes.lowest() else {
        return Ok(());
    };
    let peers = Items::from_vec(Vec::from_slice(alloc, scheme.participants())?);
    outs.push(Out::Request { peers })?;
    Ok(())
}

/// Hands the floor to each of those who wait. The last one is handed the floor itself, and no copy.
fn hand_out<K: Drop, C: Share + Drop>(
    floor: Finalization<C>,
    waiting: &[u64],
    outs: &mut Vec<Out<K, C>>,
) -> Result<(), OutOfMemory>
    ensures { OnOk result (outs.new.items ≡ outs.old.items ++ handed_out waiting.now (Some floor)) }
{
    let Some((last, others)) = waiting.split_last() else {
        return Ok(());
    };
    for ticket in others {
        outs.push(Out::Floor {
            ticket: *ticket,
            finalization: floor.share()?,
        })?;
    }
    outs.push(Out::Floor {
        ticket: *last,
        finalization: floor,
    })?;
    Ok(())
}

/// Selects the floor, if there are enough replies by now, and hands it to those who wait.
fn select_floor<S: Scheme>(
    schemes: &Schemes<S>,
    state: &mut State<S::Key, S::Certificate>,
    outs: &mut Vec<Out<S::Key, S::Certificate>>,
) -> Result<(), OutOfMemory>
    ensures { OnOk result ((keys : List S.Key)
        → committee (setup S.Key.cmp S.Key.eq S.certificates S.keys S.certifies schemes.now)
        ≡ Some keys
        → Chooses (setup S.Key.cmp S.Key.eq S.certificates S.keys S.certifies schemes.now)
        (length keys) state.old outs.old.items outs.new.items state.new) }
{
    let Some(scheme) = schemes.lowest() else {
        return Ok(());
    };
    let committee = scheme.participants().len() as u32;
    let judgeable = |f: &Finalization<S::Certificate>| -> bool
        ensures { result ≡ is_some (scheme_in schemes.entry.now.schemes f.now.round.epoch) }
    { schemes.scheme(f.round.epoch).is_some() };
    let Some(floor) = state.sample.select(committee, judgeable)? else {
        return Ok(());
    };
    hand_out(floor, state.subscribers.as_slice(), outs)?;
    state.subscribers.clear();
    Ok(())
}

/// Takes a message of a peer.
pub(crate) fn receive<S: Scheme>(
    alloc: Global,
    schemes: &Schemes<S>,
    state: &mut State<S::Key, S::Certificate>,
    peer: S::Key,
    value: Bytes,
    outs: &mut Vec<Out<S::Key, S::Certificate>>,
) -> Result<(), OutOfMemory>
    requires { outs.old.items ≡ [] }
    ensures { OnOk result (is_serving state.old ≡ false
        → (latest : Option (Finalization S.Certificate))
        → Steps (setup S.Key.cmp S.Key.eq S.certificates S.keys S.certifies schemes.now)
        latest state.old (events.Received peer value) outs.new.items state.new) }
{
    if !state.still_counts(&peer) {
        return Ok(());
    }
    match judge(alloc, schemes, &peer, value)? {
        Judgement::Ignored => {}
        Judgement::AtFault => outs.push(Out::Block { peer })?,
        Judgement::Good(finalization) => {
            if state.subscribers.is_empty() {
                state.sample.reset();
            } else {
                state.sample.record(peer, finalization)?;
                select_floor(schemes, state, outs)?;
            }
        }
    }
    Ok(())
}

/// Answers a subscription with the floor, closes it, or lets it wait.
pub(crate) fn subscribe<S: Scheme>(
    alloc: Global,
    schemes: &Schemes<S>,
    state: &mut State<S::Key, S::Certificate>,
    ticket: u64,
    outs: &mut Vec<Out<S::Key, S::Certificate>>,
) -> Result<(), OutOfMemory>
    requires below { ticket < 2 ^ 64 - 1 }
    requires none { outs.old.items ≡ [] }
    ensures { OnOk result ((latest : Option (Finalization S.Certificate))
        → Steps (setup S.Key.cmp S.Key.eq S.certificates S.keys S.certifies schemes.now)
        latest state.old (events.Subscribe ticket) outs.new.items state.new) }
{
    let serving = state.is_serving();
    state.next_ticket = ticket + 1;
    if let Some(floor) = state.sample.floor() {
        let finalization = floor.share()?;
        outs.push(Out::Floor {
            ticket,
            finalization,
        })?;
        return Ok(());
    }
    if serving {
        outs.push(Out::Closed { ticket })?;
        return Ok(());
    }
    if state.subscribers.is_empty() {
        request_latest(alloc, schemes, state, outs)?;
    }
    state.subscribers.push(ticket)?;
    Ok(())
}

/// Begins the round anew where someone waits for a floor.
pub(crate) fn retry<S: Scheme>(
    alloc: Global,
    schemes: &Schemes<S>,
    state: &mut State<S::Key, S::Certificate>,
    outs: &mut Vec<Out<S::Key, S::Certificate>>,
) -> Result<(), OutOfMemory>
    requires { outs.old.items ≡ [] }
    ensures { OnOk result ((latest : Option (Finalization S.Certificate))
        → Steps (setup S.Key.cmp S.Key.eq S.certificates S.keys S.certifies schemes.now)
        latest state.old events.Retry outs.new.items state.new) }
{
    if state.sample.floor().is_some() || state.subscribers.is_empty() {
        return Ok(());
    }
    request_latest(alloc, schemes, state, outs)
}

/// Closes all that wait.
pub(crate) fn stop<S: Scheme>(
    state: &mut State<S::Key, S::Certificate>,
    outs: &mut Vec<Out<S::Key, S::Certificate>>,
) -> Result<(), OutOfMemory>
    requires { outs.old.items ≡ [] }

    // Whatever probe is stopped.
    ensures { OnOk result ((config : Config S) (latest : Option (Finalization S.Certificate))
        → Steps (setup S.Key.cmp S.Key.eq S.certificates S.keys S.certifies config)
        latest state.old events.Stop outs.new.items state.new) }
{
    for ticket in state.subscribers.as_slice() {
        outs.push(Out::Closed { ticket: *ticket })?;
    }
    state.subscribers.clear();
    state.stopped = true;
    Ok(())
}
