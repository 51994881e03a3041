//! Service: peers that ask are sent the node's latest finalization.
//!
//! It begins once the node is attached and nobody waits, and goes on until the probe is stopped.
//! Each message is answered by itself, and nothing is kept between two of them. The finalization is
//! read anew at each request, so a peer gets the newest one.
//!
//! A response that comes late is dropped, since nobody waits for it. `specs/Service.antt` says
//! which bytes a response is, and `Steps` of `specs/Probe.antt` which rule applies.

ghost use Rattle.std.specs.Prelude.{◌≡◌, [], true, IfOk, OnOk};
ghost use Rattle.stateful_probe.specs.Setup.{setup};
ghost use Rattle.stateful_probe.specs.Probe.{Steps, is_serving};
ghost use Rattle.stateful_probe.specs.Service.{IsResponseOf};
ghost use Rattle.stateful_probe.specs.declared.state.State.{State};
ghost use Rattle.stateful_probe.specs.declared.probe.Config.{Config};
ghost use Rattle.stateful_probe.specs.declared.event.Event.TheVariants as events;

use crate::event::Out;
use crate::wire::{Message, Tag};
use bytes::Bytes;
use stateful_types::{CodecError, Latest, OutOfMemory, Scheme};
use std::alloc::Global;

/// The bytes of the node's latest finalization, as a response.
fn latest_response<S: Scheme, L: Latest<S::Certificate>>(
    alloc: Global,
    latest: &L,
) -> Result<Option<Bytes>, OutOfMemory>
    ensures { IfOk result (IsResponseOf S.certificates (L.newest latest.now)) }
{
    let Some(finalization) = latest.latest()? else {
        return Ok(None);
    };
    let mut bytes = Vec::new(alloc);
    Message::Response(finalization).write::<S>(&mut bytes)?;
    Ok(Some(Bytes::from_vec(bytes)?))
}

/// Takes a message of a peer.
pub(crate) fn receive<S: Scheme, L: Latest<S::Certificate>>(
    alloc: Global,
    latest: &L,
    peer: S::Key,
    value: Bytes,
    outs: &mut Vec<Out<S::Key, S::Certificate>>,
) -> Result<(), OutOfMemory>
    requires { outs.old.items ≡ [] }

    // Whatever probe serves.
    ensures { OnOk result ((config : Config S) (state : State S.Key S.Certificate)
        → is_serving state ≡ true
        → Steps (setup S.Key.cmp S.Key.eq S.certificates S.keys S.certifies config)
        (L.newest latest.now) state (events.Received peer value) outs.new.items state) }
{
    let mut input = value;
    match Tag::read(&mut input) {
        Ok(Tag::Request) => {
            if let Some(value) = latest_response::<S, L>(alloc, latest)? {
                outs.push(Out::Response { peer, value })?;
            }
        }
        Ok(Tag::Response) => {}
        Err(_) => outs.push(Out::Block { peer })?,
    }
    Ok(())
}
