//! Deliveries: who judges them, and what becomes of them.
//!
//! `deliver` offers a delivery to each subscriber of its key that has nothing to judge. Then each of
//! these tickets gives its verdict (`judge`), or leaves or is cancelled without one. The functions
//! take what the resolver keeps and its mailbox side by side; what needs no mailbox is told in
//! `stateful_p2p_tables`.
//!
//! There is no time limit: a delivery is settled once all tickets that were offered it have spoken
//! or left. `Delivers` of `specs/Fanout.antt`, and `Judges` and `Leaves` of `specs/Resolving.antt`
//! have the rules, and docs/RULES.md says them in words, "The resolver".

ghost use Rattle.std.specs.Prelude.{◌≡◌, ◌^◌, ◌-◌, ◌<◌, ◌≤◌, ◌++◌, List, true, map, OnOk};
ghost use Rattle.stateful_p2p_tables.specs.Deliveries.{IsSound};
ghost use Rattle.stateful_p2p_tables.specs.declared.out.ActorOut.{ActorOut};
ghost use Rattle.stateful_p2p_tables.specs.declared.out.ActorOut.TheVariants.{Candidate};
ghost use Rattle.stateful_p2p.specs.Inbox.{offered_each};
ghost use Rattle.stateful_p2p.specs.Fanout.{Delivers};
ghost use Rattle.stateful_p2p.specs.Resolving.{Judges, Leaves};

use crate::mailbox::Mailbox;
use bytes::Bytes;
use stateful_db_source::SyncSource;
use stateful_p2p_codec::read_response;
use stateful_p2p_tables::{ActorOut, State, push_some};
use stateful_types::{OutOfMemory, Request, Response, Share};
use std::alloc::Global;

/// A ticket judges its candidate. A good one ends it.
pub(crate) fn judge<D: SyncSource>(
    state: &mut State<D>,
    mailbox: &mut Mailbox<D>,
    ticket: u64,
    valid: bool,
    outs: &mut Vec<ActorOut>,
) -> Result<(), OutOfMemory>
    requires { IsSound state.old }
    ensures judges { OnOk result ((done : List ActorOut)
        × Judges state.old mailbox.old ticket valid done state.new mailbox.new
        × (outs.new.items ≡ outs.old.items ++ done)) }
    ensures sound { OnOk result (IsSound state.new) }
{
    if valid {
        return accept(state, mailbox, ticket, outs);
    }
    let settled = state.release(ticket, Some(false))?;
    push_some(outs, settled)
}

/// A ticket judges its candidate good, and ends.
fn accept<D: SyncSource>(
    state: &mut State<D>,
    mailbox: &mut Mailbox<D>,
    ticket: u64,
    outs: &mut Vec<ActorOut>,
) -> Result<(), OutOfMemory>
    requires { IsSound state.old }
    ensures judges { OnOk result ((done : List ActorOut)
        × Judges state.old mailbox.old ticket true done state.new mailbox.new
        × (outs.new.items ≡ outs.old.items ++ done)) }
    ensures sound { OnOk result (IsSound state.new) }
{
    let settled = state.release(ticket, Some(true))?;
    state.subscriptions.remove(ticket);
    mailbox.end(ticket);
    outs.push(ActorOut::Forget { ticket })?;
    push_some(outs, settled)
}

/// A ticket leaves.
pub(crate) fn leave<D: SyncSource>(
    state: &mut State<D>,
    mailbox: &mut Mailbox<D>,
    ticket: u64,
    outs: &mut Vec<ActorOut>,
) -> Result<(), OutOfMemory>
    requires { IsSound state.old }
    ensures leaves { OnOk result ((done : List ActorOut)
        × Leaves state.old mailbox.old ticket done state.new mailbox.new
        × (outs.new.items ≡ outs.old.items ++ done)) }
    ensures sound { OnOk result (IsSound state.new) }
{
    mailbox.let_go(ticket);
    let Some(settled) = state.forget(ticket)? else {
        return Ok(());
    };
    outs.push(ActorOut::Forget { ticket })?;
    push_some(outs, settled)
}

/// A peer's answer to a fetch of this key.
pub(crate) fn deliver<D: SyncSource>(
    alloc: Global,
    state: &mut State<D>,
    mailbox: &mut Mailbox<D>,
    delivery: u64,
    key: Request,
    value: Bytes,
    outs: &mut Vec<ActorOut>,
) -> Result<(), OutOfMemory>
    requires sound { IsSound state.old }
    requires new { state.old.next_delivery ≤ delivery }
    requires below { delivery < 2 ^ 64 - 1 }
    ensures delivers { OnOk result ((done : List ActorOut)
        × Delivers D.Op.operations state.old mailbox.old delivery key value done
        state.new mailbox.new
        × (outs.new.items ≡ outs.old.items ++ done)) }
    ensures sound { OnOk result (IsSound state.new) }
{
    state.next_delivery = delivery + 1;
    let Some(takers) = state.takers(alloc, &key)? else {
        outs.push(ActorOut::Unjudged { delivery })?;
        return Ok(());
    };
    let Some(response) = read_response(alloc, &key, value)? else {
        outs.push(ActorOut::Feedback {
            delivery,
            valid: false,
        })?;
        return Ok(());
    };
    if takers.is_empty() {
        outs.push(ActorOut::Unjudged { delivery })?;
        return Ok(());
    }
    state.await_verdicts(alloc, delivery, takers.as_slice())?;
    offer(mailbox, takers.as_slice(), &response, outs)
}

/// The same candidate waits for each of these tickets.
fn offer<D: SyncSource>(
    mailbox: &mut Mailbox<D>,
    takers: &[u64],
    response: &Response<D::Op>,
    outs: &mut Vec<ActorOut>,
) -> Result<(), OutOfMemory>
    ensures waits { OnOk result (mailbox.new
        ≡ offered_each mailbox.old takers.now response.now) }
    ensures told { OnOk result (outs.new.items
        ≡ outs.old.items ++ map (λ t. Candidate t) takers.now) }
{
    for ticket in takers {
        mailbox.offer(*ticket, response.share()?)?;
        outs.push(ActorOut::Candidate { ticket: *ticket })?;
    }
    Ok(())
}
