//! The events of a script.

ghost use Rattle.std.specs.Prelude.{◌≡◌, ◌≤◌, ◌<◌, ◌-◌, ◌^◌, true, IfOk, IfSome, All, length};
ghost use Rattle.std.specs.Prelude.{option_map};
ghost use Rattle.stateful_script.specs.Laws.{IsNamedBelow};
ghost use Rattle.stateful_script_plan.specs.Events.{restart, planned_at, list_of, ancestry_of, ask_for};
ghost use Rattle.stateful_script_plan.specs.Events.{flushed, event_of, takes_ticket, ticket_after};
ghost use Rattle.stateful_script_plan.specs.Events.{events_of};

use crate::plan::Planned;
use stateful_bank::{Ask, BankBlock};
use stateful_base::{Ancestry, Digested, Floor, Handoff, Height, Items, OutOfMemory, Round, Share};
use stateful_db::Flushed;
use stateful_history::Event;
use stateful_script::PlannedEvent;
use std::alloc::Global;

/// The events of the bank.
pub type BankEvent = Event<BankBlock, Round, Ask>;

/// How many finalizations may be unacknowledged.
pub const WINDOW: usize = 1;

/// A start, with this height as the last processed one. A crash has left so many checkpoints of
/// each database.
fn restart(processed: Option<Height>, keep: Items<usize>) -> BankEvent
    ensures { result ≡ restart processed keep }
{
    Event::Restart {
        floor: Floor {
            processed,
            cutoff: None,
            max_pending_acks: WINDOW,
        },
        keep,
    }
}

/// A block, if there is one, as a list.
fn list_of(
    alloc: Global,
    block: &Option<Digested<BankBlock>>,
) -> Result<Items<Digested<BankBlock>>, OutOfMemory>
    ensures { IfOk result (λ list. list ≡ list_of block.now) }
{
    let mut list = Items::new(alloc);
    if let Some(block) = block {
        list.push(block.share()?)?;
    }
    Ok(list)
}

/// A block, and its parent if it has one and the block doesn't come alone.
fn ancestry(
    alloc: Global,
    alone: bool,
    planned: &Planned,
) -> Result<Ancestry<BankBlock>, OutOfMemory>
    ensures { IfOk result (λ ancestry. ancestry ≡ ancestry_of alone planned.now) }
{
    Ok(Ancestry {
        first: planned.block.share()?,
        rest: if alone {
            Items::new(alloc)
        } else {
            list_of(alloc, &planned.parent)?
        },
    })
}

/// Whether an event takes a ticket: a request and a finalization do.
fn takes_ticket(event: &PlannedEvent) -> bool
    ensures { result ≡ takes_ticket event.now }
{
    matches!(
        event,
        PlannedEvent::Verify { .. }
            | PlannedEvent::Prepare { .. }
            | PlannedEvent::Propose { .. }
            | PlannedEvent::Finalize(_)
            | PlannedEvent::Subscribe
    )
}

/// The next ticket after an event.
fn ticket_after(ticket: u64, event: &PlannedEvent) -> u64
    requires { ticket < 2 ^ 64 - 1 }
    ensures { result ≡ ticket_after ticket event.now }
{
    if takes_ticket(event) {
        ticket + 1
    } else {
        ticket
    }
}

/// What the build of a block is asked for.
fn ask_for(decision: Handoff<()>, planned: &Planned) -> Result<Ask, OutOfMemory>
    ensures { IfOk result (λ ask. ask ≡ ask_for decision planned.now) }
{
    Ok(Ask {
        decision,
        ops: planned.block.inner().ops.share()?,
    })
}

/// The block at a place, if there is one.
fn answer(
    planned: &[Planned],
    place: Option<usize>,
) -> Result<Option<Digested<BankBlock>>, OutOfMemory>
    requires { IfSome place (λ p. p < length planned.now) }
    ensures { IfOk result (λ answer. answer
        ≡ option_map (λ p. (planned_at planned.now p).block) place) }
{
    match place {
        Some(place) => Ok(Some(planned[place].block.share()?)),
        None => Ok(None),
    }
}

/// How a database has flushed.
fn flushed(stopped: bool) -> Flushed
    ensures { result ≡ flushed stopped }
{
    if stopped {
        Flushed::Interrupted
    } else {
        Flushed::Good
    }
}

/// A request to build this block on this parent ahead of its proposal, and to hand it over in this
/// way.
fn prepare(
    alloc: Global,
    ticket: u64,
    parent: &Planned,
    block: &Planned,
    decision: Handoff<()>,
) -> Result<BankEvent, OutOfMemory>
    ensures { IfOk result (λ made. made
        ≡ Event.Prepare ticket block.now.block.block.round (ancestry_of true parent.now)
        (ask_for decision block.now)) }
{
    Ok(Event::Prepare {
        ticket,
        context: block.block.inner().round,
        ancestry: ancestry(alloc, true, parent)?,
        input: ask_for(decision, block)?,
    })
}

/// A request to build this block on this parent.
fn propose(
    alloc: Global,
    ticket: u64,
    parent: &Planned,
    block: &Planned,
) -> Result<BankEvent, OutOfMemory>
    ensures { IfOk result (λ made. made
        ≡ Event.Propose ticket block.now.block.block.round (ancestry_of true parent.now)
        (ask_for (Handoff.Vote tt) block.now)) }
{
    Ok(Event::Propose {
        ticket,
        context: block.block.inner().round,
        ancestry: ancestry(alloc, true, parent)?,
        input: ask_for(Handoff::Vote(()), block)?,
    })
}

/// A planned event, with this ticket if it takes one.
fn event(
    alloc: Global,
    planned: &[Planned],
    ticket: u64,
    event: &PlannedEvent,
) -> Result<BankEvent, OutOfMemory>
    requires { IsNamedBelow (length planned.now) event.now }
    ensures { IfOk result (λ made. made ≡ event_of planned.now ticket event.now) }
{
    match event {
        PlannedEvent::Verify { block, alone } => Ok(Event::Verify {
            ticket,
            ancestry: ancestry(alloc, *alone, &planned[*block])?,
        }),
        PlannedEvent::Prepare {
            parent,
            block,
            decision,
        } => prepare(
            alloc,
            ticket,
            &planned[*parent],
            &planned[*block],
            *decision,
        ),
        PlannedEvent::Propose { parent, block } => {
            propose(alloc, ticket, &planned[*parent], &planned[*block])
        }
        PlannedEvent::Finalize(block) => Ok(Event::Finalized {
            ticket,
            block: planned[*block].block.share()?,
        }),
        PlannedEvent::Subscribe => Ok(Event::Subscribe { ticket }),
        PlannedEvent::Cancel(ticket) => Ok(Event::Cancel { ticket: *ticket }),
        PlannedEvent::Fetched {
            fetch,
            answer: place,
        } => Ok(Event::Fetched {
            fetch: *fetch,
            answer: answer(planned, *place)?,
        }),
        PlannedEvent::Turn(job) => Ok(Event::Turn { job: *job }),
        PlannedEvent::Flushed {
            barrier,
            database,
            stopped,
        } => Ok(Event::Flushed {
            barrier: *barrier,
            database: *database as usize,
            answer: flushed(*stopped),
        }),
        PlannedEvent::Stop => Ok(Event::Stop),
        PlannedEvent::Restart { processed, keep } => Ok(restart(*processed, keep.share()?)),
    }
}

/// The start, and the event of each planned one. Tickets are numbered from 0.
#[tactic(auto, unfolding(crate::specs::Events::events_of))]
pub fn events(
    alloc: Global,
    planned: &[Planned],
    script: &[PlannedEvent],
) -> Result<Vec<BankEvent>, OutOfMemory>
    requires { All (IsNamedBelow (length planned.now)) script.now }
    ensures { IfOk result (λ events. events.items ≡ events_of planned.now script.now) }
{
    let mut made = Vec::new(alloc);
    made.push(restart(None, Items::new(alloc)))?;
    let mut ticket: u64 = 0;
    for next in script {
        made.push(event(alloc, planned, ticket, next)?)?;
        ticket = ticket_after(ticket, next);
    }
    Ok(made)
}
