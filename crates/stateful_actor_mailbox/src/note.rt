//! What marks tell of tickets.
//!
//! Marks are taken in two passes: first all are read into notes, and then each note ends its
//! ticket. Only the first pass takes memory, so where that runs out no ticket has ended.
//!
//! Whether an answer ends a ticket hangs on the call that drew it (`outcome`). A verdict ends a
//! verification alone, a block that was built a request to build, and so on. `Dropped` ends each
//! kind, as a stop does (`gone`): verifications and subscriptions are refused, and the others get
//! an answer that says so.
//!
//! `specs/Replies.antt` says which note a mark is, and which outcome an answer.

ghost use Rattle.std.specs.Prelude.{◌≡◌, IfOk};
ghost use Rattle.std.specs.List.{filter_map};
ghost use Rattle.stateful_actor_mailbox.specs.Replies.{note_of, outcome, gone};

use crate::reply::{Kind, Reply, Stopped};
use stateful_history::{Decision, Mark};
use stateful_types::{Digested, Handoff, OutOfMemory, Share};
use std::alloc::Global;

/// How a mark answers a ticket.
#[derive(Drop)]
pub(crate) enum Answer<B> {
    Verdict(bool),
    Built(Decision, Digested<B>),
    Declined,
    Databases,
    Acknowledged,
    Dropped,
}

/// What a mark tells of tickets: it answers one, or it ends them all.
#[derive(Drop)]
pub(crate) enum Note<B> {
    Ends { ticket: u64, answer: Answer<B> },
    Stops,
}

/// How a ticket ends: with a reply, or because the machine stopped.
pub(crate) type Outcome<B> = Result<Reply<B>, Stopped>;

/// What some marks tell of tickets, in their order.
pub(crate) fn notes<B: Drop>(alloc: Global, marks: &[Mark<B>]) -> Result<Vec<Note<B>>, OutOfMemory>
    ensures { IfOk result (λ notes. notes.items ≡ filter_map note_of marks.now) }
{
    let mut notes = Vec::new(alloc);
    for mark in marks {
        if let Some(note) = read_mark(mark)? {
            notes.push(note)?;
        }
    }
    Ok(notes)
}

/// What a mark tells of tickets, if it tells of any.
fn read_mark<B: Drop>(mark: &Mark<B>) -> Result<Option<Note<B>>, OutOfMemory>
    ensures { IfOk result (λ note. note ≡ note_of mark.now) }
{
    let (ticket, answer) = match mark {
        Mark::Verdict { ticket, valid } => (*ticket, Answer::Verdict(*valid)),
        Mark::Answered {
            ticket,
            decision,
            block,
        } => (*ticket, Answer::Built(*decision, block.share()?)),
        Mark::Declined { ticket } => (*ticket, Answer::Declined),
        Mark::Databases { ticket } => (*ticket, Answer::Databases),
        Mark::Acknowledged { ticket, .. } => (*ticket, Answer::Acknowledged),
        Mark::Dropped { ticket } => (*ticket, Answer::Dropped),
        Mark::Stopped => return Ok(Some(Note::Stops)),
        _ => return Ok(None),
    };
    Ok(Some(Note::Ends { ticket, answer }))
}

/// How a ticket ends by an answer. None where that is no answer to such a ticket.
pub(crate) fn outcome<B: Drop>(kind: Kind, answer: Answer<B>) -> Option<Outcome<B>>
    ensures { result ≡ outcome kind answer }
{
    match (kind, answer) {
        (Kind::Verify, Answer::Verdict(valid)) => Some(Ok(Reply::Verdict(valid))),
        (Kind::Prepare, Answer::Built(Decision::Vote, block)) => {
            Some(Ok(Reply::Prepared(Handoff::Vote(block))))
        }
        (Kind::Prepare, Answer::Built(Decision::Stage, block)) => {
            Some(Ok(Reply::Prepared(Handoff::Stage(block))))
        }
        (Kind::Propose, Answer::Built(Decision::Block, block)) => {
            Some(Ok(Reply::Proposed(Some(block))))
        }
        (Kind::Prepare | Kind::Propose, Answer::Declined) => Some(gone(kind)),
        (Kind::Subscribe, Answer::Databases) => Some(Ok(Reply::Databases)),
        (Kind::Report, Answer::Acknowledged) => Some(Ok(Reply::Acknowledged)),
        (_, Answer::Dropped) => Some(gone(kind)),
        _ => None,
    }
}

/// How a ticket ends that is dropped without an answer.
pub(crate) fn gone<B: Drop>(kind: Kind) -> Outcome<B>
    ensures { result ≡ gone kind }
{
    match kind {
        Kind::Prepare => Ok(Reply::Prepared(Handoff::Wait)),
        Kind::Propose => Ok(Reply::Proposed(None)),
        Kind::Report => Ok(Reply::Cancelled),
        Kind::Verify | Kind::Subscribe => Err(Stopped),
    }
}
