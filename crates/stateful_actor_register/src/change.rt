//! What events and marks do to the live work.
//!
//! An entry is an event with its marks. First the event changes the live work, and then each mark
//! does, in the order in which the marks were made. `changes_of` lists these changes.
//!
//! What goes on is opened by one change and closed by a later one:
//!
//! - a ticket by the event that brings it, and by a cancel or the mark that answers or drops it;
//! - a fetch by `Asked`, and by its answer or `Withdrawn`;
//! - a job by `Started`, and by `Ended` or `Built`;
//! - a barrier by `BarrierBegun`, and by `BarrierDone`; between them each `Flushed` takes one
//!   database out.
//!
//! A start and a stop of the machine end all barriers. `specs/Change.antt` says what each event and
//! each mark changes.

ghost use Rattle.std.specs.Prelude.{◌≡◌, IfOk};
ghost use Rattle.std.specs.List.{list_any};
ghost use Rattle.stateful_actor_register.specs.Change.{change_by_event, change_by_mark, changes_of};
ghost use Rattle.stateful_actor_register.specs.Change.{begins_barrier};

use stateful_base::OutOfMemory;
use stateful_history::{Event, Mark, Ticket};
use std::alloc::Global;

/// One change of the live work.
#[derive(Clone, Copy, Debug, PartialEq, Eq)]
pub(crate) enum Change {
    /// A new ticket stands for this from now on.
    Opens { ticket: u64, stands_for: Ticket },
    /// A new ticket stands for a request to build from now on.
    Proposes { ticket: u64 },
    /// A ticket is answered, dropped or cancelled.
    Closes { ticket: u64 },
    /// A block is fetched.
    Asks { fetch: u64 },
    /// A fetch is answered or withdrawn.
    EndsFetch { fetch: u64 },
    /// A job is started.
    StartsJob { job: u64 },
    /// A job has ended or built.
    EndsJob { job: u64 },
    /// A barrier waits for the flush of each database.
    BeginsBarrier { barrier: u64 },
    /// A database of a barrier is flushed.
    Flushes { barrier: u64, database: usize },
    /// A barrier waits for nothing more.
    EndsBarrier { barrier: u64 },
    /// The machine is started, without barriers.
    Starts,
    /// The machine is stopped, without barriers.
    Stops,
    /// The live work stays as it is.
    Keeps,
}

impl Change {
    /// What the event changes.
    pub(crate) fn by_event<B, C, I>(event: &Event<B, C, I>) -> Change
        ensures { result ≡ change_by_event event.now }
    {
        match event {
            Event::Verify { ticket, .. } | Event::Subscribe { ticket } => Change::Opens {
                ticket: *ticket,
                stands_for: Ticket::Request,
            },
            Event::Prepare { ticket, .. } | Event::Propose { ticket, .. } => {
                Change::Proposes { ticket: *ticket }
            }
            Event::Finalized { ticket, .. } => Change::Opens {
                ticket: *ticket,
                stands_for: Ticket::Receipt,
            },
            Event::Cancel { ticket } => Change::Closes { ticket: *ticket },
            Event::Fetched { fetch, .. } => Change::EndsFetch { fetch: *fetch },
            Event::Flushed {
                barrier,
                database,
                ..
            } => Change::Flushes {
                barrier: *barrier,
                database: *database,
            },
            Event::Restart { .. } => Change::Starts,
            Event::Turn { .. } | Event::Progress { .. } | Event::Stop => Change::Keeps,
        }
    }

    /// Whether a barrier begins by it.
    pub(crate) fn begins_barrier(self) -> bool
        ensures { result ≡ begins_barrier self }
    {
        match self {
            Change::BeginsBarrier { .. } => true,
            _ => false,
        }
    }

    /// What the mark changes.
    pub(crate) fn by_mark<B>(mark: &Mark<B>) -> Change
        ensures { result ≡ change_by_mark mark.now }
    {
        match mark {
            Mark::Asked { fetch, .. } => Change::Asks { fetch: *fetch },
            Mark::Withdrawn { fetch } => Change::EndsFetch { fetch: *fetch },
            Mark::Started { job, .. } => Change::StartsJob { job: *job },
            Mark::Ended { job, .. } | Mark::Built { job, .. } => Change::EndsJob { job: *job },
            Mark::Verdict { ticket, .. }
            | Mark::Answered { ticket, .. }
            | Mark::Declined { ticket }
            | Mark::Databases { ticket }
            | Mark::Acknowledged { ticket, .. }
            | Mark::Dropped { ticket } => Change::Closes { ticket: *ticket },
            Mark::BarrierBegun { barrier, .. } => Change::BeginsBarrier { barrier: *barrier },
            Mark::BarrierDone { barrier, .. } => Change::EndsBarrier { barrier: *barrier },
            Mark::Stopped => Change::Stops,
            Mark::Opened { .. }
            | Mark::Converged { .. }
            | Mark::Began { .. }
            | Mark::Applied { .. }
            | Mark::Recorded { .. }
            | Mark::Dispatched { .. }
            | Mark::Pruned { .. }
            | Mark::Completed { .. } => Change::Keeps,
        }
    }
}

/// What an event and its marks change, one after another.
pub(crate) fn changes_of<B, C, I>(
    alloc: Global,
    event: &Event<B, C, I>,
    marks: &[Mark<B>],
) -> Result<Vec<Change>, OutOfMemory>
    ensures { IfOk result (λ changes. changes.items ≡ changes_of event.now marks.now) }
{
    let mut changes = Vec::new(alloc);
    changes.push(Change::by_event(event))?;
    for mark in marks {
        changes.push(Change::by_mark(mark))?;
    }
    Ok(changes)
}

/// Whether a barrier begins by some of these changes.
pub(crate) fn begins_some_barrier(changes: &[Change]) -> bool
    ensures { result ≡ list_any begins_barrier changes.now }
{
    changes.iter().any(|change| change.begins_barrier())
}
