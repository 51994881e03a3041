//! What comes to the machine.

ghost use Rattle.std.specs.Prelude.{◌≡◌, IfOk};

use stateful_base::{Ancestry, Digested, Floor, Items, OutOfMemory, Share};
use stateful_db::Flushed;

/// One event, over blocks `B`, contexts `C` and inputs `I`. A ticket names a request or a receipt,
/// and is greater than every earlier one.
#[derive(Debug, Drop)]
pub enum Event<B, C, I> {
    /// A request to judge the first block of an ancestry.
    Verify {
        ticket: u64,
        ancestry: Ancestry<B>,
    },
    /// A request to build a block ahead of its proposal, on the first block of an ancestry.
    Prepare {
        ticket: u64,
        context: C,
        ancestry: Ancestry<B>,
        input: I,
    },
    /// A request to build a block, on the first block of an ancestry.
    Propose {
        ticket: u64,
        context: C,
        ancestry: Ancestry<B>,
        input: I,
    },
    /// A block is final. Its receipt is acknowledged once that is durable.
    Finalized {
        ticket: u64,
        block: Digested<B>,
    },
    /// A request to be told when the databases are there.
    Subscribe {
        ticket: u64,
    },
    /// A request is given up.
    Cancel {
        ticket: u64,
    },
    /// A fetch is answered, with the asked block or with none.
    Fetched {
        fetch: u64,
        answer: Option<Digested<B>>,
    },
    /// A run, a build or a hook is turned.
    Turn {
        job: u64,
    },
    /// A database of a barrier is flushed.
    Flushed {
        barrier: u64,
        database: usize,
        answer: Flushed,
    },
    /// A database that syncs makes its next request.
    Progress {
        database: usize,
    },
    /// The machine is to stop.
    Stop,
    /// The machine is to start, by what a block store reports. Of each database a crash has left so
    /// many checkpoints.
    Restart {
        floor: Floor,
        keep: Items<usize>,
    },
}

impl<B: Drop, C: Copy, I: Share + Drop> Share for Event<B, C, I> {
    fn share(&self) -> Result<Event<B, C, I>, OutOfMemory> {
        match self {
            Event::Verify { ticket, ancestry } => Ok(Event::Verify {
                ticket: *ticket,
                ancestry: ancestry.share()?,
            }),
            Event::Prepare {
                ticket,
                context,
                ancestry,
                input,
            } => Ok(Event::Prepare {
                ticket: *ticket,
                context: *context,
                ancestry: ancestry.share()?,
                input: input.share()?,
            }),
            Event::Propose {
                ticket,
                context,
                ancestry,
                input,
            } => Ok(Event::Propose {
                ticket: *ticket,
                context: *context,
                ancestry: ancestry.share()?,
                input: input.share()?,
            }),
            Event::Finalized { ticket, block } => Ok(Event::Finalized {
                ticket: *ticket,
                block: block.share()?,
            }),
            Event::Subscribe { ticket } => Ok(Event::Subscribe { ticket: *ticket }),
            Event::Cancel { ticket } => Ok(Event::Cancel { ticket: *ticket }),
            Event::Fetched { fetch, answer } => Ok(Event::Fetched {
                fetch: *fetch,
                answer: share_answer(answer)?,
            }),
            Event::Turn { job } => Ok(Event::Turn { job: *job }),
            Event::Flushed {
                barrier,
                database,
                answer,
            } => Ok(Event::Flushed {
                barrier: *barrier,
                database: *database,
                answer: *answer,
            }),
            Event::Progress { database } => Ok(Event::Progress {
                database: *database,
            }),
            Event::Stop => Ok(Event::Stop),
            Event::Restart { floor, keep } => Ok(Event::Restart {
                floor: *floor,
                keep: keep.share()?,
            }),
        }
    }
}

/// The same answer of a fetch.
fn share_answer<B>(answer: &Option<Digested<B>>) -> Result<Option<Digested<B>>, OutOfMemory>
    ensures { IfOk result (λ copy. copy ≡ answer.now) }
{
    match answer {
        Some(block) => Ok(Some(block.share()?)),
        None => Ok(None),
    }
}
