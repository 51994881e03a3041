//! What the machine did.

use stateful_base::{Anchor, Digest, Digested, Height};

/// What a job is.
#[derive(Clone, Copy, Debug, PartialEq, Eq)]
pub enum JobKind {
    /// A run of a block that is judged.
    Candidate,
    /// A run of a block that is final.
    Finalized,
    /// A build on a parent.
    Build,
    /// What an application does behind a finalized block.
    Hook,
}

/// How a job ended.
#[derive(Clone, Copy, Debug, PartialEq, Eq)]
pub enum How {
    /// With a state, which is kept.
    Kept,
    /// Without a state.
    Rejected,
    /// With a state that has other targets than the block commits to.
    Mismatched,
    /// With a state that came too late to be kept.
    Missed,
    /// Before its end.
    Cancelled,
    /// Without a block.
    Nothing,
    /// The hook has ended.
    Hooked,
}

/// How a build was answered.
#[derive(Clone, Copy, Debug, PartialEq, Eq)]
pub enum Decision {
    Block,
    Vote,
    Stage,
}

/// One thing that the machine did, over blocks `B`.
#[derive(Debug, Drop)]
pub enum Mark<B> {
    /// The databases were opened at this block.
    Opened {
        anchor: Anchor,
    },
    /// The databases were synced to this block.
    Converged {
        anchor: Anchor,
    },
    /// A block is fetched, for a ticket or for the floor of a sync.
    Asked {
        fetch: u64,
        ticket: Option<u64>,
        digest: Digest,
    },
    /// A fetch is given up.
    Withdrawn {
        fetch: u64,
    },
    /// A job was started. A build carries its parent's digest, another job its block's.
    Started {
        job: u64,
        kind: JobKind,
        digest: Digest,
    },
    /// A job ended.
    Ended {
        job: u64,
        how: How,
    },
    /// A build ended with this block.
    Built {
        job: u64,
        ticket: u64,
        block: Digested<B>,
    },
    /// A verification is answered.
    Verdict {
        ticket: u64,
        valid: bool,
    },
    /// A proposal is answered with a block.
    Answered {
        ticket: u64,
        decision: Decision,
        block: Digested<B>,
    },
    /// A proposal is answered without a block.
    Declined {
        ticket: u64,
    },
    /// A subscription is answered.
    Databases {
        ticket: u64,
    },
    /// The finalization of a block has begun.
    Began {
        ticket: u64,
        block: Digested<B>,
    },
    /// The databases hold the state after this block.
    Applied {
        block: Digested<B>,
    },
    /// A barrier over all that is applied up to a height has begun.
    BarrierBegun {
        barrier: u64,
        height: Height,
    },
    /// A barrier is done: its height is durable, or it broke.
    BarrierDone {
        barrier: u64,
        height: Height,
        good: bool,
    },
    /// A receipt is acknowledged.
    Acknowledged {
        ticket: u64,
        height: Height,
    },
    /// A request or receipt is dropped without an answer.
    Dropped {
        ticket: u64,
    },
    /// A finalized block is recorded as a tip to sync to.
    Recorded {
        anchor: Anchor,
    },
    /// Databases were sent on to a tip.
    Dispatched {
        generation: u64,
        height: Height,
    },
    /// What lies below a height was dropped from the block store, and from the databases what is
    /// older than a target.
    Pruned {
        marshal: Height,
        target: Height,
    },
    /// A sync is recorded as complete.
    Completed {
        height: Height,
    },
    /// The machine has stopped.
    Stopped,
}
