//! Requests to judge blocks and to build them.
//!
//! A request to judge (`Verify`) and one to build (`Recover`) go the same way, as far as both need
//! blocks to be known. What a request needs is found (`walk.rt`), and blocks that are missing are
//! fetched. Then the blocks of its path are run, oldest first (`running.rt` of
//! `stateful_exec_runs`). It ends with a `Verdict`, also where it meets an invalid block.
//!
//! A verification is answered then. Of a valid proposal the parent is known, so its `Proposal` is
//! queued for a build (`proposing.rt` of `stateful_exec_builds`), and an invalid one is declined.
//!
//! How far a request has come is its `Phase` (`tables.rt`), and `Tables::requests` has it by its
//! ticket. While a call serves a request it is out of that table. `specs/Rules.antt` of
//! `stateful_exec_model` has the rules, and docs/RULES.md says them in words, "Requests and the
//! runs that they share".

ghost use Rattle.std.specs.Prelude.{◌≡◌};
ghost use Rattle.stateful_exec_walk.specs.Request.{ticket_by};

use stateful_base::Ancestry;
use stateful_db::ProposalKind;

/// A request, over blocks `B`, contexts `C` and inputs `I`.
#[derive(Drop)]
pub enum Request<B, C, I> {
    /// To judge the first block of the ancestry.
    Verify {
        ticket: u64,
        ancestry: Ancestry<B>,
    },
    /// To make the first block of the ancestry known, so that a block can be built on it.
    Recover {
        ticket: u64,
        context: C,
        ancestry: Ancestry<B>,
        input: I,
        kind: ProposalKind,
    },
}

impl<B, C: Copy, I> Request<B, C, I> {
    pub fn ticket(&self) -> u64
        ensures { result ≡ ticket_by self.now }
    {
        match self {
            Request::Verify { ticket, .. } => *ticket,
            Request::Recover { ticket, .. } => *ticket,
        }
    }
}

/// How a request ends: the block of a verification is valid, or the parent of a proposal is known;
/// or not.
#[derive(Clone, Copy, Debug, PartialEq, Eq)]
pub enum Verdict {
    Valid,
    Invalid,
}

/// What a request to build asks for.
#[derive(Drop)]
pub struct Proposal<B, C, I> {
    pub context: C,
    pub ancestry: Ancestry<B>,
    pub input: I,
    pub kind: ProposalKind,
}
