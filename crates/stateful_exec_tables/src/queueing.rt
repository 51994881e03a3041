//! Builds: proposals leave the queue, jobs get their numbers, and the cache keeps what was built.

ghost use Rattle.std.specs.Prelude.{◌≡◌, ◌⊎◌, ◌+◌, OnOk, OnErr, IfOk, IfErr, IfSome};
ghost use Rattle.stateful_exec_tables.specs.Keeping.{Takes, FaultsKeep};
ghost use Rattle.stateful_exec_tables.specs.Queueing.{IsReady, Unqueues};
ghost use Rattle.stateful_exec_tables.specs.Tables.{IsLeft, Knows, Rises};

use crate::error::ExecError;
use crate::queued::Queued;
use crate::state::Tables;
use stateful_base::{Block, Digested, Rounded, Share};
use stateful_exec_walk::Proposal;
use stateful_history::How;

impl<B: Block + Drop, C: Copy, I: Drop, R: Drop, U: Drop> Tables<B, C, I, R, U> {
    /// The number of the next job is drawn. `Exhausted` exactly where that is the last one.
    pub fn draw_job(&mut self) -> Result<u64, ExecError>
        ensures job { IfOk result (λ job. job ≡ self.old.next_job) }
        ensures left { OnOk result (IsLeft self.old.next_job) }
        ensures ok { OnOk result (self.new
            ≡ record self.old { next_job = self.old.next_job + 1 }) }
        ensures err { IfErr result (λ e. (e ≡ ExecError.Exhausted)
            × (IsLeft self.old.next_job → ⊥)) }
        ensures same { OnErr result (self.new ≡ self.old) }
    {
        let job = self.next_job;
        if job == u64::MAX {
            return Err(ExecError::Exhausted);
        }
        self.next_job = job + 1;
        Ok(job)
    }

    /// Takes the proposal of a ticket out of the queue. Where the block that it is to be built on
    /// is known, the number of its job is drawn.
    pub fn unqueue(&mut self, ticket: u64) -> Result<Option<Queued<B, C, I>>, ExecError>
        ensures ok { IfOk result (Unqueues self.old ticket self.new) }
        ensures known { IfOk result (λ found. IfSome found (λ q. Knows self.new q.parent.digest)) }
        ensures fault { IfErr result (λ e. (e ≡ ExecError.OutOfMemory)
            ⊎ ((e ≡ ExecError.Exhausted) × (IsLeft self.old.next_job → ⊥)
            × (p : Proposal B C I) × IsReady self.old ticket p)) }
        ensures numbers { Rises self.old self.new }
    {
        let Some(proposal) = self.queued.remove(ticket) else {
            return Ok(None);
        };
        let parent = proposal.ancestry.first.share()?;
        if !self.knows(parent.digest()) {
            return Ok(None);
        }
        let job = self.draw_job()?;
        Ok(Some(Queued {
            job,
            proposal,
            parent,
        }))
    }

    /// The cache keeps a block that was built with its sealed batch.
    pub fn keep_built(&mut self, block: &Digested<B>, batch: U) -> Result<(), ExecError>
        ensures takes { OnOk result (Takes B.header self.old.anchor block.now batch
            self.old.cache self.new.cache How.Kept) }
        ensures rest { OnOk result (self.new ≡ record self.old { cache = self.new.cache }) }
        ensures numbers { Rises self.old self.new }
        ensures fault { IfErr result (FaultsKeep B.header self.old.anchor block.now batch
            self.old.cache) }
    {
        let anchor = self.anchor.round;
        match self.keep(block, batch)? {
            How::Missed => Err(ExecError::ProposalStale {
                anchor,
                round: block.round(),
            }),
            _ => Ok(()),
        }
    }
}
