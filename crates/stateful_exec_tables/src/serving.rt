//! Answers of fetches, cancels, and proposals whose parents are known.
//!
//! A fetch is known by its number alone. `take_fetching` finds the request that waits for it, and
//! takes that out of its table until it was served. A number for which no request waits changes
//! nothing: its request was cancelled, or a pause has withdrawn the fetch.
//!
//! A cancel takes a request out for good (`cancel`). Its fetch is withdrawn. The run that it waited
//! for goes on as long as another request waits for it, and else ends at once. A build that is
//! queued leaves the queue. Blocks that were cached stay.
//!
//! A proposal whose parent became known waits in `queued`, and its ticket in `recovered` until
//! `ready` hands it out, in the order in which parents became known. `specs/Cancelling.antt` has
//! the rule of cancels (`Cancels`), and `specs/Fetching.antt` of `stateful_exec_model` that of
//! answers (`IsFetched`).

ghost use Rattle.std.specs.Prelude.{◌≡◌, ◌≢◌, ◌++◌, ◌∷◌, [], List, Some, None};
ghost use Rattle.std.specs.Prelude.{OnOk, IfOk, IfSome, IfNone, All, MatchOption};
ghost use Rattle.stateful_history.specs.declared.mark.Mark.TheVariants as mark;
ghost use Rattle.stateful_history.specs.declared.mark.How.TheVariants as how;
ghost use Rattle.stateful_table.specs.Table.{at, without};
ghost use Rattle.stateful_exec_tables.specs.Phase.{tickets_on};
ghost use Rattle.stateful_exec_tables.specs.Tables.{Rises};
ghost use Rattle.stateful_exec_tables.specs.Tables.{taken, moved, ended, told};
ghost use Rattle.stateful_exec_tables.specs.Fetching.{IsVerification, Fetches, IsLiveFetch, with_block};
ghost use Rattle.stateful_exec_tables.specs.Cancelling.{Cancels};
ghost use Rattle.stateful_exec_walk.specs.declared.request.Verdict.TheVariants as verdict;
ghost use Rattle.stateful_exec_tables.specs.declared.tables.Phase.TheVariants as phase;

use crate::state::Tables;
use crate::tables::{Phase, Requested};
use stateful_base::{Block, Digested, OutOfMemory};
use stateful_exec_walk::{Request, Verdict};
use stateful_history::{How, Mark};

impl<B, C, I> Requested<B, C, I> {
    /// With one block more that was fetched for it.
    pub fn with_block(self, block: Digested<B>) -> Result<Requested<B, C, I>, OutOfMemory>
    where
        B: Drop,
        C: Copy,
        I: Drop,
        ensures { IfOk result (λ r. r ≡ with_block self block) }
    {
        let Requested {
            request,
            mut acquired,
            phase,
        } = self;
        acquired.push(block)?;
        Ok(Requested {
            request,
            acquired,
            phase,
        })
    }
}

impl<B: Block + Drop, C: Copy, I: Drop, R: Drop, U: Drop> Tables<B, C, I, R, U> {
    /// The ticket of the request for which a block is fetched under this number.
    fn request_of(&self, fetch: u64) -> Option<u64>
        ensures found { IfSome result (λ ticket. MatchOption (at self.now.requests ticket) ⊥ (λ r.
            r.phase ≡ phase.Fetching fetch)) }
        ensures none { IfNone result (All (λ e. e.1.phase ≡ phase.Fetching fetch → ⊥)
            self.now.requests) }
    {
        for (ticket, requested) in self.requests.entries().iter() {
            if requested.phase.fetches(fetch) {
                return Some(*ticket);
            }
        }
        None
    }

    /// Takes the request out of its table for which a block is fetched under this number.
    pub fn take_fetching(&mut self, fetch: u64) -> Option<(u64, Requested<B, C, I>)>
        ensures fetches { IfSome result (λ found. Fetches self.old fetch found.0 found.1) }
        ensures rest { IfSome result (λ found. self.new ≡ taken self.old found.0) }
        ensures none { IfNone result (IsLiveFetch self.old fetch → ⊥) }
        ensures same { IfNone result (self.new ≡ self.old) }
    {
        let ticket = self.request_of(fetch)?;
        let requested = self.take(ticket);
        Some((ticket, requested))
    }

    /// A fetch brought no block: a verification waits, and a proposal ends.
    pub fn abstain(
        &mut self,
        ticket: u64,
        requested: Requested<B, C, I>,
        marks: &mut Vec<Mark<B>>,
    ) -> Result<(), OutOfMemory>
        ensures waits { OnOk result (IsVerification requested.request
            → (self.new ≡ moved self.old ticket requested phase.Waiting)
            × (marks.new.items ≡ marks.old.items)) }
        ensures declines { OnOk result ((IsVerification requested.request → ⊥)
            → (self.new ≡ ended self.old ticket requested.request verdict.Invalid)
            × (marks.new.items ≡ marks.old.items ++ told ticket requested.request
            verdict.Invalid)) }
        ensures numbers { Rises self.old self.new }
    {
        match &requested.request {
            Request::Verify { .. } => self.set_phase(ticket, requested, Phase::Waiting),
            Request::Recover { .. } => {
                self.conclude(ticket, requested.request, Verdict::Invalid, marks)
            }
        }
    }

    /// The ticket of the next build that is queued and wasn't handed out, in the order in which
    /// their parents became known.
    pub fn ready(&mut self) -> Option<u64>
        ensures first { IfSome result (λ ticket. self.old.recovered ≡ ticket ∷ self.new.recovered) }
        ensures none { IfNone result ((self.old.recovered ≡ []) × (self.new ≡ self.old)) }
        ensures rest { self.new ≡ record self.old { recovered = self.new.recovered } }
    {
        self.recovered.pop()
    }

    /// Gives a request up. The run that it was the last to wait for ends.
    pub fn cancel(&mut self, ticket: u64, marks: &mut Vec<Mark<B>>) -> Result<(), OutOfMemory>
        ensures ok { OnOk result ((more : List (Mark B))
            × Cancels self.old self.new ticket more
            × (marks.new.items ≡ marks.old.items ++ more)) }
        ensures numbers { Rises self.old self.new }
    {
        let Some(requested) = self.requests.remove(ticket) else {
            let _ = self.queued.remove(ticket);
            self.recovered.remove(ticket);
            return Ok(());
        };
        match requested.phase {
            Phase::Fetching(fetch) => {
                marks.push(Mark::Withdrawn { fetch })?;
                Ok(())
            }
            Phase::Executing { job, .. } => self.leave(job, marks),
            Phase::Open | Phase::Waiting | Phase::Parked(_) => Ok(()),
        }
    }

    /// A run ends for which no request waits any more.
    fn leave(&mut self, job: u64, marks: &mut Vec<Mark<B>>) -> Result<(), OutOfMemory>
        ensures ok { OnOk result (
            (tickets_on job self.old.requests ≢ []
            → (self.new ≡ self.old) × (marks.new.items ≡ marks.old.items))
            × (tickets_on job self.old.requests ≡ []
            → (self.new ≡ record self.old { runs = without self.old.runs job })
            × (marks.new.items ≡ marks.old.items ++ mark.Ended job how.Cancelled ∷ []))) }
        ensures numbers { Rises self.old self.new }
    {
        if self.tickets_on(job)?.is_empty() {
            let _ = self.runs.remove(job);
            marks.push(Mark::Ended {
                job,
                how: How::Cancelled,
            })?;
        }
        Ok(())
    }
}
