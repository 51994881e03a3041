//! The tables of execution, over plain types.

ghost use Rattle.std.specs.Prelude.{◌≡◌, ◌≢◌, ◌↔◌, ◌⊎◌, ◌<◌, ◌+◌, ◌-◌, ◌++◌, ◌∷◌, []};
ghost use Rattle.std.specs.Prelude.{Some, None, IsSome, OnOk, OnErr, IfOk, IfErr};
ghost use Rattle.std.specs.Prelude.{IfSome, IfNone, IsTrue};
ghost use Rattle.std.specs.List.Sorted.{IsStrictlySortedBy};
ghost use Rattle.std.specs.Map.{keys_of};
ghost use Rattle.std.specs.Ordering.{nat_cmp};
ghost use Rattle.stateful_exec_cache.specs.Cache.{IsIn};
ghost use Rattle.stateful_history.specs.declared.mark.Mark.TheVariants as mark;
ghost use Rattle.stateful_table.specs.Table.{at, put, without};
ghost use Rattle.stateful_exec_tables.specs.Keeping.{step_in, FaultsTake};
ghost use Rattle.stateful_exec_tables.specs.Keeping.{Takes};
ghost use Rattle.stateful_exec_pause.specs.Fates.{Crosses, IsFate};
ghost use Rattle.stateful_exec_tables.specs.Tables.{released};
ghost use Rattle.stateful_exec_tables.specs.Tables.{IsLeft, Rises};
ghost use Rattle.stateful_exec_tables.specs.Phase.{tickets_on, released_on};
ghost use Rattle.stateful_exec_tables.specs.Tables.{taken, requested, moved, ended, told, Knows, HasRun};
ghost use Rattle.stateful_exec_tables.specs.Tables.{RunsNone};
ghost use Rattle.stateful_exec_tables.specs.Meeting.{GoesOn, JoinsAs, Meets, MeetsOnKnown, Skips};
ghost use Rattle.stateful_exec_tables.specs.declared.tables.Phase.TheVariants as phase;

use crate::error::ExecError;
use crate::met::Met;
use crate::tables::{LiveRun, Phase, Released, Requested};
use crate::tickets::Tickets;
use stateful_base::{Anchor, Block, Digest, Digested, Items, OutOfMemory, Share};
use stateful_exec_cache::{Cache, Cached, knows};
use stateful_exec_pause::{Disposition, ExecutionStep, Fate, Pause};
use stateful_exec_walk::{Proposal, ReplayPath, Request, Verdict};
use stateful_history::{How, Mark};
use stateful_table::Table;
use std::alloc::Global;

/// What execution keeps, over blocks `B`, contexts `C`, inputs `I`, runs `R` and sealed batches
/// `U`.
#[derive(Drop)]
pub struct Tables<B, C, I, R, U> {
    pub alloc: Global,
    pub anchor: Anchor,
    pub cache: Cache<U>,
    /// The live candidate runs, by their jobs.
    pub runs: Table<LiveRun<B, R>>,
    /// By their tickets.
    pub requests: Table<Requested<B, C, I>>,
    /// The builds that aren't started yet, by their tickets.
    pub queued: Table<Proposal<B, C, I>>,
    /// The tickets of those that weren't handed out yet, in the order in which their parents became
    /// known.
    pub recovered: Tickets,
    pub next_job: u64,
    pub next_fetch: u64,
    pub pause: Pause,
}

/// What an entry of the cache is of.
fn step_in<U>(entry: &Cached<U>) -> ExecutionStep
    ensures { result ≡ step_in entry.now }
{
    ExecutionStep {
        digest: entry.digest,
        parent: entry.parent,
        round: entry.round,
    }
}

impl<B: Block + Drop, C: Copy, I: Drop, R: Drop, U: Drop> Tables<B, C, I, R, U> {
    /// Nothing is cached above the anchor, and nothing goes on. Jobs and fetches are numbered from
    /// these numbers on.
    pub fn new(
        alloc: Global,
        anchor: Anchor,
        next_job: u64,
        next_fetch: u64,
    ) -> Tables<B, C, I, R, U>
        ensures { result ≡ record {
          alloc = alloc;
          anchor = anchor;
          cache = [];
          runs = [];
          requests = [];
          queued = [];
          recovered = [];
          next_job = next_job;
          next_fetch = next_fetch;
          pause = Pause.Free;
        } }
    {
        Tables {
            alloc,
            anchor,
            cache: Cache::new(alloc),
            runs: Table::new(alloc),
            requests: Table::new(alloc),
            queued: Table::new(alloc),
            recovered: Tickets::new(alloc),
            next_job,
            next_fetch,
            pause: Pause::Free,
        }
    }

    /// Whether the block of this digest is known: it is the anchor, or cached.
    pub(crate) fn knows(&self, digest: Digest) -> bool
        ensures { IsTrue result ↔ Knows self.now digest }
    {
        knows(self.anchor, &self.cache, digest)
    }

    /// The job of the live run of the block of this digest.
    pub(crate) fn run_of(&self, digest: Digest) -> Option<u64>
        ensures found { IfSome result (HasRun self.now digest) }
        ensures none { IfNone result (RunsNone self.now digest) }
    {
        for (job, run) in self.runs.entries().iter() {
            if run.block.digest().is(digest) {
                return Some(*job);
            }
        }
        None
    }

    /// The tickets of the requests that wait for the run of a job, ascending.
    pub(crate) fn tickets_on(&self, job: u64) -> Result<Items<u64>, OutOfMemory>
        ensures tickets { IfOk result (λ tickets. tickets ≡ tickets_on job self.now.requests) }
        ensures ordered { OnOk result (IsStrictlySortedBy nat_cmp (keys_of self.now.requests)) }
    {
        let mut tickets = Items::new(self.alloc);
        for (ticket, requested) in self.requests.entries().iter() {
            if requested.phase.is_on(job) {
                tickets.push(*ticket)?;
            }
        }
        Ok(tickets)
    }

    /// Whether a block is run on under the pause.
    fn goes_on(&self, block: &Digested<B>) -> bool
        ensures { IsTrue result ↔ GoesOn B.header self.now.pause block.now }
    {
        match &self.pause {
            Pause::Finalizing(boundary) => {
                boundary.disposition(&ExecutionStep::of(block)) == Disposition::Retain
            }
            _ => true,
        }
    }

    /// Passes the next block of a path, and tells what it is.
    pub fn join(&self, path: &mut ReplayPath<B>) -> Result<Met<B>, OutOfMemory>
        requires { path.old.blocks ≢ [] }
        ensures passed { path.old.blocks ≡ path.new.blocks ++ path.new.parent ∷ [] }
        ensures joins { IfOk result (JoinsAs B.header self.now path.new.parent path.old.parent) }
    {
        let parent = path.advance();
        let block = path.parent();
        if self.knows(block.digest()) {
            return Ok(Met::Known);
        }
        if let Some(job) = self.run_of(block.digest()) {
            return Ok(Met::Run(job));
        }
        if !self.knows(parent.digest()) {
            return Ok(Met::Missed);
        }
        let block = block.share()?;
        Ok(Met::Unrun { block, parent })
    }

    /// Passes the next block of a path where it goes on, and tells what was met.
    fn meet(&self, path: &mut ReplayPath<B>) -> Result<Met<B>, OutOfMemory>
        ensures { IfOk result (Meets B.header self.now path.old path.new) }
    {
        let Some(block) = path.next() else {
            return Ok(Met::Arrived);
        };
        if !self.goes_on(block) {
            return Ok(Met::Left);
        }
        self.join(path)
    }

    /// Passes the known blocks of a path, and tells what was met behind them.
    pub fn skip(&self, path: &mut ReplayPath<B>) -> Result<Met<B>, OutOfMemory>
        ensures skips { IfOk result (Skips B.header self.now path.old path.new) }
        ensures on_known { IfOk result (MeetsOnKnown B.header self.now) }
    {
        loop {
            match self.meet(path)? {
                Met::Known => {}
                met => return Ok(met),
            }
        }
    }

    /// Takes a request out of its table.
    pub fn take(&mut self, ticket: u64) -> Requested<B, C, I>
        requires { IsSome (at self.old.requests ticket) }
        ensures request { at self.old.requests ticket ≡ Some result }
        ensures rest { self.new ≡ taken self.old ticket }
    {
        match self.requests.remove(ticket) {
            Some(requested) => requested,
            None => unreachable!(),
        }
    }

    /// A request has come so far.
    pub fn put(&mut self, ticket: u64, requested: Requested<B, C, I>) -> Result<(), OutOfMemory>
        ensures numbers { Rises self.old self.new }
        ensures ok { OnOk result (self.new ≡ record self.old {
          requests = put self.old.requests ticket requested;
        }) }
    {
        self.requests.put(ticket, requested)
    }

    /// A request waits for a run. These blocks are left behind that of the run.
    pub fn execute(
        &mut self,
        ticket: u64,
        request: Request<B, C, I>,
        job: u64,
        path: ReplayPath<B>,
    ) -> Result<(), OutOfMemory>
        ensures ok { OnOk result (self.new
            ≡ moved self.old ticket (requested request) (phase.Executing job path)) }
        ensures err { OnErr result (self.new ≡ self.old) }
    {
        self.requests.put(
            ticket,
            Requested {
                request,
                acquired: Items::new(self.alloc),
                phase: Phase::Executing { job, path },
            },
        )
    }

    /// The blocks of a request are to be run later.
    pub fn park(
        &mut self,
        ticket: u64,
        request: Request<B, C, I>,
        path: ReplayPath<B>,
    ) -> Result<(), OutOfMemory>
        ensures ok { OnOk result (self.new
            ≡ moved self.old ticket (requested request) (phase.Parked path)) }
        ensures err { OnErr result (self.new ≡ self.old) }
    {
        self.requests.put(
            ticket,
            Requested {
                request,
                acquired: Items::new(self.alloc),
                phase: Phase::Parked(path),
            },
        )
    }

    /// A request has come so far.
    pub fn set_phase(
        &mut self,
        ticket: u64,
        requested: Requested<B, C, I>,
        phase: Phase<B>,
    ) -> Result<(), OutOfMemory>
        ensures ok { OnOk result (self.new ≡ moved self.old ticket requested phase) }
        ensures err { OnErr result (self.new ≡ self.old) }
    {
        let Requested {
            request,
            acquired,
            phase: _,
        } = requested;
        self.requests.put(
            ticket,
            Requested {
                request,
                acquired,
                phase,
            },
        )
    }

    /// A block is fetched for a request, under the next number. `Exhausted` exactly where that is
    /// the last one.
    pub fn ask(
        &mut self,
        ticket: u64,
        requested: Requested<B, C, I>,
        digest: Digest,
        marks: &mut Vec<Mark<B>>,
    ) -> Result<(), ExecError>
        ensures state { OnOk result (self.new ≡ record
            (moved self.old ticket requested (phase.Fetching self.old.next_fetch)) {
              next_fetch = self.old.next_fetch + 1;
            }) }
        ensures left { OnOk result (IsLeft self.old.next_fetch) }
        ensures marks { OnOk result (marks.new.items
            ≡ marks.old.items ++ mark.Asked self.old.next_fetch (Some ticket) digest ∷ []) }
        ensures numbers { Rises self.old self.new }
        ensures err { IfErr result (λ e. (e ≡ ExecError.OutOfMemory)
            ⊎ ((e ≡ ExecError.Exhausted) × (IsLeft self.old.next_fetch → ⊥))) }
    {
        let fetch = self.next_fetch;
        if fetch == u64::MAX {
            return Err(ExecError::Exhausted);
        }
        self.set_phase(ticket, requested, Phase::Fetching(fetch))?;
        self.next_fetch = fetch + 1;
        marks.push(Mark::Asked {
            fetch,
            ticket: Some(ticket),
            digest,
        })?;
        Ok(())
    }

    /// A request ends: it is answered, or the build of a proposal whose parent is known is queued.
    pub fn conclude(
        &mut self,
        ticket: u64,
        request: Request<B, C, I>,
        verdict: Verdict,
        marks: &mut Vec<Mark<B>>,
    ) -> Result<(), OutOfMemory>
        ensures state { OnOk result (self.new ≡ ended self.old ticket request verdict) }
        ensures marks { OnOk result (marks.new.items
            ≡ marks.old.items ++ told ticket request verdict) }
        ensures numbers { Rises self.old self.new }
    {
        match request {
            Request::Verify { .. } => {
                let valid = verdict == Verdict::Valid;
                marks.push(Mark::Verdict { ticket, valid })?;
                Ok(())
            }
            Request::Recover {
                context,
                ancestry,
                input,
                kind,
                ..
            } => {
                let proposal = Proposal {
                    context,
                    ancestry,
                    input,
                    kind,
                };
                self.end_recovery(ticket, proposal, verdict, marks)
            }
        }
    }

    /// The parent of a proposal is known, and its build is queued; or it can't be made known, and
    /// the proposal is declined.
    fn end_recovery(
        &mut self,
        ticket: u64,
        proposal: Proposal<B, C, I>,
        verdict: Verdict,
        marks: &mut Vec<Mark<B>>,
    ) -> Result<(), OutOfMemory>
        ensures known { verdict ≡ Verdict.Valid → OnOk result ((self.new ≡ record self.old {
          queued = put self.old.queued ticket proposal;
          recovered = self.old.recovered ++ ticket ∷ [];
        }) × (marks.new.items ≡ marks.old.items)) }
        ensures numbers { Rises self.old self.new }
        ensures unknown { verdict ≡ Verdict.Invalid → OnOk result ((self.new ≡ self.old)
            × (marks.new.items ≡ marks.old.items ++ mark.Declined ticket ∷ [])) }
    {
        match verdict {
            Verdict::Valid => {
                self.queued.put(ticket, proposal)?;
                self.recovered.push(ticket)?;
            }
            Verdict::Invalid => marks.push(Mark::Declined { ticket })?,
        }
        Ok(())
    }

    /// Takes the run of a job out of its table.
    pub fn take_run(&mut self, job: u64) -> LiveRun<B, R>
        requires { IsSome (at self.old.runs job) }
        ensures run { at self.old.runs job ≡ Some result }
        ensures rest { self.new ≡ record self.old { runs = without self.old.runs job } }
        ensures again { (run : LiveRun B R)
            → put self.new.runs job run ≡ put self.old.runs job run }
    {
        match self.runs.remove(job) {
            Some(run) => run,
            None => unreachable!(),
        }
    }

    /// Puts the run of a job in its table.
    pub fn put_run(&mut self, job: u64, live: LiveRun<B, R>) -> Result<(), OutOfMemory>
        ensures ok { OnOk result (self.new ≡ record self.old {
          runs = put self.old.runs job live;
        }) }
        ensures err { OnErr result (self.new ≡ self.old) }
    {
        self.runs.put(job, live)
    }

    /// The cache takes a block with its sealed batch, or misses it. An entry of the block that is
    /// there keeps its states. `PendingChanged` exactly where an entry of its digest is of another
    /// parent or round.
    pub fn keep(&mut self, block: &Digested<B>, batch: U) -> Result<How, ExecError>
        ensures takes { IfOk result (Takes B.header self.old.anchor block.now batch
            self.old.cache self.new.cache) }
        ensures rest { OnOk result (self.new ≡ record self.old { cache = self.new.cache }) }
        ensures numbers { Rises self.old self.new }
        ensures fault { IfErr result (FaultsTake B.header block.now self.old.cache) }
    {
        let step = ExecutionStep::of(block);
        if let Some(entry) = self.cache.find(step.digest) {
            let before = step_in(entry);
            if before.is(step) {
                return Ok(How::Kept);
            }
            return Err(ExecError::PendingChanged {
                before,
                after: step,
            });
        }
        if !step.round.is_later_than(self.anchor.round) || !self.knows(step.parent) {
            return Ok(How::Missed);
        }
        self.cache.insert(Cached {
            digest: step.digest,
            parent: step.parent,
            round: step.round,
            batch,
        })?;
        Ok(How::Kept)
    }

    /// While a finalization goes on, a block that goes on over it is compatible from now on.
    pub fn cross(&mut self, block: &Digested<B>) -> Result<(), OutOfMemory>
        ensures crosses { OnOk result (Crosses B.header block.now self.old.pause self.new.pause) }
        ensures rest { self.new ≡ record self.old { pause = self.new.pause } }
        ensures numbers { Rises self.old self.new }
    {
        self.pause.cross(block)
    }

    /// Takes the requests that wait for the run of a job out of their table, by ascending tickets.
    pub fn release(&mut self, job: u64) -> Result<Vec<Released<B, C, I>>, OutOfMemory>
        ensures released { IfOk result (λ out. out.items ≡ released_on job self.old.requests) }
        ensures rest { OnOk result (self.new ≡ released job self.old) }
        ensures numbers { Rises self.old self.new }
    {
        let tickets = self.tickets_on(job)?;
        let mut out = Vec::new(self.alloc);
        for ticket in tickets.into_vec() {
            let Requested {
                request,
                acquired: _,
                phase,
            } = self.take(ticket);
            let Phase::Executing { job: _, path } = phase else {
                unreachable!();
            };
            out.push(Released {
                ticket,
                request,
                path,
            })?;
        }
        Ok(out)
    }

    /// What becomes of the requests that waited for a run of the block that ended so.
    pub fn fate(&self, block: &Digested<B>, how: How) -> Fate
        ensures { IsFate B.header self.now.pause (IsIn self.now.cache block.now.digest) block.now
            how result }
    {
        let known = self.cache.has(block.digest());
        self.pause.fate(known, block, how)
    }

    /// A run of this block is live, under the next number of a job, which isn't the last one.
    pub fn add_run(&mut self, block: Digested<B>, run: R) -> Result<u64, OutOfMemory>
        requires { IsLeft self.old.next_job }
        ensures job { IfOk result (λ job. job ≡ self.old.next_job) }
        ensures state { OnOk result (self.new ≡ record self.old {
          runs = put self.old.runs self.old.next_job (record {
            block = block;
            run = run;
          });
          next_job = self.old.next_job + 1;
        }) }
        ensures err { OnErr result (self.new ≡ self.old) }
    {
        let job = self.next_job;
        self.runs.put(job, LiveRun { block, run })?;
        self.next_job = job + 1;
        Ok(job)
    }

    /// The number of the next job. `Exhausted` exactly where that is the last one.
    pub fn free_job(&self) -> Result<u64, ExecError>
        ensures ok { IfOk result (λ job. (job ≡ self.now.next_job) × IsLeft self.now.next_job) }
        ensures err { IfErr result (λ e. (e ≡ ExecError.Exhausted)
            × (IsLeft self.now.next_job → ⊥)) }
    {
        if self.next_job == u64::MAX {
            return Err(ExecError::Exhausted);
        }
        Ok(self.next_job)
    }
}
