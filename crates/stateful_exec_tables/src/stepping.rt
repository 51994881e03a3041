//! The next step of a request's path, for a caller that leads requests by hand.

ghost use Rattle.std.specs.Prelude.{◌≡◌, ◌≢◌, ◌↔◌, ◌++◌, ◌∷◌, [], IsTrue, IfOk, IfSome, IfNone};
ghost use Rattle.std.specs.Option.{option_copied};
ghost use Rattle.stateful_base.specs.Names.{Named};
ghost use Rattle.stateful_exec_pause.specs.Boundary.{step_by};
ghost use Rattle.stateful_exec_tables.specs.Cancelling.{IsIdle};
ghost use Rattle.stateful_exec_tables.specs.Meeting.{JoinsAs, MeetsOnKnown};
ghost use Rattle.stateful_exec_walk.specs.Path.{Path};
ghost use Rattle.stateful_exec_tables.specs.Stepping.{IsFree, IsParked, HasNext, SetsOut, Prepares};
ghost use Rattle.stateful_exec_tables.specs.Tables.{taken, Rises};
ghost use Rattle.stateful_exec_walk.specs.declared.request.Request.{Request as Req};

use crate::met::Met;
use crate::state::Tables;
use crate::tables::{Phase, Requested};
use stateful_base::{Block, BlockStore, Digested, OutOfMemory};
use stateful_exec_pause::ExecutionStep;
use stateful_exec_walk::{Acquired, ReplayPath, Request, prepare};

impl<B> Phase<B> {
    /// Whether the request waits for no run and no fetch.
    fn is_idle(&self) -> bool
        ensures { IsTrue result ↔ IsIdle self.now }
    {
        match self {
            Phase::Open | Phase::Waiting | Phase::Parked(_) => true,
            Phase::Fetching(_) | Phase::Executing { .. } => false,
        }
    }

    /// The blocks of a parked request.
    fn parked(&self) -> Option<&ReplayPath<B>>
        ensures some { IfSome (option_copied result) (λ path. self.now ≡ Phase.Parked path) }
        ensures none { IfNone result ((path : Path B) → self.now ≡ Phase.Parked path → ⊥) }
    {
        match self {
            Phase::Parked(path) => Some(path),
            _ => None,
        }
    }
}

impl<B: Block + Drop, C: Copy, I: Drop, R: Drop, U: Drop> Tables<B, C, I, R, U> {
    /// Takes a request out of its table that waits for no run and no fetch.
    pub fn take_free(&mut self, ticket: u64) -> Option<Request<B, C, I>>
        ensures free { IfSome result (IsFree self.old ticket) }
        ensures rest { IfSome result (λ _. self.new ≡ taken self.old ticket) }
        ensures none { IfNone result ((request : Req B C I)
            → IsFree self.old ticket request
            → ⊥) }
        ensures same { IfNone result (self.new ≡ self.old) }
    {
        if !self.requests.get(ticket)?.phase.is_idle() {
            return None;
        }
        let requested = self.take(ticket);
        Some(requested.request)
    }

    /// The next block of the request of a ticket, where it is parked.
    pub fn next_of(&self, ticket: u64) -> Option<&Digested<B>>
        ensures next { IfSome (option_copied result) (HasNext self.now ticket) }
        ensures none { IfNone result ((b : Named B) → HasNext self.now ticket b → ⊥) }
    {
        self.requests.get(ticket)?.phase.parked()?.next()
    }

    /// The same as a step.
    pub fn next_step(&self, ticket: u64) -> Option<ExecutionStep>
        ensures next { IfSome result (λ step. (b : Named B)
            × HasNext self.now ticket b
            × (step ≡ step_by B.header b)) }
        ensures none { IfNone result ((b : Named B) → HasNext self.now ticket b → ⊥) }
    {
        Some(ExecutionStep::of(self.next_of(ticket)?))
    }

    /// What the request of a ticket needs, with the blocks that were acquired for it so far.
    pub fn needs<S: BlockStore<B>>(
        &self,
        ticket: u64,
        store: &S,
    ) -> Result<Option<Acquired<B>>, OutOfMemory>
        ensures { IfOk result (Prepares self.now ticket B.header (S.stored store.now)) }
    {
        let Some(requested) = self.requests.get(ticket) else {
            return Ok(None);
        };
        let acquired = requested.acquired.as_slice();
        let found = prepare(
            self.alloc,
            self.anchor,
            &self.cache,
            store,
            &requested.request,
            acquired,
        )?;
        Ok(Some(found))
    }

    /// Takes a parked request with a next block out of its table.
    pub fn take_next(&mut self, ticket: u64) -> Option<(Request<B, C, I>, ReplayPath<B>)>
        ensures parked { IfSome result (λ found. IsParked self.old ticket found.0 found.1) }
        ensures some { IfSome result (λ found. found.1.blocks ≢ []) }
        ensures rest { IfSome result (λ _. self.new ≡ taken self.old ticket) }
        ensures none { IfNone result ((b : Named B) → HasNext self.old ticket b → ⊥) }
        ensures same { IfNone result (self.new ≡ self.old) }
    {
        let _ = self.next_of(ticket)?;
        let Requested {
            request,
            acquired: _,
            phase,
        } = self.take(ticket);
        let Phase::Parked(path) = phase else {
            unreachable!();
        };
        Some((request, path))
    }

    /// Passes the next block of a path, and tells what it is. A block that is to be run is met on a
    /// known parent.
    pub fn join_next(&self, path: &mut ReplayPath<B>) -> Result<Met<B>, OutOfMemory>
        requires { path.old.blocks ≢ [] }
        ensures passed { path.old.blocks ≡ path.new.blocks ++ path.new.parent ∷ [] }
        ensures joins { IfOk result (JoinsAs B.header self.now path.new.parent path.old.parent) }
        ensures on_known { IfOk result (MeetsOnKnown B.header self.now) }
    {
        self.join(path)
    }

    /// The request of a ticket is to go along this path, where it waits for no run and no fetch.
    pub fn set_out(&mut self, ticket: u64, path: ReplayPath<B>) -> Result<bool, OutOfMemory>
        ensures ok { IfOk result (SetsOut self.old ticket path self.new) }
        ensures numbers { Rises self.old self.new }
    {
        let Some(request) = self.take_free(ticket) else {
            return Ok(false);
        };
        self.park(ticket, request, path)?;
        Ok(true)
    }
}
