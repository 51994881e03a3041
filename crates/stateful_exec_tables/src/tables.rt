//! What execution keeps of live runs and requests.
//!
//! The `Phase` of a request says what it waits for, and what ends that:
//!
//! - `Open`: a pause has withdrawn its fetch, and the next resume finds anew what it needs;
//! - `Fetching`: for a block, until the fetch is answered or a pause withdraws it;
//! - `Waiting`: a verification that lacks a block which isn't to be had, until the next resume;
//! - `Executing`: for a run, until that has ended;
//! - `Parked`: its blocks wait for the next resume, since its run ended under a pause, or it was
//!   set out by hand.
//!
//! A cancel ends each of these. A request that is served just now is in no table and has no phase.
//! `specs/Phase.antt` says which requests wait for what.

ghost use Rattle.std.specs.Prelude.{◌≡◌, ◌↔◌, ℕ, IsTrue, IfSome, IfNone};
ghost use Rattle.stateful_exec_tables.specs.Phase.{is_on, is_unacquired};
ghost use Rattle.stateful_exec_tables.specs.Tables.{requested};

use stateful_base::{Digested, Items};
use stateful_exec_walk::{ReplayPath, Request};
use std::alloc::Global;

/// A candidate run that goes on.
#[derive(Drop)]
pub struct LiveRun<B, R> {
    pub block: Digested<B>,
    pub run: R,
}

/// How far a request has come.
#[derive(Drop)]
pub enum Phase<B> {
    /// What it needs is still to be found.
    Open,
    /// A block is fetched for it, under this number.
    Fetching(u64),
    /// It waits until acquisitions start anew.
    Waiting,
    /// It waits for a run. These blocks are left behind that of the run.
    Executing { job: u64, path: ReplayPath<B> },
    /// These blocks are to be run.
    Parked(ReplayPath<B>),
}

impl<B> Phase<B> {
    /// Whether a block is fetched under this number.
    pub fn fetches(&self, fetch: u64) -> bool
        ensures { IsTrue result ↔ (self.now ≡ Phase.Fetching fetch) }
    {
        match self {
            Phase::Fetching(of) => *of == fetch,
            _ => false,
        }
    }

    /// Whether it waits for the run of this job.
    pub(crate) fn is_on(&self, job: u64) -> bool
        ensures { result ≡ is_on job self.now }
    {
        match self {
            Phase::Executing { job: of, .. } => *of == job,
            _ => false,
        }
    }
}

impl<B> Phase<B> {
    /// Whether what the request needs is to be found anew once nothing pauses.
    pub(crate) fn is_unacquired(&self) -> bool
        ensures { result ≡ is_unacquired self.now }
    {
        match self {
            Phase::Open | Phase::Waiting => true,
            _ => false,
        }
    }

    /// The number under which a block is fetched, if one is.
    pub fn fetch(&self) -> Option<u64>
        ensures some { IfSome result (λ fetch. self.now ≡ Phase.Fetching fetch) }
        ensures none { IfNone result ((fetch : ℕ) → self.now ≡ Phase.Fetching fetch → ⊥) }
    {
        match self {
            Phase::Fetching(fetch) => Some(*fetch),
            _ => None,
        }
    }
}

/// A request that goes on.
#[derive(Drop)]
pub struct Requested<B, C, I> {
    pub request: Request<B, C, I>,
    /// What was fetched for it, one after another.
    pub acquired: Items<Digested<B>>,
    pub phase: Phase<B>,
}

impl<B, C, I> Requested<B, C, I> {
    /// A request for which nothing was acquired.
    pub fn new(alloc: Global, request: Request<B, C, I>) -> Requested<B, C, I>
        ensures { result ≡ requested request }
    {
        Requested {
            request,
            acquired: Items::new(alloc),
            phase: Phase::Open,
        }
    }
}

impl<B: Drop, C: Copy, I: Drop> Requested<B, C, I> {
    /// The same request, for which nothing was acquired.
    pub fn anew(self, alloc: Global) -> Requested<B, C, I>
        ensures { result ≡ requested self.request }
    {
        let Requested {
            request,
            acquired: _,
            phase: _,
        } = self;
        Requested::new(alloc, request)
    }
}

/// A request that has waited for a run, with the blocks that are left behind that of the run.
#[derive(Drop)]
pub struct Released<B, C, I> {
    pub ticket: u64,
    pub request: Request<B, C, I>,
    pub path: ReplayPath<B>,
}
