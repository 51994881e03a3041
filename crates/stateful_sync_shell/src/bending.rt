//! A server, of which some answers are bent.

ghost use Rattle.std.specs.Prelude.{IsErrOf};
ghost use Rattle.stateful_db_source.specs.declared.source.ServeFault.{ServeFault};

use crate::synced::Written;
use stateful_base::{Digest, Faulty, Items, OutOfMemory};
use stateful_db_source::{ServeFault, SyncSource};
use stateful_passes::{MemoryServer, Served};
use stateful_types::{Request, Response};
use std::alloc::Global;

/// How an answer is bent.
#[derive(Clone, Copy)]
pub(crate) enum Bend {
    /// It isn't there yet.
    Late,
    /// It is of the other kind.
    Kind,
    /// An operation is missing.
    Short,
    /// The last operation is another one.
    Wrong,
    /// The digest before the operation is another one.
    Digest,
}

/// A server over a database, whose calls of some numbers answer what is bent. What was asked of it
/// last is kept until it is taken.
#[derive(Drop)]
pub(crate) struct Bent<DB> {
    server: MemoryServer<DB>,
    bends: Vec<(u64, Bend)>,
    calls: u64,
    asked: Option<Request>,
}

impl<DB: Served> Bent<DB> {
    /// A server over this database. The calls of the first numbers fail, and the others are bent.
    pub(crate) fn new(db: DB, failing: Vec<u64>, bends: Vec<(u64, Bend)>) -> Bent<DB> {
        Bent {
            server: MemoryServer::new(db, failing),
            bends,
            calls: 0,
            asked: None,
        }
    }

    /// Its database, by value.
    pub(crate) fn into_db(self) -> DB {
        self.server.into_db()
    }

    /// What was asked last, once.
    pub(crate) fn take_asked(&mut self) -> Option<Request> {
        self.asked.take()
    }
}

/// How the call of this number is bent.
fn bend_at(bends: &[(u64, Bend)], call: u64) -> Option<Bend> {
    for (number, bend) in bends {
        if *number == call {
            return Some(*bend);
        }
    }
    None
}

impl<DB: Served> Faulty for Bent<DB> {
    ghost use Rattle.stateful_passes.specs.Serving.{faults_of};

    ghost count = { λ s. faults_of s.server };

    fn faults(&self) -> u64 {
        self.server.faults()
    }
}

impl<DB: Written> SyncSource for Bent<DB> {
    type Op = DB::Op;

    ghost serves = { λ _ _ _ _. Unit {0} };

    fn serve(&mut self, request: Request) -> Result<Response<DB::Op>, ServeFault> {
        let call = self.calls;
        self.calls = call.saturating_add(1);
        self.asked = Some(request);
        let alloc = *self.bends.allocator();
        let bend = bend_at(self.bends.as_slice(), call);
        match self.server.serve(request) {
            Ok(response) => answered::<DB>(alloc, bend, response),
            Err(fault) => Err(fault),
        }
    }
}

/// What is answered in place of a response.
fn answered<DB: Written>(
    alloc: Global,
    bend: Option<Bend>,
    response: Response<DB::Op>,
) -> Result<Response<DB::Op>, ServeFault>
    ensures { IsErrOf result ServeFault.Failed → ⊥ }
{
    let other = match (bend, response) {
        (None, response) => return Ok(response),
        (Some(Bend::Late), _) => return Err(ServeFault::NotServed),
        (Some(bend), Response::Boundary { before, op }) => {
            boundary::<DB>(alloc, bend, before, op)
        }
        (Some(bend), Response::Operations { operations }) => {
            listed::<DB>(alloc, bend, operations.into_vec())
        }
    };
    match other {
        Ok(response) => Ok(response),
        Err(OutOfMemory) => Err(ServeFault::OutOfMemory),
    }
}

/// What is answered in place of an operation with the digest before it.
fn boundary<DB: Written>(
    alloc: Global,
    bend: Bend,
    before: Digest,
    op: DB::Op,
) -> Result<Response<DB::Op>, OutOfMemory> {
    match bend {
        Bend::Kind => {
            let mut operations = Items::new(alloc);
            operations.push(op)?;
            Ok(Response::Operations { operations })
        }
        Bend::Short => Ok(Response::Operations {
            operations: Items::new(alloc),
        }),
        Bend::Wrong => {
            let op = DB::wrong(alloc)?;
            Ok(Response::Boundary { before, op })
        }
        _ => Ok(Response::Boundary {
            before: Digest([7; 32]),
            op,
        }),
    }
}

/// What is answered in place of operations.
fn listed<DB: Written>(
    alloc: Global,
    bend: Bend,
    ops: Vec<DB::Op>,
) -> Result<Response<DB::Op>, OutOfMemory> {
    let mut ops = ops;
    match bend {
        Bend::Kind => {
            let op = DB::wrong(alloc)?;
            return Ok(Response::Boundary {
                before: Digest([7; 32]),
                op,
            });
        }
        Bend::Short => drop(ops.pop()),
        Bend::Wrong => {
            drop(ops.pop());
            ops.push(DB::wrong(alloc)?)?;
        }
        _ => {}
    }
    Ok(Response::Operations {
        operations: Items::from_vec(ops),
    })
}
