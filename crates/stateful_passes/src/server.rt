//! A server over a database in memory, of which some calls fail.

ghost use Rattle.std.specs.Prelude.{◌≡◌};
ghost use Rattle.stateful_passes.specs.Serving.{db_of, failing_of, call_of, faults_of};

use crate::served::Served;
use stateful_base::Faulty;
use stateful_db_source::{ServeFault, SyncSource};
use stateful_types::{Request, Response};

/// A server that answers what its database does. The calls whose numbers it lists fail.
#[derive(Drop)]
pub struct MemoryServer<DB> {
    db: DB,
    failing: Vec<u64>,
    calls: u64,
    faults: u64,
}

impl<DB: Served> MemoryServer<DB> {
    /// A server over this database. The calls of these numbers, from 0 on, fail.
    pub fn new(db: DB, failing: Vec<u64>) -> MemoryServer<DB>
        ensures db { db_of result ≡ db }
        ensures failing { failing_of result ≡ failing.items }
        ensures call { call_of result ≡ 0 }
        ensures faults { faults_of result ≡ 0 }
    {
        MemoryServer {
            db,
            failing,
            calls: 0,
            faults: 0,
        }
    }

    /// Its database.
    pub fn db(&self) -> &DB
        ensures { result.now ≡ db_of self.now }
    {
        &self.db
    }

    /// Its database, by value.
    pub fn into_db(self) -> DB
        ensures { result ≡ db_of self }
    {
        self.db
    }
}

impl<DB: Served> Faulty for MemoryServer<DB> {
    ghost use Rattle.stateful_passes.specs.Serving.{faults_of};

    ghost count = { faults_of };

    fn faults(&self) -> u64 {
        self.faults
    }
}

impl<DB: Served> SyncSource for MemoryServer<DB> {
    ghost use Rattle.stateful_passes.specs.Serving.{Serves, db_of};

    type Op = DB::Op;

    ghost serves = { λ s request result t.
        Serves (DB.holds (db_of s) request) (DB.answers (db_of s) request) s result t };

    fn serve(&mut self, request: Request) -> Result<Response<DB::Op>, ServeFault> {
        let call = self.calls;
        self.calls = self.calls.saturating_add(1);
        if self.failing.contains(&call) {
            self.faults = self.faults.saturating_add(1);
            return Err(ServeFault::Failed);
        }
        self.db.answer(&request)
    }
}
