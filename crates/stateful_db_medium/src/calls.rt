//! The calls on a medium, by kind and by number, and the faults among them.

ghost use Rattle.std.specs.Prelude.{◌≡◌, ◌≤◌, ◌↔◌, IsTrue, Contains, ℕ};
ghost use Rattle.stateful_base.specs.Causes.{Rose};
ghost use Rattle.stateful_db.specs.Calls.{number_of, passed, uncalled, IsListed, Called};

use stateful_db::DbCall;
use std::marker::Model;

/// The number of the next call of each kind, from 0 on.
#[derive(Drop)]
pub struct Numbers {
    init: u64,
    apply: u64,
    finalize: u64,
    flush: u64,
    prune: u64,
    sync: u64,
}

impl Model for Numbers {
    ghost use Rattle.stateful_db.specs.Calls as told;

    ghost Value = { told.Numbers };

    ghost view = { λ a. record {
      init = a.init;
      apply = a.apply;
      finalize = a.finalize;
      flush = a.flush;
      prune = a.prune;
      sync = a.sync;
    } };
}

impl Numbers {
    fn of(&self, call: DbCall) -> u64
        ensures { result ≡ number_of self.now call }
    {
        match call {
            DbCall::Init => self.init,
            DbCall::Apply => self.apply,
            DbCall::Finalize => self.finalize,
            DbCall::Flush => self.flush,
            DbCall::Prune => self.prune,
            DbCall::Sync => self.sync,
        }
    }

    fn pass(&mut self, call: DbCall)
        ensures { self.new ≡ passed self.old call }
    {
        let next = self.of(call).saturating_add(1);
        match call {
            DbCall::Init => self.init = next,
            DbCall::Apply => self.apply = next,
            DbCall::Finalize => self.finalize = next,
            DbCall::Flush => self.flush = next,
            DbCall::Prune => self.prune = next,
            DbCall::Sync => self.sync = next,
        }
    }
}

/// Which calls fail, by kind and by number, which call comes next, and how many have failed.
#[derive(Drop)]
pub struct Calls {
    failing: Vec<(DbCall, u64)>,
    numbers: Numbers,
    faults: u64,
}

impl Model for Calls {
    ghost use Rattle.stateful_db.specs.Calls as told;

    ghost Value = { told.Calls };

    ghost view = { λ a. record {
      failing = a.failing.items;
      numbers = a.numbers;
      faults = a.faults;
    } };
}

impl Calls {
    pub fn new(failing: Vec<(DbCall, u64)>) -> Calls
        ensures { result ≡ uncalled failing.items }
    {
        Calls {
            failing,
            numbers: Numbers {
                init: 0,
                apply: 0,
                finalize: 0,
                flush: 0,
                prune: 0,
                sync: 0,
            },
            faults: 0,
        }
    }

    pub fn faults(&self) -> u64
        ensures { result ≡ self.now.faults }
    {
        self.faults
    }

    /// Makes a call of this kind. Whether it is to fail, which is then counted.
    pub fn fails(&mut self, call: DbCall) -> bool
        ensures listed { IsTrue result ↔ IsListed self.old call }
        ensures called { Called call self.old self.new }
        ensures count { self.old.faults ≤ self.new.faults }
        ensures rose { IsTrue result → Rose self.old.faults self.new.faults }
    {
        let number = self.numbers.of(call);
        self.numbers.pass(call);
        let listed = lists(self.failing.as_slice(), call, number);
        if listed {
            self.faults = self.faults.saturating_add(1);
        }
        listed
    }
}

fn lists(failing: &[(DbCall, u64)], call: DbCall, number: u64) -> bool
    ensures { IsTrue result ↔ Contains failing.now (call, number) }
{
    failing.contains(&(call, number))
}
