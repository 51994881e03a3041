//! Stores of one value.

ghost use Rattle.std.specs.Prelude.{◌≡◌, ◌↔◌, ◌≤◌, Some, IsErrOf, IsTrue, IfOk, OnOk, OnErr};
ghost use Rattle.std.specs.Prelude.{Contains};
ghost use Rattle.stateful_base.specs.Causes.{Rose, risen};
ghost use Rattle.stateful_sync_plan.specs.Store.{IsListed, numbered, failed};

use bytes::Bytes;
use stateful_types::Faulty;
use std::alloc::AllocError;
use std::marker::Model;
use thiserror::Error;

/// Why a store didn't give or take its value.
#[derive(Clone, Copy, Debug, PartialEq, Eq, Error)]
pub enum StoreFault {
    /// It failed, and has counted it.
    #[error("Failed")]
    Failed,
    #[error("OutOfMemory")]
    OutOfMemory,
}

impl From<AllocError> for StoreFault {
    ghost use Rattle.stateful_sync_plan.specs.declared.store.StoreFault.TheVariants.{OutOfMemory};

    ghost from_gives = { λ _ e. e ≡ OutOfMemory };

    fn from(_refused: AllocError) -> StoreFault {
        StoreFault::OutOfMemory
    }
}

/// Keeps one value, or none, over restarts. What a node remembers of its sync is such a value.
pub trait PlanStore: Faulty {
    ghost use Rattle.std.specs.Prelude.{◌≡◌, ◌≤◌, ℕ, List, Option, Some, IfOk, IfSome, OnOk, OnErr};
    ghost use Rattle.std.specs.Prelude.{IsErrOf};
    ghost use Rattle.std.specs.Option.{option_map};
    ghost use Rattle.stateful_base.specs.Causes.{Rose};

    /// The value that it holds, where that is told.
    ghost stored: { Self → Option (Option (List ℕ)) };

    /// The value, where there is one.
    fn load(&mut self) -> Result<Option<Bytes>, StoreFault>
        ensures value { IfOk result (λ value. IfSome (stored self.old) (λ was. value ≡ was)) }
        ensures same { stored self.new ≡ stored self.old }
        ensures cause { IsErrOf result StoreFault.Failed
            → Rose (Self.count self.old) (Self.count self.new) }
        ensures later { Self.count self.old ≤ Self.count self.new };

    /// Keeps this value in place of the one that was there. Where it fails, the one that was there
    /// is kept.
    fn put(&mut self, value: Bytes) -> Result<(), StoreFault>
        ensures ok { OnOk result (stored self.new ≡ option_map (λ _. Some value) (stored self.old)) }
        ensures err { OnErr result (stored self.new ≡ stored self.old) }
        ensures cause { IsErrOf result StoreFault.Failed
            → Rose (Self.count self.old) (Self.count self.new) }
        ensures later { Self.count self.old ≤ Self.count self.new };
}

/// A kind of call on a store, as failing lists name it.
#[derive(Clone, Copy, Debug, PartialEq, Eq)]
pub enum PlanCall {
    Load,
    Put,
}

/// A store in memory. The calls that it lists fail, by their kinds and their numbers from 0 on.
#[derive(Drop)]
pub struct MemoryPlanStore {
    value: Option<Bytes>,
    failing: Vec<(PlanCall, u64)>,
    loads: u64,
    puts: u64,
    faults: u64,
}

impl Model for MemoryPlanStore {
    ghost use Rattle.stateful_sync_plan.specs.Store.{StoredPlan};

    ghost Value = { StoredPlan };

    ghost view = { λ a. record {
      value = a.value;
      failing = a.failing.items;
      loads = a.loads;
      puts = a.puts;
      faults = a.faults;
    } };
}

impl MemoryPlanStore {
    /// A store that holds this value, or none.
    pub fn new(value: Option<Bytes>, failing: Vec<(PlanCall, u64)>) -> MemoryPlanStore
        ensures { result ≡ record {
          value = value;
          failing = failing.items;
          loads = 0;
          puts = 0;
          faults = 0;
        } }
    {
        MemoryPlanStore {
            value,
            failing,
            loads: 0,
            puts: 0,
            faults: 0,
        }
    }

    /// Counts a call of this kind. It fails exactly where it is listed.
    fn fails(&mut self, call: PlanCall) -> bool
        ensures listed { IsTrue result ↔ IsListed self.old call }
        ensures failed { IsTrue result → self.new ≡ failed (numbered self.old call) }
        ensures done { (IsTrue result → ⊥) → self.new ≡ numbered self.old call }
        ensures later { self.old.faults ≤ self.new.faults }
    {
        let number = match call {
            PlanCall::Load => self.loads,
            PlanCall::Put => self.puts,
        };
        match call {
            PlanCall::Load => self.loads = self.loads.saturating_add(1),
            PlanCall::Put => self.puts = self.puts.saturating_add(1),
        }
        let listed = lists(self.failing.as_slice(), call, number);
        if listed {
            self.faults = self.faults.saturating_add(1);
        }
        listed
    }
}

/// Whether the call of this kind and number is listed.
fn lists(failing: &[(PlanCall, u64)], call: PlanCall, number: u64) -> bool
    ensures { IsTrue result ↔ Contains failing.now (call, number) }
{
    failing.contains(&(call, number))
}

impl Faulty for MemoryPlanStore {
    ghost count = { λ store. store.faults };

    fn faults(&self) -> u64 {
        self.faults
    }
}

impl PlanStore for MemoryPlanStore {
    ghost stored = { λ store. Some store.value };

    fn load(&mut self) -> Result<Option<Bytes>, StoreFault>
        ensures value { IfOk result (λ value. value ≡ self.old.value) }
        ensures same { self.new.value ≡ self.old.value }
        ensures cause { IsErrOf result StoreFault.Failed → Rose self.old.faults self.new.faults }
        ensures later { self.old.faults ≤ self.new.faults }

        // The listed calls fail, and a fault is counted exactly there: want of memory isn't
        // counted.
        ensures listed { IsErrOf result StoreFault.Failed ↔ IsListed self.old PlanCall.Load }
        ensures failed { IsListed self.old PlanCall.Load
            → self.new ≡ failed (numbered self.old PlanCall.Load) }
        ensures done { (IsListed self.old PlanCall.Load → ⊥)
            → self.new ≡ numbered self.old PlanCall.Load }
    {
        if self.fails(PlanCall::Load) {
            return Err(StoreFault::Failed);
        }
        match &self.value {
            Some(value) => Ok(Some(value.clone()?)),
            None => Ok(None),
        }
    }

    fn put(&mut self, value: Bytes) -> Result<(), StoreFault>
        ensures ok { OnOk result (self.new.value ≡ Some value) }
        ensures err { OnErr result (self.new.value ≡ self.old.value) }
        ensures cause { IsErrOf result StoreFault.Failed → Rose self.old.faults self.new.faults }
        ensures later { self.old.faults ≤ self.new.faults }

        // The listed calls fail, and no others. It takes no memory.
        ensures listed { IsErrOf result StoreFault.Failed ↔ IsListed self.old PlanCall.Put }
        ensures failed { IsListed self.old PlanCall.Put
            → self.new ≡ failed (numbered self.old PlanCall.Put) }
        ensures done { (IsListed self.old PlanCall.Put → ⊥)
            → self.new ≡ record (numbered self.old PlanCall.Put) { value = Some value } }
        ensures memory { IsErrOf result StoreFault.OutOfMemory → ⊥ }
    {
        if self.fails(PlanCall::Put) {
            return Err(StoreFault::Failed);
        }
        self.value = Some(value);
        Ok(())
    }
}
