//! The databases that barriers wait for.

ghost use Rattle.std.specs.Prelude.{◌≡◌, ◌==◌, ◌&&◌, ◌∷◌, [], ℕ, not, true, false, nat_lt};
ghost use Rattle.std.specs.Prelude.{if◌then◌else◌, IfOk, OnOk, OnErr};
ghost use Rattle.std.specs.List.{list_any};
ghost use Rattle.stateful_actor_register.specs.Change.{begins_barrier};
ghost use Rattle.stateful_actor_register.specs.Flushes.{is_waiting, WaitsAlike, FlushesApply};

use crate::change::{Change, begins_some_barrier};
use stateful_base::OutOfMemory;
use std::alloc::Global;
use std::collections::BTreeMap;

/// For each barrier, which of its databases aren't flushed yet.
#[derive(Drop)]
pub(crate) struct Flushes {
    barriers: BTreeMap<u64, Vec<bool>>,
    alloc: Global,
}

impl Flushes {
    /// Without barriers.
    pub(crate) fn new(alloc: Global) -> Flushes
        ensures { (k i : ℕ) → is_waiting result k i ≡ false }
    {
        Flushes {
            barriers: BTreeMap::new(alloc),
            alloc,
        }
    }

    /// Whether this barrier waits for the flush of this database.
    pub(crate) fn is_waiting(&self, barrier: u64, database: usize) -> bool
        ensures { result ≡ is_waiting self.now barrier database }
    {
        match self.barriers.get(&barrier) {
            Some(waiting) => waiting.get(database).copied().unwrap_or(false),
            None => false,
        }
    }

    /// Lets this barrier wait for so many databases.
    pub(crate) fn begin(&mut self, barrier: u64, count: usize) -> Result<(), OutOfMemory>
        ensures ok { OnOk result ((k i : ℕ)
            → is_waiting self.new k i
            ≡ (if k == barrier then nat_lt i count else is_waiting self.old k i)) }
        ensures err { OnErr result (WaitsAlike self.old self.new) }
    {
        let waiting = vec![in self.alloc; true; count]?;
        self.barriers.insert(barrier, waiting)?;
        Ok(())
    }

    /// The barrier waits for this database no more.
    pub(crate) fn flush(&mut self, barrier: u64, database: usize)
        ensures { (k i : ℕ)
            → is_waiting self.new k i
            ≡ not ((k == barrier) && (i == database)) && is_waiting self.old k i }
    {
        if let Some(waiting) = self.barriers.get_mut(&barrier) {
            if let Some(waits) = waiting.get_mut(database) {
                *waits = false;
            }
        }
    }

    /// The barrier waits for nothing more.
    pub(crate) fn end(&mut self, barrier: u64)
        ensures { (k i : ℕ)
            → is_waiting self.new k i ≡ not (k == barrier) && is_waiting self.old k i }
    {
        self.barriers.remove(&barrier);
    }

    /// No barrier waits for anything more.
    pub(crate) fn clear(&mut self)
        ensures { (k i : ℕ) → is_waiting self.new k i ≡ false }
    {
        self.barriers.clear();
    }

    /// The same barriers.
    pub(crate) fn share(&self) -> Result<Flushes, OutOfMemory>
        ensures { IfOk result (WaitsAlike self.now) }
    {
        Ok(Flushes {
            barriers: self.barriers.clone()?,
            alloc: self.alloc,
        })
    }

    /// Takes in a change, with so many databases. Memory is wanted only where a barrier begins.
    fn apply(&mut self, count: usize, change: Change) -> Result<(), OutOfMemory>
        ensures ok { OnOk result (FlushesApply count self.old self.new (change ∷ [])) }
        ensures err { OnErr result (begins_barrier change ≡ true) }
    {
        match change {
            Change::BeginsBarrier { barrier } => self.begin(barrier, count)?,
            Change::Flushes { barrier, database } => self.flush(barrier, database),
            Change::EndsBarrier { barrier } => self.end(barrier),
            Change::Starts | Change::Stops => self.clear(),
            _ => {}
        }
        Ok(())
    }

    /// Takes in changes, one after another, with so many databases. Memory is wanted only where a
    /// barrier begins.
    fn apply_each(&mut self, count: usize, changes: &[Change]) -> Result<(), OutOfMemory>
        ensures ok { OnOk result (FlushesApply count self.old self.new changes.now) }
        ensures err { OnErr result (list_any begins_barrier changes.now ≡ true) }
    {
        for change in changes {
            self.apply(count, *change)?;
        }
        Ok(())
    }

    /// Takes in changes, one after another, with so many databases. An error leaves the barriers as
    /// they were: where one begins, a copy is made.
    pub(crate) fn record(&mut self, count: usize, changes: &[Change]) -> Result<(), OutOfMemory>
        ensures ok { OnOk result (FlushesApply count self.old self.new changes.now) }
        ensures err { OnErr result (WaitsAlike self.old self.new) }
    {
        if !begins_some_barrier(changes) {
            return self.apply_each(count, changes);
        }
        let mut next = self.share()?;
        next.apply_each(count, changes)?;
        *self = next;
        Ok(())
    }
}
