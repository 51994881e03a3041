//! What is live, by number, with room for more.

ghost use Rattle.std.specs.Prelude.{◌≡◌, ◌==◌, ℕ, if◌then◌else◌, is_some, IfOk, OnOk};
ghost use Rattle.stateful_actor_register.specs.Live.{entry, HasRoom, IsListOf};

use stateful_base::OutOfMemory;
use stateful_history::Ticket;
use std::alloc::Global;
use std::collections::BTreeMap;

/// Values that are live, by number. An entry without a value is room for one, which contracts don't
/// see as live.
#[derive(Drop)]
pub(crate) struct Live<V> {
    entries: BTreeMap<u64, Option<V>>,
}

impl<V: Copy> Live<V> {
    /// Without values.
    pub(crate) fn new(alloc: Global) -> Live<V>
        ensures { (k : ℕ) → entry result k ≡ None }
    {
        Live {
            entries: BTreeMap::new(alloc),
        }
    }

    /// The value that is live under a number.
    pub(crate) fn get(&self, number: u64) -> Option<V>
        ensures { result ≡ entry self.now number }
    {
        match self.entries.get(&number) {
            Some(value) => *value,
            None => None,
        }
    }

    /// Whether a value is live under a number.
    pub(crate) fn contains(&self, number: u64) -> bool
        ensures { result ≡ is_some (entry self.now number) }
    {
        self.get(number).is_some()
    }

    /// Makes room under a number. What is live stays as it is.
    pub(crate) fn reserve(&mut self, number: u64) -> Result<(), OutOfMemory>
        ensures room { OnOk result (HasRoom self.new number) }
        ensures rooms { (k : ℕ) → HasRoom self.old k → HasRoom self.new k }
        ensures same { (k : ℕ) → entry self.new k ≡ entry self.old k }
    {
        if !self.entries.contains_key(&number) {
            self.entries.insert(number, None)?;
        }
        Ok(())
    }

    /// Puts a value where there is room. It takes no memory.
    pub(crate) fn put(&mut self, number: u64, value: V)
        requires { HasRoom self.old number }
        ensures live { (k : ℕ)
            → entry self.new k ≡ (if k == number then Some value else entry self.old k) }
        ensures rooms { (k : ℕ) → HasRoom self.old k → HasRoom self.new k }
    {
        let _ = self.entries.insert(number, Some(value));
    }

    /// Nothing is live under a number any more. What room is there stays.
    pub(crate) fn end(&mut self, number: u64)
        ensures live { (k : ℕ)
            → entry self.new k ≡ (if k == number then None else entry self.old k) }
        ensures rooms { (k : ℕ) → HasRoom self.old k → HasRoom self.new k }
    {
        if self.entries.contains_key(&number) {
            let _ = self.entries.insert(number, None);
        }
    }

    /// Gives the room under a number back, where nothing is live.
    pub(crate) fn release(&mut self, number: u64)
        ensures { (k : ℕ) → entry self.new k ≡ entry self.old k }
    {
        if let Some(None) = self.entries.get(&number) {
            self.entries.remove(&number);
        }
    }

    /// The numbers under which a value is live, ascending.
    pub(crate) fn numbers(&self, alloc: Global) -> Result<Vec<u64>, OutOfMemory>
        ensures { IfOk result (λ numbers. IsListOf (λ k. is_some (entry self.now k)) numbers.items) }
    {
        let mut numbers = Vec::new(alloc);
        for (number, value) in &self.entries {
            if value.is_some() {
                numbers.push(*number)?;
            }
        }
        Ok(numbers)
    }
}

impl Live<Ticket> {
    /// The same tickets.
    pub(crate) fn share(&self) -> Result<Live<Ticket>, OutOfMemory>
        ensures { IfOk result (λ copy. (k : ℕ) → entry copy k ≡ entry self.now k) }
    {
        Ok(Live {
            entries: self.entries.clone()?,
        })
    }
}

impl Live<()> {
    /// The same numbers.
    pub(crate) fn share(&self) -> Result<Live<()>, OutOfMemory>
        ensures { IfOk result (λ copy. (k : ℕ) → entry copy k ≡ entry self.now k) }
    {
        Ok(Live {
            entries: self.entries.clone()?,
        })
    }
}
