//! Values by number.

ghost use Rattle.std.specs.Prelude.{◌≡◌, ◌+◌, ◌^◌, ◌<◌, ℕ, [], None, is_some, IsSome, OnOk, OnErr};
ghost use Rattle.std.specs.Prelude.{length};
ghost use Rattle.std.specs.Option.{option_copied};
ghost use Rattle.stateful_table.specs.Table.{at, put, without, total, weight_of, first_of};

use stateful_base::OutOfMemory;
use std::alloc::Global;
use std::collections::BTreeMap;
use std::marker::Model;

/// Values by number, which contracts see as the list of numbers with their values, by ascending
/// numbers.
#[derive(Drop)]
pub struct Table<V> {
    entries: BTreeMap<u64, V>,
}

impl<V> Model for Table<V> {
    ghost use Rattle.std.specs.Prelude.{List, ℕ};
    ghost use Rattle.std.specs.List.Sorted.{IsStrictlySortedBy};
    ghost use Rattle.std.specs.Ordering.{nat_cmp};
    ghost use Rattle.std.specs.Map.{keys_of};

    ghost Value = { List (ℕ × V) };

    ghost view = { λ a. a.entries.entries };

    ghost invariant = { λ a. IsStrictlySortedBy nat_cmp (keys_of a.entries.entries) };
}

impl<V: Drop> Table<V> {
    /// Without values.
    pub fn new(alloc: Global) -> Table<V>
        ensures { result ≡ [] }
    {
        Table {
            entries: BTreeMap::new(alloc),
        }
    }

    /// How many there are.
    pub fn len(&self) -> usize
        ensures size { result ≡ length self.now }
        ensures small { result < 2 ^ 63 }
    {
        self.entries.len()
    }

    /// The value at a number.
    pub fn get(&self, number: u64) -> Option<&V>
        ensures { option_copied result ≡ at self.now number }
    {
        self.entries.get(&number)
    }

    /// Whether there is a value at a number.
    pub fn contains(&self, number: u64) -> bool
        ensures { result ≡ is_some (at self.now number) }
    {
        self.entries.contains_key(&number)
    }

    /// The value at the least number.
    pub fn first(&self) -> Option<&V>
        ensures { option_copied result ≡ first_of self.now }
    {
        match self.entries.first_key_value() {
            Some((_, value)) => Some(value),
            None => None,
        }
    }

    /// The numbers with their values, by ascending numbers.
    pub fn entries(&self) -> &BTreeMap<u64, V>
        ensures { result.now.entries ≡ self.now }
    {
        &self.entries
    }

    /// The numbers with their values, by ascending numbers, and nothing is left of the table.
    pub fn into_entries(self) -> BTreeMap<u64, V>
        ensures { result.entries ≡ self }
    {
        self.entries
    }

    /// Puts a value at a number, in place of the one that was there. That takes memory only where
    /// there was none. A value put there later leaves nothing of this one.
    pub fn put(&mut self, number: u64, value: V) -> Result<(), OutOfMemory>
        ensures ok { OnOk result (self.new ≡ put self.old number value) }
        ensures sums { OnOk result ((weigh : V → ℕ)
            → total weigh self.new + weight_of weigh (at self.old number)
            ≡ total weigh self.old + weigh value) }
        ensures twice { OnOk result ((later : V)
            → put self.new number later ≡ put self.old number later) }
        ensures err { OnErr result (self.new ≡ self.old) }
        ensures new { OnErr result (at self.old number ≡ None) }
    {
        self.entries.insert(number, value)?;
        Ok(())
    }

    /// Puts a value in place of the one at a number. It takes no memory.
    pub fn replace(&mut self, number: u64, value: V)
        requires { IsSome (at self.old number) }
        ensures entries { self.new ≡ put self.old number value }
        ensures sums { (weigh : V → ℕ)
            → total weigh self.new + weight_of weigh (at self.old number)
            ≡ total weigh self.old + weigh value }
    {
        let _ = self.entries.insert(number, value);
    }

    /// Takes out the value at a number. A value put there afterwards leaves what it
    /// would have left in place of the one taken out.
    pub fn remove(&mut self, number: u64) -> Option<V>
        ensures value { result ≡ at self.old number }
        ensures others { self.new ≡ without self.old number }
        ensures sums { (weigh : V → ℕ)
            → total weigh self.new + weight_of weigh (at self.old number)
            ≡ total weigh self.old }
        ensures again { (value : V) → put self.new number value ≡ put self.old number value }
    {
        self.entries.remove(&number)
    }
}
