//! The calls that are to fail.

ghost use Rattle.std.specs.Prelude.{◌≡◌, [], ◌∷◌, ◌++◌, drop, get_or, if◌then◌else◌, is_ok};

use stateful_db::DbCall;
use stateful_types::{Items, OutOfMemory};
use std::alloc::Global;
use std::collections::VecDeque;
use std::marker::Model;

/// The calls that are to fail on the databases of a world, by kind and by number from 0 on: a list
/// for each database, by its number. A database behind the last list has none to fail.
#[derive(Drop)]
pub struct Failing {
    lists: VecDeque<Items<(DbCall, u64)>>,
}

impl Model for Failing {
    ghost use Rattle.std.specs.Prelude.{ℕ, List};
    ghost use Rattle.stateful_db.specs.declared.database.DbCall.{DbCall};

    ghost Value = { List (List (DbCall × ℕ)) };

    ghost view = { λ a. a.lists.items };
}

impl Failing {
    /// No call is to fail.
    pub fn none(alloc: Global) -> Failing
        ensures { result ≡ [] }
    {
        Failing {
            lists: VecDeque::new(alloc),
        }
    }

    /// The list of the database behind those that have one.
    pub fn push(&mut self, list: Vec<(DbCall, u64)>) -> Result<(), OutOfMemory>
        ensures { self.new ≡ (if is_ok result then self.old ++ list.items ∷ [] else self.old) }
    {
        self.lists.push_back(Items::from_vec(list))?;
        Ok(())
    }

    /// The list of the first database, which leaves: the others' numbers are one lower from then
    /// on. An empty one where none is left.
    pub fn take_first(&mut self, alloc: Global) -> Vec<(DbCall, u64)>
        ensures first { result.items ≡ get_or self.old 0 [] }
        ensures others { self.new ≡ drop 1 self.old }
    {
        match self.lists.pop_front() {
            Some(list) => list.into_vec(),
            None => Vec::new(alloc),
        }
    }
}
