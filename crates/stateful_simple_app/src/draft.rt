//! Drafts of states, which rules read and write.

ghost use Rattle.std.specs.Prelude.{◌≡◌, IfOk, IsErrOf, IsSomeAnd, Some};
ghost use Rattle.stateful_db_plain.specs.Whole.{value_at, put};
ghost use Rattle.stateful_db_plain.specs.Shown.{SealShows};
ghost use Rattle.stateful_simple_app.specs.Rules.{Entries, after};
ghost use Rattle.stateful_simple_app.specs.Drafts.{Place, Holds, chain_of};

use stateful_db::{AppFault, BatchError, Unmerkleized};
use stateful_db_plain::{Plain, PlainMerkleized, PlainUnmerkleized};
use stateful_types::OutOfMemory;

/// The entries of a state that may still change. At first they are those of the state on which a
/// block stands, also where that one isn't applied yet.
#[derive(Drop)]
pub struct Draft<'a> {
    pub(crate) batch: PlainUnmerkleized,
    pub(crate) database: &'a Plain,
}

impl<'a> Draft<'a> {
    /// The value at a key, where there is one.
    pub fn get(&self, key: u64) -> Option<u64>
        ensures { (place : Place) (entries : Entries) →
            Holds self.now place entries →
            result ≡ value_at entries key }
    {
        match self.batch.get(self.database, key) {
            Ok(value) => value,
            Err(_) => None,
        }
    }

    /// The draft with this value at the key, or with none.
    pub fn put(self, key: u64, value: Option<u64>) -> Result<Draft<'a>, OutOfMemory>
        ensures { IfOk result (λ draft. (place : Place) (entries : Entries) →
            Holds self.entry place entries →
            Holds draft place (put entries key value)) }
    {
        let Draft { batch, database } = self;
        let batch = batch.write(key, value)?;
        Ok(Draft { batch, database })
    }

    /// The sealed batch. None where the database has moved on to another branch. Where no number is
    /// left for the state's range it is refused as want of memory.
    pub(crate) fn seal(self) -> Result<Option<PlainMerkleized>, AppFault>
        ensures ok { IfOk result (λ sealed. (place : Place) (entries : Entries) →
            Holds self.entry place entries →
            IsSomeAnd sealed (λ m. SealShows m (chain_of place (after place.at.1 entries)))) }
        ensures failed { IsErrOf result AppFault.Failed → ⊥ }
    {
        let Draft { batch, database } = self;
        match batch.merkleize(database) {
            Ok(sealed) => Ok(Some(sealed)),
            Err(BatchError::StaleRead) => Ok(None),
            Err(_) => Err(AppFault::OutOfMemory),
        }
    }
}
