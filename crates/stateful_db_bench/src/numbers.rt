//! Sets of one database, from numbers to numbers.

use anyhow::Error;
use stateful_base::{Location, OutOfMemory};
use stateful_db::{DatabaseSet, Held};
use stateful_db_any::{AnyDb, AnyMedium, AnyUnmerkleized};
use stateful_db_keyless::{KeylessDb, KeylessMedium, KeylessUnmerkleized};
use stateful_db_plain::{Plain, PlainMedium, PlainUnmerkleized};
use std::alloc::Global;

/// A set of one database, from numbers to numbers. A log has the values alone: there a key is the
/// number of the value that is read, and a write appends one.
pub(crate) trait NumberSet: DatabaseSet + Drop {
    ghost use Rattle.std.specs.Prelude.{◌≡◌};

    fn config() -> Self::Config;

    /// Closed, over an empty medium.
    fn empty(alloc: Global) -> Self
        ensures { Self.kind.Openable (Self.members result) };

    /// The batch with this value at the key.
    fn put(
        batch: Self::Unmerkleized,
        key: u64,
        value: u64,
    ) -> Result<Self::Unmerkleized, OutOfMemory>;

    /// The value at the key that a batch shows.
    fn get(&self, batch: &Self::Unmerkleized, key: u64) -> Result<Option<u64>, Error>;

    ghost alone: { Self.kind.count ≡ 1 };
}

impl NumberSet for Held<AnyDb<u64, u64>> {
    ghost use Rattle.std.specs.Prelude.{refl};

    fn config() {}

    fn empty(alloc: Global) -> Held<AnyDb<u64, u64>> {
        Held::Closed(AnyMedium::empty(alloc, Vec::new(alloc)))
    }

    fn put(
        batch: AnyUnmerkleized<u64, u64>,
        key: u64,
        value: u64,
    ) -> Result<AnyUnmerkleized<u64, u64>, OutOfMemory> {
        batch.write(key, Some(value))
    }

    fn get(&self, batch: &AnyUnmerkleized<u64, u64>, key: u64) -> Result<Option<u64>, Error> {
        match self {
            Held::Here(db) => Ok(batch.get(db, &key)?),
            _ => Err(Error::msg("the database is lost")),
        }
    }

    ghost alone = { refl };
}

impl NumberSet for Held<Plain> {
    ghost use Rattle.std.specs.Prelude.{refl};

    fn config() {}

    fn empty(alloc: Global) -> Held<Plain> {
        Held::Closed(PlainMedium::empty(alloc, Vec::new(alloc)))
    }

    fn put(
        batch: PlainUnmerkleized,
        key: u64,
        value: u64,
    ) -> Result<PlainUnmerkleized, OutOfMemory> {
        batch.write(key, Some(value))
    }

    fn get(&self, batch: &PlainUnmerkleized, key: u64) -> Result<Option<u64>, Error> {
        match self {
            Held::Here(db) => Ok(batch.get(db, key)?),
            _ => Err(Error::msg("the database is lost")),
        }
    }

    ghost alone = { refl };
}

impl NumberSet for Held<KeylessDb<u64>> {
    ghost use Rattle.std.specs.Prelude.{refl};

    fn config() {}

    fn empty(alloc: Global) -> Held<KeylessDb<u64>> {
        Held::Closed(KeylessMedium::empty(alloc, Vec::new(alloc)))
    }

    fn put(
        batch: KeylessUnmerkleized<u64>,
        _key: u64,
        value: u64,
    ) -> Result<KeylessUnmerkleized<u64>, OutOfMemory> {
        batch.append(value)
    }

    fn get(&self, batch: &KeylessUnmerkleized<u64>, key: u64) -> Result<Option<u64>, Error> {
        match self {
            Held::Here(db) => Ok(batch.get(db, Location(key.saturating_add(1)))?),
            _ => Err(Error::msg("the database is lost")),
        }
    }

    ghost alone = { refl };
}
