//! The one database of balances. An account with 0 has no entry.

ghost use Rattle.std.specs.Prelude.{◌≡◌, ℕ, List, ◌∷◌, Some};
ghost use Rattle.stateful_db.specs.Chain.{IsPoint};
ghost use Rattle.stateful_db.specs.Disk.{point};
ghost use Rattle.stateful_bank.specs.Balances.{balance_of};
ghost use Rattle.stateful_db_plain.specs.Whole.{Whole};
ghost use Rattle.stateful_db_plain.specs.Stored.{standing_of};
ghost use Rattle.stateful_bank_plain.specs.Single.{one_target, HoldsEntries};

use stateful_bank::Op;
use stateful_bank_app::{Failing, Fresh, World};
use stateful_base::{Height, Items, OutOfMemory, Target};
use stateful_db::{Held, ManagedDb};
use stateful_db_plain::{Plain, PlainMedium, PlainMerkleized, PlainUnmerkleized};
use std::alloc::Global;

/// Balances in a database that is kept whole, and nothing else. There is no value of it.
#[derive(Drop)]
pub enum Single {}

impl World for Single {
    ghost use Rattle.stateful_bank_plain.specs.Single.{single_rules, HoldsEntries};

    type Databases = Held<Plain>;

    ghost rules = { single_rules };

    ghost holds = { HoldsEntries };

    fn begin(batch: PlainUnmerkleized) -> PlainUnmerkleized {
        batch
    }

    fn balance(
        batch: &PlainUnmerkleized,
        databases: &Held<Plain>,
        account: u16,
    ) -> Result<Option<u64>, OutOfMemory> {
        match databases {
            Held::Here(database) => Ok(balance_here(batch, database, account)),
            _ => Ok(None),
        }
    }

    fn set_balance(
        batch: PlainUnmerkleized,
        account: u16,
        balance: u64,
    ) -> Result<PlainUnmerkleized, OutOfMemory> {
        let entry = if balance == 0 { None } else { Some(balance) };
        Ok(batch.write(u64::from(account), entry)?)
    }

    /// The batch needs nothing more: the height stands in no entry.
    fn complete(
        batch: PlainUnmerkleized,
        _databases: &Held<Plain>,
        _ops: &[Op],
        _height: Height,
    ) -> Result<Option<PlainUnmerkleized>, OutOfMemory> {
        Ok(Some(batch))
    }

    fn batch_targets(batch: &PlainMerkleized) -> Target {
        Plain::batch_target(batch)
    }

    fn listed(alloc: Global, targets: &Target) -> Result<Items<Target>, OutOfMemory> {
        let mut list = Items::new(alloc);
        list.push(*targets)?;
        Ok(list)
    }

    fn committed(targets: &[Target]) -> Target {
        target_in(targets)
    }
}

impl Fresh for Single {
    ghost use Rattle.std.proofs.Common.{refl};
    ghost use Rattle.stateful_bank_plain.specs.Blank.{IsBlank, blank_is_empty};

    ghost blank = { IsBlank };

    ghost blank_are = { λ database blank. blank_is_empty database blank };

    ghost commits = { refl };

    fn empty(alloc: Global, failing: Failing) -> Held<Plain> {
        let mut failing = failing;
        Held::Closed(PlainMedium::empty(alloc, failing.take_first(alloc)))
    }

    fn config() {}
}

/// What the account has, over a database that is here. None where the batch is stale.
fn balance_here(batch: &PlainUnmerkleized, database: &Plain, account: u16) -> Option<u64>
    ensures { (entries : List (ℕ × ℕ)) (i : ℕ) (p : ℕ × Whole) (c : List (ℕ × Whole)) →
        HoldsEntries batch.now entries i p c →
        IsPoint (point (standing_of database.now)) (p ∷ c) →
        result ≡ Some (balance_of entries account) }
{
    match batch.get(database, u64::from(account)) {
        Ok(balance) => Some(balance.unwrap_or(0)),
        Err(_) => None,
    }
}

/// The target of a block for the one database. A block of another number of targets commits to the
/// empty state.
fn target_in(targets: &[Target]) -> Target
    ensures { result ≡ one_target targets.now }
{
    match targets {
        [target] => *target,
        _ => Plain::initial_sync_target(),
    }
}
