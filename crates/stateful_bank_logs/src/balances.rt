//! Balances in a database of keys. An account with 0 has no entry.

ghost use Rattle.std.specs.Prelude.{◌≡◌, ℕ, ◌==◌, if◌then◌else◌, List, ◌∷◌, IfOk, Some, None};
ghost use Rattle.std.specs.Ordering.{nat_cmp};
ghost use Rattle.stateful_base.specs.Number.{u64_format};
ghost use Rattle.stateful_db.specs.Chain.{IsPoint};
ghost use Rattle.stateful_db.specs.Disk.{point};
ghost use Rattle.stateful_db_any.specs.Any.{State};
ghost use Rattle.stateful_db_any.specs.Shown.{DraftShows};
ghost use Rattle.stateful_db_any.specs.Stored.{standing_of};
ghost use Rattle.stateful_bank_app.specs.Draft.{IsAmong};
ghost use Rattle.stateful_bank_logs.specs.Balances.{Writes, balance_on, with_balance, HoldsWrites};
ghost use Rattle.stateful_bank_logs.specs.Balances.{balances_after};

use stateful_base::{Height, OutOfMemory};
use stateful_db::{BatchError, DatabaseSet, Held};
use stateful_db_any::{AnyDb, AnyUnmerkleized};

/// What the account has, over a database that is here. None where the batch is stale.
fn balance_here(
    batch: &AnyUnmerkleized<u64, u64>,
    database: &AnyDb<u64, u64>,
    account: u16,
) -> Result<Option<u64>, OutOfMemory>
    ensures { IfOk result (λ had. (writes : Writes) (i : ℕ) (p : ℕ × State ℕ ℕ)
        (c : List (ℕ × State ℕ ℕ)) →
        HoldsWrites batch.now writes i p c →
        IsPoint (point (standing_of database.now)) (p ∷ c) →
        had ≡ Some (balance_on p.1 writes account)) }
{
    match batch.get(database, &u64::from(account)) {
        Ok(balance) => Ok(Some(balance.unwrap_or(0))),
        Err(BatchError::StaleRead) => Ok(None),
        Err(_) => Err(OutOfMemory),
    }
}

/// What the account has. None where the batch is stale, or the database isn't here.
pub fn balance(
    batch: &AnyUnmerkleized<u64, u64>,
    database: &Held<AnyDb<u64, u64>>,
    account: u16,
) -> Result<Option<u64>, OutOfMemory>
    ensures { let set = ⟦<Held<AnyDb<u64, u64>> as DatabaseSet>⟧ in IfOk result (λ had.
        (writes : Writes) (i : ℕ) (p : ℕ × State ℕ ℕ) (c : List (ℕ × State ℕ ℕ)) →
        HoldsWrites batch.now writes i p c →
        IsAmong (set.kind.point (set.members database.now)) (p ∷ c) →
        had ≡ Some (balance_on p.1 writes account)) }
{
    match database {
        Held::Here(database) => Ok(balance_here(batch, database, account)?),
        _ => Ok(None),
    }
}

/// The batch with this balance of the account.
pub fn set_balance(
    batch: AnyUnmerkleized<u64, u64>,
    account: u16,
    balance: u64,
) -> Result<AnyUnmerkleized<u64, u64>, OutOfMemory>
    ensures { IfOk result (λ after. (writes : Writes) (i : ℕ) (p : ℕ × State ℕ ℕ)
        (c : List (ℕ × State ℕ ℕ)) →
        HoldsWrites batch writes i p c →
        HoldsWrites after (with_balance writes account balance) i p c) }
{
    let entry = entry_of(balance);
    Ok(batch.write(u64::from(account), entry)?)
}

/// What is written for a balance: nothing for 0.
fn entry_of(balance: u64) -> Option<u64>
    ensures { result ≡ (if balance == 0 then None else Some balance) }
{
    if balance == 0 { None } else { Some(balance) }
}

/// The batch of a block at this height.
pub fn complete_balances(
    batch: AnyUnmerkleized<u64, u64>,
    height: Height,
) -> AnyUnmerkleized<u64, u64>
    ensures { (writes : Writes) (i : ℕ) (p : ℕ × State ℕ ℕ) (c : List (ℕ × State ℕ ℕ)) →
        HoldsWrites batch writes i p c →
        DraftShows nat_cmp u64_format.spelling u64_format.spelling result
        ((i, balances_after p.1 writes height.0) ∷ p ∷ c) }
{
    batch.with_metadata(height.0)
}
