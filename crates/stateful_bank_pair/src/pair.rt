//! The databases of the pair.

ghost use Rattle.std.specs.Prelude.{◌≡◌};
ghost use Rattle.stateful_bank_pair.specs.Pair.{two_targets};

use stateful_bank::Op;
use stateful_bank_app::{Failing, Fresh, World};
use stateful_bank_logs::{balance, complete_amounts, complete_balances, set_balance};
use stateful_base::{Height, Items, OutOfMemory, Target};
use stateful_db::{Held, ManagedDb};
use stateful_db_any::{AnyDb, AnyMedium, AnyMerkleized, AnyUnmerkleized};
use stateful_db_keyless::{KeylessDb, KeylessMedium, KeylessMerkleized, KeylessUnmerkleized};
use std::alloc::Global;

/// Balances in a database of keys, and behind it the amounts of all operations in a keyless one.
/// There is no value of it.
#[derive(Drop)]
pub enum Pair {}

/// The databases of the pair.
type Databases = (Held<AnyDb<u64, u64>>, Held<KeylessDb<u64>>);

/// A batch over the pair that may still change.
type Drafted = (AnyUnmerkleized<u64, u64>, KeylessUnmerkleized<u64>);

/// A sealed batch over the pair.
type Sealed = (AnyMerkleized<u64, u64>, KeylessMerkleized<u64>);

impl World for Pair {
    ghost use Rattle.stateful_bank_pair.specs.Pair.{pair_rules, HoldsPair};

    type Databases = Databases;

    ghost rules = { pair_rules };

    ghost holds = { HoldsPair };

    fn begin(batch: Drafted) -> Drafted {
        batch
    }

    fn balance(
        batch: &Drafted,
        databases: &Databases,
        account: u16,
    ) -> Result<Option<u64>, OutOfMemory> {
        Ok(balance(&batch.0, &databases.0, account)?)
    }

    fn set_balance(batch: Drafted, account: u16, balance: u64) -> Result<Drafted, OutOfMemory> {
        let (balances, amounts) = batch;
        let balances = set_balance(balances, account, balance)?;
        Ok((balances, amounts))
    }

    fn complete(
        batch: Drafted,
        databases: &Databases,
        ops: &[Op],
        height: Height,
    ) -> Result<Option<Drafted>, OutOfMemory> {
        let (balances, amounts) = batch;
        match complete_amounts(amounts, &databases.1, ops, height)? {
            Some((amounts, _)) => Ok(Some((complete_balances(balances, height), amounts))),
            None => Ok(None),
        }
    }

    fn batch_targets(batch: &Sealed) -> (Target, Target) {
        let balances = AnyDb::batch_target(&batch.0);
        let amounts = KeylessDb::batch_target(&batch.1);
        (balances, amounts)
    }

    fn listed(alloc: Global, targets: &(Target, Target)) -> Result<Items<Target>, OutOfMemory> {
        let mut list = Items::new(alloc);
        list.push(targets.0)?;
        list.push(targets.1)?;
        Ok(list)
    }

    fn committed(targets: &[Target]) -> (Target, Target) {
        two_of(targets)
    }
}

impl Fresh for Pair {
    ghost use Rattle.std.proofs.Common.{refl};
    ghost use Rattle.stateful_bank_pair.specs.Blank.{AreBlank, blank_are_empty};

    ghost blank = { AreBlank };

    ghost blank_are = { λ databases blank. blank_are_empty databases blank };

    ghost commits = { refl };

    fn empty(alloc: Global, failing: Failing) -> Databases {
        let mut failing = failing;
        let balances = Held::Closed(AnyMedium::empty(alloc, failing.take_first(alloc)));
        let amounts = Held::Closed(KeylessMedium::empty(alloc, failing.take_first(alloc)));
        (balances, amounts)
    }

    fn config() -> ((), ()) {
        ((), ())
    }
}

/// The targets of a block for the two databases. A block of another number of targets commits to
/// the empty states.
fn two_of(targets: &[Target]) -> (Target, Target)
    ensures { result ≡ two_targets targets.now }
{
    match targets {
        [balances, amounts] => (*balances, *amounts),
        _ => (
            AnyDb::<u64, u64>::initial_sync_target(),
            KeylessDb::<u64>::initial_sync_target(),
        ),
    }
}
