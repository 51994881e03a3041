//! The databases of the triple.

ghost use Rattle.std.specs.Prelude.{◌≡◌};
ghost use Rattle.stateful_bank_triple.specs.Triple.{empty, three_targets};
ghost use Rattle.stateful_bank_triple.specs.Following.{KeepsFollowing};

use crate::compact::complete_compact;
use crate::logs::AmountLogs;
use stateful_bank::Op;
use stateful_bank_app::{Failing, Fresh, World};
use stateful_bank_logs::{balance, complete_amounts, complete_balances, set_balance};
use stateful_base::{CompactTarget, Height, Items, OutOfMemory, Target};
use stateful_db::{Held, ManagedDb, Targeted};
use stateful_db_any::{AnyDb, AnyMedium, AnyMerkleized, AnyUnmerkleized};
use stateful_db_keyless::{
    CompactDb, CompactMedium, KeylessDb, KeylessMedium, KeylessMerkleized,
    KeylessUnjournaledMerkleized, KeylessUnjournaledUnmerkleized, KeylessUnmerkleized,
};
use std::alloc::Global;

/// Balances in a database of keys, then the amounts of all operations in a keyless one, and then
/// the same amounts in a compact one. There is no value of it.
#[derive(Drop)]
pub enum Triple {}

/// The databases of the triple.
type Databases = (Held<AnyDb<u64, u64>>, AmountLogs);

/// A batch over the triple that may still change.
type Drafted = (
    AnyUnmerkleized<u64, u64>,
    (
        KeylessUnmerkleized<u64>,
        KeylessUnjournaledUnmerkleized<u64>,
    ),
);

/// A sealed batch over the triple.
type Sealed = (
    AnyMerkleized<u64, u64>,
    (KeylessMerkleized<u64>, KeylessUnjournaledMerkleized<u64>),
);

/// What a block commits to in the triple.
type Targets = (Target, (Target, CompactTarget));

impl World for Triple {
    ghost use Rattle.stateful_bank_triple.specs.Triple.{triple_rules, HoldsTriple};

    type Databases = Databases;

    ghost rules = { triple_rules };

    ghost holds = { HoldsTriple };

    fn begin(batch: Drafted) -> Drafted {
        batch
    }

    fn balance(
        batch: &Drafted,
        databases: &Databases,
        account: u16,
    ) -> Result<Option<u64>, OutOfMemory> {
        Ok(balance(&batch.0, &databases.0, account)?)
    }

    fn set_balance(batch: Drafted, account: u16, balance: u64) -> Result<Drafted, OutOfMemory> {
        let (balances, logs) = batch;
        let balances = set_balance(balances, account, balance)?;
        Ok((balances, logs))
    }

    /// The compact database has the floor of the amounts.
    fn complete(
        batch: Drafted,
        databases: &Databases,
        ops: &[Op],
        height: Height,
    ) -> Result<Option<Drafted>, OutOfMemory> {
        let (balances, (amounts, compact)) = batch;
        match complete_amounts(amounts, &databases.1.both.0, ops, height)? {
            Some((amounts, first)) => {
                let compact = complete_compact(compact, ops, first, height)?;
                let balances = complete_balances(balances, height);
                Ok(Some((balances, (amounts, compact))))
            }
            None => Ok(None),
        }
    }

    fn batch_targets(batch: &Sealed) -> Targets {
        let balances = AnyDb::batch_target(&batch.0);
        let amounts = KeylessDb::batch_target(&batch.1.0);
        let compact = CompactDb::batch_target(&batch.1.1);
        (balances, (amounts, compact))
    }

    fn listed(alloc: Global, targets: &Targets) -> Result<Items<Target>, OutOfMemory> {
        let mut list = Items::new(alloc);
        list.push(targets.0)?;
        list.push(targets.1.0)?;
        list.push(targets.1.1.target())?;
        Ok(list)
    }

    fn committed(targets: &[Target]) -> Targets {
        three_of(targets)
    }
}

impl Fresh for Triple {
    ghost use Rattle.std.proofs.Common.{refl};
    ghost use Rattle.stateful_bank_triple.specs.Blank.{AreBlank, blank_are_empty};

    ghost blank = { AreBlank };

    ghost blank_are = { λ databases blank. blank_are_empty databases blank };

    ghost commits = { refl };

    fn empty(alloc: Global, failing: Failing) -> Databases {
        let mut failing = failing;
        let balances = Held::Closed(AnyMedium::empty(alloc, failing.take_first(alloc)));
        let amounts = Held::Closed(KeylessMedium::empty(alloc, failing.take_first(alloc)));
        let compact = Held::Closed(CompactMedium::empty(alloc, failing.take_first(alloc)));
        let logs = AmountLogs {
            both: (amounts, compact),
        };
        (balances, logs)
    }

    fn config() -> ((), ((), ())) {
        ((), ((), ()))
    }
}

/// The targets of a block for the three databases. A block of another number of targets commits to
/// the empty states, and so does one whose third has another range than the last operation alone.
fn three_of(targets: &[Target]) -> Targets
    ensures { result ≡ three_targets targets.now }
{
    match targets {
        [balances, amounts, last] => {
            if last.start.0 != last.end.0.saturating_sub(1) {
                return empty_targets();
            }
            let compact = CompactTarget {
                root: last.root,
                size: last.end,
            };
            (*balances, (*amounts, compact))
        }
        _ => empty_targets(),
    }
}

/// The targets of the empty states.
fn empty_targets() -> Targets
    ensures { result ≡ empty }
{
    (
        AnyDb::<u64, u64>::initial_sync_target(),
        (
            KeylessDb::<u64>::initial_sync_target(),
            CompactDb::<u64>::initial_sync_target(),
        ),
    )
}

/// The compact database has the root, the size and the floor of the amounts at first, and after each
/// block on states where it has.
pub fn compact_follows_amounts()
    ensures { KeepsFollowing }
{}
