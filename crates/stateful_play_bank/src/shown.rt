//! What is shown of databases.

ghost use Rattle.std.specs.Prelude.{◌≡◌, ◌∷◌, [], IfOk};
ghost use Rattle.stateful_bank_plain.specs.Blank.{member_of};
ghost use Rattle.stateful_bank_logs.specs.Kept.{balances_member, amounts_member};
ghost use Rattle.stateful_bank_triple.specs.Blank.{latest_member};
ghost use Rattle.stateful_play_bank.specs.Database.{whole_of, ShowsKeys, range_of, size_of};
ghost use Rattle.stateful_play_bank.specs.Shown.{AreShown};

use crate::playing::Databases;
use stateful_db::Held;
use stateful_db_any::AnyDb;
use stateful_db_keyless::{CompactDb, KeylessDb};
use stateful_db_plain::Plain;
use stateful_script_text::Shown;
use stateful_types::{Items, OutOfMemory};
use std::alloc::Global;
use std::collections::BTreeMap;

/// Each key with its value, ascending.
fn balances(alloc: Global, entries: &BTreeMap<u64, u64>) -> Result<Items<(u64, u64)>, OutOfMemory>
    ensures { IfOk result (λ balances. balances ≡ entries.now.entries) }
{
    let mut balances = Items::new(alloc);
    for (account, balance) in entries.iter() {
        balances.push((*account, *balance))?;
    }
    Ok(balances)
}

/// What is shown of a database that is kept whole.
fn whole(alloc: Global, database: &Held<Plain>) -> Result<Shown, OutOfMemory>
    ensures { IfOk result (λ shown. shown ≡ whole_of (member_of database.now)) }
{
    match database {
        Held::Here(database) => {
            let range = database.range();
            Ok(Shown::Balances {
                start: range.start,
                end: range.end,
                balances: balances(alloc, database.entries())?,
            })
        }
        Held::Closed(_) => Ok(Shown::Closed),
        Held::Lost(_) => Ok(Shown::Lost),
        Held::Away => Ok(Shown::Away),
    }
}

/// What is shown of a database of keys.
fn keys(alloc: Global, database: &Held<AnyDb<u64, u64>>) -> Result<Shown, OutOfMemory>
    ensures { IfOk result (λ shown. ShowsKeys (balances_member database.now) shown) }
{
    match database {
        Held::Here(database) => {
            let range = database.range();
            Ok(Shown::Balances {
                start: range.start,
                end: range.end,
                balances: database.entries(alloc)?,
            })
        }
        Held::Closed(_) => Ok(Shown::Closed),
        Held::Lost(_) => Ok(Shown::Lost),
        Held::Away => Ok(Shown::Away),
    }
}

/// What is shown of a keyless database.
fn range(database: &Held<KeylessDb<u64>>) -> Shown
    ensures { result ≡ range_of (amounts_member database.now) }
{
    match database {
        Held::Here(database) => {
            let range = database.range();
            Shown::Range {
                start: range.start,
                end: range.end,
            }
        }
        Held::Closed(_) => Shown::Closed,
        Held::Lost(_) => Shown::Lost,
        Held::Away => Shown::Away,
    }
}

/// What is shown of a compact database.
fn size(database: &Held<CompactDb<u64>>) -> Shown
    ensures { result ≡ size_of (latest_member database.now) }
{
    match database {
        Held::Here(database) => Shown::Size {
            size: database.size(),
        },
        Held::Closed(_) => Shown::Closed,
        Held::Lost(_) => Shown::Lost,
        Held::Away => Shown::Away,
    }
}

/// What is shown of the databases of a play, in their order.
pub fn shown(alloc: Global, databases: &Databases) -> Result<Vec<Shown>, OutOfMemory>
    ensures { IfOk result (λ shown. AreShown databases.now shown.items) }
{
    let mut list = Vec::new(alloc);
    match databases {
        Databases::Plain(database) => list.push(whole(alloc, database)?)?,
        Databases::Pair((balances, amounts)) => {
            list.push(keys(alloc, balances)?)?;
            list.push(range(amounts))?;
        }
        Databases::Triple((balances, logs)) => {
            list.push(keys(alloc, balances)?)?;
            list.push(range(&logs.both.0))?;
            list.push(size(&logs.both.1))?;
        }
    }
    Ok(list)
}
