//! Balances of accounts, as entries of a map. An account without an entry has 0.

ghost use Rattle.std.specs.Prelude.{◌≡◌, IfOk};
ghost use Rattle.std.specs.Option.{option_map};
ghost use Rattle.stateful_bank.specs.Balances.{do_ops};

use crate::accounts::{Accounts, do_ops};
use crate::op::Op;
use stateful_base::OutOfMemory;
use std::collections::BTreeMap;

impl Accounts for BTreeMap<u64, u64> {
    ghost use Rattle.std.specs.Prelude.{◌≡◌};
    ghost use Rattle.stateful_bank.specs.Balances.{entries_book};

    ghost book = { entries_book };

    ghost shows = { λ map entries. map.entries ≡ entries };

    fn balance(&self, account: u16) -> Result<Option<u64>, OutOfMemory> {
        let balance = self.get(&u64::from(account)).copied();
        Ok(Some(balance.unwrap_or(0)))
    }

    fn set_balance(self, account: u16, balance: u64) -> Result<BTreeMap<u64, u64>, OutOfMemory> {
        let mut entries = self;
        if balance == 0 {
            entries.remove(&u64::from(account));
        } else {
            entries.insert(u64::from(account), balance)?;
        }
        Ok(entries)
    }
}

/// The balances after these operations, in order. None exactly where one of them isn't allowed.
pub fn apply_ops(
    entries: &BTreeMap<u64, u64>,
    ops: &[Op],
) -> Result<Option<BTreeMap<u64, u64>>, OutOfMemory>
    ensures { IfOk result (λ after. option_map (λ map. map.entries) after
        ≡ do_ops entries.now.entries ops.now) }
{
    do_ops(entries.clone()?, ops)
}
