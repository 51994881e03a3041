//! Accounts whose balances are read and changed, and the operations on them.

ghost use Rattle.std.specs.Prelude.{◌≡◌, IfOk};
ghost use Rattle.stateful_bank.specs.Accounts.{Becomes, withdrawn, deposited, do_op, do_ops};

use crate::op::Op;
use stateful_base::OutOfMemory;

/// What keeps the balances of accounts. Contracts see it as states, which tell what each account
/// has.
pub trait Accounts: Sized + Drop {
    ghost use Rattle.std.specs.Prelude.{◌≡◌, ℕ, IfOk};
    ghost use Rattle.stateful_bank.specs.Accounts.{Book};

    /// The states that it may be in.
    ghost book: { Book };

    /// It is in this state.
    ghost shows: { Self → book.State → Type 0 };

    /// What the account has. None exactly where it can't be read.
    fn balance(&self, account: u16) -> Result<Option<u64>, OutOfMemory>
        ensures { IfOk result (λ had. (s : book.State) →
            shows self.now s →
            had ≡ book.balance s account) };

    /// The same with this balance of the account.
    fn set_balance(self, account: u16, balance: u64) -> Result<Self, OutOfMemory>
        ensures { IfOk result (λ after. (s : book.State) →
            shows self s →
            shows after (book.with_balance s account balance)) };
}

/// The accounts with so much less at this one. None exactly where it hasn't that much, or can't be
/// read.
fn withdraw<A: Accounts>(accounts: A, account: u16, amount: u64) -> Result<Option<A>, OutOfMemory>
    ensures { IfOk result (λ after. (s : A.book.State) →
        A.shows accounts s →
        Becomes A.shows after (withdrawn A.book s account amount)) }
{
    let had = accounts.balance(account)?;
    match had.and_then(|had| had.checked_sub(amount)) {
        Some(left) => Ok(Some(accounts.set_balance(account, left)?)),
        None => Ok(None),
    }
}

/// The accounts with so much more at this one. None exactly where the sum would pass the last
/// number, or where it can't be read.
fn deposit<A: Accounts>(accounts: A, account: u16, amount: u64) -> Result<Option<A>, OutOfMemory>
    ensures { IfOk result (λ after. (s : A.book.State) →
        A.shows accounts s →
        Becomes A.shows after (deposited A.book s account amount)) }
{
    let had = accounts.balance(account)?;
    match had.and_then(|had| had.checked_add(amount)) {
        Some(sum) => Ok(Some(accounts.set_balance(account, sum)?)),
        None => Ok(None),
    }
}

/// The accounts after an operation. None exactly where it isn't allowed, or where an account of it
/// can't be read.
pub fn do_op<A: Accounts>(accounts: A, op: &Op) -> Result<Option<A>, OutOfMemory>
    ensures { IfOk result (λ after. (s : A.book.State) →
        A.shows accounts s →
        Becomes A.shows after (do_op A.book s op.now)) }
{
    match op {
        Op::Mint { account, amount } => deposit(accounts, *account, *amount),
        Op::Move { from, to, amount } => match withdraw(accounts, *from, *amount)? {
            Some(left) => deposit(left, *to, *amount),
            None => Ok(None),
        },
    }
}

/// The accounts after these operations, in order. None exactly where one of them isn't allowed, or
/// where an account of it can't be read.
pub fn do_ops<A: Accounts>(accounts: A, ops: &[Op]) -> Result<Option<A>, OutOfMemory>
    ensures { IfOk result (λ after. (s : A.book.State) →
        A.shows accounts s →
        Becomes A.shows after (do_ops A.book s ops.now)) }
{
    let mut accounts = accounts;
    for op in ops {
        match do_op(accounts, op)? {
            Some(after) => accounts = after,
            None => return Ok(None),
        }
    }
    Ok(Some(accounts))
}
