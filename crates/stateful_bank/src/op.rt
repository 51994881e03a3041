//! Operations on accounts.

ghost use Rattle.std.specs.Prelude.{◌≡◌, ◌++◌, OnOk};
ghost use Rattle.stateful_bank.specs.Op.{accept, account_bytes, amount_of, op_bytes};

use stateful_base::{OutOfMemory, write_u64};

/// What a block does to the balances of accounts.
#[derive(Clone, Copy, Debug, PartialEq, Eq)]
pub enum Op {
    /// Adds an amount to an account.
    Mint { account: u16, amount: u64 },
    /// Takes an amount from one account, which has to have it, and adds it to another.
    Move { from: u16, to: u16, amount: u64 },
}

impl Op {
    /// The amount that it adds or moves.
    pub fn amount(&self) -> u64
        ensures { result ≡ amount_of self.now }
    {
        match self {
            Op::Mint { amount, .. } | Op::Move { amount, .. } => *amount,
        }
    }

    /// Appends its bytes.
    #[tactic(auto, using(std::proofs::Common::append_assoc), unfolding(crate::specs::Op::op_bytes))]
    pub(crate) fn encode(&self, out: &mut Vec<u8>) -> Result<(), OutOfMemory>
        ensures { OnOk result (out.new.items ≡ out.old.items ++ op_bytes self.now) }
    {
        match self {
            Op::Mint { account, amount } => {
                out.push(0)?;
                write_account(*account, out)?;
                write_u64(*amount, out)?;
            }
            Op::Move { from, to, amount } => {
                out.push(1)?;
                write_account(*from, out)?;
                write_account(*to, out)?;
                write_u64(*amount, out)?;
            }
        }
        Ok(())
    }
}

/// Appends an account.
#[tactic(auto, unfolding(crate::specs::Op::account_bytes))]
fn write_account(account: u16, out: &mut Vec<u8>) -> Result<(), OutOfMemory>
    ensures { OnOk result (out.new.items ≡ out.old.items ++ account_bytes account) }
{
    out.extend_from_slice(&account.to_be_bytes())?;
    Ok(())
}

/// Whether every amount is at least 1.
pub fn is_acceptable(ops: &[Op]) -> bool
    ensures { result ≡ accept ops.now }
{
    ops.iter().all(|op| op.amount() > 0)
}
