//! The bank: blocks that mint and move amounts between accounts, and what they do to balances.
#![tactic(auto)]

mod accounts;
mod ask;
mod balances;
mod block;
mod op;
mod proposal;

pub use accounts::{Accounts, do_op, do_ops};
pub use ask::Ask;
pub use balances::apply_ops;
pub use block::{BankBlock, MAX_OPS};
pub use op::{Op, is_acceptable};
pub use proposal::{Proposal, one_is_given};
