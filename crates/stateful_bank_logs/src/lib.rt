//! The bank's books in logs: balances by account in a map that is kept as a log, and the amount of
//! each operation in a log of values.
#![tactic(auto)]

mod amounts;
mod balances;

pub use amounts::complete_amounts;
pub use balances::{balance, complete_balances, set_balance};
