//! The bank over three databases: balances by account, then the amount of each operation, and then
//! the latest commit of the same amounts.
#![tactic(auto)]

mod compact;
mod logs;
mod sync;
mod triple;

pub use logs::AmountLogs;
pub use triple::{Triple, compact_follows_amounts};
