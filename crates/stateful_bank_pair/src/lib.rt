//! The bank over two databases: balances by account, and behind them the amount of each operation.
#![tactic(auto)]

mod pair;

pub use pair::Pair;
