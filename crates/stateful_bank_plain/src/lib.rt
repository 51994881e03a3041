//! The bank over one database that is kept whole: balances by account.
#![tactic(auto)]

mod single;
mod state;

pub use single::Single;
pub use state::step;
