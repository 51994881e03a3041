//! How the databases are opened after a crash.
#![tactic(auto)]

mod opening;

pub use opening::open;
