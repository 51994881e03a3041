//! The bank over the databases of a world.
#![tactic(auto)]

mod bank;
mod block;
mod build;
mod draft;
mod failing;
mod fresh;
mod hook;
mod progress;
mod run;
mod world;

pub use bank::Bank;
pub use block::seal_block;
pub use build::BankBuild;
pub use failing::Failing;
pub use fresh::{Config, Fresh};
pub use hook::BankHook;
pub use run::BankRun;
pub use world::{Drafted, Sealed, World};
