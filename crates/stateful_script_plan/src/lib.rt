//! What a script says in a world: its blocks with their names, its block store and its events.
#![tactic(auto)]

mod event;
mod label;
mod plan;
mod scratch;
mod store;

pub use event::{BankEvent, events};
pub use label::label_blocks;
pub use plan::{Planned, plan_blocks};
pub use store::store_of;
