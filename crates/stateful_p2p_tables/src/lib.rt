//! What a resolver keeps: who subscribes to which key, who has which delivery to judge, and the
//! verdicts on each delivery. Nothing here knows a mailbox, and a database is kept and not asked.
#![tactic(auto)]

mod deliveries;
mod index;
mod out;
mod state;
mod subscriptions;

pub use out::{ActorOut, push_some};
pub use state::{State, Verdicts};
pub use subscriptions::Subscriptions;
