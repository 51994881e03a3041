//! The machine between consensus and a set of databases: it takes events and makes marks.
//!
//! `Stateful::step` takes one event, and `drive` a list of them.
#![tactic(auto)]

mod driving;
mod law;

pub use driving::{Driven, Halt, Halted, drive};
pub use law::forks_are_as_deep_as_their_paths;
pub use stateful_actor_mailbox::{Reply, Stopped};
pub use stateful_actor_step::{Config, NewError, Readable, Stateful};
pub use stateful_base::{
    Ancestry, Block, BlockStore, Digest, Digested, Faulty, Finality, Height, MemoryStore, Moved,
    OutOfMemory, Round, Rounded, Target,
};
pub use stateful_db::{
    AppFault, Application, DatabaseSet, Held, Hooked, Input, ManagedDb, Merkleized, ProposedBlock,
    Unmerkleized,
};
pub use stateful_history::{Decision, Entry, Event, How, JobKind, Mark};
pub use stateful_loop::StepError;

/// The mailbox of a machine: what a consensus engine asks, and what became of it.
pub type Mailbox<A> = stateful_actor_mailbox::Mailbox<
    <A as Application>::Block,
    <A as Application>::Context,
    <A as Application>::Input,
>;
