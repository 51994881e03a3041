//! The plain types of what goes over a network or into a file: requests and responses with their
//! bytes, certificates of votes, mailboxes of a bounded size, and where bytes come from and go.
//! Those of `stateful_base` are handed on, so that this is the one import of the plain types.
#![tactic(auto)]

mod draw;
mod latest;
mod law;
mod mailbox;
mod memory;
mod operation;
mod request;
mod response;
mod sink;
mod source;
mod vote;

pub use draw::DrawError;
pub use latest::{Latest, MemoryLatest};
pub use law::{no_spelling_begins_another, requests_are_ordered};
pub use mailbox::{Bounded, Feedback, Overflow, Policy, Predicate};
pub use memory::{MemorySink, MemorySource};
pub use operation::Operation;
pub use request::Request;
pub use response::Response;
pub use sink::{Sink, SinkFault, write_all};
pub use source::{ReadError, Source, read_all};
pub use stateful_base::{
    Ancestry, Anchor, Block, BlockStore, CodecError, CompactTarget, Digest, Digested, Epoch,
    Failed, Faulty, Finality, Finalization, Floor, Handoff, Height, Items, Location, MemoryStore,
    Moved, OutOfMemory, Round, Rounded, Scheme, Share, Target, View, end_of, max_faults, read_u8,
    read_u32, read_u64, write_u8, write_u32, write_u64,
};
pub use vote::VoteScheme;
