//! The plain types that databases, execution and the machine name: numbers, digests, rounds, blocks
//! and their names, targets, counts of faults, finalizations and schemes, and the block store.
#![tactic(auto)]

mod anchor;
mod block;
mod codec;
mod digest;
mod fault;
mod finalization;
mod floor;
mod items;
mod number;
mod outcome;
mod round;
mod scheme;
mod share;
mod store;
mod target;

pub use anchor::Anchor;
pub use block::{Ancestry, Block, Digested};
pub use codec::{CodecError, end_of, read_u8, read_u32, read_u64, write_u8, write_u32, write_u64};
pub use digest::Digest;
pub use fault::{Failed, Faulty};
pub use finalization::Finalization;
pub use floor::Floor;
pub use items::Items;
pub use number::{Epoch, Height, Location, View};
pub use outcome::{Finality, Handoff, Moved};
pub use round::{Round, Rounded};
pub use scheme::{Scheme, max_faults};
pub use share::{OutOfMemory, Share};
pub use store::{BlockStore, MemoryStore};
pub use target::{CompactTarget, Target};
