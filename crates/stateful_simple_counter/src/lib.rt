//! A counter: the smallest application that does something, over one database that is kept whole.
//!
//! A block carries a number to add. The count is the entry of key 0 of the database; a run of a
//! block reads it and adds the block's number. A candidate that adds 0 isn't acceptable. A build
//! adds what its request says and hands its block over to be voted on, or nothing where it would
//! add 0. `specs/Counting.antt` says so in one record; all else is of `stateful_simple_app`.
#![tactic(auto)]

mod counter;

pub use counter::{Add, Counter, CounterBlock, Counting};
