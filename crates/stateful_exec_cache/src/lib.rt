//! The cache of blocks that aren't final yet, and how a block is judged without a run of it.
#![tactic(auto)]

mod cache;
mod judgement;

pub use cache::{Cache, Cached, Cut};
pub use judgement::{Judgement, judge, knows};
