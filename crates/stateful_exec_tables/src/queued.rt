//! A proposal that has left the queue.

use stateful_base::Digested;
use stateful_exec_walk::Proposal;

/// A proposal that has left the queue, with its parent, which is known, and the job of its build.
#[derive(Drop)]
pub struct Queued<B, C, I> {
    pub job: u64,
    pub proposal: Proposal<B, C, I>,
    pub parent: Digested<B>,
}
