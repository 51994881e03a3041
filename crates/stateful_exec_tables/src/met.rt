//! What a request meets on its path.

use stateful_base::Digested;

/// What a request meets on its path.
#[derive(Drop)]
pub enum Met<B> {
    /// Its end.
    Arrived,
    /// A block that doesn't go on over a finalization.
    Left,
    /// A known block.
    Known,
    /// A block of which this job's run is live.
    Run(u64),
    /// A block that is to be run on its parent.
    Unrun {
        block: Digested<B>,
        parent: Digested<B>,
    },
    /// A block whose parent isn't known.
    Missed,
}
