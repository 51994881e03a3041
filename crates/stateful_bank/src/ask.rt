//! Requests to build a block.

use crate::op::Op;
use stateful_base::{Handoff, Items, OutOfMemory, Share};

/// What a request to build brings: how a prepared block is handed over, and its operations.
#[derive(Debug, Drop)]
pub struct Ask {
    pub decision: Handoff<()>,
    pub ops: Items<Op>,
}

impl Share for Ask {
    fn share(&self) -> Result<Ask, OutOfMemory> {
        Ok(Ask {
            decision: self.decision,
            ops: self.ops.share()?,
        })
    }
}
