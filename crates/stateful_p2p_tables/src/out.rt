//! What is to be done for a resolver.

ghost use Rattle.std.specs.Prelude.{◌≡◌, ◌++◌, OnOk, option_to_list};

use bytes::Bytes;
use stateful_types::{OutOfMemory, Request};

/// What is to be done.
#[derive(Debug, Drop)]
pub enum ActorOut {
    /// The key is fetched for this ticket.
    Fetch { ticket: u64, key: Request },
    /// The fetch for this ticket is given up.
    Forget { ticket: u64 },
    /// A candidate waits in the mailbox for this ticket.
    Candidate { ticket: u64 },
    /// The delivery is good, or it isn't.
    Feedback { delivery: u64, valid: bool },
    /// Nobody judges the delivery.
    Unjudged { delivery: u64 },
    /// The peer is sent these bytes.
    Served { serve: u64, bytes: Bytes },
    /// The peer is sent nothing.
    Unserved { serve: u64 },
}

/// One output more, if there is one.
pub fn push_some(outs: &mut Vec<ActorOut>, out: Option<ActorOut>) -> Result<(), OutOfMemory>
    ensures { OnOk result (outs.new.items ≡ outs.old.items ++ option_to_list out) }
{
    if let Some(out) = out {
        outs.push(out)?;
    }
    Ok(())
}
