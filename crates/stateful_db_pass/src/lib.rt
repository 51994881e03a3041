//! A sync of one database, as far as all kinds of databases have it in common: which request is
//! made next, what a response adds to what is there, and whether the target is reached.
//!
//! A [`LogPass`] knows operations by the chain of digests in which they stand (`Linked`) alone.
//! It fetches the digest before the target's range and then each operation of the range, or the
//! latest operation alone with the digest before it. What a source answers may be anything: a
//! response of another kind or length than was asked for, and a range that leads to another root
//! than the target's, are dropped, and the pass begins anew.
//!
//! `specs/Fetched.antt` says what is asked for and which responses fit, `specs/Progress.antt` what
//! each answer makes of a pass, and `specs/Counted.antt` how many requests are left.
//!
//! On the other side [`answer_from`] answers a request from the operations that a log holds, as
//! `specs/Serving.antt` says it. What it answers to the sync of a range fits (`answers_fit`).
#![tactic(auto)]

mod fault;
mod law;
mod pass;
mod segment;
mod serving;

pub use fault::SyncFault;
pub use law::{answers_fit, requests_fall};
pub use pass::{Fetches, LogPass};
pub use segment::Segment;
pub use serving::answer_from;
