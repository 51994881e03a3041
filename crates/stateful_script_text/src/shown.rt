//! What a transcript shows besides marks.

use stateful_base::{Digest, Items};

/// A name, and the digest of the block that it names.
#[derive(Debug, Drop)]
pub struct Label {
    pub name: Items<u8>,
    pub digest: Digest,
}

/// What is shown of a database.
#[derive(Debug, Drop)]
pub enum Shown {
    /// Its operations `start..end`, and each account with its balance.
    Balances {
        start: u64,
        end: u64,
        balances: Items<(u64, u64)>,
    },
    /// Its operations `start..end`.
    Range {
        start: u64,
        end: u64,
    },
    /// Its size, in operations.
    Size {
        size: u64,
    },
    /// It isn't open.
    Closed,
    /// It failed for good.
    Lost,
    /// A sync has it.
    Away,
}

/// How a history ended.
#[derive(Clone, Copy, Debug, PartialEq, Eq)]
pub enum End<'a> {
    /// With its last event.
    Done,
    /// At the event of this number, with the error of this name.
    Halted { at: u64, name: &'a str },
}
