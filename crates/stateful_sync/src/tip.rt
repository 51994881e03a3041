//! What a sync goes for.

ghost use Rattle.std.specs.Prelude.{◌≡◌, None};

use stateful_types::Anchor;

/// A finalized block, as its anchor, and what it commits to.
#[derive(Clone, Copy)]
pub(crate) struct Tip<T> {
    pub(crate) anchor: Anchor,
    pub(crate) targets: T,
}

/// A finalized block on its way to a sync, and what it commits to.
#[derive(Clone, Copy, Debug, PartialEq, Eq)]
pub struct TipUpdate<T> {
    pub anchor: Anchor,
    pub targets: T,
    /// The number under which a mailbox is told whether the update was recorded. None where nobody
    /// waits for it.
    pub observed: Option<u64>,
}

impl<T: Copy> TipUpdate<T> {
    /// An update of which nobody is told whether it was recorded.
    pub fn new(anchor: Anchor, targets: T) -> TipUpdate<T>
        ensures { result ≡ record { anchor = anchor; targets = targets; observed = None } }
    {
        TipUpdate {
            anchor,
            targets,
            observed: None,
        }
    }

    /// Its parts, for whoever records it. Where there is a number, its mailbox is to be told that
    /// it was recorded.
    pub fn record(self) -> (Anchor, T, Option<u64>)
        ensures { result ≡ (self.anchor, self.targets, self.observed) }
    {
        (self.anchor, self.targets, self.observed)
    }
}
