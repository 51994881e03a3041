//! What tickets stand for.

/// What a live ticket stands for.
#[derive(Clone, Copy, Debug, PartialEq, Eq)]
pub enum Ticket {
    /// A request, which may be cancelled.
    Request,
    /// The receipt of a finalization, which may not.
    Receipt,
}
