//! Entries of a history.

use crate::event::Event;
use crate::mark::Mark;
use stateful_base::Items;

/// An event, and the marks that were made of it, in their order.
#[derive(Debug, Drop)]
pub struct Entry<B, C, I> {
    pub event: Event<B, C, I>,
    pub marks: Items<Mark<B>>,
}
