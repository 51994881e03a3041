//! How values are printed. Each is given what stands before it.

use stateful_shell::Page;
use stateful_sync::SyncError;
use stateful_types::{Anchor, Digest};

/// Prints a digest in hex. The byte of one that is 32 times the same: `7*32`.
pub(crate) fn push_digest(name: &str, digest: Digest, page: &mut Page) {
    let first = digest.0[0];
    if digest.is(Digest([first; 32])) {
        page.field(name, first as u64);
        return page.push("*32");
    }
    page.push(name);
    page.hex(&digest.0)
}

/// Prints an anchor: `block 7 of 0.7, 7*32`.
pub(crate) fn push_place(name: &str, anchor: Anchor, page: &mut Page) {
    page.push(name);
    page.field("block ", anchor.height.0);
    page.field(" of ", anchor.round.epoch.0);
    page.field(".", anchor.round.view.0);
    push_digest(", ", anchor.digest, page)
}

/// Prints why a sync doesn't start, or why its blocks aren't classified.
pub(crate) fn say_error(error: SyncError, page: &mut Page) {
    match error {
        SyncError::ConflictAtAnchor { expected, given } => {
            push_digest("ConflictAtAnchor\nexpected ", expected, page);
            push_digest("\ngiven ", given, page)
        }
        _ => page.debug(&error),
    }
    page.end()
}
