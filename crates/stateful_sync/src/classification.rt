//! Blocks that were finalized during a sync, against the block that the databases have converged
//! to.
//!
//! Blocks that are finalized while a sync goes on are retained, each with the ticket of its
//! receipt. Once the databases have converged, `classify` is called with all of them. It walks from
//! the anchor upwards, and `last` keeps how far the chain has come. All are handed over, or none
//! is.
//!
//! What is covered or reflected is in the databases already, and the rest is to be applied by
//! ascending heights. A gap, or another block at the same height, means that the blocks aren't one
//! chain, and it is refused.
//!
//! `IsClassified` and `IsRefusal` of `specs/Classify.antt` have the rules, and docs/RULES.md says
//! them in words, "A sync".

ghost use Rattle.std.specs.Prelude.{◌≡◌, ◌≢◌, ◌⊎◌, ◌<◌, ◌≤◌, map, IfOk, IfErr, OnOk, IsErrOf};
ghost use Rattle.std.specs.List.Sorted.{IsPermutation, IsNonDecreasingBy};
ghost use Rattle.stateful_sync.specs.Classify.{anchored, height_at, handover_at, retained_of};
ghost use Rattle.stateful_sync.specs.Classify.{Passes, Leads, Refuses, RefusesAt, IsByHeight};
ghost use Rattle.stateful_sync.specs.Classify.{IsClassified, IsRefusal, IsConsistent};

use crate::handover::{Handover, Point};
use stateful_sync_plan::SyncError;
use stateful_types::{Anchor, Block, Digested, Height};
use std::alloc::Global;
use std::cmp::Ordering;

/// Says of each block that was finalized during a sync, with the ticket of its receipt, what
/// becomes of it once the databases have converged to this anchor.
///
/// The blocks are taken by ascending heights, and equal heights in the order in which they were
/// retained. Those below the anchor are covered, and the anchor's own is reflected. From the anchor
/// on each one has to be the block before it again, or of the next height: `SkippedHeight` where it
/// is above that, and `ConflictAtAnchor` where it is another block of the same height. The first
/// that is neither is told.
pub fn classify<B: Block + Drop>(
    alloc: Global,
    anchor: Anchor,
    retained: Vec<(u64, Digested<B>)>,
) -> Result<Vec<Handover<B>>, SyncError>
    ensures classified { IfOk result
        (λ handovers. IsClassified B.header anchor retained.items handovers.items) }

    // Each is there once.
    ensures kept { IfOk result
        (λ handovers. IsPermutation retained.items (map retained_of handovers.items)) }

    // It is answered where they are consistent, and for want of memory it may be refused then.
    ensures consistent { OnOk result (IsConsistent B.header anchor retained.items) }
    ensures inconsistent { IfErr result (λ error. error ≢ SyncError.OutOfMemory
        → IsConsistent B.header anchor retained.items
        → ⊥) }

    // It is refused for its cause, and for want of memory.
    ensures refused { IfErr result
        (λ error. error ≢ SyncError.OutOfMemory → IsRefusal B.header anchor retained.items error) }
    ensures exactly { (error : SyncError)
        → IsRefusal B.header anchor retained.items error
        → IsErrOf result error ⊎ IsErrOf result SyncError.OutOfMemory }
{
    hand_over(alloc, anchor, by_heights(retained)?)
}

/// The blocks by ascending heights, in which equal heights keep their order.
fn by_heights<B: Block + Drop>(
    retained: Vec<(u64, Digested<B>)>,
) -> Result<Vec<(u64, Digested<B>)>, SyncError>
    ensures sorted { IfOk result
        (λ sorted. IsByHeight B.header retained.items sorted.items) }
    ensures memory { IfErr result (λ error. error ≡ SyncError.OutOfMemory) }
{
    let mut retained = retained;
    retained.sort_by_key(|finalization| finalization.1.height().0)?;
    Ok(retained)
}

/// As `classify`, of blocks by ascending heights.
fn hand_over<B: Block + Drop>(
    alloc: Global,
    anchor: Anchor,
    sorted: Vec<(u64, Digested<B>)>,
) -> Result<Vec<Handover<B>>, SyncError>
    requires { IsNonDecreasingBy (height_at B.header) sorted.items }
    ensures are { IfOk result
        (λ handovers. handovers.items ≡ map (handover_at B.header anchor) sorted.items) }
    ensures leads { IfOk result
        (λ handovers. (last : Point) × Leads B.header anchor (anchored anchor) sorted.items last) }
    ensures refused { IfErr result (λ error. error ≢ SyncError.OutOfMemory
        → RefusesAt B.header anchor sorted.items error) }
{
    let mut last = Point {
        height: anchor.height,
        digest: anchor.digest,
    };
    let mut handovers = Vec::new(alloc);
    for (ticket, block) in sorted {
        last = advance(anchor, last, &block)?;
        handovers.push(hand_over_one(anchor, ticket, block))?;
    }
    Ok(handovers)
}

/// Goes on from the last block at or above the anchor, or from the anchor, to this one.
fn advance<B: Block>(anchor: Anchor, last: Point, block: &Digested<B>) -> Result<Point, SyncError>
    requires { (B.header.height block.now.block < anchor.height.0)
        ⊎ (last.height.0 ≤ B.header.height block.now.block) }
    ensures passes { IfOk result (Passes B.header anchor last block.now) }
    ensures refuses { IfErr result (Refuses B.header last block.now) }
{
    let height = block.height();
    let digest = block.digest();
    if height.0 < anchor.height.0 {
        return Ok(last);
    }
    if height.0 == last.height.0 {
        if digest.is(last.digest) {
            return Ok(last);
        }
        return Err(SyncError::ConflictAtAnchor {
            expected: last.digest,
            given: digest,
        });
    }
    let expected = last.height.0 + 1;
    if height.0 > expected {
        return Err(SyncError::SkippedHeight {
            expected: Height(expected),
            given: height,
        });
    }
    Ok(Point { height, digest })
}

/// What becomes of a block, by its height.
fn hand_over_one<B: Block>(anchor: Anchor, ticket: u64, block: Digested<B>) -> Handover<B>
    ensures { result ≡ handover_at B.header anchor (ticket, block) }
{
    match block.height().cmp(&anchor.height) {
        Ordering::Less => Handover::Covered { ticket, block },
        Ordering::Equal => Handover::Reflected { ticket, block },
        Ordering::Greater => Handover::Apply { ticket, block },
    }
}
