//! The durable height, the open barriers and the receipts that wait.
//!
//! A height goes through the fields one after another. `applied` is raised to it once its block was
//! applied. A barrier that begins over it stands in `oldest`, or in `newer` beside an older one.
//! Where that barrier was good `durable` is raised to its height, and else it only leaves. `newer`
//! moves up then, since barriers complete in the order in which they began.
//!
//! Receipts stand in `held` by ascending heights, those of one height in the order in which they
//! came. `record` appends one, and `record_duplicate` puts one after the others of its height.
//! `released` takes the front one while its height is durable, so acknowledgements ascend too.
//!
//! `specs/Durability.antt` says what each call does. `specs/Calls.antt` says over all calls that a
//! receipt is held until it is released, and `specs/Shown.antt` how the fields show that.

ghost use Rattle.std.specs.Prelude.{◌≡◌, ◌≢◌, ◌<◌, ◌≤◌, ◌↔◌, ◌⊎◌, [], ◌∷◌, ◌++◌, length, take};
ghost use Rattle.std.specs.Prelude.{slice_get, IsTrue, IfSome, IfNone, OnSome, OnOk, OnErr};
ghost use Rattle.std.specs.Prelude.{MatchOption, All, Any, option_map};
ghost use Rattle.std.specs.Option.{ForSome};
ghost use Rattle.std.specs.List.Sorted.{IsNonDecreasingBy, IsPermutation};
ghost use Rattle.stateful_durability.specs.Durability.{covered_by_barriers, receipts_up_to};
ghost use Rattle.stateful_durability.specs.Durability.{receipts_above, with_duplicate};
ghost use Rattle.stateful_durability.specs.Durability.{covered_receipts, after_completion};
ghost use Rattle.stateful_durability.specs.Durability.{IsInOrder, Releases};
ghost use Rattle.stateful_durability.specs.Calls.{ReleasesExactly, KeepsReceipts};

use stateful_base::{Height, OutOfMemory};
use std::alloc::Global;
use std::collections::VecDeque;
use std::marker::Model;

/// The ticket of a finalization whose height waits to be durable.
#[derive(Clone, Copy)]
struct Receipt {
    height: Height,
    ticket: u64,
}

/// Tracks which applied heights are durable, and holds the receipts of those that may not be yet.
#[derive(Drop)]
pub struct Durability {
    durable: Height,
    applied: Height,

    // The open barriers. The newer one is there only beside the oldest.
    oldest: Option<Height>,
    newer: Option<Height>,

    held: VecDeque<Receipt>,
}

impl Model for Durability {
    ghost use Rattle.stateful_durability.specs.Durability.{Coverage};

    ghost Value = { Coverage };

    ghost use Rattle.stateful_durability.specs.Shown.{coverage, IsSound};

    ghost view = { λ a. coverage a.durable a.applied a.oldest a.newer a.held.items };

    ghost invariant = { λ a. IsSound a.oldest a.newer
        (coverage a.durable a.applied a.oldest a.newer a.held.items) };
}

impl Durability {
    /// Starts at a height that is applied and durable, without receipts.
    pub fn new(alloc: Global, height: Height) -> Durability
        ensures start { result
            ≡ record { durable = height.0; applied = height.0; barriers = []; held = [] } }
        ensures in_order { IsInOrder result }

        // Whatever calls follow, a receipt is held until it is released.
        ensures kept { KeepsReceipts result }
    {
        Durability {
            durable: height,
            applied: height,
            oldest: None,
            newer: None,
            held: VecDeque::new(alloc),
        }
    }

    /// The greatest height that is known to be durable.
    pub fn durable_height(&self) -> Height
        ensures height { result.0 ≡ self.now.durable }
        ensures in_order { IsInOrder self.now }
    {
        self.durable
    }

    /// The last applied height.
    pub fn applied_height(&self) -> Height
        ensures height { result.0 ≡ self.now.applied }
        ensures in_order { IsInOrder self.now }
    {
        self.applied
    }

    /// The height of the oldest open barrier, which is the next that completes. None exactly where
    /// none is open.
    pub fn oldest_barrier(&self) -> Option<Height>
        ensures height { slice_get self.now.barriers 0 ≡ option_map (λ height. height.0) result }
        ensures in_order { IsInOrder self.now }
    {
        self.oldest
    }

    /// Whether another barrier may begin: fewer than two are open.
    pub fn is_free(&self) -> bool
        ensures free { IsTrue result ↔ (length self.now.barriers < 2) }
        ensures in_order { IsInOrder self.now }
    {
        self.newer.is_none()
    }

    /// Whether this height is durable.
    pub fn covers(&self, height: Height) -> bool
        ensures covered { IsTrue result ↔ (height.0 ≤ self.now.durable) }
        ensures in_order { IsInOrder self.now }
    {
        height <= self.durable
    }

    /// Whether a barrier has to begin: fewer than two are open, and the last applied height is past
    /// that of the newest open one, or past the durable height where none is open.
    pub fn needs_barrier(&self) -> bool
        ensures needed { IsTrue result
            ↔ ((length self.now.barriers < 2) × (covered_by_barriers self.now < self.now.applied)) }
        ensures in_order { IsInOrder self.now }
    {
        self.is_free() && self.covered_by_barriers() < self.applied
    }

    /// A block of this height was applied, which is above all that were applied before.
    pub fn applied(&mut self, height: Height)
        requires { self.old.applied < height.0 }
        ensures applied { self.new ≡ record self.old { applied = height.0 } }
        ensures no_barrier_yet { covered_by_barriers self.new < height.0 }
        ensures no_receipt_yet { All (λ receipt. receipt.0 < height.0) self.new.held }
        ensures in_order { IsInOrder self.new }
    {
        self.applied = height;
    }

    /// A barrier began over the heights up to this one, which is the newest open one now.
    pub fn set_barrier(&mut self, height: Height)
        requires free { length self.old.barriers < 2 }
        requires not_covered { covered_by_barriers self.old < height.0 }
        requires was_applied { height.0 ≤ self.old.applied }
        ensures set { self.new ≡ record self.old { barriers = self.old.barriers ++ height.0 ∷ [] } }
        ensures covered { covered_by_barriers self.new ≡ height.0 }
        ensures in_order { IsInOrder self.new }
    {
        if self.oldest.is_none() {
            self.oldest = Some(height);
        } else {
            self.newer = Some(height);
        }
    }

    /// The oldest open barrier is over. It was good where its height is given, and that height is
    /// durable then. The answer says how many receipts in front are to be released for it.
    pub fn complete(&mut self, completion: Option<Height>) -> usize
        requires one_open { self.old.barriers ≢ [] }
        requires oldest { ForSome completion
            (λ height. slice_get self.old.barriers 0 ≡ Some height.0) }
        ensures after { self.new ≡ after_completion self.old completion }
        ensures later { IfSome completion (λ height. self.old.durable < height.0) }
        ensures covered { OnSome completion
            (covered_by_barriers self.new ≡ covered_by_barriers self.old) }
        ensures in_order { IsInOrder self.new }

        // The receipts of the heights that it covered stand in front, and exactly these are
        // released then.
        ensures count { MatchOption completion (result ≡ 0)
            (λ height. result ≡ length (receipts_up_to height.0 self.old.held)) }
        ensures front { IfSome completion
            (λ height. take result self.old.held ≡ receipts_up_to height.0 self.old.held) }
        ensures released { IfSome completion
            (λ height. ReleasesExactly self.new (receipts_up_to height.0 self.old.held)) }
        ensures ascending { IfSome completion
            (λ height. let receipts = receipts_up_to height.0 self.old.held in
            IsNonDecreasingBy (λ receipt. receipt.0) receipts) }
    {
        self.oldest = self.newer.take();
        match completion {
            Some(height) => {
                self.durable = height;
                self.count_up_to(height)
            }
            None => 0,
        }
    }

    /// Holds the receipt of the block that was applied last, behind all others.
    pub fn record(&mut self, height: Height, ticket: u64) -> Result<(), OutOfMemory>
        requires last { height.0 ≡ self.old.applied }
        requires first { All (λ receipt. receipt.0 ≢ height.0) self.old.held }
        ensures held { OnOk result
            (self.new ≡ record self.old { held = self.old.held ++ (height.0, ticket) ∷ [] }) }
        ensures added { OnOk result
            (IsPermutation ((height.0, ticket) ∷ self.old.held) self.new.held) }
        ensures refused { OnErr result (self.new ≡ self.old) }
        ensures in_order { IsInOrder self.new }
    {
        self.held.push_back(Receipt { height, ticket })?;
        Ok(())
    }

    /// Holds another receipt of a height that is durable or has a receipt, right behind the others
    /// of its height.
    pub fn record_duplicate(&mut self, height: Height, ticket: u64) -> Result<(), OutOfMemory>
        requires { (height.0 ≤ self.old.durable)
            ⊎ Any (λ receipt. receipt.0 ≡ height.0) self.old.held }
        ensures held { OnOk result
            (self.new ≡ record self.old { held = with_duplicate self.old.held height.0 ticket }) }
        ensures added { OnOk result
            (IsPermutation ((height.0, ticket) ∷ self.old.held) self.new.held) }
        ensures refused { OnErr result (self.new ≡ self.old) }
        ensures in_order { IsInOrder self.new }
    {
        let place = self.count_up_to(height);
        self.held.insert(place, Receipt { height, ticket })?;
        Ok(())
    }

    /// Takes the front receipt, as its ticket and height, where that height is durable.
    /// None exactly where no receipt of a durable height is held.
    pub fn released(&mut self) -> Option<(u64, Height)>
        ensures front { IfSome result
            (λ receipt. Releases self.old self.new (receipt.1.0, receipt.0)) }
        ensures none { IfNone result (All (λ receipt. self.old.durable < receipt.0) self.old.held) }
        ensures unchanged { IfNone result (self.new ≡ self.old) }
        ensures covered { MatchOption result (covered_receipts self.old ≡ [])
            (λ receipt. covered_receipts self.old
            ≡ (receipt.1.0, receipt.0) ∷ covered_receipts self.new) }
        ensures lowest { IfSome result
            (λ receipt. All (λ other. receipt.1.0 ≤ other.0) self.new.held) }
        ensures in_order { IsInOrder self.new }
    {
        let front = self.held.front()?;
        if front.height > self.durable {
            return None;
        }
        let receipt = self.held.pop_front()?;
        Some((receipt.ticket, receipt.height))
    }

    /// The height that the newest open barrier covers, or else the durable one.
    fn covered_by_barriers(&self) -> Height
        ensures { result.0 ≡ covered_by_barriers self.now }
    {
        self.newer.or(self.oldest).unwrap_or(self.durable)
    }

    /// How many receipts are of heights up to this one. They stand in front.
    fn count_up_to(&self, height: Height) -> usize
        ensures count { result ≡ length (receipts_up_to height.0 self.now.held) }
        ensures front { self.now.held
            ≡ receipts_up_to height.0 self.now.held ++ receipts_above height.0 self.now.held }
    {
        self.held
            .partition_point(|receipt| receipt.height <= height)
    }
}
