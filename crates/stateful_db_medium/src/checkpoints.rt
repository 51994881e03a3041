//! The kept checkpoints of a medium.

ghost use Rattle.std.specs.Prelude.{◌≡◌, ◌==◌, ◌≤◌, ◌<◌, ◌+◌, ◌^◌, [], ◌∷◌, ◌++◌, length, position};
ghost use Rattle.std.specs.Prelude.{take, OnOk, OnErr, IsTrue, ◌↔◌};
ghost use Rattle.stateful_db_medium.specs.Orders.{Ascend, Ascend-prop};
ghost use Rattle.stateful_db_medium.specs.Ranged.{range_of};

use stateful_base::{Location, Target};
use stateful_db::InitError;
use std::alloc::{AllocError, Global};
use std::mem;

/// What a medium keeps of a checkpoint: its root with its range, and what else it keeps.
#[derive(Drop)]
pub struct Checkpoint<X> {
    pub target: Target,
    pub kept: X,
}

impl<X> Checkpoint<X> {
    /// The root with the range.
    pub fn target(&self) -> Target
        ensures { result ≡ range_of self.now }
    {
        self.target
    }
}

/// The kept checkpoints, oldest first, the number of older ones that were pruned, and the place of
/// the last durable one. Places count the pruned ones too. Ranges ascend, and the durable one is
/// kept.
#[derive(Drop)]
pub struct Checkpoints<X> {
    older: Vec<Checkpoint<X>>,
    newest: Checkpoint<X>,
    pruned: u64,
    durable: u64,
    ghost sizes: { Ascend range_of 0 pruned (older.items ++ newest ∷ []) } by { Ascend-prop range_of 0 pruned (older.items ++ newest ∷ []) },
    ghost kept: { pruned ≤ durable },
    ghost within: { durable ≤ pruned + length older.items },
    ghost placed: { pruned + length older.items < 2 ^ 64 },
}

impl<X: Drop> Checkpoints<X> {
    ghost use Rattle.std.specs.Prelude.{◌≢◌, IfOk, IfErr, slice_get};
    ghost use Rattle.stateful_db.specs.Disk.{all, place, applied, flushed, cut, IsCrash, IsOpened};
    ghost use Rattle.stateful_db.specs.Reopening.{with_end, FailsToReopen};
    ghost use Rattle.stateful_db_medium.specs.Kept.{disk_in};
    ghost use Rattle.stateful_db_medium.specs.Openings.{IsNumberOf};

    /// One alone. Its range doesn't end at the first location.
    pub fn new(alloc: Global, first: Checkpoint<X>) -> Checkpoints<X>
        requires { 0 < first.target.end.0 }
        ensures { disk_in result
            ≡ record { older = []; newest = first; pruned = 0; durable = 0 } }
    {
        Checkpoints {
            older: Vec::new(alloc),
            newest: first,
            pruned: 0,
            durable: 0,
        }
    }

    /// The newest.
    pub fn newest(&self) -> &Checkpoint<X>
        ensures { result.now ≡ (disk_in self.now).newest }
    {
        &self.newest
    }

    /// Its allocator.
    pub fn allocator(&self) -> Global {
        *self.older.allocator()
    }

    /// The place of the newest.
    pub fn place(&self) -> u64
        ensures { result ≡ place (disk_in self.now) }
    {
        self.pruned + self.older.len() as u64
    }

    /// How many of the oldest were pruned.
    pub fn pruned(&self) -> u64
        ensures { result ≡ (disk_in self.now).pruned }
    {
        self.pruned
    }

    /// The place of the last durable one.
    pub fn durable(&self) -> u64
        ensures { result ≡ (disk_in self.now).durable }
    {
        self.durable
    }

    /// The number of the newest.
    pub fn latest(&self) -> usize
        ensures { result ≡ length (disk_in self.now).older }
    {
        self.older.len()
    }

    /// The number of the first whose range has this end.
    pub fn number_with_end(&self, end: Location) -> Option<usize>
        ensures { result ≡ position (λ s. s.target.end.0 == end.0) (all (disk_in self.now)) }
    {
        match number_in(self.older.as_slice(), end) {
            Some(number) => Some(number),
            None if self.newest.target.end.0 == end.0 => Some(self.older.len()),
            None => None,
        }
    }

    /// The one of this number.
    pub fn get(&self, number: usize) -> &Checkpoint<X>
        requires { number < length (all (disk_in self.now)) }
        ensures { slice_get (all (disk_in self.now)) number ≡ Some result.now }
    {
        match self.older.get(number) {
            Some(state) => state,
            None => &self.newest,
        }
    }

    /// The number of the one of this target.
    fn number_of(&self, expected: Target) -> Result<usize, InitError>
        ensures ok { IfOk result (λ n. IsNumberOf range_of (λ t. t) (Some expected) (disk_in self.now) n) }
        ensures err { IfErr result (λ e.
            FailsToReopen range_of (λ t. t) (Some expected) (disk_in self.now) ⊥ e) }
        ensures memory { IfErr result (λ e. e ≢ InitError.OutOfMemory) }
    {
        let number = match self.number_with_end(expected.end) {
            Some(number) => number,
            None => return Err(InitError::Database),
        };
        let recovered = self.get(number).target();
        if is_same(recovered, expected) {
            Ok(number)
        } else {
            Err(InitError::TargetMismatch {
                expected,
                recovered,
            })
        }
    }

    /// The number of the one of this target, or of the latest.
    pub fn number_to_open(&self, expected: Option<Target>) -> Result<usize, InitError>
        ensures ok { IfOk result (λ n. IsNumberOf range_of (λ t. t) expected (disk_in self.now) n) }
        ensures within { IfOk result (λ n. n < length (all (disk_in self.now))) }
        ensures err { IfErr result (λ e.
            FailsToReopen range_of (λ t. t) expected (disk_in self.now) ⊥ e) }
        ensures memory { IfErr result (λ e. e ≢ InitError.OutOfMemory) }
    {
        match expected {
            Some(expected) => self.number_of(expected),
            None => Ok(self.older.len()),
        }
    }

    /// The one of this number is the last and the durable one.
    pub fn open_at(&mut self, number: usize)
        requires { number < length (all (disk_in self.old)) }
        ensures { IsOpened number (disk_in self.old) (disk_in self.new) }
    {
        keep_first(&mut self.older, &mut self.newest, number + 1);
        self.durable = self.pruned + self.older.len() as u64;
    }

    /// What a crash leaves.
    pub fn cut(&mut self, keep: usize)
        ensures { IsCrash keep (disk_in self.old) (disk_in self.new) }
    {
        let durable = (self.durable - self.pruned) as usize + 1;
        let wanted = (keep as u64).saturating_sub(self.pruned) as usize;
        let count = durable.max(wanted.min(self.older.len() + 1));
        keep_first(&mut self.older, &mut self.newest, count);
    }

    /// One more. Where its range doesn't end behind that of the newest, or starts before it, it is
    /// refused as if memory were wanting.
    pub fn push(&mut self, state: Checkpoint<X>) -> Result<(), AllocError>
        ensures ok { OnOk result (disk_in self.new ≡ applied (disk_in self.old) state) }
        ensures err { OnErr result (disk_in self.new ≡ disk_in self.old) }
    {
        // The state of a batch on the newest one is behind it: this never comes for it.
        if !is_behind(&self.newest.target, &state.target) {
            return Err(AllocError);
        }
        append(&mut self.older, &mut self.newest, state)
    }

    /// Those up to this place are durable.
    pub fn flush(&mut self, at: u64)
        requires { at ≤ place (disk_in self.old) }
        ensures { disk_in self.new ≡ flushed (disk_in self.old) at }
    {
        self.durable = at.max(self.durable);
    }

    /// Drops so many of the oldest. The durable one stays.
    pub fn drop_first(&mut self, count: usize)
        requires within { count ≤ length (disk_in self.old).older }
        requires kept { (disk_in self.old).pruned + count ≤ (disk_in self.old).durable }
        ensures { disk_in self.new ≡ cut (disk_in self.old) count }
    {
        self.older.drain(..count);
        self.pruned += count as u64;
    }
}

fn is_same(one: Target, other: Target) -> bool
    ensures { IsTrue result ↔ (one ≡ other) }
{
    one == other
}

/// Whether a range ends behind another, and doesn't start before it.
fn is_behind(one: &Target, other: &Target) -> bool
    ensures ends { IsTrue result → one.now.end.0 < other.now.end.0 }
    ensures starts { IsTrue result → one.now.start.0 ≤ other.now.start.0 }
{
    let ends = one.end.0 < other.end.0;
    let starts = one.start.0 <= other.start.0;
    ends && starts
}

/// The number of the first whose range has this end.
fn number_in<X>(states: &[Checkpoint<X>], end: Location) -> Option<usize>
    ensures { result ≡ position (λ s. s.target.end.0 == end.0) states.now }
{
    states.iter().position(|state| state.target.end.0 == end.0)
}

/// Drops all but so many of the oldest. The newest stands apart.
fn keep_first<S: Drop>(older: &mut Vec<S>, newest: &mut S, count: usize)
    requires { 0 < count }
    ensures { older.new.items ++ newest.new ∷ [] ≡ take count (older.old.items ++ newest.old ∷ []) }
{
    if count <= older.len() {
        older.truncate(count);
        if let Some(state) = older.pop() {
            *newest = state;
        }
    }
}

/// One more is the newest, and the last one is behind the older ones.
fn append<S: Drop>(older: &mut Vec<S>, newest: &mut S, state: S) -> Result<(), AllocError>
    ensures ok_older { OnOk result (older.new.items ≡ older.old.items ++ newest.old ∷ []) }
    ensures ok_newest { OnOk result (newest.new ≡ state) }
    ensures err_older { OnErr result (older.new.items ≡ older.old.items) }
    ensures err_newest { OnErr result (newest.new ≡ newest.old) }
{
    let last = mem::replace(newest, state);
    match older.push(last) {
        Ok(()) => Ok(()),
        Err(refused) => {
            *newest = refused.value;
            Err(AllocError)
        }
    }
}
