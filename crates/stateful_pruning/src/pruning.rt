//! The entries that were recorded, and the prune that is due by them.
//!
//! Each finalized height is one call of `observe`, by ascending heights. It puts an entry into
//! `entries`, where the oldest leaves once a marshal window is full. Then it looks whether a prune
//! is due, and to which entry. Memory is wanted only until the window is full.
//!
//! A prune that is answered is the caller's to carry out. Before the databases are pruned
//! `barrier_height` has to be durable. Nothing is kept of the answer here, and the next height is
//! judged by the entries alone.
//!
//! `specs/Rule.antt` says when a prune is due, and `specs/Calls.antt` that each answer is the
//! rule's over all entries that were recorded.

ghost use Rattle.std.specs.Prelude.{◌≡◌, ◌≢◌, ◌<◌, ◌≤◌, ◌↔◌, [], Option, length, IsSome, IsOk};
ghost use Rattle.std.specs.Prelude.{IsErrOf, IfOk, IfSome, OnOk, OnErr};
ghost use Rattle.std.specs.Option.{SomeIff};
ghost use Rattle.std.specs.List.Sorted.{IsNonDecreasingBy};
ghost use Rattle.stateful_pruning.specs.declared.pruning.PruningError.TheVariants as errors;
ghost use Rattle.stateful_pruning.specs.Config.{schedule_of, window_size, IsConsistent};
ghost use Rattle.stateful_pruning.specs.Config.{IsInconsistent, FitsWindows, PassesWindows};
ghost use Rattle.stateful_pruning.specs.Rule.{OnNewest, MayPrune, IsTarget, IsAnswer, KeepsWindows};
ghost use Rattle.stateful_pruning.specs.Pruning.{IsSound, with_entry};
ghost use Rattle.stateful_pruning.specs.Calls.{Extends, KeepsWindow, AnswersByAll};
ghost use Rattle.stateful_pruning.specs.Shown.{entry_of};

use crate::config::{InvalidPruneConfig, PruneConfig};
use stateful_base::{Height, OutOfMemory};
use std::alloc::Global;
use std::collections::VecDeque;
use std::marker::Model;
use std::num::NonZeroUsize;
use thiserror::Error;

/// To which heights marshal and the databases are pruned.
#[derive(Drop)]
pub struct Prune<T> {
    /// Marshal drops its blocks below this height.
    pub marshal_height: Height,
    /// The height that has to be durable before the databases are pruned. It is that of the block
    /// with these targets.
    pub barrier_height: Height,
    /// The databases are pruned to these targets.
    pub qmdb_target: T,
}

/// Why no pruning was made.
#[derive(Clone, Copy, Debug, PartialEq, Eq, Error)]
pub enum PruningError {
    /// Marshal retains fewer blocks than QMDB, or the offset isn't below the interval.
    #[error("InvalidPruneConfig")]
    InvalidPruneConfig,
    /// A window has more than `usize::MAX` blocks.
    #[error("WindowOverflow")]
    WindowOverflow,
    /// Never given, since nothing is stored yet.
    #[error("OutOfMemory")]
    OutOfMemory,
}

impl From<InvalidPruneConfig> for PruningError {
    ghost from_gives = { λ _ e. e ≡ errors.InvalidPruneConfig };

    fn from(_refused: InvalidPruneConfig) -> PruningError {
        PruningError::InvalidPruneConfig
    }
}

/// A finalized height with its targets and the number of operations up to there.
#[derive(Clone, Copy)]
struct Entry<T> {
    height: Height,
    targets: T,
    operations: u64,
}

/// Records finalized heights, and tells when a prune is due.
#[derive(Drop)]
pub struct Pruning<T> {
    interval: NonZeroUsize,
    offset: u64,
    marshal_window: usize,
    qmdb_window: usize,
    retained_operations: u64,
    entries: VecDeque<Entry<T>>,
}

impl<T> Model for Pruning<T> {
    ghost use Rattle.stateful_pruning.specs.Pruning.{Recorded, IsSound};

    ghost Value = { Recorded T };

    ghost use Rattle.stateful_pruning.specs.Shown.{recorded};

    ghost view = { recorded };

    ghost invariant = { λ a. IsSound (recorded a) };
}

impl<T: Copy> Pruning<T> {
    /// Starts with nothing recorded. It takes no memory, however large the windows are.
    pub fn new(
        alloc: Global,
        config: PruneConfig,
        max_pending_acks: usize,
        offset: u64,
    ) -> Result<Pruning<T>, PruningError>
        ensures start { IfOk result (λ pruning.
            pruning ≡ record { schedule = schedule_of config max_pending_acks offset; kept = [] }) }
        ensures sound { IfOk result IsSound }

        // Whatever calls follow, each answer is the rule's over all entries that were recorded.
        ensures kept { IfOk result KeepsWindow }
        ensures answers { IfOk result AnswersByAll }

        ensures ok { IsOk result
            ↔ (IsConsistent config offset × FitsWindows config max_pending_acks) }
        ensures invalid { IsErrOf result PruningError.InvalidPruneConfig
            ↔ IsInconsistent config offset }
        ensures overflow { IsErrOf result PruningError.WindowOverflow
            ↔ (IsConsistent config offset × PassesWindows config max_pending_acks) }
        ensures no_memory { result ≢ Err PruningError.OutOfMemory }
    {
        config.assert_valid()?;
        if offset >= config.maintenance_interval.get() as u64 {
            return Err(PruningError::InvalidPruneConfig);
        }
        let marshal = window_size(max_pending_acks, config.retained_marshal_blocks);
        let qmdb = window_size(max_pending_acks, config.retained_qmdb_blocks);
        let (Some(marshal_window), Some(qmdb_window)) = (marshal, qmdb) else {
            return Err(PruningError::WindowOverflow);
        };
        Ok(Pruning {
            interval: config.maintenance_interval,
            offset,
            marshal_window,
            qmdb_window,
            retained_operations: config.retained_qmdb_operations,
            entries: VecDeque::new(alloc),
        })
    }

    /// Records a finalized height with its targets and the number of operations up to there, and
    /// answers the prune that is due by it. Heights come in ascending order, and an entry is newer
    /// than those recorded before it. It wants memory only until a marshal window is recorded.
    pub fn observe(
        &mut self,
        height: Height,
        targets: T,
        operations: u64,
    ) -> Result<Option<Prune<T>>, OutOfMemory>
        ensures recorded { OnOk result (self.new ≡ with_entry self.old
            (record { height = height.0; targets = targets; operations = operations })) }
        ensures answer { IfOk result (IsAnswer self.new.schedule self.new.kept) }
        ensures only { IfOk result (λ answer. (other : Option (Prune T))
            → IsAnswer self.new.schedule self.new.kept other
            → other ≡ answer) }
        ensures extends { IfOk result (Extends self.old self.new
            (record { height = height.0; targets = targets; operations = operations })) }

        // Where heights ascend, nothing within the windows is pruned.
        ensures windows { IfOk result (λ answer. IfSome answer (λ prune.
            IsNonDecreasingBy (λ entry. entry.height) self.new.kept
            → KeepsWindows self.new.schedule self.new.kept prune)) }

        ensures refused { OnErr result (self.new ≡ self.old) }
        ensures filling { OnErr result (length self.old.kept < self.old.schedule.marshal_window) }
        ensures sound { IsSound self.new }
    {
        self.record(Entry {
            height,
            targets,
            operations,
        })?;
        Ok(self.due())
    }

    /// Records an entry, and keeps the last marshal window.
    fn record(&mut self, entry: Entry<T>) -> Result<(), OutOfMemory>
        ensures recorded { OnOk result (self.new ≡ with_entry self.old (entry_of entry)) }
        ensures refused { OnErr result (self.new ≡ self.old) }
        ensures filling { OnErr result (length self.old.kept < self.old.schedule.marshal_window) }
        ensures sound { IsSound self.new }
    {
        if self.entries.len() < self.marshal_window {
            self.entries.push_back(entry)?;
        } else {
            self.entries.pop_front();
            self.entries.push_back_reserved(entry);
        }
        Ok(())
    }

    /// The prune that is due by the entries that are kept.
    fn due(&self) -> Option<Prune<T>>
        ensures { IsAnswer self.now.schedule self.now.kept result }
    {
        if self.entries.len() != self.marshal_window {
            return None;
        }
        let oldest = self.entries.front()?;
        let newest = self.entries.back()?;
        if newest.height.0 % self.interval.get() as u64 != self.offset {
            return None;
        }
        let target = self.target(newest.operations)?;
        Some(Prune {
            marshal_height: oldest.height,
            barrier_height: target.height,
            qmdb_target: target.targets,
        })
    }

    /// The newest entry to which the databases may be pruned where the marshal window is full and
    /// the newest entry has this number of operations.
    fn target(&self, operations: u64) -> Option<Entry<T>>
        requires full { length self.now.kept ≡ self.now.schedule.marshal_window }
        requires newest { OnNewest (λ newest. newest.operations ≡ operations) self.now.kept }
        ensures target { IfSome result
            (λ entry. IsTarget self.now.schedule self.now.kept (entry_of entry)) }
        ensures variant { IsSome result ↔ MayPrune self.now.schedule self.now.kept }
    {
        let most = operations.checked_sub(self.retained_operations)?;
        let outside = self.marshal_window - self.qmdb_window + 1;
        for place in (0..outside).rev() {
            let entry = self.entries[place];
            if entry.operations <= most {
                return Some(entry);
            }
        }
        None
    }
}

/// The size of a window. None exactly where it passes `usize::MAX`.
fn window_size(max_pending_acks: usize, retained: usize) -> Option<usize>
    ensures { SomeIff result (window_size max_pending_acks retained ≤ usize.MAX)
        (window_size max_pending_acks retained) }
{
    max_pending_acks.checked_add(1)?.checked_add(retained)
}
