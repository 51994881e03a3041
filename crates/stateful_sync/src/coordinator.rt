//! The coordinator of a sync of several databases.
//!
//! Whoever runs a sync starts all databases at the first block, and makes a coordinator for it.
//! Then it tells it what happens: `record_reached` where a database has got to its generation, and
//! `record_tip_update` where a later block is finalized. After each it asks `next_action`.
//!
//! A dispatch names a generation and its targets. They go to each database that `should_dispatch`
//! names. One that has reached its own, and has the same target in this one, is marked by
//! `mark_reached_same_target`. `Wait` means that nothing is to be done before the next report, and
//! `Converged` that all have what one block commits to.
//!
//! `databases` has the generation of each, `newest` the last one that was dispatched, and `pending`
//! the tip that comes next. `Acts` of `specs/Coordinator.antt` has the cases, and `specs/Laws.antt`
//! what holds over all calls. In words they stand in docs/RULES.md, "A sync".

ghost use Rattle.std.specs.Prelude.{◌≡◌, ◌+◌, ◌-◌, ◌^◌, ◌<◌, ◌≤◌, ◌↔◌, length, map, replicate};
ghost use Rattle.std.specs.Prelude.{None, Some, IsTrue, IfOk, OnErr, IsErr};
ghost use Rattle.stateful_sync.specs.Assigned.{once_reached, once_marked, unless_reached};
ghost use Rattle.stateful_sync.specs.Assigned.{unless_assigned, StandAs};
ghost use Rattle.stateful_sync.specs.Coordinator.{Seeks, IsInOrder, ChangesAt, TakesTip, Acts};
ghost use Rattle.stateful_sync.specs.Coordinator.{IsNewest, NeedsNumber, tip_of};
ghost use Rattle.stateful_sync.specs.Laws.{KeepsLaws};
ghost use Rattle.stateful_sync.specs.declared.action.DbSyncState.TheVariants as states;

use crate::action::{CoordinatorAction, DbSyncState, Generation, Standing};
use crate::tip::Tip;
use stateful_db::Exhausted;
use stateful_types::{Anchor, OutOfMemory};
use std::alloc::Global;
use std::marker::Model;

/// Brings several databases to what one and the same block commits to, while later blocks are
/// finalized.
///
/// Blocks are numbered as generations in the order in which they are dispatched. Each database is
/// assigned a generation, and seeks it until it has reached it. A recorded tip is dispatched, as a
/// new generation, to the databases that still seek. So those that have reached their generation
/// aren't sent on before all have, and where all have reached different ones the greatest goes to
/// the others. All have converged once they have reached one generation and no further tip is
/// recorded.
///
/// At the start every database seeks generation 0. Whoever makes the coordinator starts them.
#[derive(Drop)]
pub struct CoordinatorState<T> {
    databases: Vec<DbSyncState>,
    newest: Generation<T>,
    pending: Option<Tip<T>>,
}

impl<T> Model for CoordinatorState<T> {
    ghost use Rattle.std.specs.Prelude.{◌-◌, ◌^◌, ◌<◌};
    ghost use Rattle.stateful_sync.specs.Coordinator.{Coordination, IsInOrder};

    ghost Value = { Coordination T };

    ghost view = { λ a. record {
      databases = a.databases.items;
      newest = a.newest;
      pending = a.pending;
    } };

    ghost invariant = { λ a. IsInOrder (record {
      databases = a.databases.items;
      newest = a.newest;
      pending = a.pending;
    }) × (a.newest.number < 2 ^ 64 - 1) };
}

impl<T: Copy> CoordinatorState<T> {
    /// So many databases, which all seek the targets of this block, as generation 0.
    pub fn new(
        alloc: Global,
        count: usize,
        anchor: Anchor,
        targets: T,
    ) -> Result<CoordinatorState<T>, OutOfMemory>
        requires { 1 ≤ count }
        ensures start { IfOk result (λ state. state ≡ record {
          databases = replicate count (states.Seeking 0);
          newest = record { number = 0; tip = tip_of anchor targets };
          pending = None;
        }) }
        ensures in_order { IfOk result IsInOrder }

        // Whatever calls follow.
        ensures laws { IfOk result
            (KeepsLaws (record { number = 0; tip = tip_of anchor targets }) count) }
    {
        let databases = vec![in alloc; DbSyncState::Seeking { generation: 0 }; count]?;
        Ok(CoordinatorState {
            databases,
            newest: Generation {
                number: 0,
                tip: Tip { anchor, targets },
            },
            pending: None,
        })
    }

    /// The database of this number says that it has reached this generation. It counts where that
    /// is the one that it is assigned, since the word may come late.
    pub fn record_reached(&mut self, index: usize, generation: u64)
        requires { index < length self.old.databases }
        ensures reached { ChangesAt self.old index (once_reached generation) self.new }
        ensures count { length self.new.databases ≡ length self.old.databases }
        ensures in_order { IsInOrder self.new }
    {
        self.databases[index] = self.databases[index].once_reached(generation);
    }

    /// A further block was finalized, which is dispatched next. It counts where it is above the one
    /// that would be, or else above the last one that was.
    pub fn record_tip_update(&mut self, anchor: Anchor, targets: T)
        ensures takes { TakesTip self.old (tip_of anchor targets) self.new }
        ensures count { length self.new.databases ≡ length self.old.databases }
        ensures in_order { IsInOrder self.new }
    {
        let latest = self.pending.unwrap_or(self.newest.tip);
        if latest.anchor.height < anchor.height {
            self.pending = Some(Tip { anchor, targets });
        }
    }

    /// What is to be done next, and assigns what it dispatches. It is refused where the next
    /// generation would have the last number that there is.
    pub fn next_action(&mut self) -> Result<CoordinatorAction<T>, Exhausted>
        ensures acts { IfOk result (λ action. Acts self.old action self.new) }
        ensures newest { IfOk result (λ action. IsNewest action self.new) }
        ensures exhausted { IsErr result
            ↔ ((self.old.newest.number + 1 ≡ 2 ^ 64 - 1) × NeedsNumber self.old) }
        ensures err { OnErr result (self.new ≡ self.old) }
        ensures count { length self.new.databases ≡ length self.old.databases }
        ensures in_order { IsInOrder self.new }
    {
        match (standing(&self.databases, self.newest.number), self.pending) {
            (Standing::Together, Some(tip)) => {
                self.newest = self.newest.next(tip)?;
                self.pending = None;
                send_all(&mut self.databases, self.newest.number);
                Ok(self.newest.dispatch())
            }
            (Standing::Together, None) => Ok(self.newest.converge()),
            (Standing::Apart, _) => {
                regroup(&mut self.databases, self.newest.number);
                Ok(self.newest.dispatch())
            }
            (Standing::OnTheWay, Some(tip)) => {
                self.newest = self.newest.next(tip)?;
                self.pending = None;
                send_seeking(&mut self.databases, self.newest.number);
                Ok(self.newest.dispatch())
            }
            (Standing::OnTheWay, None) => Ok(CoordinatorAction::Wait),
        }
    }

    /// Whether the database of this number is seeking, so that a dispatch goes to it.
    pub fn should_dispatch(&self, index: usize) -> bool
        requires { index < length self.now.databases }
        ensures seeks { IsTrue result ↔ Seeks self.now index }
        ensures in_order { IsInOrder self.now }
    {
        !self.databases[index].is_reached()
    }

    /// The database of this number has the same target in the newest generation as in the one that
    /// it has reached. It counts where it has reached one.
    pub fn mark_reached_same_target(&mut self, index: usize, generation: u64)
        requires database { index < length self.old.databases }
        requires newest { generation ≡ self.old.newest.number }
        ensures marked { ChangesAt self.old index (once_marked generation) self.new }
        ensures count { length self.new.databases ≡ length self.old.databases }
        ensures in_order { IsInOrder self.new }
    {
        self.databases[index] = self.databases[index].once_marked(generation);
    }
}

/// Where the databases stand, of which this is the greatest generation.
fn standing(databases: &[DbSyncState], newest: u64) -> Standing
    ensures { StandAs databases.now newest result }
{
    if databases.iter().any(|d| !d.is_reached()) {
        return Standing::OnTheWay;
    }
    if databases.iter().all(|d| d.generation() == newest) {
        return Standing::Together;
    }
    Standing::Apart
}

/// Every database seeks this generation.
fn send_all(databases: &mut [DbSyncState], generation: u64)
    ensures { databases.new ≡ map (λ d. states.Seeking generation) databases.old }
{
    for database in databases.iter_mut() {
        *database = DbSyncState::Seeking { generation };
    }
}

/// Those that are seeking seek this generation.
fn send_seeking(databases: &mut [DbSyncState], generation: u64)
    ensures { databases.new ≡ map (unless_reached generation) databases.old }
{
    for database in databases.iter_mut() {
        *database = database.unless_reached(generation);
    }
}

/// Those that are assigned another generation seek this one.
fn regroup(databases: &mut [DbSyncState], generation: u64)
    ensures { databases.new ≡ map (unless_assigned generation) databases.old }
{
    for database in databases.iter_mut() {
        *database = database.unless_assigned(generation);
    }
}
