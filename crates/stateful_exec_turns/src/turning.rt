//! The parts of a candidate run: the blocks that it is handed, its turns, and how it ended.
//!
//! A run is handed its block with the parent (`pair`), takes a turn at a time (`turn`), and ends
//! with a batch or without states (`end`). Only a batch of the targets that the block commits to is
//! kept, so a block is known only by a matching run.
//!
//! `specs/Ending.antt` of `stateful_exec_model` has the rules (`IsTold`, `TurnsRun`).

ghost use Rattle.std.specs.Prelude.{◌≡◌, ◌∷◌, [], IsSome, OnOk, IfOk, IfErr};
ghost use Rattle.stateful_table.specs.Table.{at};
ghost use Rattle.stateful_exec_model.specs.Ending.{IsTold, TurnsRun};
ghost use Rattle.stateful_exec_tables.specs.Keeping.{FaultsTake};
ghost use Rattle.stateful_exec_tables.specs.Tables.{Rises};

use stateful_base::{Ancestry, Digested, Items, Moved, OutOfMemory, Share};
use stateful_db::{AppFault, Application, Batch, DatabaseSet};
use stateful_exec_model::Worked;
use stateful_exec_tables::{ExecError, Tables};
use stateful_history::How;
use std::alloc::Global;

/// The tables of an application.
pub type TablesOf<A> = Tables<
    <A as Application>::Block,
    <A as Application>::Context,
    <A as Application>::Input,
    <A as Application>::Run,
    Batch<A>,
>;

/// What a turn of a run answers.
pub type Turned<A> = Result<Moved<Option<Batch<A>>>, AppFault>;

/// A block and its parent.
pub fn pair<B: Drop>(
    alloc: Global,
    block: &Digested<B>,
    parent: Digested<B>,
) -> Result<Ancestry<B>, OutOfMemory>
    ensures { IfOk result (λ ancestry. ancestry
        ≡ record { first = block.now; rest = parent ∷ [] }) }
{
    let mut rest = Items::new(alloc);
    rest.push(parent)?;
    Ok(Ancestry {
        first: block.share()?,
        rest,
    })
}

/// The run of a job has a turn.
pub fn turn<A: Application>(
    tables: &mut TablesOf<A>,
    databases: &A::Databases,
    job: u64,
) -> Result<Turned<A>, OutOfMemory>
    requires { IsSome (at tables.old.runs job) }
    ensures ok { IfOk result (TurnsRun ⟦<A as Worked>⟧.workings A.Run.count
        (A.Databases.members databases.now) job tables.old tables.new) }
    ensures there { OnOk result (IsSome (at tables.new.runs job)) }
    ensures numbers { Rises tables.old tables.new }
{
    let mut live = tables.take_run(job);
    let answer = A::turn(&mut live.run, databases);
    tables.put_run(job, live)?;
    Ok(answer)
}

/// How a candidate run ended: without states, with other targets than its block commits to, or with
/// a batch that the cache takes or misses.
pub fn end<A: Application>(
    tables: &mut TablesOf<A>,
    block: &Digested<A::Block>,
    ended: Option<Batch<A>>,
) -> Result<How, ExecError>
    ensures told { IfOk result (IsTold ⟦<A as Worked>⟧.workings tables.old.anchor block.now
        tables.old.cache tables.new.cache ended) }
    ensures rest { OnOk result (tables.new ≡ record tables.old { cache = tables.new.cache }) }
    ensures numbers { Rises tables.old tables.new }
    ensures fault { IfErr result (FaultsTake A.Block.header block.now tables.old.cache) }
{
    let Some(batch) = ended else {
        return Ok(How::Rejected);
    };
    let targets = A::sync_targets(block.inner());
    if !A::Databases::matches_sync_targets(&batch, &targets) {
        return Ok(How::Mismatched);
    }
    tables.keep(block, batch)
}
