//! Ends of candidate runs, and the requests that waited for them.
//!
//! A turn of a job is a turn of its run (`turn`), and while that isn't done nothing else happens.
//! At its end, within the same event, the run leaves its table, and how it ended is marked
//! (`end_run`). A good one gives its batch to the cache. While a finalization goes on, a block that
//! goes on over it counts as compatible from there on.
//!
//! After that all requests that waited for this run are released, and follow one after another, by
//! ascending tickets (`follow_each`). What one of them starts, the next may join. A request never
//! waits for a run that has ended.
//!
//! `specs/Ending.antt` of `stateful_exec_model` has the rules (`IsTold`, `Follows`, `InTurn`), and
//! docs/RULES.md says them in words, "The end of a run" and "After a run".

ghost use Rattle.std.specs.Prelude.{◌≡◌, ◌≤◌, ℕ, IsSome, OnOk, IfOk, IfErr, IsErrOf};
ghost use Rattle.stateful_base.specs.Causes.{Rose};
ghost use Rattle.stateful_table.specs.Table.{at};
ghost use Rattle.stateful_exec_model.specs.Moments.{moment};
ghost use Rattle.stateful_exec_tables.specs.Tables.{Rises};
ghost use Rattle.stateful_exec_model.specs.Causes.{FaultsEnd, FaultsAdvance, FaultsFollow, FaultsAnswer};
ghost use Rattle.stateful_exec_model.specs.Causes.{FaultsStep};
ghost use Rattle.stateful_exec_model.specs.Ending.{InTurn, EndsRun};
ghost use Rattle.stateful_exec_model.specs.Ending.{Follows, SettlesBy, Steps};

use crate::running::advance;
use stateful_base::{Digested, Moved};
use stateful_db::{Application, Batch, DatabaseSet};
use stateful_exec_model::Worked;
use stateful_exec_pause::Fate;
use stateful_exec_tables::{ExecError, Released};
use stateful_exec_turns::{TablesOf, Turned, end, turn};
use stateful_exec_walk::Verdict;
use stateful_history::{How, Mark};

/// The requests of an application that have waited for a run.
pub type ReleasedOf<A> = Released<
    <A as Application>::Block,
    <A as Application>::Context,
    <A as Application>::Input,
>;

/// The run of a job ends.
fn end_run<A: Application>(
    tables: &mut TablesOf<A>,
    job: u64,
    ended: Option<Batch<A>>,
    marks: &mut Vec<Mark<A::Block>>,
) -> Result<(Digested<A::Block>, How), ExecError>
    requires { IsSome (at tables.old.runs job) }
    ensures ok { IfOk result (λ r. let w = ⟦<A as Worked>⟧.workings in
        (members : A.Databases.kind.Members) (next : A.Databases.Ids) → EndsRun w
        (moment w tables.old members next marks.old.items) job r.0 ended r.1
        (moment w tables.new members next marks.new.items)) }
    ensures fault { IfErr result (FaultsEnd ⟦<A as Worked>⟧.workings tables.old job) }
    ensures numbers { Rises tables.old tables.new }
{
    let live = tables.take_run(job);
    let how = end::<A>(tables, &live.block, ended)?;
    tables.cross(&live.block)?;
    marks.push(Mark::Ended { job, how })?;
    Ok((live.block, how))
}

/// A request that has waited for a run of this block follows its end.
fn follow<A: Application>(
    application: &mut A,
    tables: &mut TablesOf<A>,
    databases: &mut A::Databases,
    released: ReleasedOf<A>,
    block: &Digested<A::Block>,
    how: How,
    marks: &mut Vec<Mark<A::Block>>,
) -> Result<(), ExecError>
    ensures ok { OnOk result (let w = ⟦<A as Worked>⟧.workings in Follows w block.now how released
        (moment w tables.old (A.Databases.members databases.old) (A.Databases.next databases.old)
        marks.old.items)
        (moment w tables.new (A.Databases.members databases.new) (A.Databases.next databases.new)
        marks.new.items)) }
    ensures fault { IfErr result (let w = ⟦<A as Worked>⟧.workings in FaultsAdvance w
        (Rose (A.count application.old) (A.count application.new))
        (moment w tables.old (A.Databases.members databases.old) (A.Databases.next databases.old)
        marks.old.items) released.path) }
    ensures members { A.Databases.members databases.new ≡ A.Databases.members databases.old }
    ensures numbers { Rises tables.old tables.new }
    ensures counts { (n : ℕ)
        → A.Databases.counted databases.new n ≡ A.Databases.counted databases.old n }
    ensures notes { (IsErrOf result ExecError.OutOfMemory → ⊥)
        → A.notes application.new ≡ A.notes application.old }
    ensures later { A.count application.old ≤ A.count application.new }
{
    let Released {
        ticket,
        request,
        path,
    } = released;
    match tables.fate(block, how) {
        Fate::Invalid => tables.conclude(ticket, request, Verdict::Invalid, marks)?,
        Fate::Parked => tables.park(ticket, request, path)?,
        Fate::GoesOn => advance(application, tables, databases, ticket, request, path, marks)?,
    }
    Ok(())
}

/// The requests that have waited for a run of this block follow its end, one after another.
fn follow_each<A: Application>(
    application: &mut A,
    tables: &mut TablesOf<A>,
    databases: &mut A::Databases,
    released: Vec<ReleasedOf<A>>,
    block: &Digested<A::Block>,
    how: How,
    marks: &mut Vec<Mark<A::Block>>,
) -> Result<(), ExecError>
    ensures ok { OnOk result (let w = ⟦<A as Worked>⟧.workings in
        InTurn (Follows w block.now how) released.items
        (moment w tables.old (A.Databases.members databases.old) (A.Databases.next databases.old)
        marks.old.items)
        (moment w tables.new (A.Databases.members databases.new) (A.Databases.next databases.new)
        marks.new.items)) }
    ensures fault { IfErr result (let w = ⟦<A as Worked>⟧.workings in FaultsFollow w
        (Rose (A.count application.old) (A.count application.new))
        block.now how released.items
        (moment w tables.old (A.Databases.members databases.old) (A.Databases.next databases.old)
        marks.old.items)) }
    ensures members { A.Databases.members databases.new ≡ A.Databases.members databases.old }
    ensures numbers { Rises tables.old tables.new }
    ensures counts { (n : ℕ)
        → A.Databases.counted databases.new n ≡ A.Databases.counted databases.old n }
    ensures notes { (IsErrOf result ExecError.OutOfMemory → ⊥)
        → A.notes application.new ≡ A.notes application.old }
    ensures later { A.count application.old ≤ A.count application.new }
{
    for next in released {
        follow(application, tables, databases, next, block, how, marks)?;
    }
    Ok(())
}

/// What a turn of a run leads to: where it has ended, the requests that waited for it follow.
pub fn settle<A: Application>(
    application: &mut A,
    tables: &mut TablesOf<A>,
    databases: &mut A::Databases,
    job: u64,
    answer: Turned<A>,
    marks: &mut Vec<Mark<A::Block>>,
) -> Result<(), ExecError>
    requires { IsSome (at tables.old.runs job) }
    ensures ok { OnOk result (let w = ⟦<A as Worked>⟧.workings in SettlesBy w
        (moment w tables.old (A.Databases.members databases.old) (A.Databases.next databases.old)
        marks.old.items) job answer
        (moment w tables.new (A.Databases.members databases.new) (A.Databases.next databases.new)
        marks.new.items)) }
    ensures fault { IfErr result (let w = ⟦<A as Worked>⟧.workings in FaultsAnswer w
        (Rose (A.count application.old) (A.count application.new))
        (moment w tables.old (A.Databases.members databases.old) (A.Databases.next databases.old)
        marks.old.items) job answer) }
    ensures members { A.Databases.members databases.new ≡ A.Databases.members databases.old }
    ensures numbers { Rises tables.old tables.new }
    ensures counts { (n : ℕ)
        → A.Databases.counted databases.new n ≡ A.Databases.counted databases.old n }
    ensures notes { (IsErrOf result ExecError.OutOfMemory → ⊥)
        → A.notes application.new ≡ A.notes application.old }
    ensures later { A.count application.old ≤ A.count application.new }
{
    let Moved::Done(ended) = answer? else {
        return Ok(());
    };
    let (block, how) = end_run::<A>(tables, job, ended, marks)?;
    let released = tables.release(job)?;
    follow_each(application, tables, databases, released, &block, how, marks)
}

/// The run of a job has a turn. Where it has ended, the requests that waited for it follow.
pub fn complete<A: Application>(
    application: &mut A,
    tables: &mut TablesOf<A>,
    databases: &mut A::Databases,
    job: u64,
    marks: &mut Vec<Mark<A::Block>>,
) -> Result<(), ExecError>
    requires { IsSome (at tables.old.runs job) }
    ensures ok { OnOk result (let w = ⟦<A as Worked>⟧.workings in Steps w A.Run.count
        (moment w tables.old (A.Databases.members databases.old) (A.Databases.next databases.old)
        marks.old.items) job
        (moment w tables.new (A.Databases.members databases.new) (A.Databases.next databases.new)
        marks.new.items)) }
    ensures fault { IfErr result (let w = ⟦<A as Worked>⟧.workings in FaultsStep w
        (Rose (A.count application.old) (A.count application.new)) A.Run.count
        (moment w tables.old (A.Databases.members databases.old) (A.Databases.next databases.old)
        marks.old.items) job) }
    ensures members { A.Databases.members databases.new ≡ A.Databases.members databases.old }
    ensures numbers { Rises tables.old tables.new }
    ensures counts { (n : ℕ)
        → A.Databases.counted databases.new n ≡ A.Databases.counted databases.old n }
    ensures notes { (IsErrOf result ExecError.OutOfMemory → ⊥)
        → A.notes application.new ≡ A.notes application.old }
    ensures later { A.count application.old ≤ A.count application.new }
{
    let answer = turn::<A>(tables, databases, job)?;
    settle(application, tables, databases, job, answer, marks)
}
