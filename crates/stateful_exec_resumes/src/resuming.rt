//! What goes on after a pause.
//!
//! First the parked requests are taken out, and the pause is over. Each goes along its path, by
//! ascending tickets. Then those that are `Open` or `Waiting` are taken out. Each acquires anew
//! what it needs, from the start, by ascending tickets.
//!
//! So what was fetched before the pause is dropped, and found again by the walk or asked for again.
//! Requests that wait for a run stay as they are: its end takes them up.
//!
//! `Resumes` of `specs/Pausing.antt` of `stateful_exec_model` has the rule, and docs/RULES.md says
//! it in words, "After a pause".

ghost use Rattle.std.specs.Prelude.{◌≡◌, ◌≤◌, ℕ, OnOk, IfErr, IsErrOf};
ghost use Rattle.stateful_base.specs.Causes.{Rose};
ghost use Rattle.stateful_exec_model.specs.Moments.{moment};
ghost use Rattle.stateful_exec_tables.specs.Tables.{Rises};
ghost use Rattle.stateful_exec_model.specs.Ending.{InTurn, StopsAt};
ghost use Rattle.stateful_exec_model.specs.Pausing.{GoesAlong, AcquiresAnew, Resumes, FaultsAlong};
ghost use Rattle.stateful_exec_model.specs.Pausing.{FaultsAnew, FaultsResume};

use stateful_base::BlockStore;
use stateful_db::{Application, DatabaseSet};
use stateful_exec_model::Worked;
use stateful_exec_runs::{ReleasedOf, TablesOf, acquire, advance};
use stateful_exec_tables::{ExecError, Released, Requested};
use stateful_history::Mark;

/// The requests of an application that are to acquire anew what they need.
type UnacquiredOf<A> = (
    u64,
    Requested<<A as Application>::Block, <A as Application>::Context, <A as Application>::Input>,
);

/// The parked requests go along their paths, one after another.
fn advance_each<A: Application>(
    application: &mut A,
    tables: &mut TablesOf<A>,
    databases: &mut A::Databases,
    parked: Vec<ReleasedOf<A>>,
    marks: &mut Vec<Mark<A::Block>>,
) -> Result<(), ExecError>
    ensures ok { OnOk result (let w = ⟦<A as Worked>⟧.workings in
        InTurn (GoesAlong w) parked.items
        (moment w tables.old (A.Databases.members databases.old) (A.Databases.next databases.old)
        marks.old.items)
        (moment w tables.new (A.Databases.members databases.new) (A.Databases.next databases.new)
        marks.new.items)) }
    ensures fault { IfErr result (let w = ⟦<A as Worked>⟧.workings in StopsAt (GoesAlong w)
        (FaultsAlong w (Rose (A.count application.old) (A.count application.new))) parked.items
        (moment w tables.old (A.Databases.members databases.old) (A.Databases.next databases.old)
        marks.old.items)) }
    ensures members { A.Databases.members databases.new ≡ A.Databases.members databases.old }
    ensures numbers { Rises tables.old tables.new }
    ensures counts { (n : ℕ)
        → A.Databases.counted databases.new n ≡ A.Databases.counted databases.old n }
    ensures notes { (IsErrOf result ExecError.OutOfMemory → ⊥)
        → A.notes application.new ≡ A.notes application.old }
    ensures later { A.count application.old ≤ A.count application.new }
{
    for next in parked {
        let Released {
            ticket,
            request,
            path,
        } = next;
        advance(application, tables, databases, ticket, request, path, marks)?;
    }
    Ok(())
}

/// These requests acquire what they need anew, one after another.
fn acquire_each<A: Application, S: BlockStore<A::Block>>(
    application: &mut A,
    tables: &mut TablesOf<A>,
    databases: &mut A::Databases,
    store: &S,
    unacquired: Vec<UnacquiredOf<A>>,
    marks: &mut Vec<Mark<A::Block>>,
) -> Result<(), ExecError>
    ensures ok { OnOk result (let w = ⟦<A as Worked>⟧.workings in
        InTurn (AcquiresAnew w (S.stored store.now)) unacquired.items
        (moment w tables.old (A.Databases.members databases.old) (A.Databases.next databases.old)
        marks.old.items)
        (moment w tables.new (A.Databases.members databases.new) (A.Databases.next databases.new)
        marks.new.items)) }
    ensures fault { IfErr result (let w = ⟦<A as Worked>⟧.workings in
        StopsAt (AcquiresAnew w (S.stored store.now))
        (FaultsAnew w (Rose (A.count application.old) (A.count application.new))
        (S.stored store.now)) unacquired.items
        (moment w tables.old (A.Databases.members databases.old) (A.Databases.next databases.old)
        marks.old.items)) }
    ensures members { A.Databases.members databases.new ≡ A.Databases.members databases.old }
    ensures numbers { Rises tables.old tables.new }
    ensures counts { (n : ℕ)
        → A.Databases.counted databases.new n ≡ A.Databases.counted databases.old n }
    ensures notes { (IsErrOf result ExecError.OutOfMemory → ⊥)
        → A.notes application.new ≡ A.notes application.old }
    ensures later { A.count application.old ≤ A.count application.new }
{
    for (ticket, requested) in unacquired {
        let anew = requested.anew(tables.alloc);
        acquire(application, tables, databases, store, ticket, anew, marks)?;
    }
    Ok(())
}

/// Execution goes on behind a pause.
pub fn resume<A: Application, S: BlockStore<A::Block>>(
    application: &mut A,
    tables: &mut TablesOf<A>,
    databases: &mut A::Databases,
    store: &S,
    marks: &mut Vec<Mark<A::Block>>,
) -> Result<(), ExecError>
    ensures ok { OnOk result (let w = ⟦<A as Worked>⟧.workings in Resumes w (S.stored store.now)
        (moment w tables.old (A.Databases.members databases.old) (A.Databases.next databases.old)
        marks.old.items)
        (moment w tables.new (A.Databases.members databases.new) (A.Databases.next databases.new)
        marks.new.items)) }
    ensures fault { IfErr result (let w = ⟦<A as Worked>⟧.workings in FaultsResume w
        (Rose (A.count application.old) (A.count application.new)) (S.stored store.now)
        (moment w tables.old (A.Databases.members databases.old) (A.Databases.next databases.old)
        marks.old.items)) }
    ensures members { A.Databases.members databases.new ≡ A.Databases.members databases.old }
    ensures numbers { Rises tables.old tables.new }
    ensures counts { (n : ℕ)
        → A.Databases.counted databases.new n ≡ A.Databases.counted databases.old n }
    ensures notes { (IsErrOf result ExecError.OutOfMemory → ⊥)
        → A.notes application.new ≡ A.notes application.old }
    ensures later { A.count application.old ≤ A.count application.new }
{
    let parked = tables.take_parked()?;
    tables.end_pause();
    advance_each(application, tables, databases, parked, marks)?;
    let unacquired = tables.take_unacquired()?;
    acquire_each(application, tables, databases, store, unacquired, marks)
}
