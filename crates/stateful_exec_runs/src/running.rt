//! Requests on their way: what they need, and the runs that are started for them.
//!
//! `acquire` begins or goes on with a request: it finds what the request needs, and asks for a
//! block, lets it wait, ends it, or sends it along its path. `advance` passes known blocks, up to
//! the first that isn't. Where that has a live run the request joins it, so no block has two
//! candidate runs at once. Else `launch` starts a run on the parent's states, under the next number
//! of a job.
//!
//! Then the request waits in `Phase::Executing` for the end of that run, which takes it up again
//! (`ending.rt`). While a finalization goes on, a request ends whose next block doesn't go on over
//! it.
//!
//! Each call has the request out of its table, and puts it back with its new phase, or ends it.
//! `Acquires` and `Advances` of `specs/Rules.antt` of `stateful_exec_model` have the rules;
//! docs/RULES.md says them in words, "Requests and the runs that they share".

ghost use Rattle.std.specs.Prelude.{◌≡◌, ◌≢◌, ◌≤◌, ◌++◌, ◌∷◌, [], ℕ, List, Some, None, OnOk, IfOk};
ghost use Rattle.std.specs.Prelude.{IfErr, IsErrOf};
ghost use Rattle.stateful_history.specs.declared.mark.Mark.TheVariants.{Started};
ghost use Rattle.stateful_history.specs.declared.mark.JobKind.TheVariants as job;
ghost use Rattle.stateful_base.specs.Causes.{Rose};
ghost use Rattle.stateful_base.specs.declared.outcome.Finality.TheVariants.{Candidate};
ghost use Rattle.stateful_exec_cache.specs.Cache.{IsAtHand};
ghost use Rattle.stateful_exec_model.specs.Moments.{moment};
ghost use Rattle.stateful_exec_model.specs.Starting.{IsOver, IsFresh, StartsRun};
ghost use Rattle.stateful_exec_tables.specs.Tables.{Rises};
ghost use Rattle.stateful_exec_tables.specs.Tables.{requested, Knows};
ghost use Rattle.stateful_exec_model.specs.Rules.{Advances, Acquires};
ghost use Rattle.stateful_exec_model.specs.Fetching.{IsFetched, FaultsFetched};
ghost use Rattle.stateful_exec_model.specs.Causes.{FaultsBatches, FaultsStart, FaultsAdvance};
ghost use Rattle.stateful_exec_model.specs.Causes.{FaultsAcquire};

use stateful_base::{Anchor, Block, BlockStore, Digested, Finality};
use stateful_db::{Application, Batch, DatabaseSet, OpenBatch};
use stateful_exec_cache::Cache;
use stateful_exec_model::Worked;
use stateful_exec_tables::{ExecError, Met, Phase, Requested};
use stateful_exec_turns::{TablesOf, pair};
use stateful_exec_walk::{Acquired, ReplayPath, Request, Verdict, prepare};
use stateful_history::{JobKind, Mark};

/// Batches over the states of a known block.
pub fn begin<A: Application>(
    anchor: Anchor,
    cache: &Cache<Batch<A>>,
    databases: &mut A::Databases,
    parent: &Digested<A::Block>,
) -> Result<OpenBatch<A>, ExecError>
    requires { IsAtHand anchor cache.now parent.now.digest }
    ensures ok { IfOk result (λ batches. IsOver ⟦<A as Worked>⟧.workings anchor.digest cache.now
        (A.Databases.members databases.old) (A.Databases.next databases.old)
        (A.Databases.next databases.new) (λ q c. A.Databases.opened batches
        ((A.Databases.next databases.old, A.Databases.kind.begun q.1) ∷ q ∷ c)) parent.now.digest) }
    ensures members { A.Databases.members databases.new ≡ A.Databases.members databases.old }
    ensures within { OnOk result (A.Databases.kind.Spent (A.Databases.next databases.old) → ⊥) }
    ensures here { OnOk result (A.Databases.kind.point (A.Databases.members databases.old) ≡ None
        → ⊥) }
    ensures keeps { (c : List (A.Databases.Ids × A.Databases.States))
        → A.Databases.kind.issued (A.Databases.next databases.old) c
        → A.Databases.kind.issued (A.Databases.next databases.new) c }
    ensures fault { IfErr result (FaultsBatches ⟦<A as Worked>⟧.workings
        (A.Databases.members databases.old) (A.Databases.next databases.old)) }
    ensures counts { (n : ℕ)
        → A.Databases.counted databases.new n ≡ A.Databases.counted databases.old n }
{
    let parent = parent.digest();
    if parent.is(anchor.digest) {
        return Ok(databases.new_batches()?);
    }
    match cache.find(parent) {
        Some(entry) => Ok(databases.fork_batches(&entry.batch)?),
        None => unreachable!(),
    }
}

/// A candidate run of a block over the states of its parent, which is known.
fn start<A: Application>(
    application: &mut A,
    tables: &TablesOf<A>,
    databases: &mut A::Databases,
    block: &Digested<A::Block>,
    parent: Digested<A::Block>,
) -> Result<A::Run, ExecError>
    requires { Knows tables.now parent.digest }
    ensures ok { IfOk result (λ run. IsOver ⟦<A as Worked>⟧.workings tables.now.anchor.digest
        tables.now.cache (A.Databases.members databases.old) (A.Databases.next databases.old)
        (A.Databases.next databases.new) (λ q c. IsFresh ⟦<A as Worked>⟧.workings run Candidate
        block.now parent (A.Databases.next databases.old) q c) parent.digest) }
    ensures members { A.Databases.members databases.new ≡ A.Databases.members databases.old }
    ensures within { OnOk result (A.Databases.kind.Spent (A.Databases.next databases.old) → ⊥) }
    ensures here { OnOk result (A.Databases.kind.point (A.Databases.members databases.old) ≡ None
        → ⊥) }
    ensures keeps { (c : List (A.Databases.Ids × A.Databases.States))
        → A.Databases.kind.issued (A.Databases.next databases.old) c
        → A.Databases.kind.issued (A.Databases.next databases.new) c }
    ensures batches { IfErr result (λ e. e ≢ ExecError.Application
        → FaultsBatches ⟦<A as Worked>⟧.workings (A.Databases.members databases.old)
        (A.Databases.next databases.old) e) }
    ensures failed { IsErrOf result ExecError.Application
        → Rose (A.count application.old) (A.count application.new)
        × (A.Databases.kind.Spent (A.Databases.next databases.old) → ⊥) }
    ensures counts { (n : ℕ)
        → A.Databases.counted databases.new n ≡ A.Databases.counted databases.old n }
    ensures notes { (IsErrOf result ExecError.OutOfMemory → ⊥)
        → A.notes application.new ≡ A.notes application.old }
    ensures later { A.count application.old ≤ A.count application.new }
{
    let batches = begin::<A>(tables.anchor, &tables.cache, databases, &parent)?;
    let ancestry = pair(tables.alloc, block, parent)?;
    let context = block.inner().context();
    Ok(application.process(context, ancestry, batches, Finality::Candidate)?)
}

/// A run of the next block of a path is started for a request.
pub fn launch<A: Application>(
    application: &mut A,
    tables: &mut TablesOf<A>,
    databases: &mut A::Databases,
    block: Digested<A::Block>,
    parent: Digested<A::Block>,
    marks: &mut Vec<Mark<A::Block>>,
) -> Result<u64, ExecError>
    requires { Knows tables.old parent.digest }
    ensures starts { OnOk result (StartsRun ⟦<A as Worked>⟧.workings block parent
        (A.Databases.members databases.old) (A.Databases.next databases.old)
        (A.Databases.next databases.new) tables.old tables.new) }
    ensures job { IfOk result (λ job. job ≡ tables.old.next_job) }
    ensures marks { OnOk result (marks.new.items
        ≡ marks.old.items ++ Started tables.old.next_job job.Candidate block.digest ∷ []) }
    ensures members { A.Databases.members databases.new ≡ A.Databases.members databases.old }
    ensures fault { IfErr result (FaultsStart ⟦<A as Worked>⟧.workings
        (Rose (A.count application.old) (A.count application.new)) tables.old.next_job
        (A.Databases.members databases.old) (A.Databases.next databases.old)) }
    ensures numbers { Rises tables.old tables.new }
    ensures counts { (n : ℕ)
        → A.Databases.counted databases.new n ≡ A.Databases.counted databases.old n }
    ensures notes { (IsErrOf result ExecError.OutOfMemory → ⊥)
        → A.notes application.new ≡ A.notes application.old }
    ensures later { A.count application.old ≤ A.count application.new }
{
    let job = tables.free_job()?;
    let run = start(application, tables, databases, &block, parent)?;
    marks.push(Mark::Started {
        job,
        kind: JobKind::Candidate,
        digest: block.digest(),
    })?;
    Ok(tables.add_run(block, run)?)
}

/// A request with blocks to run goes along its path, to its end or to a run.
pub fn advance<A: Application>(
    application: &mut A,
    tables: &mut TablesOf<A>,
    databases: &mut A::Databases,
    ticket: u64,
    request: Request<A::Block, A::Context, A::Input>,
    path: ReplayPath<A::Block>,
    marks: &mut Vec<Mark<A::Block>>,
) -> Result<(), ExecError>
    ensures ok { OnOk result (let w = ⟦<A as Worked>⟧.workings in Advances w
        (moment w tables.old (A.Databases.members databases.old) (A.Databases.next databases.old)
        marks.old.items) ticket (requested request) path
        (moment w tables.new (A.Databases.members databases.new) (A.Databases.next databases.new)
        marks.new.items)) }
    ensures fault { IfErr result (let w = ⟦<A as Worked>⟧.workings in FaultsAdvance w
        (Rose (A.count application.old) (A.count application.new))
        (moment w tables.old (A.Databases.members databases.old) (A.Databases.next databases.old)
        marks.old.items) path) }
    ensures members { A.Databases.members databases.new ≡ A.Databases.members databases.old }
    ensures numbers { Rises tables.old tables.new }
    ensures counts { (n : ℕ)
        → A.Databases.counted databases.new n ≡ A.Databases.counted databases.old n }
    ensures notes { (IsErrOf result ExecError.OutOfMemory → ⊥)
        → A.notes application.new ≡ A.notes application.old }
    ensures later { A.count application.old ≤ A.count application.new }
{
    let mut path = path;
    match tables.skip(&mut path)? {
        Met::Known => unreachable!(),
        Met::Arrived => tables.conclude(ticket, request, Verdict::Valid, marks)?,
        Met::Left | Met::Missed => tables.conclude(ticket, request, Verdict::Invalid, marks)?,
        Met::Run(job) => tables.execute(ticket, request, job, path)?,
        Met::Unrun { block, parent } => {
            let job = launch(application, tables, databases, block, parent, marks)?;
            tables.execute(ticket, request, job, path)?;
        }
    }
    Ok(())
}

/// A request acquires what it needs: it ends, or a block is fetched for it, or it waits, or its
/// blocks are run.
pub fn acquire<A: Application, S: BlockStore<A::Block>>(
    application: &mut A,
    tables: &mut TablesOf<A>,
    databases: &mut A::Databases,
    store: &S,
    ticket: u64,
    requested: Requested<A::Block, A::Context, A::Input>,
    marks: &mut Vec<Mark<A::Block>>,
) -> Result<(), ExecError>
    ensures ok { OnOk result (let w = ⟦<A as Worked>⟧.workings in Acquires w (S.stored store.now)
        (moment w tables.old (A.Databases.members databases.old) (A.Databases.next databases.old)
        marks.old.items) ticket requested
        (moment w tables.new (A.Databases.members databases.new) (A.Databases.next databases.new)
        marks.new.items)) }
    ensures fault { IfErr result (let w = ⟦<A as Worked>⟧.workings in FaultsAcquire w
        (Rose (A.count application.old) (A.count application.new)) (S.stored store.now)
        (moment w tables.old (A.Databases.members databases.old) (A.Databases.next databases.old)
        marks.old.items) requested) }
    ensures members { A.Databases.members databases.new ≡ A.Databases.members databases.old }
    ensures numbers { Rises tables.old tables.new }
    ensures counts { (n : ℕ)
        → A.Databases.counted databases.new n ≡ A.Databases.counted databases.old n }
    ensures notes { (IsErrOf result ExecError.OutOfMemory → ⊥)
        → A.notes application.new ≡ A.notes application.old }
    ensures later { A.count application.old ≤ A.count application.new }
{
    let acquired = requested.acquired.as_slice();
    let found = prepare(
        tables.alloc,
        tables.anchor,
        &tables.cache,
        store,
        &requested.request,
        acquired,
    )?;
    match found {
        Acquired::Valid => tables.conclude(ticket, requested.request, Verdict::Valid, marks)?,
        Acquired::Invalid => tables.conclude(ticket, requested.request, Verdict::Invalid, marks)?,
        Acquired::Ask(digest) => tables.ask(ticket, requested, digest, marks)?,
        Acquired::Waits => tables.set_phase(ticket, requested, Phase::Waiting)?,
        Acquired::Ready(path) => {
            let request = requested.request;
            advance(application, tables, databases, ticket, request, path, marks)?;
        }
    }
    Ok(())
}

/// A fetch is answered: with a block its request acquires what it needs; without one a verification
/// waits, and a proposal ends. Where no block is fetched under the number nothing changes.
pub fn fetched<A: Application, S: BlockStore<A::Block>>(
    application: &mut A,
    tables: &mut TablesOf<A>,
    databases: &mut A::Databases,
    store: &S,
    fetch: u64,
    answer: Option<Digested<A::Block>>,
    marks: &mut Vec<Mark<A::Block>>,
) -> Result<(), ExecError>
    ensures ok { OnOk result (let w = ⟦<A as Worked>⟧.workings in IsFetched w (S.stored store.now)
        (moment w tables.old (A.Databases.members databases.old) (A.Databases.next databases.old)
        marks.old.items) fetch answer
        (moment w tables.new (A.Databases.members databases.new) (A.Databases.next databases.new)
        marks.new.items)) }
    ensures fault { IfErr result (let w = ⟦<A as Worked>⟧.workings in FaultsFetched w
        (Rose (A.count application.old) (A.count application.new)) (S.stored store.now)
        (moment w tables.old (A.Databases.members databases.old) (A.Databases.next databases.old)
        marks.old.items) fetch answer) }
    ensures members { A.Databases.members databases.new ≡ A.Databases.members databases.old }
    ensures numbers { Rises tables.old tables.new }
    ensures counts { (n : ℕ)
        → A.Databases.counted databases.new n ≡ A.Databases.counted databases.old n }
    ensures notes { (IsErrOf result ExecError.OutOfMemory → ⊥)
        → A.notes application.new ≡ A.notes application.old }
    ensures later { A.count application.old ≤ A.count application.new }
{
    let Some((ticket, requested)) = tables.take_fetching(fetch) else {
        return Ok(());
    };
    match answer {
        Some(block) => {
            let requested = requested.with_block(block)?;
            acquire(
                application,
                tables,
                databases,
                store,
                ticket,
                requested,
                marks,
            )
        }
        None => Ok(tables.abstain(ticket, requested, marks)?),
    }
}
