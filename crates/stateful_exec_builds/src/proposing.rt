//! Builds are started.
//!
//! A proposal comes into `queued` when its parent is known, and waits there for its turn. `propose`
//! takes it out. Meanwhile a finalization may have dropped the parent from the cache, so it is
//! looked for again, and where it is gone the proposal is declined. Else a job is drawn and the
//! application starts a build on batches over the parent's states.
//!
//! The build is kept in `Execution::build`, and goes on by turns of its job (`built.rt`). There is
//! room for one: the caller starts none while one is live.
//!
//! `Proposes` of `specs/Building.antt` of `stateful_exec_model` and `Unqueues` of
//! `specs/Queueing.antt` of `stateful_exec_tables` have the rules, and docs/RULES.md says them in
//! words, "A build".

ghost use Rattle.std.specs.Prelude.{◌≡◌, ◌≤◌, ◌∷◌, ℕ, List, None, OnOk, IfOk};
ghost use Rattle.std.specs.Prelude.{IfErr, IsErrOf};
ghost use Rattle.stateful_base.specs.Causes.{Rose};
ghost use Rattle.stateful_db.specs.Works.{build_of};
ghost use Rattle.stateful_exec_model.specs.Building.{asked_by, IsNewBuild};
ghost use Rattle.stateful_exec_model.specs.Building.{Proposes, FaultsPropose};
ghost use Rattle.stateful_exec_model.specs.Causes.{FaultsStart};
ghost use Rattle.stateful_exec_tables.specs.Tables.{Knows};
ghost use Rattle.stateful_exec_tables.specs.Tables.{IsLeft, Rises};
ghost use Rattle.stateful_exec_model.specs.Starting.{IsOver};

use stateful_base::{Block, Digested, Share};
use stateful_db::{AppFault, Application, DatabaseSet, Input, OpenBatch, ProposalKind};
use stateful_exec_model::{BuildStart, Building, Worked};
use stateful_exec_runs::{TablesOf, begin};
use stateful_exec_tables::{ExecError, Queued};
use stateful_exec_walk::Proposal;

/// A build of an application.
pub type BuildingOf<A> = Building<
    <A as Application>::Block,
    <A as Application>::Context,
    <A as Application>::Build,
>;

/// A proposal of an application.
pub type ProposalOf<A> = Proposal<
    <A as Application>::Block,
    <A as Application>::Context,
    <A as Application>::Input,
>;

/// A build of a proposal on these batches.
fn ask<A: Application>(
    application: &mut A,
    proposal: ProposalOf<A>,
    batches: OpenBatch<A>,
    provider: A::Provider,
) -> Result<A::Build, AppFault>
    ensures ok { IfOk result (λ b. (i : A.Databases.Ids)
        (p : A.Databases.Ids × A.Databases.States) (c : List (A.Databases.Ids × A.Databases.States))
        → A.Databases.opened batches ((i, A.Databases.kind.begun p.1) ∷ p ∷ c)
        → A.works.building b (build_of (asked_by proposal) provider i p c) 0) }
    ensures notes { OnOk result (A.notes application.new ≡ A.notes application.old) }
    ensures failed { IsErrOf result AppFault.Failed
        → Rose (A.count application.old) (A.count application.new)
        × (A.notes application.new ≡ A.notes application.old) }
    ensures later { A.count application.old ≤ A.count application.new }
{
    let Proposal {
        context,
        ancestry,
        input,
        kind,
    } = proposal;
    let input = Input {
        upstream: input,
        provider,
    };
    match kind {
        ProposalKind::Prepare => application.prepare(context, ancestry, batches, input),
        ProposalKind::Propose => application.propose(context, ancestry, batches, input),
    }
}

/// A build of a proposal on the states of its parent, which is known.
fn begin_build<A: Application>(
    application: &mut A,
    tables: &TablesOf<A>,
    databases: &mut A::Databases,
    proposal: ProposalOf<A>,
    parent: &Digested<A::Block>,
    provider: A::Provider,
) -> Result<A::Build, ExecError>
    requires { Knows tables.now parent.now.digest }
    ensures ok { IfOk result (λ build. IsOver ⟦<A as Worked>⟧.workings tables.now.anchor.digest
        tables.now.cache (A.Databases.members databases.old) (A.Databases.next databases.old)
        (A.Databases.next databases.new) (λ q c. IsNewBuild ⟦<A as Worked>⟧.workings build
        proposal provider (A.Databases.next databases.old) q c) parent.now.digest) }
    ensures members { A.Databases.members databases.new ≡ A.Databases.members databases.old }
    ensures within { OnOk result (A.Databases.kind.Spent (A.Databases.next databases.old) → ⊥) }
    ensures here { OnOk result (A.Databases.kind.point (A.Databases.members databases.old) ≡ None
        → ⊥) }
    ensures keeps { (c : List (A.Databases.Ids × A.Databases.States))
        → A.Databases.kind.issued (A.Databases.next databases.old) c
        → A.Databases.kind.issued (A.Databases.next databases.new) c }
    ensures fault { IfErr result (λ e. (job : ℕ) → IsLeft job
        → FaultsStart ⟦<A as Worked>⟧.workings
        (Rose (A.count application.old) (A.count application.new)) job
        (A.Databases.members databases.old) (A.Databases.next databases.old) e) }
    ensures counts { (n : ℕ)
        → A.Databases.counted databases.new n ≡ A.Databases.counted databases.old n }
    ensures notes { (IsErrOf result ExecError.OutOfMemory → ⊥)
        → A.notes application.new ≡ A.notes application.old }
    ensures later { A.count application.old ≤ A.count application.new }
{
    let batches = begin::<A>(tables.anchor, &tables.cache, databases, parent)?;
    Ok(ask(application, proposal, batches, provider)?)
}

/// Starts the build of a ticket that is queued, under the next number of a job; where the block
/// that it is to be built on isn't known it is declined. A ticket that isn't queued is declined,
/// and nothing changes.
pub fn propose<A: Application>(
    application: &mut A,
    tables: &mut TablesOf<A>,
    databases: &mut A::Databases,
    build: &mut Option<BuildingOf<A>>,
    ticket: u64,
    provider: A::Provider,
) -> Result<BuildStart, ExecError>
    ensures ok { IfOk result (Proposes ⟦<A as Worked>⟧.workings ticket provider
        (A.Databases.members databases.old) (A.Databases.next databases.old)
        (A.Databases.next databases.new) tables.old tables.new build.old build.new) }
    ensures fault { IfErr result (FaultsPropose ⟦<A as Worked>⟧.workings
        (Rose (A.count application.old) (A.count application.new)) ticket
        (A.Databases.members databases.old) (A.Databases.next databases.old) tables.old) }
    ensures members { A.Databases.members databases.new ≡ A.Databases.members databases.old }
    ensures numbers { Rises tables.old tables.new }
    ensures counts { (n : ℕ)
        → A.Databases.counted databases.new n ≡ A.Databases.counted databases.old n }
    ensures notes { (IsErrOf result ExecError.OutOfMemory → ⊥)
        → A.notes application.new ≡ A.notes application.old }
    ensures later { A.count application.old ≤ A.count application.new }
{
    let Some(queued) = tables.unqueue(ticket)? else {
        return Ok(BuildStart::Declined);
    };
    let Queued {
        job,
        proposal,
        parent,
    } = queued;
    let kind = proposal.kind;
    let context = proposal.context;
    let live = begin_build(application, tables, databases, proposal, &parent, provider)?;
    *build = Some(Building {
        job,
        ticket,
        kind,
        context,
        parent,
        build: live,
    });
    Ok(BuildStart::Started(job))
}
