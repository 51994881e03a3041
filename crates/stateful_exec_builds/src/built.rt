//! Turns of builds, and the blocks that they give.
//!
//! Each turn of the live build's job goes to the application (`turn_build`). Until it is done the
//! build is put back. Then it has left, and what it gives is looked at: nothing is a decline, and a
//! block has to be what was asked for. A good one is cached before it is answered, so whoever
//! verifies it next finds it known.
//!
//! A cancel of its request ends the build at once (`give_up`), and no answer is made. A block that
//! isn't what was asked for, or that the cache doesn't take, is an error of the machine and no
//! decline.
//!
//! `specs/Built.antt` of `stateful_exec_model` has the rules (`TurnsBuild`, `IsOther`, `GivesUp`),
//! and docs/RULES.md says them in words, "Builds and cancels".

ghost use Rattle.std.specs.Prelude.{◌≡◌, ◌++◌, List, OnOk, IfOk, IfErr, IfSome, IfNone};
ghost use Rattle.stateful_exec_model.specs.Built.{decided, IsOther, IsAskedFor, IsBuilt};
ghost use Rattle.stateful_exec_model.specs.Built.{FaultsBuilt, Gives, EndsBuild, FaultsGiven, TurnsBuild};
ghost use Rattle.stateful_exec_model.specs.Built.{FaultsTurn, GivesUp};
ghost use Rattle.stateful_history.specs.declared.mark.Mark.{Mark as Marked};
ghost use Rattle.stateful_exec_model.specs.Moments.{moment};
ghost use Rattle.stateful_exec_tables.specs.Tables.{Rises};

use crate::proposing::BuildingOf;
use stateful_base::{Block, Digested, Handoff, Moved, OutOfMemory, Rounded, Share};
use stateful_db::{Application, DatabaseSet, ProposalKind, Proposed, ProposedBlock};
use stateful_exec_model::Worked;
use stateful_exec_runs::TablesOf;
use stateful_exec_tables::{ExecError, ProposalFault};
use stateful_history::{Decision, How, Mark};
use std::mem;

/// How a block is answered that was handed over so.
fn decide(kind: ProposalKind, handed: Decision) -> Decision
    ensures { result ≡ decided kind handed }
{
    match kind {
        ProposalKind::Prepare => handed,
        ProposalKind::Propose => Decision::Block,
    }
}

/// How a block differs from what was asked for: in its targets, else in its parent, else in its
/// round.
fn fault_of<A: Application>(
    building: &BuildingOf<A>,
    proposed: &Proposed<A>,
) -> Option<ProposalFault>
    ensures other { IfSome result (IsOther ⟦<A as Worked>⟧.workings building.now proposed.now) }
    ensures none { IfNone result (IsAskedFor ⟦<A as Worked>⟧.workings building.now proposed.now) }
{
    let targets = A::sync_targets(&proposed.block);
    if let Some((index, expected, given)) = A::Databases::mismatch(&proposed.merkleized, &targets) {
        return Some(ProposalFault::Targets {
            index,
            expected,
            given,
        });
    }
    let expected = building.parent.digest();
    let given = proposed.block.parent();
    if !given.is(expected) {
        return Some(ProposalFault::Parent { expected, given });
    }
    let expected = building.context.round();
    let given = proposed.block.context().round();
    if given != expected {
        return Some(ProposalFault::Round { expected, given });
    }
    None
}

/// The cache takes the block of a build with its batch, where it is what was asked for.
fn take_built<A: Application>(
    tables: &mut TablesOf<A>,
    building: &BuildingOf<A>,
    proposed: Proposed<A>,
) -> Result<Digested<A::Block>, ExecError>
    ensures built { IfOk result (λ block. IsBuilt ⟦<A as Worked>⟧.workings building.now
        tables.old.anchor proposed block tables.old.cache tables.new.cache) }
    ensures rest { OnOk result (tables.new ≡ record tables.old { cache = tables.new.cache }) }
    ensures fault { IfErr result (FaultsBuilt ⟦<A as Worked>⟧.workings building.now
        tables.old.anchor proposed tables.old.cache) }
    ensures numbers { Rises tables.old tables.new }
{
    if let Some(fault) = fault_of::<A>(building, &proposed) {
        return Err(ExecError::ProposalMismatch(fault));
    }
    let ProposedBlock { block, merkleized } = proposed;
    let block = Digested::compute(tables.alloc, block)?;
    tables.keep_built(&block, merkleized)?;
    Ok(block)
}

/// A block that was handed over so is cached, and the proposal is answered with it.
fn hand_over<A: Application>(
    tables: &mut TablesOf<A>,
    building: &BuildingOf<A>,
    proposed: Proposed<A>,
    handed: Decision,
    marks: &mut Vec<Mark<A::Block>>,
) -> Result<(), ExecError>
    ensures ok { OnOk result ((members : A.Databases.kind.Members) (next : A.Databases.Ids)
        → Gives ⟦<A as Worked>⟧.workings building.now
        (moment ⟦<A as Worked>⟧.workings tables.old members next marks.old.items) proposed handed
        (moment ⟦<A as Worked>⟧.workings tables.new members next marks.new.items)) }
    ensures fault { IfErr result (FaultsBuilt ⟦<A as Worked>⟧.workings building.now
        tables.old.anchor proposed tables.old.cache) }
    ensures numbers { Rises tables.old tables.new }
{
    let block = take_built::<A>(tables, building, proposed)?;
    let decision = decide(building.kind, handed);
    marks.push(Mark::Built {
        job: building.job,
        ticket: building.ticket,
        block: block.share()?,
    })?;
    marks.push(Mark::Answered {
        ticket: building.ticket,
        decision,
        block,
    })?;
    Ok(())
}

/// A build has ended, with a block or without one.
fn end_build<A: Application>(
    tables: &mut TablesOf<A>,
    building: &BuildingOf<A>,
    given: Handoff<Proposed<A>>,
    marks: &mut Vec<Mark<A::Block>>,
) -> Result<(), ExecError>
    ensures ok { OnOk result ((members : A.Databases.kind.Members) (next : A.Databases.Ids)
        → EndsBuild ⟦<A as Worked>⟧.workings building.now
        (moment ⟦<A as Worked>⟧.workings tables.old members next marks.old.items) given
        (moment ⟦<A as Worked>⟧.workings tables.new members next marks.new.items)) }
    ensures fault { IfErr result (FaultsGiven ⟦<A as Worked>⟧.workings building.now
        tables.old.anchor given tables.old.cache) }
    ensures numbers { Rises tables.old tables.new }
{
    match given {
        Handoff::Wait => {
            marks.push(Mark::Ended {
                job: building.job,
                how: How::Nothing,
            })?;
            marks.push(Mark::Declined {
                ticket: building.ticket,
            })?;
            Ok(())
        }
        Handoff::Vote(proposed) => {
            hand_over::<A>(tables, building, proposed, Decision::Vote, marks)
        }
        Handoff::Stage(proposed) => {
            hand_over::<A>(tables, building, proposed, Decision::Stage, marks)
        }
    }
}

/// The build of a job has a turn. Where it has ended, its block is cached and its proposal
/// answered. Where no build of this job is live nothing changes.
pub fn turn_build<A: Application>(
    tables: &mut TablesOf<A>,
    databases: &A::Databases,
    build: &mut Option<BuildingOf<A>>,
    job: u64,
    marks: &mut Vec<Mark<A::Block>>,
) -> Result<(), ExecError>
    ensures ok { OnOk result (let w = ⟦<A as Worked>⟧.workings in TurnsBuild w A.Build.count
        (moment w tables.old (A.Databases.members databases.now) (A.Databases.next databases.now)
        marks.old.items) build.old job
        (moment w tables.new (A.Databases.members databases.now) (A.Databases.next databases.now)
        marks.new.items) build.new) }
    ensures fault { IfErr result (let w = ⟦<A as Worked>⟧.workings in FaultsTurn w A.Build.count
        (moment w tables.old (A.Databases.members databases.now) (A.Databases.next databases.now)
        marks.old.items) build.old job) }
    ensures numbers { Rises tables.old tables.new }
{
    let Some(mut building) = mem::replace(build, None) else {
        return Ok(());
    };
    if building.job != job {
        *build = Some(building);
        return Ok(());
    }
    match A::turn_build(&mut building.build, databases)? {
        Moved::Pending => {
            *build = Some(building);
            Ok(())
        }
        Moved::Done(given) => end_build::<A>(tables, &building, given, marks),
    }
}

/// Gives up the request of a ticket: the live build ends where it is for it; else the request is
/// given up, or its build isn't queued any more.
pub fn give_up<A: Application>(
    tables: &mut TablesOf<A>,
    build: &mut Option<BuildingOf<A>>,
    ticket: u64,
    marks: &mut Vec<Mark<A::Block>>,
) -> Result<(), OutOfMemory>
    ensures ok { OnOk result ((more : List (Marked A.Block))
        × GivesUp tables.old tables.new build.old build.new ticket more
        × (marks.new.items ≡ marks.old.items ++ more)) }
    ensures numbers { Rises tables.old tables.new }
{
    let Some(building) = mem::replace(build, None) else {
        return tables.cancel(ticket, marks);
    };
    if building.ticket != ticket {
        *build = Some(building);
        return tables.cancel(ticket, marks);
    }
    marks.push(Mark::Ended {
        job: building.job,
        how: How::Cancelled,
    })?;
    Ok(())
}
