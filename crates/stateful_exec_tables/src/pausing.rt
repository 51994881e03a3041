//! Pauses for a finalization or a prune: fetches are given up, and runs are awaited.
//!
//! A pause lasts from `pause` to `resume`. It withdraws all fetches at once, and their requests go
//! back to `Phase::Open`. It stops no run: whoever has paused asks `awaited` how many live runs
//! still have to end, and goes on at none. Before a prune that is each run, before a finalization
//! each that doesn't go on over it.
//!
//! As these runs end, their requests become invalid, are parked, or go on, and `Pause::fate` says
//! which. `Tables::pause` keeps what the pause is for, with the boundary of a finalization.
//!
//! `Pauses` and `AwaitsRuns` of `specs/Pausing.antt` have the rules, and docs/RULES.md says them in
//! words, "A pause".

ghost use Rattle.std.specs.Prelude.{◌≡◌, ◌++◌, map, List, None, OnOk, IfOk, IfErr};
ghost use Rattle.std.specs.BTreeSet.{keys};
ghost use Rattle.stateful_history.specs.declared.mark.Mark.{Mark as Marked};
ghost use Rattle.stateful_history.specs.declared.mark.Mark.TheVariants as mark;
ghost use Rattle.stateful_exec_tables.specs.Phase.{unfetched, dropped, parked_path, parked_in, not_parked};
ghost use Rattle.stateful_exec_tables.specs.Phase.{unacquired_in, not_unacquired};
ghost use Rattle.stateful_exec_tables.specs.Tables.{Rises};
ghost use Rattle.stateful_exec_tables.specs.Pausing.{AwaitsRuns, AreFetches};
ghost use Rattle.stateful_exec_tables.specs.Pausing.{Pauses};

use crate::state::Tables;
use crate::tables::{Phase, Released, Requested};
use stateful_base::{Block, Digested, OutOfMemory};
use stateful_exec_pause::{FinalizationBoundary, Pause};
use stateful_exec_walk::{ReplayPath, Request};
use stateful_history::Mark;
use stateful_table::Table;
use std::collections::BTreeSet;
use std::mem;

impl<B, C, I> Requested<B, C, I> {
    /// The request with its blocks, where it is parked; else as it is.
    fn parked(self) -> Result<(Request<B, C, I>, ReplayPath<B>), Requested<B, C, I>>
    where
        B: Drop,
        C: Copy,
        I: Drop,
        ensures parked { IfOk result (λ found. (self.request ≡ found.0)
            × (self.phase ≡ Phase.Parked found.1)) }
        ensures other { IfErr result (λ same. (same ≡ self)
            × (parked_path self.phase ≡ None)) }
    {
        let Requested {
            request,
            acquired,
            phase,
        } = self;
        match phase {
            Phase::Parked(path) => Ok((request, path)),
            phase => Err(Requested {
                request,
                acquired,
                phase,
            }),
        }
    }

    /// The same request, without its fetch.
    fn without_fetch(self) -> Requested<B, C, I>
    where
        B: Drop,
        ensures { result ≡ record self { phase = unfetched self.phase } }
    {
        let Requested {
            request,
            acquired,
            phase,
        } = self;
        let phase = match phase {
            Phase::Fetching(_) => Phase::Open,
            phase => phase,
        };
        Requested {
            request,
            acquired,
            phase,
        }
    }
}

/// These fetches are withdrawn, one after another.
fn withdraw<B: Drop>(fetches: &BTreeSet<u64>, marks: &mut Vec<Mark<B>>) -> Result<(), OutOfMemory>
    ensures { OnOk result (marks.new.items
        ≡ marks.old.items ++ map (λ f. mark.Withdrawn f) (keys fetches.now)) }
{
    for fetch in fetches.iter() {
        marks.push(Mark::Withdrawn { fetch: *fetch })?;
    }
    Ok(())
}

impl<B: Block + Drop, C: Copy, I: Drop, R: Drop, U: Drop> Tables<B, C, I, R, U> {
    /// The numbers of the live fetches.
    fn live_fetches(&self) -> Result<BTreeSet<u64>, OutOfMemory>
        ensures { IfOk result (λ fetches. AreFetches self.now (keys fetches)) }
    {
        let mut fetches = BTreeSet::new(self.alloc);
        for (_, requested) in self.requests.entries().iter() {
            if let Some(fetch) = requested.phase.fetch() {
                fetches.insert(fetch)?;
            }
        }
        Ok(fetches)
    }

    /// Gives up all fetches. Their requests acquire anew what they need once nothing pauses.
    fn give_up_fetches(&mut self) -> Result<(), OutOfMemory>
        ensures state { OnOk result (self.new ≡ record self.old {
          requests = map dropped self.old.requests;
        }) }
        ensures numbers { Rises self.old self.new }
    {
        let requests = mem::replace(&mut self.requests, Table::new(self.alloc));
        for (ticket, requested) in requests.into_entries() {
            self.requests.put(ticket, requested.without_fetch())?;
        }
        Ok(())
    }

    /// Pauses for a finalization with this boundary, or for a prune without one. The live fetches
    /// are withdrawn, by ascending numbers.
    pub fn pause(
        &mut self,
        boundary: Option<FinalizationBoundary>,
        marks: &mut Vec<Mark<B>>,
    ) -> Result<(), OutOfMemory>
        ensures ok { OnOk result ((more : List (Marked B))
            × Pauses boundary self.old self.new more
            × (marks.new.items ≡ marks.old.items ++ more)) }
        ensures numbers { Rises self.old self.new }
    {
        let fetches = self.live_fetches()?;
        withdraw(&fetches, marks)?;
        self.give_up_fetches()?;
        self.pause = Pause::of(boundary);
        Ok(())
    }

    /// How many live runs the pause waits for.
    pub fn awaited(&self) -> usize
        ensures { AwaitsRuns B.header self.now result }
    {
        let mut count = 0;
        for (_, run) in self.runs.entries().iter() {
            if self.pause.awaits(&run.block) {
                count += 1;
            }
        }
        count
    }

    /// Execution isn't paused any more.
    pub fn end_pause(&mut self)
        ensures { self.new ≡ record self.old { pause = Pause.Free } }
    {
        self.pause = Pause::Free;
    }

    /// Takes the parked requests out of their table, by ascending tickets.
    pub fn take_parked(&mut self) -> Result<Vec<Released<B, C, I>>, OutOfMemory>
        ensures out { IfOk result (λ out. out.items ≡ parked_in self.old.requests) }
        ensures rest { OnOk result (self.new ≡ record self.old {
          requests = not_parked self.old.requests;
        }) }
        ensures numbers { Rises self.old self.new }
    {
        let mut out = Vec::new(self.alloc);
        let requests = mem::replace(&mut self.requests, Table::new(self.alloc));
        for (ticket, requested) in requests.into_entries() {
            match requested.parked() {
                Ok((request, path)) => out.push(Released {
                    ticket,
                    request,
                    path,
                })?,
                Err(requested) => self.requests.put(ticket, requested)?,
            }
        }
        Ok(out)
    }

    /// Takes the requests out of their table that are to acquire anew what they need, by ascending
    /// tickets.
    pub fn take_unacquired(&mut self) -> Result<Vec<(u64, Requested<B, C, I>)>, OutOfMemory>
        ensures out { IfOk result (λ out. out.items ≡ unacquired_in self.old.requests) }
        ensures rest { OnOk result (self.new ≡ record self.old {
          requests = not_unacquired self.old.requests;
        }) }
        ensures numbers { Rises self.old self.new }
    {
        let mut out = Vec::new(self.alloc);
        let requests = mem::replace(&mut self.requests, Table::new(self.alloc));
        for (ticket, requested) in requests.into_entries() {
            if requested.phase.is_unacquired() {
                out.push((ticket, requested))?;
            } else {
                self.requests.put(ticket, requested)?;
            }
        }
        Ok(out)
    }
}
