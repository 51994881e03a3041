//! How all live work ends.
//!
//! At a stop and at a restart `end_all` appends the marks that end what is still live. Each fetch
//! is withdrawn. Then each job is cancelled, each request to build declined, and each other ticket
//! dropped. Those of one kind go by ascending numbers.
//!
//! The register that is asked has taken in the event with its marks so far, and it stays as it is.
//! The marks that are appended here are recorded later, with the whole entry. Barriers need no
//! mark: the stop or the restart itself ends them.
//!
//! `EndsAll` of `specs/Ends.antt` says which marks these are, and `LeavesNothing` that nothing is
//! live after them.

ghost use Rattle.std.specs.Prelude.{◌≡◌, ◌++◌, ◌&&◌, ℕ, not, is_some, List, IfOk, OnOk};
ghost use Rattle.stateful_history.specs.Past.{Past};
ghost use Rattle.stateful_actor_register.specs.Live.{entry, IsListOf};
ghost use Rattle.stateful_actor_register.specs.Register.{RegisterStands};
ghost use Rattle.stateful_actor_register.specs.Ends.{EndsAll, LeavesNothing, withdrawn, cancelled};
ghost use Rattle.stateful_actor_register.specs.Ends.{declined, dropped};

use crate::register::Register;
use stateful_base::OutOfMemory;
use stateful_history::{How, Mark};

/// Marks that each of these fetches is given up.
fn withdraw<B: Drop>(fetches: &[u64], marks: &mut Vec<Mark<B>>) -> Result<(), OutOfMemory>
    ensures { OnOk result (marks.new.items ≡ marks.old.items ++ withdrawn fetches.now) }
{
    for fetch in fetches {
        marks.push(Mark::Withdrawn { fetch: *fetch })?;
    }
    Ok(())
}

/// Marks that each of these jobs ended before its end.
fn cancel<B: Drop>(jobs: &[u64], marks: &mut Vec<Mark<B>>) -> Result<(), OutOfMemory>
    ensures { OnOk result (marks.new.items ≡ marks.old.items ++ cancelled jobs.now) }
{
    for job in jobs {
        marks.push(Mark::Ended {
            job: *job,
            how: How::Cancelled,
        })?;
    }
    Ok(())
}

/// Marks that each of these requests to build is answered without a block.
fn decline<B: Drop>(tickets: &[u64], marks: &mut Vec<Mark<B>>) -> Result<(), OutOfMemory>
    ensures { OnOk result (marks.new.items ≡ marks.old.items ++ declined tickets.now) }
{
    for ticket in tickets {
        marks.push(Mark::Declined { ticket: *ticket })?;
    }
    Ok(())
}

/// Marks that each of these requests and receipts is dropped.
fn drop_each<B: Drop>(tickets: &[u64], marks: &mut Vec<Mark<B>>) -> Result<(), OutOfMemory>
    ensures { OnOk result (marks.new.items ≡ marks.old.items ++ dropped tickets.now) }
{
    for ticket in tickets {
        marks.push(Mark::Dropped { ticket: *ticket })?;
    }
    Ok(())
}

impl Register {
    /// The live tickets that don't ask to build, ascending.
    fn other_tickets(&self) -> Result<Vec<u64>, OutOfMemory>
        ensures { IfOk result (λ others. IsListOf (λ t. is_some (entry self.now.tickets t)
            && not (is_some (entry self.now.proposals t))) others.items) }
    {
        let tickets = self.tickets.numbers(self.alloc)?;
        let mut others = Vec::new(self.alloc);
        for ticket in &tickets {
            if !self.proposals.contains(*ticket) {
                others.push(*ticket)?;
            }
        }
        Ok(others)
    }

    /// Appends the marks by which all live work ends: each fetch is withdrawn, then each job
    /// cancelled, each request to build declined and each other request or receipt dropped, those
    /// of one kind by ascending numbers. The only error is want of memory, and behind it some of
    /// the marks may be there.
    pub fn end_all<B: Drop, C, I>(&self, marks: &mut Vec<Mark<B>>) -> Result<(), OutOfMemory>
        ensures { OnOk result ((count : ℕ) (p : Past B C I)
            → RegisterStands count p self.now
            → (ends : List (Mark B))
            × (marks.new.items ≡ marks.old.items ++ ends)
            × EndsAll p ends
            × LeavesNothing p ends) }
    {
        withdraw(self.fetches.numbers(self.alloc)?.as_slice(), marks)?;
        cancel(self.jobs.numbers(self.alloc)?.as_slice(), marks)?;
        decline(self.proposals.numbers(self.alloc)?.as_slice(), marks)?;
        drop_each(self.other_tickets()?.as_slice(), marks)
    }
}
