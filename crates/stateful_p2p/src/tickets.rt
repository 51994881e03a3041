//! How the tickets of a mailbox stand.
//!
//! A ticket is `Open` from its draw on, and `Answered` once a first candidate came. Where it ends
//! `Open` it is `Dropped` and stays so for ever. Where it ends `Answered` its entry goes, since
//! whoever asked has had a candidate.
//!
//! A ticket ends where it is cancelled or leaves, and where a candidate is judged good.
//! `specs/Tickets.antt` says what each call makes of the table.

ghost use Rattle.std.specs.Prelude.{◌≡◌, ◌+◌, ◌≤◌, ◌^◌, ◌<◌, [], None, true, if◌then◌else◌, OnOk};
ghost use Rattle.std.specs.Prelude.{OnErr, length};
ghost use Rattle.stateful_table.specs.Table.{at, put, without};
ghost use Rattle.stateful_p2p.specs.Tickets.{is_live, is_dropped, ended, answered, live_count};
ghost use Rattle.stateful_p2p.specs.declared.tickets.Standing.TheVariants.{Open};

use stateful_table::Table;
use stateful_types::OutOfMemory;
use std::alloc::Global;
use std::marker::Model;

/// How a ticket stands. One that has no standing was never drawn, or ended behind a candidate.
#[derive(Clone, Copy, Debug, PartialEq, Eq)]
pub(crate) enum Standing {
    /// It is live, and no candidate came yet.
    Open,
    /// It is live, and a candidate came.
    Answered,
    /// It was let go before a candidate.
    Dropped,
}

/// How tickets stand.
#[derive(Drop)]
pub(crate) struct Tickets {
    standings: Table<Standing>,
}

impl Model for Tickets {
    ghost use Rattle.std.specs.Prelude.{List, ℕ};
    ghost use Rattle.stateful_p2p.specs.declared.tickets.Standing.{Standing};

    ghost Value = { List (ℕ × Standing) };

    ghost view = { λ a. a.standings };
}

impl Tickets {
    pub(crate) fn new(alloc: Global) -> Tickets
        ensures { result ≡ [] }
    {
        Tickets {
            standings: Table::new(alloc),
        }
    }

    /// At least how many are live.
    pub(crate) fn len(&self) -> usize
        ensures most { live_count self.now ≤ result }
        ensures small { result < 2 ^ 63 }
    {
        self.standings.len()
    }

    /// Whether a ticket is live: it was drawn, and neither let go nor ended by a good candidate.
    pub(crate) fn is_live(&self, ticket: u64) -> bool
        ensures { result ≡ is_live self.now ticket }
    {
        match self.standings.get(ticket) {
            Some(Standing::Open | Standing::Answered) => true,
            Some(Standing::Dropped) | None => false,
        }
    }

    /// Whether a ticket was let go before a candidate.
    pub(crate) fn is_dropped(&self, ticket: u64) -> bool
        ensures { result ≡ is_dropped self.now ticket }
    {
        match self.standings.get(ticket) {
            Some(Standing::Dropped) => true,
            Some(Standing::Open | Standing::Answered) | None => false,
        }
    }

    /// A ticket is drawn.
    pub(crate) fn open(&mut self, ticket: u64) -> Result<(), OutOfMemory>
        requires { at self.old ticket ≡ None }
        ensures ok { OnOk result (self.new ≡ put self.old ticket Open) }
        ensures count { OnOk result (live_count self.new ≡ live_count self.old + 1) }
        ensures err { OnErr result (self.new ≡ self.old) }
    {
        self.standings.put(ticket, Standing::Open)
    }

    /// A ticket that was drawn is given back.
    pub(crate) fn remove(&mut self, ticket: u64)
        ensures { self.new ≡ without self.old ticket }
    {
        self.standings.remove(ticket);
    }

    /// A candidate came for a ticket.
    pub(crate) fn answer(&mut self, ticket: u64)
        ensures standings { self.new ≡ answered self.old ticket }
        ensures count { live_count self.new ≡ live_count self.old }
    {
        if self.is_live(ticket) {
            self.standings.replace(ticket, Standing::Answered);
        }
    }

    /// Ends a ticket, if it is live. It is kept in mind only where no candidate came for it.
    pub(crate) fn end(&mut self, ticket: u64)
        ensures standings { self.new ≡ ended self.old ticket }
        ensures count { live_count self.new + (if is_live self.old ticket then 1 else 0)
            ≡ live_count self.old }
    {
        match self.standings.get(ticket) {
            Some(Standing::Open) => self.standings.replace(ticket, Standing::Dropped),
            Some(Standing::Answered) => {
                self.standings.remove(ticket);
            }
            Some(Standing::Dropped) | None => {}
        }
    }
}
