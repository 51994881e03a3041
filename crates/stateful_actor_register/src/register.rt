//! What is live, and which events may come.
//!
//! The machine asks `allows` before it takes an event in. A restart may always come. Another event
//! may come while the register isn't `down`, and where what it names is live: a request, a fetch, a
//! job, or a database that a barrier awaits. A ticket that it brings has to be above `last`.
//!
//! After an event that was taken in, `record` is called once, with the event and all its marks. It
//! lists what they change (`change.rt`), makes room for each change, and only then applies them in
//! their order. So want of memory leaves the register as it was. Room that isn't used is given back
//! at the end. A refused event is never recorded.
//!
//! `RegisterStands` of `specs/Register.antt` says for which past a register stands, and `may_come`
//! of `stateful_history/specs/Live.antt` which events may come after it.

ghost use Rattle.std.specs.Prelude.{◌≡◌, ◌∷◌, [], ℕ, not, nat_lt, IfOk, OnOk, OnErr};
ghost use Rattle.stateful_history.specs.Past.{Past, after_entry};
ghost use Rattle.stateful_history.specs.Live.{is_request, names_live, may_come};
ghost use Rattle.stateful_actor_register.specs.Register.{RegisterStands, IsBlank, IsUnchanged, Applies};
ghost use Rattle.stateful_actor_register.specs.Register.{HasRoomFor, HasRoomForEach, above};
ghost use Rattle.stateful_actor_register.specs.Flushes.{FlushesApply};
ghost use Rattle.stateful_actor_register.specs.Live.{entry};
ghost use Rattle.stateful_actor_register.specs.declared.change.Change.{Change};

use crate::change::{Change, changes_of};
use crate::flushes::Flushes;
use crate::live::Live;
use stateful_base::OutOfMemory;
use stateful_history::{Event, Mark, Ticket};
use std::alloc::Global;

/// The live work of a machine: tickets with what they stand for, those of them that ask to build,
/// jobs, fetches, and the databases that barriers wait for. Beside it the last ticket, above which
/// a new one lies, and whether the machine is down.
#[derive(Drop)]
pub struct Register {
    pub(crate) tickets: Live<Ticket>,
    pub(crate) proposals: Live<()>,
    pub(crate) jobs: Live<()>,
    pub(crate) fetches: Live<()>,
    flushes: Flushes,
    last: Option<u64>,
    down: bool,
    pub(crate) alloc: Global,
}

impl Register {
    /// The register of a new machine: it is down, nothing is live, and each ticket is new.
    pub fn new(alloc: Global) -> Register
        ensures { IsBlank result }
    {
        Register {
            tickets: Live::new(alloc),
            proposals: Live::new(alloc),
            jobs: Live::new(alloc),
            fetches: Live::new(alloc),
            flushes: Flushes::new(alloc),
            last: None,
            down: true,
            alloc,
        }
    }

    /// Whether the event may come: a restart always, and another one where the machine isn't down
    /// and the event names live work and a new ticket alone.
    #[tactic(auto, using(crate::proofs::Changes::other_may_come))]
    pub fn allows<B, C, I>(&self, event: &Event<B, C, I>) -> bool
        ensures { (count : ℕ) (p : Past B C I)
            → RegisterStands count p self.now
            → result ≡ may_come count p event.now }
    {
        match event {
            Event::Restart { .. } => true,
            _ => !self.down && self.names_live(event),
        }
    }

    /// Whether the event names live work and a new ticket alone.
    fn names_live<B, C, I>(&self, event: &Event<B, C, I>) -> bool
        ensures { (count : ℕ) (p : Past B C I)
            → RegisterStands count p self.now
            → result ≡ names_live count p event.now }
    {
        match event {
            Event::Verify { ticket, .. }
            | Event::Prepare { ticket, .. }
            | Event::Propose { ticket, .. }
            | Event::Finalized { ticket, .. }
            | Event::Subscribe { ticket } => self.is_new(*ticket),
            Event::Cancel { ticket } => self.is_request(*ticket),
            Event::Fetched { fetch, .. } => self.fetches.contains(*fetch),
            Event::Turn { job } => self.jobs.contains(*job),
            Event::Flushed {
                barrier,
                database,
                ..
            } => self.flushes.is_waiting(*barrier, *database),
            Event::Progress { .. } => false,
            Event::Stop | Event::Restart { .. } => true,
        }
    }

    /// Whether the ticket is above the last one.
    fn is_new(&self, ticket: u64) -> bool
        ensures { result ≡ not (nat_lt ticket (above self.now.last)) }
    {
        match self.last {
            Some(last) => last < ticket,
            None => true,
        }
    }

    /// Whether the ticket stands for a live request.
    fn is_request(&self, ticket: u64) -> bool
        ensures { result ≡ is_request (entry self.now.tickets ticket) }
    {
        match self.tickets.get(ticket) {
            Some(Ticket::Request) => true,
            Some(Ticket::Receipt) | None => false,
        }
    }

    /// Makes room for a change. An error, which is want of memory, may leave room as well.
    fn reserve(&mut self, change: Change) -> Result<(), OutOfMemory>
        ensures room { OnOk result (HasRoomFor change self.new) }
        ensures rooms { (other : Change) → HasRoomFor other self.old → HasRoomFor other self.new }
        ensures same { IsUnchanged self.old self.new }
    {
        match change {
            Change::Opens { ticket, .. } => self.tickets.reserve(ticket)?,
            Change::Proposes { ticket } => {
                self.tickets.reserve(ticket)?;
                self.proposals.reserve(ticket)?;
            }
            Change::Asks { fetch } => self.fetches.reserve(fetch)?,
            Change::StartsJob { job } => self.jobs.reserve(job)?,
            _ => {}
        }
        Ok(())
    }

    /// Makes room for each of some changes.
    fn reserve_each(&mut self, changes: &[Change]) -> Result<(), OutOfMemory>
        ensures room { OnOk result (HasRoomForEach changes.now self.new) }
        ensures same { IsUnchanged self.old self.new }
    {
        for change in changes {
            self.reserve(*change)?;
        }
        Ok(())
    }

    /// Gives back the room that a change leaves.
    fn release(&mut self, change: Change)
        ensures { IsUnchanged self.old self.new }
    {
        match change {
            Change::Opens { ticket, .. }
            | Change::Proposes { ticket }
            | Change::Closes { ticket } => {
                self.tickets.release(ticket);
                self.proposals.release(ticket);
            }
            Change::Asks { fetch } | Change::EndsFetch { fetch } => self.fetches.release(fetch),
            Change::StartsJob { job } | Change::EndsJob { job } => self.jobs.release(job),
            _ => {}
        }
    }

    /// Gives back the room that each of some changes leaves.
    fn release_each(&mut self, changes: &[Change])
        ensures { IsUnchanged self.old self.new }
    {
        for change in changes {
            self.release(*change);
        }
    }

    /// Takes in a change for which there is room. What it does to flushes is left out.
    fn apply(&mut self, change: Change)
        requires { HasRoomFor change self.old }
        ensures applies { Applies self.old self.new (change ∷ []) }
        ensures rooms { (other : Change) → HasRoomFor other self.old → HasRoomFor other self.new }
        ensures flushes { self.new.flushes ≡ self.old.flushes }
    {
        match change {
            Change::Opens { ticket, stands_for } => {
                self.tickets.put(ticket, stands_for);
                self.proposals.end(ticket);
                self.last = self.last.max(Some(ticket));
            }
            Change::Proposes { ticket } => {
                self.tickets.put(ticket, Ticket::Request);
                self.proposals.put(ticket, ());
                self.last = self.last.max(Some(ticket));
            }
            Change::Closes { ticket } => {
                self.tickets.end(ticket);
                self.proposals.end(ticket);
            }
            Change::Asks { fetch } => self.fetches.put(fetch, ()),
            Change::EndsFetch { fetch } => self.fetches.end(fetch),
            Change::StartsJob { job } => self.jobs.put(job, ()),
            Change::EndsJob { job } => self.jobs.end(job),
            Change::Starts => self.down = false,
            Change::Stops => self.down = true,
            _ => {}
        }
    }

    /// Takes in changes for which there is room, one after another. What they do to flushes is left
    /// out.
    fn apply_each(&mut self, changes: &[Change])
        requires { HasRoomForEach changes.now self.old }
        ensures applies { Applies self.old self.new changes.now }
        ensures flushes { self.new.flushes ≡ self.old.flushes }
    {
        for change in changes {
            self.apply(*change);
        }
    }

    /// Takes in changes, one after another, with so many databases. An error leaves the register as
    /// it was, with room.
    fn take_in(&mut self, count: usize, changes: &[Change]) -> Result<(), OutOfMemory>
        ensures ok { OnOk result (Applies self.old self.new changes.now
            × FlushesApply count self.old.flushes self.new.flushes changes.now) }
        ensures err { OnErr result (IsUnchanged self.old self.new) }
    {
        self.reserve_each(changes)?;
        self.flushes.record(count, changes)?;
        self.apply_each(changes);
        Ok(())
    }

    /// Takes in an event and its marks, where there are so many databases. An error, which is want
    /// of memory alone, leaves the register as it was.
    pub fn record<B, C, I>(
        &mut self,
        count: usize,
        event: &Event<B, C, I>,
        marks: &[Mark<B>],
    ) -> Result<(), OutOfMemory>
        ensures ok { OnOk result ((p : Past B C I)
            → RegisterStands count p self.old
            → RegisterStands count (after_entry p event.now marks.now) self.new) }
        ensures err { OnErr result ((p : Past B C I)
            → RegisterStands count p self.old
            → RegisterStands count p self.new) }
        ensures unchanged { OnErr result (IsUnchanged self.old self.new) }
    {
        let changes = changes_of(self.alloc, event, marks)?;
        let taken = self.take_in(count, changes.as_slice());
        self.release_each(changes.as_slice());
        taken
    }

    /// A register that answers as this one, so it stands for the same pasts. It isn't an equal
    /// value, as `Share` has it: maps with equal entries may differ in how they are laid out.
    pub fn share(&self) -> Result<Register, OutOfMemory>
        ensures { IfOk result (IsUnchanged self.now) }
    {
        Ok(Register {
            tickets: self.tickets.share()?,
            proposals: self.proposals.share()?,
            jobs: self.jobs.share()?,
            fetches: self.fetches.share()?,
            flushes: self.flushes.share()?,
            last: self.last,
            down: self.down,
            alloc: self.alloc,
        })
    }
}
