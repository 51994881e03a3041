//! What a resolver keeps.

ghost use Rattle.std.specs.Prelude.{◌≡◌, ◌≤◌, OnOk};
ghost use Rattle.stateful_p2p_tables.specs.New.{IsNew};
ghost use Rattle.stateful_p2p_tables.specs.Deliveries.{heard, outcome};

use crate::out::ActorOut;
use crate::subscriptions::Subscriptions;
use stateful_table::Table;
use stateful_types::OutOfMemory;
use std::alloc::Global;

/// The verdicts on a delivery: how many are still awaited, and those that were given, by ticket.
#[derive(Drop)]
pub struct Verdicts {
    pub awaited: usize,
    pub given: Table<bool>,
}

impl Verdicts {
    /// A ticket gives its verdict, or leaves without one.
    pub fn hear(&mut self, ticket: u64, verdict: Option<bool>) -> Result<(), OutOfMemory>
        requires { 1 ≤ self.old.awaited }
        ensures { OnOk result (self.new ≡ heard self.old ticket verdict) }
    {
        self.awaited -= 1;
        match verdict {
            Some(valid) => self.given.put(ticket, valid),
            None => Ok(()),
        }
    }

    /// What becomes of the delivery: the verdict of the first ticket that gave one, or none.
    pub fn outcome(&self, delivery: u64) -> ActorOut
        ensures { result ≡ outcome delivery self.now.given }
    {
        match self.given.first() {
            Some(valid) => ActorOut::Feedback {
                delivery,
                valid: *valid,
            },
            None => ActorOut::Unjudged { delivery },
        }
    }
}

/// The database that answers requests of peers; for which tickets something is fetched; which
/// delivery's candidate a ticket hasn't judged yet; the deliveries on which verdicts are awaited;
/// and the least numbers of a delivery and of a production that are new.
#[derive(Drop)]
pub struct State<D> {
    pub database: Option<D>,
    pub subscriptions: Subscriptions,
    pub unjudged: Table<u64>,
    pub deliveries: Table<Verdicts>,
    pub next_delivery: u64,
    pub next_serve: u64,
}

impl<D> State<D> {
    /// Nothing was taken in.
    pub fn new(alloc: Global) -> State<D>
        ensures { IsNew result }
    {
        State {
            database: None,
            subscriptions: Subscriptions::new(alloc),
            unjudged: Table::new(alloc),
            deliveries: Table::new(alloc),
            next_delivery: 0,
            next_serve: 0,
        }
    }
}
