//! What the loop keeps beside execution.

ghost use Rattle.std.specs.Prelude.{◌≡◌, [], None, false};

use crate::barriers::Barriers;
use crate::message::{Action, Message};
use crate::queue::Queue;
use stateful_base::{Digested, Height};
use stateful_db::Application;
use stateful_durability::Durability;
use std::alloc::Global;

/// The finalization that goes on.
#[derive(Drop)]
pub struct Finalizing<B, G> {
    pub ticket: u64,
    pub block: Digested<B>,
    /// What the application read before the block was applied, from then on until it has observed
    /// the block.
    pub captured: Option<G>,
}

/// What the loop keeps, over blocks `B`, contexts `C`, inputs `I` and what is captured `G`.
#[derive(Drop)]
pub struct Processing<B, C, I, G> {
    pub alloc: Global,
    /// Whether the databases are open and the machine isn't stopped.
    pub up: bool,
    /// The mailbox.
    pub queue: Queue<Message<B, C, I>>,
    /// What is taken before the mailbox.
    pub actions: Queue<Action<B, C, I>>,
    pub front: Option<Finalizing<B, G>>,
    pub durability: Durability,
    pub barriers: Barriers,
    pub next_barrier: u64,
}

/// What the loop keeps for an application.
pub type ProcessingOf<A> = Processing<
    <A as Application>::Block,
    <A as Application>::Context,
    <A as Application>::Input,
    <A as Application>::Captured,
>;

impl<B: Drop, C: Copy, I: Drop, G: Drop> Processing<B, C, I, G> {
    /// Down, with nothing but the number of the next barrier.
    pub fn new(alloc: Global, next_barrier: u64) -> Processing<B, C, I, G>
        ensures nothing { (result.up ≡ false)
            × (result.queue ≡ [])
            × (result.actions ≡ [])
            × (result.front ≡ None)
            × (result.barriers ≡ []) }
        ensures number { result.next_barrier ≡ next_barrier }
        ensures durability { result.durability
            ≡ record { durable = 0; applied = 0; barriers = []; held = [] } }
    {
        Processing {
            alloc,
            up: false,
            queue: Queue::new(alloc),
            actions: Queue::new(alloc),
            front: None,
            durability: Durability::new(alloc, Height(0)),
            barriers: Barriers::new(),
            next_barrier,
        }
    }
}
