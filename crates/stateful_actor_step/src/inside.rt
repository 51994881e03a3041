//! What goes on in a machine, as one thing.
//!
//! Its methods are the parts of `Stateful::step`. They say what they do of execution, the loop, the
//! databases and the marks at two moments (`beside` of `specs/Reading.antt`). None of them changes
//! the register: an event that fails in the middle isn't in it.

use stateful_actor_register::Register;
use stateful_db::{Application, DatabaseSet};
use stateful_exec::Handler;
use stateful_loop::ProcessingOf;

/// Execution, the loop and the register of live work, with what builds are given, and how databases
/// are opened.
#[derive(Drop)]
pub struct Core<A: Application + Drop> {
    pub handler: Handler<A>,
    pub processing: ProcessingOf<A>,
    pub register: Register,
    pub provider: A::Provider,
    pub db_config: <A::Databases as DatabaseSet>::Config,
}
