//! The loop of the machine: what it takes in, and how it goes on by one rule after another.
#![tactic(auto)]

mod going;
mod intake;

pub use going::go_on;
pub use intake::take_in;
pub use stateful_loop_finals::clear;
pub use stateful_loop_model::{
    Action, Active, Asks, Barriers, Finalizing, Message, Processing, ProcessingOf, Queue, StepError,
};
pub use stateful_loop_opens::open;
