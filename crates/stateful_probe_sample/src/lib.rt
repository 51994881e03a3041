//! Samples of a committee's replies, and the floor that enough of them select.
#![tactic(auto)]

mod sample;

pub use sample::Sample;
