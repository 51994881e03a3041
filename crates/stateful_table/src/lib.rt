//! Values by number: the tables of machines that name their work by numbers.
#![tactic(auto)]

mod table;

pub use table::Table;
