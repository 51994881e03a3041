//! What the machine stands for between two events, and what one event does to a past. Definitions
//! and their lemmas alone.
#![tactic(auto)]
