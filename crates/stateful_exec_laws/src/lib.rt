//! What the tables of execution stand for, over a past. Definitions and their lemmas alone.
#![tactic(auto)]
