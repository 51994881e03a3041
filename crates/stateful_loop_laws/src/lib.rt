//! What the machine stands for, over a past. Definitions and their lemmas alone.
#![tactic(auto)]
