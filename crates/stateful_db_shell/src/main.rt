//! Plays commands over databases and sets of them, one a line, and prints what each answers.
//!
//! A set is begun by `set KIND`: `plain`, `any`, `keyless` or `compact` for a set of one database,
//! `two` or `three` for plain ones. Its databases are closed, over empty media. A word `D:CALL:N`
//! behind that says that the call number N of this kind fails at database D, both from 0 on. B, C
//! and P are names of batches, and T of targets.
//!
//!     set KIND D:CALL:N..     begins a set
//!     init, init T            opens closed and lost databases, at their latest states or at T
//!     show                    where each database is, with what can be read there
//!     faults                  how often each has failed
//!     step                    applies a batch without changes
//!     finalize                starts persisting, and prints the places of the tokens
//!     flush D                 the same, and flushes database D
//!     prune T                 closes all, opens at T, and prunes what is older
//!     crash KEEP..            closes all, as a crash does that keeps so many states of each
//!     take                    takes the set, shows it, and leaves its databases away
//!
//!     targets T               what the databases hold is T from now on
//!     initial T               the targets of empty media are T
//!     target T B              what the sealed batch B leads to is T
//!     expect T D ROOT S E     T has this root with this range at database D
//!     operations T            the sum of the ends of its ranges
//!     match B T               whether the sealed batch B leads to T, and else where it doesn't
//!
//!     begin B                 an open batch over the states
//!     fork B P                an open batch over the sealed batch P
//!     seal B                  seals it
//!     share C B               C is an equal batch of the sealed batch B
//!     apply B                 applies the sealed batch B
//!
//!     write B KEY=VALUE..     plain, any: the open batch with these values; `none` takes away
//!     append B VALUE..        keyless, compact: the open batch with these values
//!     metadata B VALUE        any, keyless, compact: with this metadata
//!     floor B LOCATION        keyless, compact: with this inactivity floor
//!     get B KEY               plain, any, keyless: what a batch has at a key or location
//!     many B KEY..            any, keyless: the same of several
//!     bounds B                any, keyless, compact: the range of a sealed batch
//!     get KEY                 plain, any, keyless: what the database has
//!     entries                 plain, any: all that it has, with its range
//!     metadata, root          any, keyless, compact: of the last commit
//!
//!     stage B KEY..           any: reads these keys of the open batch B, and stages them
//!     expand KEY..            reads and stages more of them
//!     staged, staged VALUE    how many there are; with this metadata
//!     finish B SLOT.. K=V..   the sealed batch B, with a slot for each: a value, `none` or `keep`
//!
//!     barrier PLACE..         a barrier of tokens of these places, by itself
//!     handle N                the place of token N, while it has no answer
//!     answer N good           how its flush went; `answer N interrupted`
//!     poll                    how the barrier stands
#![tactic(auto)]

mod barriers;
mod named;
mod on_any;
mod on_compact;
mod on_keyless;
mod on_plain;
mod sets;
mod shells;
mod staging;
mod tables;
mod words;

use crate::shells::Databases;
use std::process::ExitCode;

fn main(rt: HostRuntime) -> Result<ExitCode, anyhow::Error> {
    stateful_shell::play_files::<Databases>(&rt)
}
