//! Plays batches over a database, so that they can be timed.
//!
//!     stateful_db_bench KIND ENTRIES BATCHES
//!     stateful_db_bench HELD ANCESTORS BLOCKS
//!
//! A database is filled with so many entries by one batch. `map` is one that is kept as a log, and
//! `whole` one that is kept whole at each checkpoint: on these come so many batches of 16 writes
//! each, as blocks do, and the end of the range is printed. `chain` is a log of values: so many
//! batches of one value each are sealed over it, one on the other, and all are held to the end. The
//! end of the last one's range is printed, and its first and its last value.
//!
//! HELD is `held-map` or `held-log`: over a map or a log of 100,000 entries there are always so
//! many sealed batches that aren't applied yet, one on the other. On these come so many blocks.
//! Each reads 16 keys, writes them, and is sealed. Then the oldest batch is applied and made
//! durable. The end of the range is printed, and how many of the reads found a value.
#![tactic(auto)]

mod blocks;
mod chain;
mod held;
mod numbers;

use crate::blocks::play;
use crate::chain::hold;
use crate::held::play_over;
use anyhow::Error;
use stateful_db::Held;
use stateful_db_any::AnyDb;
use stateful_db_keyless::KeylessDb;
use stateful_db_plain::Plain;
use std::{env, io};

/// What is played.
#[derive(Clone, Copy)]
enum Kind {
    Map,
    Whole,
    Chain,
    HeldMap,
    HeldLog,
}

/// What is played, over how many entries or ancestors, and how many batches come.
#[derive(Clone, Copy)]
struct Load {
    kind: Kind,
    over: u64,
    batches: u64,
}

/// The kind of this name.
fn read_kind(word: &str) -> Result<Kind, Error> {
    match word {
        "map" => Ok(Kind::Map),
        "whole" => Ok(Kind::Whole),
        "chain" => Ok(Kind::Chain),
        "held-map" => Ok(Kind::HeldMap),
        "held-log" => Ok(Kind::HeldLog),
        _ => Err(Error::msg("the kind is map, whole, chain, held-map or held-log")),
    }
}

/// The words behind the program's name.
fn read_load(rt: &HostRuntime) -> Result<Load, Error> {
    let words: Vec<String> = env::args(rt)?.skip(1).collect(rt.alloc())?;
    match words.as_slice() {
        [kind, over, batches] => Ok(Load {
            kind: read_kind(kind.as_str())?,
            over: over.as_str().parse()?,
            batches: batches.as_str().parse()?,
        }),
        _ => Err(Error::msg("a kind and two numbers are wanted")),
    }
}

fn main(rt: HostRuntime) -> Result<(), Error> {
    let load = read_load(&rt)?;
    match load.kind {
        Kind::Map => {
            let end = play::<Held<AnyDb<u64, u64>>>(rt.alloc(), load.over, load.batches)?;
            println!(rt; "{end}")?;
        }
        Kind::Whole => {
            let end = play::<Held<Plain>>(rt.alloc(), load.over, load.batches)?;
            println!(rt; "{end}")?;
        }
        Kind::Chain => {
            let held = hold(rt.alloc(), load.over, load.batches)?;
            println!(rt; "{held}")?;
        }
        Kind::HeldMap => {
            let left = play_over::<Held<AnyDb<u64, u64>>>(rt.alloc(), load.over, load.batches)?;
            println!(rt; "{left}")?;
        }
        Kind::HeldLog => {
            let left = play_over::<Held<KeylessDb<u64>>>(rt.alloc(), load.over, load.batches)?;
            println!(rt; "{left}")?;
        }
    }
    Ok(())
}
