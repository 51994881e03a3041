//! The bank, over one database that is kept whole (plain), over two (pair) and over three (triple).
//!
//! What an account has, and blocks, of no database:
//!
//!     do ENTRY.. OP..         what the accounts have after operations on these entries
//!     accept OP..             whether each operation moves something
//!     ask DECISION OP..       shares what a request to build brings
//!     genesis TARGET..        the block of height 0
//!     child HEIGHT PARENT EPOCH VIEW OP.. TARGET..
//!                             a block on a parent of that height and that digest
//!     propose DECISION HEIGHT PARENT EPOCH VIEW OP.. TARGET..
//!                             the block of a proposal on it
//!     slow TURNS              the block's hook takes so many turns
//!     encode                  the block's bytes, and its digest
//!     state                   the empty state of the one database: its target
//!     state SIZE ENTRY..      a state whose range has that end, with these entries
//!     step OP..               the state after operations on it
//!
//! Databases, and batches that are kept by number; batch 0 stands for the databases as they are:
//!
//!     world plain|pair|triple     begins anew, with empty databases of that world; a file begins
//!                             with the plain one
//!     first                   the world's block of height 0
//!     run N on M at HEIGHT candidate|finalized OP..
//!                             begins to run a block on batch M, which makes batch N
//!     build N on M at HEIGHT prepare|propose DECISION OP..
//!                             begins to build a block on batch M, which makes batch N: its parent
//!                             is the world's first block, at that height
//!     turn                    one turn of what was begun last: `goes on`, or how it ended
//!     turns                   all turns until it ends
//!     seal N on M at HEIGHT OP..     runs a block at once
//!     leads N                 what batch N leads to
//!     apply N                 applies batch N
//!     roots                   what the databases hold
//!     depth N                 how many batches are above the databases in the chain of batch N
//!     commits TARGET..        what a block of these targets commits to
//!     matches N TARGET..      whether batch N leads to what that block commits to
//!     hook N TURNS            finalizes a block whose hook takes so many turns, with batch N
//!
//! A store of blocks, and databases that are opened at one of them:
//!
//!     keep TARGET..           keeps one block more, on the last one
//!     open PROCESSED COMPLETED DIGEST     opens empty databases where the node has come to these
//!                             heights, and the completion has that digest; `-` stands for none
//!
//! An ENTRY is ACCOUNT:AMOUNT, an OP is mint:ACCOUNT:AMOUNT or move:FROM:TO:AMOUNT, a TARGET is
//! ROOT:START:END, and a DECISION is wait, vote or stage.
#![tactic(auto)]

mod accounts;
mod blocks;
mod book;
mod desk;
mod opening;
mod shell;
mod shown;
mod words;
mod works;
mod world;

use crate::shell::BankShell;
use std::process::ExitCode;

fn main(rt: HostRuntime) -> Result<ExitCode, anyhow::Error> {
    stateful_shell::play_files::<BankShell>(&rt)
}
