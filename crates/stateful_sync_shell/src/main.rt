//! Plays commands on what a node remembers of its sync, and on what a sync decides.
//!
//! Of the plan, over a store of one value:
//!
//!     store HEX CALL ..           loads a plan from a store of these bytes, whose calls load:N and
//!                                 put:N fail, each kind numbered from 0 on
//!     reload                      loads the plan anew from its store
//!     floor ROUND BYTE SIGNER ..  sets a floor, whose payload is 32 times this byte
//!     complete HEIGHT BYTE        records a completion
//!     start N                     where marshal starts, with genesis N, and whether a sync may be
//!     state HEX                   reads a state from these bytes, and writes it again
//!
//! Of the start of a sync, and of its end:
//!
//!     resolve PROCESSED CUTOFF ROUND LETTER BLOCK ..   where a sync to the block of this letter
//!                                 starts, over a store of the blocks
//!     answer PROCESSED BLOCK BLOCK ..     where it starts, once the first block was fetched
//!     classify BLOCK BLOCK ..     what becomes of blocks, under tickets from 0 on, once databases
//!                                 have converged to the first one
//!
//! Of a coordinator:
//!
//!     coordinate COUNT HEIGHT TARGETS     begins anew, with so many databases at a block
//!     reached DATABASE GENERATION     a database has reached a generation
//!     tip HEIGHT TARGETS          a block is finalized
//!     next                        what is to be done; `next same DATABASE`: and that database has
//!                                 the same target in what is dispatched
//!
//! Of a mailbox:
//!
//!     mailbox                     begins anew, with an empty one
//!     retarget HEIGHT TARGETS     a block is finalized
//!     take                        the sync takes the update that waits
//!     respond TICKET HEIGHT       the sync answers an update with the block it has converged to
//!     observed TICKET yes         the update was recorded; `no`: it was dropped unread
//!     poll TICKET                 what became of an update
//!     update HEIGHT TARGETS       an update that is in no mailbox
//!
//! Of a sync of a database from a server over another one:
//!
//!     sync serve KIND WRITES ..   begins anew, with a server over a database to which blocks of
//!                                 these writes were applied, durably: `plain`, `any`, `keyless`
//!                                 or `compact`. It prints what the database leads to before the
//!                                 first and behind each. At the word `prune` between them it
//!                                 drops what is older. The database that syncs is closed, on an
//!                                 empty medium
//!     sync medium WRITES ..       it is closed on a medium with these blocks
//!     sync medium fail:N ..       it is closed on an empty one, whose `sync` calls of these
//!                                 numbers fail
//!     sync bend N:HOW ..          the server's calls of these numbers from now on are `late`, of
//!                                 the other `kind`, an operation too `short`, have a `wrong`
//!                                 operation or another `digest` before it, or are a `fault`
//!     sync start TARGET COUNT     the closed one begins a sync, with so many operations a request
//!     sync tip TARGET             another target, which is adopted or ignored
//!     sync ask COUNT              makes so many requests, or fewer until the target is reached
//!     sync finish                 opens the database of what was fetched
//!     sync abandon                the database is closed again, as before the sync
//!     sync crash                  closes the open one by a crash that keeps nothing
//!     sync open TARGET            opens it at this target; `sync open`: at the latest
//!     sync answer SIZE START COUNT    what the open one answers to a request for operations, in
//!                                 hex; without a COUNT for a boundary
//!     sync relay                  the open one serves from now on, to a closed one on an empty
//!                                 medium
//!
//! A part of WRITES, between commas, is KEY=VALUE or KEY=none, and at `keyless` and `compact` a
//! VALUE, or a floor as f=LOCATION; m=VALUE is metadata. A TARGET is the number of such a block,
//! from 1 on, or 0 for what was before it; or START..END for a root of zeros with this range.
//!
//! A ROUND and a CUTOFF is EPOCH.VIEW. A BLOCK is HEIGHT:LETTER, and its bytes are that letter. One
//! of a HEIGHT is finalized in the view of that number of epoch 0. `none` stands for no store's
//! value, height, round or block, and `empty` for no bytes.
#![tactic(auto)]

mod bending;
mod blocks;
mod choosing;
mod classifying;
mod coordinating;
mod kinds;
mod letter;
mod mailing;
mod of_any;
mod of_compact;
mod of_keyless;
mod of_plain;
mod planning;
mod scenes;
mod shown;
mod synced;
mod words;

use crate::choosing::{say_answered, say_resolved};
use crate::classifying::say_classified;
use crate::coordinating::Coordinated;
use crate::kinds::Scenes;
use crate::mailing::Mailing;
use crate::planning::{Plan, say_state};
use stateful_shell::{Page, Shell, play_files, word};
use std::alloc::Global;
use std::process::ExitCode;

/// A plan, once one was loaded, a coordinator, once one was made, a mailbox, and syncs of a
/// database.
#[derive(Drop)]
struct Syncing {
    plan: Option<Plan>,
    made: Option<Coordinated>,
    mailing: Mailing,
    scenes: Scenes,
}

impl Shell for Syncing {
    fn new(alloc: Global) -> Syncing {
        Syncing {
            plan: None,
            made: None,
            mailing: Mailing::new(alloc),
            scenes: Scenes::None,
        }
    }

    fn play(&mut self, words: &[&str], page: &mut Page) {
        match word(words, 0) {
            "store" => planning::store(&mut self.plan, words, page),
            "reload" => planning::reload(&mut self.plan, page),
            "floor" | "complete" | "start" => planning::play(&mut self.plan, words, page),
            "state" => say_state(words, page),
            "resolve" => say_resolved(words, page),
            "answer" => say_answered(words, page),
            "classify" => say_classified(words, page),
            "coordinate" => coordinating::coordinate(&mut self.made, words, page),
            "sync" => kinds::play(&mut self.scenes, words, page),
            "reached" | "tip" | "next" => coordinating::play(&mut self.made, words, page),
            _ => self.mailing.play(words, page),
        }
    }

    fn end(&mut self, _page: &mut Page) {}
}

fn main(rt: HostRuntime) -> Result<ExitCode, anyhow::Error> {
    play_files::<Syncing>(&rt)
}
