//! Plays commands on execution, over an application whose blocks say what becomes of them
//! (`fake.rt`) and a database that is kept whole. Cases stand in `data/`. Calls of execution are
//! generic over the application (`played.rt`), so that they are proved without it, which takes less
//! long.
//!
//! Commands and answers speak of blocks by names. Blocks of one byte have one digest: answers name
//! the first of them. Tickets, jobs and fetches are numbers.
//!
//!     block NAME PARENT BYTE HEIGHT VIEW TARGET TURNS END HOOK
//!                      names a block: its parent, the byte that its digest is of, its height and
//!                      view, the height whose states it commits to, the turns of its run before
//!                      the last one, how that ends (`states`, `nothing`, `fails`), and the turns
//!                      of its hook
//!     open BLOCK       begins anew over this block; names of blocks stay
//!     reopen BLOCK JOB FETCH
//!                      drops all that goes on; numbers go on from these
//!     verify TICKET BLOCK [PARENT]
//!                      a block is to be judged, with a parent at hand or without
//!     propose TICKET PARENT VIEW HOW [BLOCK [TURNS END]]
//!                      a block of this view is to be built on a parent, by a build that hands
//!                      over a block (`vote`, `stage`) or none (`wait`), after so many turns
//!                      before its last one
//!     prepare ..       the same, where the application decides how the block is handed over
//!     fetched FETCH [BLOCK]
//!                      a fetch is answered, with a block or with none
//!     cancel TICKET    the request of a ticket is given up
//!     turn JOB         a run has a turn
//!     settle JOB HOW   a run's last turn has answered: it goes on (`pending`), it has ended
//!                      without states (`nothing`), or it has failed (`fails`)
//!     start TICKET     a request is to go along its path; `next TICKET` and `process TICKET`:
//!                      the next block of that, and what becomes of it
//!     ready            the next proposal whose parent became known
//!     build TICKET     starts the build of a proposal; `turn_build JOB`: it has a turn
//!     pause [BLOCK]    a pause for a block's finalization, or for a prune; `awaited`: how many
//!                      runs it waits for; `resume`: what was paused goes on
//!     past BLOCK       whether a finalized block is no higher than the anchor; then `begin BLOCK`,
//!                      `run BLOCK`, `advance BLOCK`, `observe BLOCK`, `turn_hook JOB` and `drop`
//!                      lead its finalization on; `advance` applies its batch too
//!     store BLOCK      the store has this block of its height
//!     close            the database isn't here any more
//!     cached BLOCK     whether it is cached; `idle`: whether no candidate's run is live
//!     numbers          the next job and the next fetch
//!     anchor           the anchor's block; `front`: the finalization that goes on, and how far;
//!                      `building`: the live build, its ticket and its parent
//!
//! A command other than `block` prints a line: what was done, one thing after another, and then
//! what the call answers, or `refused` with the error. It is `nothing` where there is none of that.
//!
//!     runs JOB BLOCK, finalizes JOB BLOCK, hooks JOB BLOCK
//!     kept JOB, rejected JOB, mismatched JOB, missed JOB, cancelled JOB, empty JOB, hooked JOB
//!     built JOB TICKET BLOCK
//!     asks FETCH TICKET BLOCK, withdraws FETCH
//!     valid TICKET, invalid TICKET
//!     gives TICKET BLOCK, votes TICKET BLOCK, stages TICKET BLOCK, declines TICKET
#![tactic(auto)]

mod answer;
mod block;
mod blocks;
mod fake;
mod machine;
mod played;
mod requests;
mod shell;
mod telling;
mod words;
mod work;

use shell::ExecShell;
use std::process::ExitCode;

fn main(rt: HostRuntime) -> Result<ExitCode, anyhow::Error> {
    stateful_shell::play_files::<ExecShell>(&rt)
}
