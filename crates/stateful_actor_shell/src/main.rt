//! Plays the parts of the machine, one command a line, and prints what each answers: its mailbox,
//! its register of live work, durability and pruning; and the source and the sink of its program.
//!
//! The first words of a line begin a part anew, and further lines go to it. Blocks are letters.
//!
//!     mailbox N            a mailbox in which N messages are ready at most
//!     prepare C L I        asks for a block on L to be built ahead, of context C and input I
//!     propose C L I        asks for a block on L to be built
//!     verify L             asks whether L is valid
//!     report L             reports that L is final
//!     subscribe            asks to be told when the databases are there
//!     cancel T             cancels the request of ticket T
//!     take                 takes out the next event
//!     poll T               asks what became of ticket T
//!     answer / MARK ..     is told these marks
//!
//!     register N           the register of a new machine of N databases
//!     allows EVENT         whether the event may come
//!     record EVENT / ..    records the event with these marks
//!     ends                 the marks by which all live work ends, and how many there are
//!     copy                 keeps a copy
//!     swap                 goes on with the copy, and keeps the register in its place
//!     databases N          there are N databases from now on
//!
//!     durability H         durability from height H on
//!     apply H              a block of height H is applied
//!     apply H T            the same, and its receipt T is held
//!     again H T            another receipt T of the durable height H is held
//!     twice                anew from height 0: blocks of heights 1 and 2, each with a barrier and
//!                          its receipt, 0 and 1, and then another receipt of height 1, 2
//!     barrier              a barrier begins over all that is applied
//!     end good             the oldest barrier is over, and was good; `end bad`: it was not
//!     covers H             whether height H is durable
//!     show                 the heights, the oldest barrier, and whether another may and has to
//!                          begin; most commands on durability print that too
//!
//!     pruning V M D O A F  pruning every V heights at offset F, where M blocks of marshal, D of
//!                          the databases and O operations are retained, and A may be pending
//!     observe H L O        height H of targets L is final, with O operations up to there
//!     valid V M D O        whether such a config may be
//!     no-memory            the error that is never given
//!
//!     edge                 a source and a sink whose reader and writer fail at their second call,
//!                          and a sink whose writer takes nothing
//!     read                 reads into four bytes, and tells them and how many calls have failed
//!     write TEXT           writes a text, and tells how much was taken and how many have failed
//!     write-full TEXT      the same, to the sink whose writer takes nothing
//!
//! event.rt and mark.rt have the words of events and marks. Each mark stands behind a stroke.
#![tactic(auto)]

mod durable;
mod edge;
mod event;
mod letter;
mod mailbox;
mod mark;
mod part;
mod prunes;
mod register;
mod words;

use crate::part::Part;
use stateful_shell::play_files;
use std::process::ExitCode;

fn main(rt: HostRuntime) -> Result<ExitCode, anyhow::Error> {
    play_files::<Part>(&rt)
}
