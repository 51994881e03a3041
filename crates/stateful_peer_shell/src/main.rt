//! Plays commands over what nodes send each other: values with their bytes, mailboxes, the
//! resolver and the probe. Bytes are in hex, and `-` is none. Numbers with commas between them are
//! lists. A KEY is a request: `10,3,2` asks a database of 10 operations for 2 at most from the
//! third on, and `10,3` for the boundary there.
//!
//!     read KIND HEX                    a value, and the bytes behind it. KIND is u8, u32, u64,
//!                                      height, tag, request, finalization, message, or
//!                                      response KEY, for a response to it
//!     cuts KIND HEX                    how many beginnings of the bytes end inside the value
//!     write u8 N                       the bytes of a number, and so u32, u64, height
//!     write request KEY                those of a request
//!     write operations K:V ..          those of a response with these updates
//!     write boundary K:V BYTE          those of one with this update behind a digest of this byte
//!     write finalization FINAL         those of a finalization. FINAL is its epoch, its view, its
//!                                      parent's view, its payload's byte and its signers
//!     write message, write message FINAL    those of a probe's request, and of its response
//!     write tag request, or response   those of a tag
//!     size finalization FINAL, size message FINAL    how many bytes it says that it has
//!     less KEY KEY                     whether the first request is ordered before the second
//!     verify KEYS SIGNERS              whether a certificate holds among these participants
//!     most faults N                    how many of N participants may be faulty
//!     most certificate N, most message N, most payload OPS SIZE    how many bytes it has at most
//!     errors OF                        what errors print. OF is plain, codec, read, sink, serve,
//!                                      resolver or probe
//!     latest, latest FINAL, latest none     shows the latest finalization, or sets it before
//!
//!     mailbox new N                    a mailbox in which N notes are ready at most
//!     mailbox enqueue N, receive, retain N, close
//!
//!     handler new N                    what an engine hands to a resolver, N ready at most
//!     handler deliver KEY HEX, produce KEY, cancel DELIVERY, take
//!
//!     resolvers new OPS N              two resolvers, which serve OPS operations at most, and in
//!                                      whose mailboxes N messages are ready at most
//!     resolvers attach ANSWER ANSWER   a set of two databases. An ANSWER is not-served, failed, or
//!                                      the value at key 1
//!     resolver COMMAND, other COMMAND  a command of the first resolver, or of the other one:
//!     .. serve KEY, attach ANSWER, cancel TICKET, poll TICKET      through its mailbox
//!     .. message, deliver N KEY HEX, judge TICKET good, judge TICKET bad, leave TICKET,
//!        produce N KEY                 an event
//!
//!     probe new EPOCH EPOCHS KEYS      a probe of which epochs from EPOCH on count. EPOCHS have a
//!                                      scheme, with the participants KEYS. It serves the latest
//!     probe subscribe TICKET, cancel TICKET, attach, retry, stop
//!     probe bytes PEER HEX             a peer sends these bytes
//!     probe reply PEER EPOCH VIEW SIGNERS   a peer sends a finalization of this round; `cut`
//!                                      without its last byte, `longer` with one byte more
//!     inbox new N, subscribe, attach, take  a mailbox of a probe
//!
//!     sample new EPOCH                 a sample of replies
//!     sample record PEER VIEW, awaits PEER, floor, minimum, reset
//!     sample select N                  selects a floor in a committee of N
//!     sample select N without VIEW     where replies of this view can't be judged
//!     sample look N                    selects, and tells whether a reply was looked at
#![tactic(auto)]

mod handler;
mod inbox;
mod mailbox;
mod named;
mod probe;
mod reading;
mod resolver;
mod sample;
mod source;
mod update;
mod votes;
mod words;
mod writing;

use crate::inbox::Inbox;
use crate::mailbox::Notes;
use crate::named::{Word, named};
use crate::probe::Votings;
use crate::resolver::Two;
use crate::sample::Replies;
use crate::words::Votes;
use stateful_p2p::Handler;
use stateful_probe::Sample;
use stateful_shell::{Page, Shell, play_files};
use stateful_types::{Epoch, MemoryLatest};
use std::alloc::Global;
use std::process::ExitCode;

/// What the commands of a file are played on.
#[derive(Drop)]
struct PeerShell {
    latest: MemoryLatest<Votes>,
    notes: Option<Notes>,
    handler: Option<Handler>,
    resolvers: Option<Two>,
    probe: Option<Votings>,
    inbox: Option<Inbox>,
    sample: Replies,
}

impl Shell for PeerShell {
    fn new(alloc: Global) -> PeerShell {
        PeerShell {
            latest: MemoryLatest { finalization: None },
            notes: None,
            handler: None,
            resolvers: None,
            probe: None,
            inbox: None,
            sample: Sample::new(alloc, Epoch(0)),
        }
    }

    fn play(&mut self, words: &[&str], page: &mut Page) {
        match named(words, 0) {
            Word::Latest => votes::play_latest(&mut self.latest, words, page),
            Word::Mailbox => mailbox::play(&mut self.notes, words, page),
            Word::Handler => handler::play(&mut self.handler, words, page),
            Word::Resolvers => resolver::play_both(&mut self.resolvers, words, page),
            Word::Resolver | Word::Other => resolver::play_one(&mut self.resolvers, words, page),
            Word::Probe => probe::play(&mut self.probe, &self.latest, words, page),
            Word::Inbox => inbox::play(&mut self.inbox, words, page),
            Word::Sample => sample::play(&mut self.sample, words, page),
            Word::Read | Word::Cuts => reading::play(words, page),
            Word::Write => writing::write(words, page),
            Word::Size => writing::size(words, page),
            Word::Less => votes::less(words, page),
            Word::Verify => votes::verify(words, page),
            Word::Most => votes::most(words, page),
            Word::Errors => votes::errors(words, page),
            _ => page.push("no such command"),
        }
        page.end()
    }

    fn end(&mut self, _page: &mut Page) {}
}

fn main(rt: HostRuntime) -> Result<ExitCode, anyhow::Error> {
    play_files::<PeerShell>(&rt)
}
