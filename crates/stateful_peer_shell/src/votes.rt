//! Schemes, the latest finalization, orders, limits and errors.

use crate::named::{Word, named};
use crate::words::{Votes, finalization, numbers, request, show_final};
use stateful_db_source::ServeFault;
use stateful_p2p::{ActorError, ResponseDropped, TooManyOps, max_payload_size};
use stateful_probe::{Message, ProbeError};
use stateful_shell::{Page, index, number, parsed, rest, word};
use stateful_types::{
    CodecError, DrawError, Failed, Finalization, Items, Latest, MemoryLatest, OutOfMemory,
    ReadError, Scheme, SinkFault, VoteScheme, max_faults,
};
use std::fmt::Display;
use std::num::NonZeroU64;

/// `verify KEYS SIGNERS`: whether a certificate of these signers holds among these participants.
pub(crate) fn verify(words: &[&str], page: &mut Page) {
    let scheme = VoteScheme {
        participants: Items::from_vec(numbers(words, 1, page)),
    };
    let found = finalization(&["1", "2", "1", "55", word(words, 2)], page);
    page.number(found.certificate.len() as u64);
    page.field(" of ", scheme.participants().len() as u64);
    page.push(": ");
    page.show(&scheme.verify(&found))
}

/// `less KEY OTHER`: whether a request is ordered before another.
pub(crate) fn less(words: &[&str], page: &mut Page) {
    let is_less = request(words, 1) < request(words, 2);
    page.show(&is_less)
}

/// `latest ..`: sets the latest finalization, if the words say so, and shows it as it is handed
/// out.
pub(crate) fn play_latest(latest: &mut MemoryLatest<Votes>, words: &[&str], page: &mut Page) {
    if let Word::None = named(words, 1) {
        latest.finalization = None
    } else if words.len() > 1 {
        latest.finalization = Some(finalization(rest(words, 1), page))
    }
    match latest.latest() {
        Ok(Some(found)) => show_final("", &found, page),
        Ok(None) => page.push("none"),
        Err(OutOfMemory) => page.lack(),
    }
}

/// `most ..`: the limits.
pub(crate) fn most(words: &[&str], page: &mut Page) {
    let n = parsed(word(words, 2), 0u32);
    let op = index(words, 3);
    match named(words, 1) {
        Word::Faults => page.show(&max_faults(n)),
        Word::Certificate => page.show(&VoteScheme::max_certificate_size(n)),
        Word::Message => page.show(&Message::<Votes>::max_encode_size::<VoteScheme>(n)),
        Word::Payload => match NonZeroU64::new(number(words, 2)) {
            Some(max_ops) if op <= 16_777_216 => match max_payload_size(max_ops, op) {
                Ok(size) => page.show(&size),
                Err(error) => page.debug(&error),
            },
            _ => page.push("refused"),
        },
        _ => page.push("no such command"),
    }
}

const DRAW: &[DrawError] = &[DrawError::Exhausted, DrawError::OutOfMemory];

const CODEC: &[CodecError] = &[
    CodecError::InvalidEnum(7),
    CodecError::EndOfBuffer,
    CodecError::OutOfMemory,
];

const READ: &[ReadError] = &[
    ReadError::Failed,
    ReadError::TooLong,
    ReadError::OutOfMemory,
];

const SINK: &[SinkFault] = &[SinkFault::Failed, SinkFault::OutOfMemory];

const SERVE: &[ServeFault] = &[
    ServeFault::Failed,
    ServeFault::NotServed,
    ServeFault::OutOfMemory,
];

const RESOLVER: &[ActorError] = &[
    ActorError::BadEvent,
    ActorError::Failed,
    ActorError::Exhausted,
    ActorError::OutOfMemory,
];

const PROBE: &[ProbeError] = &[
    ProbeError::BadEvent,
    ProbeError::Failed,
    ProbeError::Exhausted,
    ProbeError::OutOfMemory,
];

/// Appends each of these errors.
fn show_each<E: Display>(errors: &[E], page: &mut Page) {
    let mut between = "";
    for error in errors {
        page.push(between);
        page.show(error);
        between = " ";
    }
}

/// `errors OF`: what is printed of each.
pub(crate) fn errors(words: &[&str], page: &mut Page) {
    match named(words, 1) {
        Word::Plain => {
            show_each(DRAW, page);
            page.push(" ");
            page.show(&Failed);
            page.push(" ");
            page.show(&OutOfMemory)
        }
        Word::Codec => show_each(CODEC, page),
        Word::Read => show_each(READ, page),
        Word::Sink => show_each(SINK, page),
        Word::Serve => show_each(SERVE, page),
        Word::Resolver => {
            show_each(RESOLVER, page);
            page.push("; ");
            page.show(&ResponseDropped);
            page.push("; ");
            page.show(&TooManyOps)
        }
        Word::Probe => show_each(PROBE, page),
        _ => page.push("no such command"),
    }
}
