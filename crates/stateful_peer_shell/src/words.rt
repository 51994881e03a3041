//! The words of a line, and how values are printed.

use bytes::Bytes;
use hex::FromHexError;
use stateful_shell::{Page, number, parsed, word};
use stateful_types::{
    Digest, DrawError, Epoch, Feedback, Finalization, Items, Location, OutOfMemory, Request, Round,
    View,
};
use std::num::NonZeroU64;
use std::str::FromStr;

/// What shows that a block is final, in this shell: the numbers of those who signed.
pub(crate) type Votes = Items<u32>;

/// The number of a part of a word. 0 where it is missing, or is no number.
pub(crate) fn part(word: Option<&str>) -> u64 {
    parsed(word.unwrap_or(""), 0)
}

/// Numbers with commas between them. What is no number, as `-`, is left out.
pub(crate) fn numbers<T: FromStr + Drop>(words: &[&str], at: usize, page: &mut Page) -> Vec<T>
where
    T::Err: Drop,
{
    let mut found = Vec::new(page.alloc());
    for part in word(words, at).split(',') {
        if let Ok(n) = part.parse::<T>() {
            if found.push(n).is_err() {
                page.lack()
            }
        }
    }
    found
}

/// A request: a size and a start, and for operations how many at most, as in `10,3,2`.
pub(crate) fn request(words: &[&str], at: usize) -> Request {
    let mut parts = word(words, at).split(',');
    let size = Location(part(parts.next()));
    let start = Location(part(parts.next()));
    match NonZeroU64::new(part(parts.next())) {
        Some(max_ops) => Request::Operations {
            size,
            start,
            max_ops,
        },
        None => Request::Boundary { size, start },
    }
}

/// Bytes that can be shared.
pub(crate) fn shared(bytes: Vec<u8>, page: &mut Page) -> Bytes {
    match Bytes::from_vec(bytes) {
        Ok(bytes) => bytes,
        Err(_) => {
            page.lack();
            Bytes::new()
        }
    }
}

/// Bytes in hex: no bytes where the word isn't hex, as `-`.
pub(crate) fn bytes(words: &[&str], at: usize, page: &mut Page) -> Bytes {
    match hex::decode(page.alloc(), word(words, at)) {
        Ok(bytes) => return shared(bytes, page),
        Err(FromHexError::OutOfMemory) => page.lack(),
        Err(_) => {}
    }
    Bytes::new()
}

/// The finalization of these words: its epoch, its view, its parent's view, the byte that its
/// payload has 32 times, and its signers.
pub(crate) fn finalization(words: &[&str], page: &mut Page) -> Finalization<Votes> {
    Finalization {
        round: Round {
            epoch: Epoch(number(words, 0)),
            view: View(number(words, 1)),
        },
        parent: View(number(words, 2)),
        payload: Digest([parsed(word(words, 3), 0); 32]),
        certificate: Items::from_vec(numbers(words, 4, page)),
    }
}

/// Puts what was made in its place.
pub(crate) fn put<T: Drop>(place: &mut Option<T>, made: Result<T, OutOfMemory>, page: &mut Page) {
    match made {
        Ok(made) => *place = Some(made),
        Err(OutOfMemory) => page.lack(),
    }
}

/// Prints what became of a message.
pub(crate) fn tell_feedback(sent: Result<Feedback, OutOfMemory>, page: &mut Page) {
    match sent {
        Ok(feedback) => page.debug(&feedback),
        Err(OutOfMemory) => page.lack(),
    }
}

/// Prints what became of a message that has drawn a number.
pub(crate) fn tell_drawn(sent: Result<(Feedback, u64), DrawError>, page: &mut Page) {
    match sent {
        Ok((feedback, number)) => {
            page.number(number);
            page.push(" ");
            page.debug(&feedback)
        }
        Err(error) => page.show(&error),
    }
}

/// Appends text and bytes: in hex, and as `-` where there are none.
pub(crate) fn show_bytes(before: &str, bytes: &[u8], page: &mut Page) {
    page.push(before);
    if bytes.is_empty() {
        page.push("-")
    } else {
        page.hex(bytes)
    }
}

/// Appends text and a request, as it is read.
pub(crate) fn show_request(before: &str, request: Request, page: &mut Page) {
    match request {
        Request::Operations {
            size,
            start,
            max_ops,
        } => {
            page.field(before, size.0);
            page.field(",", start.0);
            page.field(",", max_ops.get())
        }
        Request::Boundary { size, start } => {
            page.field(before, size.0);
            page.field(",", start.0)
        }
    }
}

/// Appends text and a finalization, with all that it has.
pub(crate) fn show_final(before: &str, found: &Finalization<Votes>, page: &mut Page) {
    page.field(before, found.round.epoch.0);
    page.field(" ", found.round.view.0);
    page.field(" on ", found.parent.0);
    page.push(", ");
    page.hex(&found.payload.0);
    page.push(" by ");
    page.debug(&found.certificate.as_slice())
}
