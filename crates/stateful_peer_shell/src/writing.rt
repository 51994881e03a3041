//! Values that are written to bytes.

use crate::named::{Word, named};
use crate::update::Update;
use crate::words::{finalization, part, request, show_bytes};
use stateful_probe::{Message, Tag};
use stateful_shell::{Page, number, parsed, rest, word};
use stateful_types::{
    Digest, Height, Items, OutOfMemory, Response, VoteScheme, write_u8, write_u32, write_u64,
};

/// The operation of a key and a value, as in `1:100`.
fn update(word: &str) -> Update {
    let mut parts = word.split(':');
    let key = part(parts.next());
    let value = part(parts.next());
    Update { key, value }
}

/// A boundary, or the operations of the words from the third on.
fn response(words: &[&str], page: &mut Page) -> Response<Update> {
    if let Word::Boundary = named(words, 1) {
        return Response::Boundary {
            before: Digest([parsed(word(words, 3), 0); 32]),
            op: update(word(words, 2)),
        };
    }
    let mut operations = Items::new(page.alloc());
    for word in rest(words, 2) {
        if operations.push(update(word)).is_err() {
            page.lack()
        }
    }
    Response::Operations { operations }
}

/// Appends a probe's request, or its response with the finalization of these words.
pub(crate) fn write_message(
    words: &[&str],
    bytes: &mut Vec<u8>,
    page: &mut Page,
) -> Result<(), OutOfMemory> {
    let message = if words.is_empty() {
        Message::Request
    } else {
        Message::Response(finalization(words, page))
    };
    message.write::<VoteScheme>(bytes)
}

/// `write VALUE`: its bytes, and no bytes where there is no such value.
pub(crate) fn write(words: &[&str], page: &mut Page) {
    let mut bytes = Vec::new(page.alloc());
    let written = match named(words, 1) {
        Word::U8 => write_u8(parsed(word(words, 2), 0), &mut bytes),
        Word::U32 => write_u32(parsed(word(words, 2), 0), &mut bytes),
        Word::U64 => write_u64(number(words, 2), &mut bytes),
        Word::Height => Height(number(words, 2)).write(&mut bytes),
        Word::Tag => match named(words, 2) {
            Word::Request => Tag::Request.write(&mut bytes),
            _ => Tag::Response.write(&mut bytes),
        },
        Word::Request => request(words, 2).write(&mut bytes),
        Word::Operations | Word::Boundary => response(words, page).write(&mut bytes),
        Word::Finalization => finalization(rest(words, 2), page).write::<VoteScheme>(&mut bytes),
        Word::Message => write_message(rest(words, 2), &mut bytes, page),
        _ => Ok(()),
    };
    page.note(written);
    show_bytes("", bytes.as_slice(), page)
}

/// `size finalization FINAL`, `size message FINAL`: how many bytes it says that it has.
pub(crate) fn size(words: &[&str], page: &mut Page) {
    let found = finalization(rest(words, 2), page);
    if let Word::Message = named(words, 1) {
        page.show(&Message::Response(found).encode_size::<VoteScheme>())
    } else {
        page.show(&found.encode_size::<VoteScheme>())
    }
}
