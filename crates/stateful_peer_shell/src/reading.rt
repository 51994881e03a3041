//! Values that are read from bytes.

use crate::named::{Word, named};
use crate::update::Update;
use crate::words::{Votes, bytes, request, show_bytes, show_final, show_request};
use bytes::Bytes;
use stateful_probe::{Message, Tag};
use stateful_shell::Page;
use stateful_types::{
    CodecError, Finalization, Height, OutOfMemory, Request, Response, Share, VoteScheme, read_u8,
    read_u32, read_u64,
};
use std::fmt::Debug;

/// Appends a probe's message, and how many bytes it says that it has.
fn show_message(message: &Message<Votes>, page: &mut Page) {
    match message {
        Message::Request => page.push("request"),
        Message::Response(found) => show_final("response ", found, page),
    }
    page.field(", ", message.encode_size::<VoteScheme>() as u64);
    page.push(" bytes")
}

/// Appends what a response has.
pub(crate) fn show_response(response: &Response<Update>, page: &mut Page) {
    match response {
        Response::Operations { operations } => {
            page.push("operations");
            for op in operations.as_slice() {
                page.field(" ", op.key);
                page.field(":", op.value)
            }
        }
        Response::Boundary { before, op } => {
            page.field("boundary ", op.key);
            page.field(":", op.value);
            page.push(" behind ");
            page.hex(&before.0)
        }
    }
}

/// Appends a value that was read.
fn show_read<T: Debug + Drop>(
    read: Result<T, CodecError>,
    page: &mut Page,
) -> Result<(), CodecError> {
    match read {
        Ok(value) => {
            page.debug(&value);
            Ok(())
        }
        Err(error) => Err(error),
    }
}

/// Reads a value of the kind that is named, and appends it. Of a response a shared copy is.
fn read_value(words: &[&str], input: &mut Bytes, page: &mut Page) -> Result<(), CodecError> {
    let alloc = page.alloc();
    match named(words, 1) {
        Word::U8 => return show_read(read_u8(input), page),
        Word::U32 => return show_read(read_u32(input), page),
        Word::U64 => return show_read(read_u64(input), page),
        Word::Height => return show_read(Height::read(input), page),
        Word::Tag => return show_read(Tag::read(input), page),
        Word::Request => match Request::read(input) {
            Ok(read) => show_request("", read, page),
            Err(error) => return Err(error),
        },
        Word::Finalization => match Finalization::read::<VoteScheme>(alloc, input) {
            Ok(read) => show_final("", &read, page),
            Err(error) => return Err(error),
        },
        Word::Message => match Message::read::<VoteScheme>(alloc, input) {
            Ok(read) => show_message(&read, page),
            Err(error) => return Err(error),
        },
        Word::Response => match Response::read(alloc, input, &request(words, 2)) {
            Ok(read) => match read.share() {
                Ok(copy) => show_response(&copy, page),
                Err(OutOfMemory) => page.lack(),
            },
            Err(error) => return Err(error),
        },
        _ => page.push("no such command"),
    }
    Ok(())
}

/// `read KIND HEX`: the value, and the bytes that are left behind it. `cuts KIND HEX`: how many
/// beginnings of the bytes end inside the value.
pub(crate) fn play(words: &[&str], page: &mut Page) {
    let mut input = bytes(words, words.len().saturating_sub(1), page);
    if let Word::Read = named(words, 0) {
        return match read_value(words, &mut input, page) {
            Ok(()) => show_bytes(", left ", input.as_slice(), page),
            Err(error) => page.debug(&error),
        };
    }
    let mut short = 0u64;
    for cut in 0..input.len() {
        let Ok(mut part) = Bytes::copy_from_slice(page.alloc(), &input.as_slice()[..cut]) else {
            return page.lack();
        };
        let mut scratch = Page::new(page.alloc());
        let read = read_value(words, &mut part, &mut scratch);
        page.note_page(&scratch);
        if let Err(CodecError::EndOfBuffer) = read {
            short = short.saturating_add(1);
        }
    }
    page.number(short);
    page.field(" of ", input.len() as u64);
    page.push(" beginnings are EndOfBuffer")
}
