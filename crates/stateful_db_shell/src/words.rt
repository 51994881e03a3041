//! The words of a line, and what is printed.

use hex::FromHex;
use stateful_base::{Digest, Location, OutOfMemory, Target};
use stateful_db::{BatchError, DbCall, InitError, SetError, SetInit};
use stateful_shell::{Page, number, word};
use std::alloc::Global;

/// The numbers from this word on.
pub(crate) fn numbers(alloc: Global, words: &[&str], from: usize) -> Result<Vec<u64>, OutOfMemory> {
    let mut numbers = Vec::new(alloc);
    for at in from..words.len() {
        numbers.push(number(words, at))?;
    }
    Ok(numbers)
}

/// A value: none where the word is no number.
pub(crate) fn value(word: &str) -> Option<u64> {
    word.parse::<u64>().ok()
}

/// The number before a `=`, and the value behind it.
pub(crate) fn write(word: &str) -> (u64, Option<u64>) {
    let (key, written) = word.split_once('=').unwrap_or((word, ""));
    (value(key).unwrap_or(0), value(written))
}

/// A kind of call.
pub(crate) fn call(word: &str) -> Option<DbCall> {
    match word {
        "init" => Some(DbCall::Init),
        "apply" => Some(DbCall::Apply),
        "finalize" => Some(DbCall::Finalize),
        "flush" => Some(DbCall::Flush),
        "prune" => Some(DbCall::Prune),
        "sync" => Some(DbCall::Sync),
        _ => None,
    }
}

/// From this word on, a root in hex, with the start and the end of a range. What isn't hex is a
/// root of zeros.
pub(crate) fn target(words: &[&str], from: usize) -> Target {
    let root = word(words, from);
    Target {
        root: Digest(<[u8; 32] as FromHex>::from_hex(root).unwrap_or([0; 32])),
        start: Location(number(words, from.saturating_add(1))),
        end: Location(number(words, from.saturating_add(2))),
    }
}

/// Prints a value, or `none`, behind a text.
pub(crate) fn push_value(page: &mut Page, before: &str, value: Option<u64>) {
    page.push(before);
    match value {
        Some(value) => page.number(value),
        None => page.push("none"),
    }
}

/// Prints values in a line.
pub(crate) fn say_values(page: &mut Page, values: &[Option<u64>]) {
    page.push("values");
    for value in values {
        push_value(page, " ", *value);
    }
    page.end();
}

/// Prints a root with its range, in a line.
pub(crate) fn say_target(page: &mut Page, target: &Target) {
    page.hex(target.root.0.as_slice());
    page.field(" ", target.start.0);
    page.field("..", target.end.0);
    page.end();
}

/// Prints the expected and the other target, each in a line.
pub(crate) fn say_both(page: &mut Page, expected: &Target, other: &Target) {
    page.push("  expected ");
    say_target(page, expected);
    page.push("  here ");
    say_target(page, other);
}

/// Prints why a call of a set failed, and at which database.
pub(crate) fn say_failed(page: &mut Page, error: SetError) {
    page.show(&error);
    if let SetError::DatabaseFault { index, call } = error {
        page.push(" ");
        page.show(&index);
        page.push(" ");
        page.debug(&call);
    }
    page.end();
}

/// `ok`, or why a call of a set failed.
pub(crate) fn say_done(page: &mut Page, outcome: Result<(), SetError>) {
    match outcome {
        Ok(()) => page.say("ok"),
        Err(error) => say_failed(page, error),
    }
}

/// `ok`, or which database didn't open, and why.
pub(crate) fn say_opened(page: &mut Page, outcome: Result<(), SetInit>) {
    let Err(refused) = outcome else {
        return page.say("ok");
    };
    page.show(&refused.index);
    page.push(": ");
    page.line(&refused);
    if let InitError::TargetMismatch {
        expected,
        recovered,
    } = refused.why
    {
        say_both(page, &expected, &recovered);
    }
}

/// Prints why a batch refused a read or a seal.
pub(crate) fn say_refused(page: &mut Page, error: BatchError) {
    page.show(&error);
    match error {
        BatchError::LocationOutOfBounds { location }
        | BatchError::LocationOutOfOrder { location }
        | BatchError::BelowInactivityFloor { location } => page.field(" ", location.0),
        BatchError::SlotCount { expected, given } => {
            page.push(" expected ");
            page.show(&expected);
            page.push(" given ");
            page.show(&given);
        }
        _ => {}
    }
    page.end();
}

/// Prints what a read of one value gave.
pub(crate) fn say_read(page: &mut Page, read: Result<Option<u64>, BatchError>) {
    match read {
        Ok(value) => say_value(page, value),
        Err(error) => say_refused(page, error),
    }
}

/// Prints a value, or `none`, in a line.
pub(crate) fn say_value(page: &mut Page, value: Option<u64>) {
    push_value(page, "", value);
    page.end();
}

/// Prints what a read of several values gave.
pub(crate) fn say_reads(page: &mut Page, read: Result<Vec<Option<u64>>, BatchError>) {
    match read {
        Ok(values) => say_values(page, values.as_slice()),
        Err(error) => say_refused(page, error),
    }
}
