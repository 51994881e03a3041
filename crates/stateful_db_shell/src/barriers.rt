//! Barriers by themselves.

use crate::words::say_value;
use stateful_base::OutOfMemory;
use stateful_db::{Barrier, FlushToken, Flushed};
use stateful_shell::{Page, index, number, word};
use std::alloc::Global;

/// A barrier of tokens of these places.
fn of_places(alloc: Global, words: &[&str]) -> Result<Barrier, OutOfMemory> {
    let mut tokens = Vec::new(alloc);
    for at in 1..words.len() {
        tokens.push(FlushToken {
            place: number(words, at),
        })?;
    }
    Barrier::from_handles(tokens)
}

/// `barrier PLACE..`: begins one.
pub(crate) fn begin(kept: &mut Option<Barrier>, words: &[&str], page: &mut Page) {
    match of_places(page.alloc(), words) {
        Ok(barrier) => {
            say_poll(&barrier, page);
            *kept = Some(barrier);
        }
        Err(OutOfMemory) => page.lack(),
    }
}

/// Prints how a barrier stands.
fn say_poll(barrier: &Barrier, page: &mut Page) {
    page.debug(&barrier.poll());
    page.end();
}

/// `answer N good`, `answer N interrupted`: how a flush went.
fn answer(barrier: &mut Barrier, words: &[&str], page: &mut Page) {
    let number = index(words, 1);
    let answer = match word(words, 2) {
        "good" => Flushed::Good,
        "interrupted" => Flushed::Interrupted,
        _ => return page.say("no such command"),
    };
    if barrier.handle(number).is_none() {
        return page.say("refused");
    }
    page.debug(&barrier.durable(number, answer));
    page.end();
}

/// What a line says of a barrier.
pub(crate) fn play(kept: &mut Option<Barrier>, words: &[&str], page: &mut Page) {
    let Some(barrier) = kept else {
        return page.say("no barrier");
    };
    match word(words, 0) {
        "handle" => {
            let token = barrier.handle(index(words, 1));
            say_value(page, token.map(|token| token.place));
        }
        "answer" => answer(barrier, words, page),
        _ => say_poll(barrier, page),
    }
}
