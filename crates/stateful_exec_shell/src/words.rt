//! What the words of a line mean.

use crate::block::{End, FakeBlock};
use stateful_db_plain::PlainState;
use stateful_shell::{beside, number, parsed, word};
use stateful_types::{Digest, Epoch, Height, Round, View};
use std::alloc::Global;
use std::collections::BTreeMap;

/// A command on execution.
#[derive(Clone, Copy)]
pub(crate) enum Command {
    Building,
    Front,
    Anchor,
    Awaited,
    Idle,
    Numbers,
    Pause,
    Resume,
    Ready,
    DropFront,
    Close,
    Past,
    Begin,
    Run,
    Advance,
    Observe,
    Store,
    Cached,
    Fetched,
    Cancel,
    Turn,
    Start,
    Next,
    Process,
    Build,
    TurnBuild,
    TurnHook,
    Propose,
    Prepare,
    Settle,
    Verify,
    Reopen,
    Unknown,
}

/// The commands by their words.
const COMMANDS: &[(&str, Command)] = &[
    ("building", Command::Building),
    ("front", Command::Front),
    ("anchor", Command::Anchor),
    ("awaited", Command::Awaited),
    ("idle", Command::Idle),
    ("numbers", Command::Numbers),
    ("pause", Command::Pause),
    ("resume", Command::Resume),
    ("ready", Command::Ready),
    ("drop", Command::DropFront),
    ("close", Command::Close),
    ("past", Command::Past),
    ("begin", Command::Begin),
    ("run", Command::Run),
    ("advance", Command::Advance),
    ("observe", Command::Observe),
    ("store", Command::Store),
    ("cached", Command::Cached),
    ("fetched", Command::Fetched),
    ("cancel", Command::Cancel),
    ("turn", Command::Turn),
    ("start", Command::Start),
    ("next", Command::Next),
    ("process", Command::Process),
    ("build", Command::Build),
    ("turn_build", Command::TurnBuild),
    ("turn_hook", Command::TurnHook),
    ("propose", Command::Propose),
    ("prepare", Command::Prepare),
    ("settle", Command::Settle),
    ("verify", Command::Verify),
    ("reopen", Command::Reopen),
];

impl Command {
    /// The command of a word.
    pub(crate) fn of(word: &str) -> Command {
        beside(COMMANDS, word, Command::Unknown)
    }
}

/// The round of the view that stands there, in the epoch 0.
pub(crate) fn round(words: &[&str], at: usize) -> Round {
    Round {
        epoch: Epoch(0),
        view: View(number(words, at)),
    }
}

/// What a run or a build ends with: `nothing`, `fails`, or else with states.
pub(crate) fn end(words: &[&str], at: usize) -> End {
    match word(words, at) {
        "nothing" => End::Nothing,
        "fails" => End::Fails,
        _ => End::States,
    }
}

/// The block on this parent of which a line says the rest: its byte, height, view, target, turns,
/// end and hook.
pub(crate) fn block_of(alloc: Global, parent: Digest, words: &[&str]) -> FakeBlock {
    let applied = number(words, 6).saturating_add(1);
    FakeBlock {
        name: parsed(word(words, 3), 0),
        parent,
        height: Height(number(words, 4)),
        round: round(words, 5),
        target: PlainState::new(applied, BTreeMap::new(alloc)).target(),
        turns: parsed(word(words, 7), 0),
        end: end(words, 8),
        hook: parsed(word(words, 9), 0),
    }
}
