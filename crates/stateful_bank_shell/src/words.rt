//! What the words of a line stand for. A word that stands for nothing is 0, or is left out.

use hex::FromHex;
use stateful_bank::{BankBlock, Op};
use stateful_base::{Digest, Handoff, Height, Items, Location, OutOfMemory, Target};
use stateful_shell::{Page, beside, number, parsed, word};
use std::alloc::Global;
use std::collections::BTreeMap;

/// The first word of a line.
#[derive(Clone, Copy)]
pub(crate) enum Command {
    Do,
    Accept,
    Ask,
    Genesis,
    Child,
    Propose,
    Slow,
    Encode,
    State,
    Step,
    Keep,
    World,
    First,
    Run,
    Build,
    Turn,
    Turns,
    Seal,
    Leads,
    Apply,
    Roots,
    Depth,
    Commits,
    Matches,
    Hook,
    Open,
    Unknown,
}

/// The commands by their words.
const COMMANDS: &[(&str, Command)] = &[
    ("do", Command::Do),
    ("accept", Command::Accept),
    ("ask", Command::Ask),
    ("genesis", Command::Genesis),
    ("child", Command::Child),
    ("propose", Command::Propose),
    ("slow", Command::Slow),
    ("encode", Command::Encode),
    ("state", Command::State),
    ("step", Command::Step),
    ("keep", Command::Keep),
    ("world", Command::World),
    ("first", Command::First),
    ("run", Command::Run),
    ("build", Command::Build),
    ("turn", Command::Turn),
    ("turns", Command::Turns),
    ("seal", Command::Seal),
    ("leads", Command::Leads),
    ("apply", Command::Apply),
    ("roots", Command::Roots),
    ("depth", Command::Depth),
    ("commits", Command::Commits),
    ("matches", Command::Matches),
    ("hook", Command::Hook),
    ("open", Command::Open),
];

/// The command of a word.
pub(crate) fn command_of(word: &str) -> Command {
    beside(COMMANDS, word, Command::Unknown)
}

/// The words of a line.
pub(crate) fn words_of<'a>(line: &'a str, alloc: Global) -> Result<Vec<&'a str>, OutOfMemory> {
    Ok(line.split_whitespace().collect(alloc)?)
}

/// A digest in hex.
pub(crate) fn digest(words: &[&str], at: usize) -> Digest {
    Digest(<[u8; 32] as FromHex>::from_hex(word(words, at)).unwrap_or([0; 32]))
}

/// How a block is handed over.
pub(crate) fn decision(word: &str) -> Handoff<()> {
    match word {
        "vote" => Handoff::Vote(()),
        "stage" => Handoff::Stage(()),
        _ => Handoff::Wait,
    }
}

/// The operation of a word, if it stands for one.
fn op(word: &str) -> Option<Op> {
    let (kind, rest) = word.split_once(':')?;
    let (first, rest) = rest.split_once(':')?;
    match kind {
        "mint" => Some(Op::Mint {
            account: parsed(first, 0),
            amount: parsed(rest, 0),
        }),
        "move" => {
            let (to, amount) = rest.split_once(':')?;
            Some(Op::Move {
                from: parsed(first, 0),
                to: parsed(to, 0),
                amount: parsed(amount, 0),
            })
        }
        _ => None,
    }
}

/// The target of a word, if it stands for one.
fn target(word: &str) -> Option<Target> {
    let (root, range) = word.split_once(':')?;
    let (start, end) = range.split_once(':')?;
    Some(Target {
        root: Digest(<[u8; 32] as FromHex>::from_hex(root).ok()?),
        start: Location(parsed(start, 0)),
        end: Location(parsed(end, 0)),
    })
}

/// The entry of a word, if it stands for one.
fn entry(word: &str) -> Option<(u64, u64)> {
    let (account, amount) = word.split_once(':')?;
    Some((account.parse::<u64>().ok()?, parsed(amount, 0)))
}

/// The operations among the words.
pub(crate) fn ops(words: &[&str], page: &mut Page) -> Items<Op> {
    let mut ops = Items::new(page.alloc());
    for word in words {
        if let Some(op) = op(word) {
            if ops.push(op).is_err() {
                page.lack();
            }
        }
    }
    ops
}

/// The targets among the words.
pub(crate) fn targets(words: &[&str], page: &mut Page) -> Items<Target> {
    let mut targets = Items::new(page.alloc());
    for word in words {
        if let Some(target) = target(word) {
            if targets.push(target).is_err() {
                page.lack();
            }
        }
    }
    targets
}

/// The entries among the words.
pub(crate) fn entries(words: &[&str], page: &mut Page) -> BTreeMap<u64, u64> {
    let mut entries = BTreeMap::new(page.alloc());
    for word in words {
        if let Some((account, amount)) = entry(word) {
            if entries.insert(account, amount).is_err() {
                page.lack();
            }
        }
    }
    entries
}

/// The block that a line on databases brings: its height and the turns of its hook, as far as the
/// line says them, its operations and its targets.
pub(crate) fn block_of(words: &[&str], page: &mut Page) -> BankBlock {
    let mut block = BankBlock::genesis(page.alloc(), targets(words, page));
    block.height = Height(number(words, 5));
    block.slow = parsed(word(words, 2), 0);
    block.ops = ops(words, page);
    block
}
