//! Marks, by their words. The tickets T, jobs J, fetches F and barriers B that they tell of are
//! numbers, and blocks L letters.
//!
//!     answered T vote L, or stage, or block; built J T L; applied L
//!     verdict T true, or false; declined T; databases T; acknowledged T; dropped T
//!     asked F; withdrawn F; started J; ended J; barrier-begun B; barrier-done B; stopped

use crate::letter::{Letter, block};
use crate::words::letter;
use stateful_base::{Digest, Height, OutOfMemory};
use stateful_history::{Decision, How, JobKind, Mark};
use stateful_shell::{Page, number, rest, word};

const DIGEST: Digest = Digest([7; 32]);

const HEIGHT: Height = Height(1);

fn decision(word: &str) -> Decision {
    match word {
        "vote" => Decision::Vote,
        "stage" => Decision::Stage,
        _ => Decision::Block,
    }
}

/// A mark of a fetch, a job, a barrier or a stop, by its first word and its number.
fn work_mark(kind: &str, named: u64) -> Option<Mark<Letter>> {
    match kind {
        "asked" => Some(Mark::Asked {
            fetch: named,
            ticket: None,
            digest: DIGEST,
        }),
        "withdrawn" => Some(Mark::Withdrawn { fetch: named }),
        "started" => Some(Mark::Started {
            job: named,
            kind: JobKind::Candidate,
            digest: DIGEST,
        }),
        "ended" => Some(Mark::Ended {
            job: named,
            how: How::Kept,
        }),
        "barrier-begun" => Some(Mark::BarrierBegun {
            barrier: named,
            height: HEIGHT,
        }),
        "barrier-done" => Some(Mark::BarrierDone {
            barrier: named,
            height: HEIGHT,
            good: true,
        }),
        "stopped" => Some(Mark::Stopped),
        _ => None,
    }
}

/// A mark without a block, by the words behind the stroke. None where they are none.
fn plain_mark(words: &[&str]) -> Option<Mark<Letter>> {
    let named = number(words, 2);
    match word(words, 1) {
        "verdict" => Some(Mark::Verdict {
            ticket: named,
            valid: word(words, 3) == "true",
        }),
        "declined" => Some(Mark::Declined { ticket: named }),
        "databases" => Some(Mark::Databases { ticket: named }),
        "acknowledged" => Some(Mark::Acknowledged {
            ticket: named,
            height: HEIGHT,
        }),
        "dropped" => Some(Mark::Dropped { ticket: named }),
        kind => work_mark(kind, named),
    }
}

/// The mark of the words behind a stroke. None where they are none, or where memory lacks.
fn mark_of(words: &[&str], page: &mut Page) -> Option<Mark<Letter>> {
    let named = number(words, 2);
    match word(words, 1) {
        "answered" => Some(Mark::Answered {
            ticket: named,
            decision: decision(word(words, 3)),
            block: block(letter(words, 4), page)?,
        }),
        "built" => Some(Mark::Built {
            job: named,
            ticket: number(words, 3),
            block: block(letter(words, 4), page)?,
        }),
        "applied" => Some(Mark::Applied {
            block: block(letter(words, 2), page)?,
        }),
        _ => plain_mark(words),
    }
}

/// The marks of a line, each behind a stroke. What is none is left out.
pub(crate) fn marks_of(words: &[&str], page: &mut Page) -> Result<Vec<Mark<Letter>>, OutOfMemory> {
    let mut marks = Vec::new(page.alloc());
    for (at, word) in words.iter().enumerate() {
        if *word == "/"
            && let Some(mark) = mark_of(rest(words, at), page)
        {
            marks.push(mark)?;
        }
    }
    Ok(marks)
}
