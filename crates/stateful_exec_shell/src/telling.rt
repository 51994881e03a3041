//! What is printed of marks, answers and errors.

use crate::answer::{Answer, Made};
use crate::blocks::Blocks;
use stateful_exec::{ExecError, ProposalFault};
use stateful_history::{Decision, How, JobKind, Mark};
use stateful_shell::Page;
use stateful_types::Round;

fn kind_word(kind: JobKind) -> &'static str {
    match kind {
        JobKind::Candidate => "runs ",
        JobKind::Finalized => "finalizes ",
        JobKind::Build => "builds ",
        JobKind::Hook => "hooks ",
    }
}

fn end_word(how: How) -> &'static str {
    match how {
        How::Kept => "kept ",
        How::Rejected => "rejected ",
        How::Mismatched => "mismatched ",
        How::Missed => "missed ",
        How::Cancelled => "cancelled ",
        How::Nothing => "empty ",
        How::Hooked => "hooked ",
    }
}

fn decision_word(decision: Decision) -> &'static str {
    match decision {
        Decision::Block => "gives ",
        Decision::Vote => "votes ",
        Decision::Stage => "stages ",
    }
}

/// What a mark tells.
fn tell_mark<B: Drop>(mark: &Mark<B>, blocks: &Blocks<B>, page: &mut Page) {
    match mark {
        Mark::Asked {
            fetch,
            ticket: Some(ticket),
            digest,
        } => {
            page.field("asks ", *fetch);
            page.field(" ", *ticket);
            blocks.show(*digest, page)
        }
        Mark::Withdrawn { fetch } => page.field("withdraws ", *fetch),
        Mark::Started { job, kind, digest } => {
            page.field(kind_word(*kind), *job);
            blocks.show(*digest, page)
        }
        Mark::Ended { job, how } => page.field(end_word(*how), *job),
        Mark::Built { job, ticket, block } => {
            page.field("built ", *job);
            page.field(" ", *ticket);
            blocks.show(block.digest(), page)
        }
        Mark::Verdict { ticket, valid } => {
            page.field(if *valid { "valid " } else { "invalid " }, *ticket)
        }
        Mark::Answered {
            ticket,
            decision,
            block,
        } => {
            page.field(decision_word(*decision), *ticket);
            blocks.show(block.digest(), page)
        }
        Mark::Declined { ticket } => page.field("declines ", *ticket),
        _ => page.push("another mark"),
    }
}

/// What a call answers.
fn tell_answer<B: Drop>(answer: Answer, blocks: &Blocks<B>, page: &mut Page) {
    match answer {
        Answer::Nothing => {}
        Answer::Word(word) => page.push(word),
        Answer::Number(word, number) => {
            page.push(word);
            page.field(" ", number)
        }
        Answer::Numbers(word, first, second) => {
            page.push(word);
            page.field(" ", first);
            page.field(" ", second)
        }
        Answer::Block(word, digest) => {
            page.push(word);
            blocks.show(digest, page)
        }
        Answer::Job(word, job, digest) => {
            page.push(word);
            page.field(" ", job);
            blocks.show(digest, page)
        }
        Answer::Build(job, ticket, digest) => {
            page.field("building ", job);
            page.field(" ", ticket);
            blocks.show(digest, page)
        }
    }
}

/// The views of two rounds.
fn tell_views(first: Round, second: Round, page: &mut Page) {
    page.field(" ", first.view.0);
    page.field(" ", second.view.0)
}

fn tell_fault<B: Drop>(fault: ProposalFault, blocks: &Blocks<B>, page: &mut Page) {
    match fault {
        ProposalFault::Targets { index, .. } => page.field(" Targets ", index as u64),
        ProposalFault::Parent { expected, given } => {
            page.push(" Parent");
            blocks.show(expected, page);
            blocks.show(given, page)
        }
        ProposalFault::Round { expected, given } => {
            page.push(" Round");
            tell_views(expected, given, page)
        }
    }
}

/// Why a call is refused.
fn tell_error<B: Drop>(error: ExecError, blocks: &Blocks<B>, page: &mut Page) {
    page.push("refused ");
    page.show(&error);
    match error {
        ExecError::SkippedHeight { expected, given } => {
            page.field(" ", expected.0);
            page.field(" ", given.0)
        }
        ExecError::NotExtending { expected, given }
        | ExecError::ConflictAtAnchor { expected, given } => {
            blocks.show(expected, page);
            blocks.show(given, page)
        }
        ExecError::FinalizedRejected { digest } => blocks.show(digest, page),
        ExecError::FinalizedMismatch { index, .. } => page.field(" ", index as u64),
        ExecError::ProposalMismatch(fault) => tell_fault(fault, blocks, page),
        ExecError::ProposalStale { anchor, round } => tell_views(anchor, round, page),
        ExecError::PendingChanged { before, after } => {
            tell_views(before.round, after.round, page)
        }
        ExecError::Lost | ExecError::Application | ExecError::Exhausted | ExecError::OutOfMemory =>
            {}
    }
}

/// A line: what the marks of a call tell, and what it answers or why it is refused.
pub(crate) fn tell_line<B: Drop>(
    marks: &Vec<Mark<B>>,
    made: Made,
    blocks: &Blocks<B>,
    page: &mut Page,
) {
    let mut comma = "";
    for mark in marks {
        page.push(comma);
        tell_mark(mark, blocks, page);
        comma = ", ";
    }
    match made {
        Ok(Answer::Nothing) => page.push(if comma.is_empty() { "nothing" } else { "" }),
        Ok(answer) => {
            page.push(comma);
            tell_answer(answer, blocks, page)
        }
        Err(error) => {
            page.push(comma);
            tell_error(error, blocks, page)
        }
    }
    page.end()
}
