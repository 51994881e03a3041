//! The line of a mark.

ghost use Rattle.std.specs.Prelude.{◌≡◌, ◌++◌, OnOk};
ghost use Rattle.stateful_script_text.specs.Mark.{kind_word, how_word, decision_word, truth_word};
ghost use Rattle.stateful_script_text.specs.Mark.{done_word, mark_line};

use crate::line::{Field, Lines};
use stateful_base::{Block, OutOfMemory};
use stateful_history::{Decision, How, JobKind, Mark};

fn kind_word(kind: JobKind) -> &'static str
    ensures { result.now ≡ kind_word kind }
{
    match kind {
        JobKind::Candidate => "candidate",
        JobKind::Finalized => "finalized",
        JobKind::Build => "build",
        JobKind::Hook => "hook",
    }
}

fn how_word(how: How) -> &'static str
    ensures { result.now ≡ how_word how }
{
    match how {
        How::Kept => "kept",
        How::Rejected => "rejected",
        How::Mismatched => "mismatched",
        How::Missed => "missed",
        How::Cancelled => "cancelled",
        How::Nothing => "nothing",
        How::Hooked => "hooked",
    }
}

fn decision_word(decision: Decision) -> &'static str
    ensures { result.now ≡ decision_word decision }
{
    match decision {
        Decision::Block => "block",
        Decision::Vote => "vote",
        Decision::Stage => "stage",
    }
}

fn truth_word(truth: bool) -> &'static str
    ensures { result.now ≡ truth_word truth }
{
    if truth { "true" } else { "false" }
}

fn done_word(good: bool) -> &'static str
    ensures { result.now ≡ done_word good }
{
    if good { "durable" } else { "broken" }
}

/// Appends the line of a mark.
pub fn push_mark<B: Block>(
    lines: Lines<'_>,
    out: &mut Vec<u8>,
    mark: &Mark<B>,
) -> Result<(), OutOfMemory>
    ensures { OnOk result
        (out.new.items ≡ out.old.items
        ++ mark_line B.header.height lines.entry.labels.now mark.now) }
{
    use Field::{Block, Number, Word};
    match mark {
        Mark::Opened { anchor } => lines.block(out, "opened", anchor.height.0, anchor.digest),
        Mark::Converged { anchor } => lines.block(out, "converged", anchor.height.0, anchor.digest),
        Mark::Asked {
            fetch,
            ticket,
            digest,
        } => {
            let asker = match ticket {
                Some(ticket) => Number(*ticket),
                None => Word("floor"),
            };
            lines.line(out, "asked", &[Number(*fetch), asker, Block(*digest)])
        }
        Mark::Withdrawn { fetch } => lines.number(out, "withdrawn", *fetch),
        Mark::Started { job, kind, digest } => {
            let kind = Word(kind_word(*kind));
            lines.line(out, "started", &[Number(*job), kind, Block(*digest)])
        }
        Mark::Ended { job, how } => lines.word(out, "ended", *job, how_word(*how)),
        Mark::Built { job, ticket, block } => {
            let block = Block(block.digest());
            lines.line(out, "built", &[Number(*job), Number(*ticket), block])
        }
        Mark::Verdict { ticket, valid } => lines.word(out, "verdict", *ticket, truth_word(*valid)),
        Mark::Answered {
            ticket,
            decision,
            block,
        } => {
            let decision = Word(decision_word(*decision));
            let block = Block(block.digest());
            lines.line(out, "answered", &[Number(*ticket), decision, block])
        }
        Mark::Declined { ticket } => lines.number(out, "declined", *ticket),
        Mark::Databases { ticket } => lines.number(out, "databases", *ticket),
        Mark::Began { ticket, block } => lines.block(out, "began", *ticket, block.digest()),
        Mark::Applied { block } => lines.block(out, "applied", block.height().0, block.digest()),
        Mark::BarrierBegun { barrier, height } => lines.pair(out, "barrier", *barrier, height.0),
        Mark::BarrierDone {
            barrier,
            height,
            good,
        } => lines.pair(out, done_word(*good), *barrier, height.0),
        Mark::Acknowledged { ticket, height } => lines.pair(out, "acknowledged", *ticket, height.0),
        Mark::Dropped { ticket } => lines.number(out, "dropped", *ticket),
        Mark::Recorded { anchor } => lines.block(out, "recorded", anchor.height.0, anchor.digest),
        Mark::Dispatched { generation, height } => lines.pair(
            out,
            "dispatched",
            *generation,
            height.0,
        ),
        Mark::Pruned { marshal, target } => lines.pair(out, "pruned", marshal.0, target.0),
        Mark::Completed { height } => lines.number(out, "completed", height.0),
        Mark::Stopped => lines.line(out, "stopped", &[]),
    }
}
