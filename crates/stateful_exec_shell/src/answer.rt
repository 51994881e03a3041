//! What calls answer.

use stateful_exec::{BuildStart, ExecError, ExecutionStep, Front, Joined, Stage};
use stateful_types::Digest;

/// What a call answers beside its marks: a word, with numbers and a block behind it.
#[derive(Clone, Copy)]
pub(crate) enum Answer {
    Nothing,
    Word(&'static str),
    Number(&'static str, u64),
    Numbers(&'static str, u64, u64),
    Block(&'static str, Digest),
    /// With a job before the block.
    Job(&'static str, u64, Digest),
    /// The live build: its job, its ticket and its parent.
    Build(u64, u64, Digest),
}

/// The same, or why the call is refused.
pub(crate) type Made = Result<Answer, ExecError>;

/// `yes` or `no`.
pub(crate) fn yes_or_no(is_so: bool) -> Answer {
    Answer::Word(if is_so { "yes" } else { "no" })
}

/// Of a call that tells whether something is so.
pub(crate) fn told(made: Result<bool, ExecError>) -> Made {
    Ok(yes_or_no(made?))
}

/// Of a call that answers nothing.
pub(crate) fn done(made: Result<(), ExecError>) -> Made {
    made?;
    Ok(Answer::Nothing)
}

/// Of `ready`.
pub(crate) fn ready(ticket: Option<u64>) -> Answer {
    match ticket {
        Some(ticket) => Answer::Number("ready", ticket),
        None => Answer::Word("none ready"),
    }
}

/// Of `build`.
pub(crate) fn started(made: Result<BuildStart, ExecError>) -> Made {
    match made? {
        BuildStart::Started(job) => Ok(Answer::Number("job", job)),
        BuildStart::Declined => Ok(Answer::Word("no job")),
    }
}

/// Of `next`.
pub(crate) fn next(step: Option<ExecutionStep>) -> Answer {
    match step {
        Some(step) => Answer::Block("next", step.digest),
        None => Answer::Word("none next"),
    }
}

/// Of `process`.
pub(crate) fn joined(made: Result<Option<Joined>, ExecError>) -> Made {
    match made? {
        Some(Joined::Known) => Ok(Answer::Word("known")),
        Some(Joined::Run(job)) => Ok(Answer::Number("joins", job)),
        Some(Joined::Missed) => Ok(Answer::Word("misses")),
        None => Ok(Answer::Word("none next")),
    }
}

/// Of `front`.
pub(crate) fn front<B, R, U, H>(front: Option<&Front<B, R, U, H>>) -> Answer {
    let Some(front) = front else {
        return Answer::Word("no front");
    };
    let digest = front.block.digest();
    match &front.stage {
        Stage::Begun => Answer::Block("begun", digest),
        Stage::Running { job, .. } => Answer::Job("running", *job, digest),
        Stage::Ran(_) => Answer::Block("ran", digest),
        Stage::Advanced => Answer::Block("advanced", digest),
        Stage::Hooking { job, .. } => Answer::Job("hooking", *job, digest),
    }
}
