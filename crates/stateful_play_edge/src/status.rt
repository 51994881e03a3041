//! How a run ended.

use stateful_play_bank::Played;

/// How a run ended. The number that the program ends with is behind each.
#[derive(Clone, Copy, Debug, PartialEq, Eq)]
pub enum Status {
    /// 0: the script was played to its end, and its transcript is written.
    Done,
    /// 1: the words ask for nothing that the program does. The usage line is written.
    Usage,
    /// 2: no rule reads this line, from 1; or line 0, and the script is longer than 16 MiB. The
    ///   line's number is written.
    Script { line: u64 },
    /// 3: the event of this number was refused. The transcript is written, whose last line names
    ///   the error.
    Halted { at: usize },
    /// 4: the source failed. Nothing is written.
    ReadFault,
    /// 5: the sink failed. A prefix is written.
    WriteFault,
    /// 6: memory ran out. A prefix is written.
    NoMemory,
}

/// How a run ended, and what it played: there is something played exactly at `Done`, at `Halted`,
/// and at a `WriteFault` that cut the transcript of one of them.
#[derive(Drop)]
pub struct Outcome {
    pub status: Status,
    pub played: Option<Played>,
}
