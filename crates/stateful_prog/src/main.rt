//! Plays a script from standard input.
#![tactic(auto)]

ghost use Rattle.std.specs.Prelude.{◌≡◌};
ghost use Rattle.stateful_prog.specs.Numbers.{number_of};

use stateful_play::{Status, run};
use stateful_prog_edge::{StdSink, StdSource};
use std::process::ExitCode;
use std::{env, io};

/// The words behind the program's name. Where memory has run out, none.
fn words(rt: &HostRuntime) -> Option<Vec<String>> {
    let mut words = Vec::new(rt.alloc());
    for word in env::args(rt).ok()?.skip(1) {
        words.push(word).ok()?;
    }
    Some(words)
}

/// The number of a status.
fn number_of(status: Status) -> u8
    ensures { result ≡ number_of status }
{
    match status {
        Status::Done => 0,
        Status::Usage => 1,
        Status::Script { .. } => 2,
        Status::Halted { .. } => 3,
        Status::ReadFault => 4,
        Status::WriteFault => 5,
        Status::NoMemory => 6,
    }
}

fn main(rt: HostRuntime) -> ExitCode {
    let Some(words) = words(&rt) else {
        return ExitCode::from(number_of(Status::NoMemory));
    };
    let mut source = StdSource::new(rt.reader());
    let mut sink = StdSink::new(io::writer(&rt));
    let outcome = run(rt.alloc(), words.as_slice(), &mut source, &mut sink);
    ExitCode::from(number_of(outcome.status))
}
