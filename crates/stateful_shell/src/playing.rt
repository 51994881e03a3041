//! A program over a shell: the files that it is given.

use crate::case::{Cases, Shell, Tally};
use anyhow::Error;
use std::process::ExitCode;
use std::{env, fs, io};

/// Plays a file, and prints what differs and how many cases are the same.
fn play_file<S: Shell>(rt: &HostRuntime, name: &str) -> Result<Tally, Error> {
    let text = fs::read_to_string(rt, name)?;
    let mut cases = Cases::<S>::new(rt.alloc());
    let mut number: u64 = 0;
    for line in text.lines() {
        number = number.saturating_add(1);
        if let Some(report) = cases.take(line)? {
            println!(rt; "{name}:{number}: differs\n{report}")?;
        }
    }
    if let Some(report) = cases.finish()? {
        println!(rt; "{name}:{number}: differs\n{report}")?;
    }
    let tally = cases.tally;
    println!(rt;
        "{name}: {same} the same, {other} differ",
        same = tally.same,
        other = tally.other
    )?;
    Ok(tally)
}

/// Prints a file anew.
fn print_file<S: Shell>(rt: &HostRuntime, name: &str) -> Result<(), Error> {
    let text = fs::read_to_string(rt, name)?;
    let mut cases = Cases::<S>::new(rt.alloc());
    for line in text.lines() {
        print!(rt; "{}", cases.take_anew(line)?)?;
    }
    Ok(())
}

/// Plays the files that the program's words name, or prints one of them anew. The status is 1 where
/// a case differs or none was played.
pub fn play_files<S: Shell>(rt: &HostRuntime) -> Result<ExitCode, Error> {
    let mut words = env::args(rt)?.skip(1);
    let mut all = Tally { same: 0, other: 0 };
    let mut is_print = false;
    for word in words {
        if word.as_str() == "print" {
            is_print = true;
        } else if is_print {
            print_file::<S>(rt, word.as_str())?;
            all.same = all.same.saturating_add(1);
        } else {
            let tally = play_file::<S>(rt, word.as_str())?;
            all.same = all.same.saturating_add(tally.same);
            all.other = all.other.saturating_add(tally.other);
        }
    }
    let is_good = all.other == 0 && all.same > 0;
    Ok(ExitCode::from(if is_good { 0 } else { 1 }))
}
