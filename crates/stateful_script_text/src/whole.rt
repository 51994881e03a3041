//! The whole text of a history, and the lines that stand in its place.

ghost use Rattle.std.specs.Prelude.{◌≡◌, ◌++◌, ◌∷◌, codes, IfOk, OnOk};
ghost use Rattle.std.specs.Fmt.{decimal};
ghost use Rattle.std.specs.List.{flat_map, enumerate_from};
ghost use Rattle.stateful_script_text.specs.Transcript.{entry_lines, entries_from, balance_text};
ghost use Rattle.stateful_script_text.specs.Transcript.{range_text, database_line};
ghost use Rattle.stateful_script_text.specs.Transcript.{end_line, ending_of, transcript, usage_line};
ghost use Rattle.stateful_script_text.specs.Transcript.{script_line};
ghost use Rattle.stateful_script_text.specs.declared.shown.Shown.TheVariants.{Balances, Range};

use crate::label::Labels;
use crate::line::{Lines, push, push_number};
use crate::mark::push_mark;
use crate::shown::{End, Label, Shown};
use stateful_base::{Block, OutOfMemory};
use stateful_history::Entry;
use std::alloc::Global;

fn push_entry<B: Block, C, I>(
    lines: Lines<'_>,
    out: &mut Vec<u8>,
    number: usize,
    entry: &Entry<B, C, I>,
) -> Result<(), OutOfMemory>
    ensures { OnOk result
        (out.new.items ≡ out.old.items
        ++ entry_lines B.header.height lines.entry.labels.now (number, entry.now)) }
{
    push(out, b"#")?;
    push_number(lines.alloc, out, number as u64)?;
    push(out, b"\n")?;
    for mark in entry.marks.as_slice() {
        push_mark(lines, out, mark)?;
    }
    Ok(())
}

#[tactic(auto, using(crate::proofs::Numbered::numbered_all))]
fn push_entries<B: Block, C, I>(
    lines: Lines<'_>,
    out: &mut Vec<u8>,
    entries: &[Entry<B, C, I>],
) -> Result<(), OutOfMemory>
    ensures { OnOk result
        (out.new.items ≡ out.old.items
        ++ entries_from B.header.height lines.entry.labels.now 0 entries.now) }
{
    for (number, entry) in entries.iter().enumerate() {
        push_entry(lines, out, number, entry)?;
    }
    Ok(())
}

fn push_balance(
    lines: Lines<'_>,
    out: &mut Vec<u8>,
    account: u64,
    balance: u64,
) -> Result<(), OutOfMemory>
    ensures { OnOk result
        (out.new.items ≡ out.old.items ++ 32 ∷ balance_text (account, balance)) }
{
    push(out, b" ")?;
    push_number(lines.alloc, out, account)?;
    push(out, b"=")?;
    push_number(lines.alloc, out, balance)
}

/// What a line begins with that shows a range: the database's number, and its operations.
fn push_head(
    lines: Lines<'_>,
    out: &mut Vec<u8>,
    number: usize,
    start: u64,
    end: u64,
) -> Result<(), OutOfMemory>
    ensures { OnOk result
        (out.new.items ≡ out.old.items ++ codes "database " ++ decimal number
        ++ 32 ∷ range_text start end) }
{
    push(out, b"database ")?;
    push_number(lines.alloc, out, number as u64)?;
    push(out, b" ")?;
    push_number(lines.alloc, out, start)?;
    push(out, b"..")?;
    push_number(lines.alloc, out, end)
}

fn push_balances(
    lines: Lines<'_>,
    out: &mut Vec<u8>,
    number: usize,
    start: u64,
    end: u64,
    balances: &[(u64, u64)],
) -> Result<(), OutOfMemory>
    ensures { OnOk result
        (out.new.items ≡ out.old.items ++ database_line (number, Balances start end balances.now)) }
{
    push_head(lines, out, number, start, end)?;
    for (account, balance) in balances {
        push_balance(lines, out, *account, *balance)?;
    }
    push(out, b"\n")
}

fn push_range(
    lines: Lines<'_>,
    out: &mut Vec<u8>,
    number: usize,
    start: u64,
    end: u64,
) -> Result<(), OutOfMemory>
    ensures { OnOk result
        (out.new.items ≡ out.old.items ++ database_line (number, Range start end)) }
{
    push_head(lines, out, number, start, end)?;
    push(out, b"\n")
}

fn push_database(
    lines: Lines<'_>,
    out: &mut Vec<u8>,
    number: usize,
    shown: &Shown,
) -> Result<(), OutOfMemory>
    ensures { OnOk result
        (out.new.items ≡ out.old.items ++ database_line (number, shown.now)) }
{
    match shown {
        Shown::Balances {
            start,
            end,
            balances,
        } => push_balances(lines, out, number, *start, *end, balances.as_slice()),
        Shown::Range { start, end } => push_range(lines, out, number, *start, *end),
        Shown::Size { size } => lines.pair(out, "database", number as u64, *size),
        Shown::Closed => lines.word(out, "database", number as u64, "closed"),
        Shown::Lost => lines.word(out, "database", number as u64, "lost"),
        Shown::Away => lines.word(out, "database", number as u64, "away"),
    }
}

#[tactic(auto, using(crate::proofs::Numbered::numbered_all))]
fn push_databases(
    lines: Lines<'_>,
    out: &mut Vec<u8>,
    databases: &[Shown],
) -> Result<(), OutOfMemory>
    ensures { OnOk result
        (out.new.items ≡ out.old.items ++ flat_map database_line (enumerate_from 0 databases.now)) }
{
    for (number, shown) in databases.iter().enumerate() {
        push_database(lines, out, number, shown)?;
    }
    Ok(())
}

fn push_end(lines: Lines<'_>, out: &mut Vec<u8>, end: End<'_>) -> Result<(), OutOfMemory>
    ensures { OnOk result (out.new.items ≡ out.old.items ++ end_line (ending_of end.entry)) }
{
    match end {
        End::Done => lines.line(out, "done", &[]),
        End::Halted { at, name } => lines.word(out, "halted", at, name),
    }
}

/// The text of these entries, then of these databases, and how it ended. Blocks go by these labels.
pub fn transcript<B: Block, C, I>(
    alloc: Global,
    labels: &[Label],
    entries: &[Entry<B, C, I>],
    databases: &[Shown],
    end: End<'_>,
) -> Result<Vec<u8>, OutOfMemory>
    ensures { IfOk result (λ text. text.items
        ≡ transcript B.header.height labels.now entries.now databases.now (ending_of end.entry)) }
{
    let labels = Labels::new(alloc, labels)?;
    let lines = Lines {
        alloc,
        labels: &labels,
    };
    let mut text = Vec::new(alloc);
    push_entries(lines, &mut text, entries)?;
    push_databases(lines, &mut text, databases)?;
    push_end(lines, &mut text, end)?;
    Ok(text)
}

/// How the program is called.
pub fn usage_line(alloc: Global) -> Result<Vec<u8>, OutOfMemory>
    ensures { IfOk result (λ text. text.items ≡ usage_line) }
{
    let mut text = Vec::new(alloc);
    push(&mut text, b"usage: stateful_prog play\n")?;
    Ok(text)
}

/// The first line of a script that is refused.
pub fn script_line(alloc: Global, number: u64) -> Result<Vec<u8>, OutOfMemory>
    ensures { IfOk result (λ text. text.items ≡ script_line number) }
{
    let mut text = Vec::new(alloc);
    let labels = Labels::new(alloc, &[])?;
    let lines = Lines {
        alloc,
        labels: &labels,
    };
    lines.number(&mut text, "script", number)?;
    Ok(text)
}
