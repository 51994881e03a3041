//! A log that gets longer.

ghost use Rattle.std.specs.Prelude.{◌≡◌, ◌+◌, ◌-◌, ◌++◌, length, IsTrue, ◌≤◌, IfOk, IfErr};
ghost use Rattle.stateful_db.specs.Disk.{applied};
ghost use Rattle.stateful_db_log.specs.Logs.{extended, disk_of, next_of, calls_of, standing_of};
ghost use Rattle.stateful_db_log.specs.Logs.{next_here, calls_here, held_of, held_here};
ghost use Rattle.stateful_db_log.specs.Held.{further};

use crate::log_medium::LogMedium;
use crate::open_log::OpenLog;
use stateful_base::Target;
use stateful_db_medium::Checkpoint;

/// The log with these operations behind it, and with their checkpoint. It is given back where
/// memory is wanting, or the range isn't that of a batch on it.
pub fn longer<Op: Drop>(
    log: OpenLog<Op>,
    id: u64,
    more: Vec<Op>,
    target: Target,
) -> Result<OpenLog<Op>, LogMedium<Op>>
    ensures ok { let s = standing_of log in IfOk result (λ o. standing_of o
        ≡ record s { id = id; disk = applied s.disk (extended s.disk.newest more.items target) }) }
    ensures ok_next { IfOk result (λ o. next_here o ≡ next_here log) }
    ensures ok_calls { IfOk result (λ o. calls_here o ≡ calls_here log) }
    ensures ok_held { IfOk result (λ o. held_here o ≡ further (held_here log) more.items) }
    ensures err { IfErr result (λ m. disk_of m ≡ (standing_of log).disk) }
    ensures err_next { IfErr result (λ m. next_of m ≡ next_here log) }
    ensures err_calls { IfErr result (λ m. calls_of m ≡ calls_here log) }
    ensures err_held { IfErr result (λ m. held_of m ≡ held_here log) }
{
    let newest = log.target();
    if !is_next(newest, more.len() as u64, target) {
        return Err(log.close());
    }
    let OpenLog {
        mut opened,
        first,
        before,
        mut ops,
    } = log;
    if ops.append(more).is_err() {
        return Err(OpenLog {
            opened,
            first,
            before,
            ops,
        }
        .close());
    }
    match opened.push(id, Checkpoint { target, kept: () }) {
        Ok(()) => Ok(OpenLog {
            opened,
            first,
            before,
            ops,
        }),
        Err(_) => {
            ops.truncate(newest.end.0 - first);
            Err(OpenLog {
                opened,
                first,
                before,
                ops,
            }
            .close())
        }
    }
}

/// Whether a range ends so many operations behind another.
fn is_next(newest: Target, count: u64, target: Target) -> bool
    ensures ends { IsTrue result → target.end.0 ≡ newest.end.0 + count }
    ensures range { IsTrue result → newest.start.0 ≤ newest.end.0 }
{
    let ends = match newest.end.0.checked_add(count) {
        Some(end) => target.end.0 == end,
        None => false,
    };
    let range = newest.start.0 <= newest.end.0;
    ends && range
}
