ghost use Rattle.std.specs.Prelude.{◌≡◌, ◌+◌, ◌<◌, ◌^◌, OnErr, OnOk};
ghost use Rattle.lab_model.specs.LogEffect.{after_line, next_line, wait_of};

use crate::log_state::LogState;
use lab_model::Entry;
use lab_sector::{DevNo, NoMemory};

/// A wait below so many microseconds is discarded.
const LEAST_WAIT: u64 = 100;

/// A log has taken a line that isn't an operation, or the line of one.
pub(crate) fn take_entry(
    log: &mut LogState,
    device: Option<DevNo>,
    entry: &Entry,
) -> Result<(), NoMemory>
    requires taken { log.old.taken + 1 < 2 ^ 64 }
    requires moment { log.old.moment + wait_of entry.now < 2 ^ 64 }
    ensures next { OnOk result (log.new ≡ after_line device entry.now (next_line log.old)) }
    ensures err { OnErr result (log.new ≡ log.old) }
{
    log.files.follow(*entry, device)?;
    log.moment += wait_of(*entry);
    next_line(log);
    Ok(())
}

/// A log has taken its next line.
pub(crate) fn next_line(log: &mut LogState)
    requires { log.old.taken + 1 < 2 ^ 64 }
    ensures { log.new ≡ next_line log.old }
{
    log.taken += 1;
}

/// How long a line waits, in microseconds; a short wait is discarded.
fn wait_of(entry: Entry) -> u64
    ensures { result ≡ wait_of entry }
{
    match entry {
        Entry::Wait(time) if time >= LEAST_WAIT => time,
        _ => 0,
    }
}
