ghost use Rattle.std.specs.Prelude.{◌≡◌, ◌+◌, ◌<◌, ◌^◌, length};
ghost use Rattle.lab_any.specs.Any.{any_meaning};
ghost use Rattle.lab_core.specs.Running.{IsRunning};
ghost use Rattle.lab_runner.specs.Counts.{IsWorker, place_of};

use lab_any::AnyTarget;
use lab_core::{Lab, Who};

/// The place of a worker among so many logs' workers, the script's and the timers', counted from 0.
pub(crate) fn place_of(logs: usize, who: Who) -> usize
    requires worker { IsWorker logs who }
    requires fits { logs < 2 ^ 32 }
    ensures { result ≡ place_of logs who }
{
    match who {
        Who::Log(log) => log as usize - 1,
        Who::Control => logs,
        Who::Timers => logs + 1,
    }
}

/// How many logs a laboratory's scenario has, and what is known of each laboratory.
pub(crate) fn count_logs(lab: &Lab<AnyTarget>) -> usize
    ensures count { result ≡ length lab.now.scenario.logs }
    ensures fits { result < 2 ^ 32 }
    ensures events { length lab.now.history < 2 ^ 32 }
    ensures running { IsRunning any_meaning lab.now }
{
    // Its clause says what is known of each laboratory.
    let _events = lab.history();
    lab.scenario().lines.len()
}
