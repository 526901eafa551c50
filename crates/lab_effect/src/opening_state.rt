ghost use Rattle.std.specs.Prelude.{◌≡◌, IfOk, map};
ghost use Rattle.lab_model.specs.State.{empty_disk, opening, opening_log};

use lab_disk::Disk;
use lab_logs::Files;
use lab_model::Entry;
use lab_sector::NoMemory;
use lab_state::{LogState, Logs, RamDisk, State, Traffic};
use lab_table::{DiskPlan, LogLine, LogPlan, Scenario};
use lab_target::Target;
use std::alloc::Global;

/// The state before the first event: no device, disks of zero bytes, and each log before its first line.
pub fn opening<T: Target>(alloc: Global, scenario: &Scenario<T>) -> Result<State<T>, NoMemory>
    ensures { IfOk result (λ state. state ≡ opening scenario.now) }
{
    let disks = empty_disks(alloc, &scenario.sizes)?;
    let logs = opening_logs(alloc, &scenario.lines)?;
    Ok(State {
        traffic: Traffic::new(alloc),
        disks,
        logs,
        started: false,
        done: 0,
        moment: 0,
        replies: Vec::new(alloc),
    })
}

/// The disks, of zero bytes.
fn empty_disks(alloc: Global, plans: &[DiskPlan]) -> Result<Vec<RamDisk>, NoMemory>
    ensures { IfOk result (λ disks. disks.items ≡ map empty_disk plans.now) }
{
    let mut disks = Vec::new(alloc);
    for plan in plans {
        disks.push(empty_disk(alloc, plan)?)?;
    }
    Ok(disks)
}

/// A disk of zero bytes.
fn empty_disk(alloc: Global, plan: &DiskPlan) -> Result<RamDisk, NoMemory>
    ensures { IfOk result (λ disk. disk ≡ empty_disk plan.now) }
{
    let disk = Disk::new(alloc, plan.size)?;
    Ok(RamDisk {
        number: plan.number,
        disk,
    })
}

/// The logs, each before its first line.
#[tactic(auto, using(std::proofs::lemmas::List::map_more))]
fn opening_logs(alloc: Global, plans: &[LogPlan]) -> Result<Logs, NoMemory>
    ensures { IfOk result (λ logs. logs ≡ map opening_log plans.now) }
{
    let mut logs = Logs::new(alloc);
    for plan in plans {
        logs.push(opening_log(alloc, plan)?)?;
    }
    Ok(logs)
}

/// A log before its first line, with room for its answers.
fn opening_log(alloc: Global, plan: &LogPlan) -> Result<LogState, NoMemory>
    ensures { IfOk result (λ log. log ≡ opening_log plan.now) }
{
    Ok(LogState {
        taken: 0,
        moment: 0,
        files: Files::new(alloc),
        answers: Vec::with_capacity(alloc, count_operations(&plan.lines))?,
    })
}

/// How many of a log's lines are operations: each gets an answer.
fn count_operations(lines: &[LogLine]) -> usize {
    lines.iter().filter(|line| is_operation(line)).count()
}

/// Whether a line is an operation.
fn is_operation(line: &LogLine) -> bool {
    matches!(line.entry, Entry::Operate(_, _))
}
