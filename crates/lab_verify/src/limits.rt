ghost use Rattle.std.specs.Prelude.{◌≡◌, ◌≤◌, count_by, map, sum, Decides, IfErr, OnOk, OnErr};
ghost use Rattle.lab_script.specs.Script.{script_rows};
ghost use Rattle.lab_script.specs.Task.{task_of};
ghost use Rattle.lab_rulebook.specs.Limits.{WithinLimits, declared_sectors, is_create, is_ram};
ghost use Rattle.lab_refusal.specs.Refusals.{refusal_at};
ghost use Rattle.lab_verify.specs.Counted.{counted_parts};

use lab_refusal::{PartName, Refusal, Rule};
use lab_script::{Command, Script};
use lab_text::Bundle;

/// The most disks.
const MAX_DISKS: usize = 16;

/// The most sectors that all disks have together.
const MAX_SECTORS: u64 = 65_536;

/// The most creates.
const MAX_CREATES: usize = 32;

/// The most table parts.
const MAX_TABLES: usize = 64;

/// The most logs.
const MAX_LOGS: usize = 64;

/// The most script commands.
const MAX_COMMANDS: usize = 1_000;

/// Refuses a scenario that is larger than the laboratory takes.
pub(crate) fn check_limits<'a>(bundle: &Bundle<'a>, script: &Script<'a>) -> Result<(), Refusal<'a>>
    ensures ok { OnOk result (WithinLimits (counted_parts bundle.now script.now)) }
    ensures err { OnErr result (WithinLimits (counted_parts bundle.now script.now) → ⊥) }
    ensures told { IfErr result (λ refusal. refusal ≡ refusal_at PartName.Limits 0 Rule.V16) }
{
    if !is_within(bundle, script) {
        return Err(Refusal::at(PartName::Limits, 0, Rule::V16));
    }
    Ok(())
}

/// Whether a scenario is as large as the laboratory takes at most.
fn is_within(bundle: &Bundle<'_>, script: &Script<'_>) -> bool
    ensures { Decides result (WithinLimits (counted_parts bundle.now script.now)) }
{
    bundle.tables.len() <= MAX_TABLES
        && bundle.logs.len() <= MAX_LOGS
        && script.lines.len() <= MAX_COMMANDS
        && creates(script) <= MAX_CREATES
        && disks(script) <= MAX_DISKS
        && sectors_fit(script)
}

/// How many creates there are.
pub(crate) fn creates(script: &Script<'_>) -> usize
    ensures { result ≡ count_by (λ row. is_create row.task) (script_rows script.now.lines.items) }
{
    script
        .lines
        .iter()
        .filter(|line| is_create(line.command))
        .count()
}

/// How many disks are declared.
fn disks(script: &Script<'_>) -> usize
    ensures { result ≡ count_by (λ row. is_ram row.task) (script_rows script.now.lines.items) }
{
    script
        .lines
        .iter()
        .filter(|line| is_ram(line.command))
        .count()
}

/// Whether all disks together have no more sectors than the laboratory takes.
fn sectors_fit(script: &Script<'_>) -> bool
    ensures { Decides result
        (sum (map (λ row. declared_sectors row.task)
        (script_rows script.now.lines.items)) ≤ 65536) }
{
    let mut left = MAX_SECTORS;
    for line in &script.lines {
        let sectors = declared_sectors(line.command);
        if left < sectors {
            return false;
        }
        left -= sectors;
    }
    true
}

/// Whether a command creates a device.
fn is_create(command: Command<'_>) -> bool
    ensures { result ≡ is_create (task_of command.entry) }
{
    matches!(command, Command::Create(..))
}

/// Whether a command declares a disk.
fn is_ram(command: Command<'_>) -> bool
    ensures { result ≡ is_ram (task_of command.entry) }
{
    matches!(command, Command::Ram(..))
}

/// The sectors of the disk that a command declares; 0 of another.
fn declared_sectors(command: Command<'_>) -> u64
    ensures { result ≡ declared_sectors (task_of command.entry) }
{
    match command {
        Command::Ram(_, sectors) => sectors,
        _ => 0,
    }
}
