//! The faults that reading the parts of a bundle finds, one a part.
ghost use Rattle.std.specs.Prelude.{◌≡◌, ◌++◌, IfOk, OnOk, map};
ghost use Rattle.std.specs.List.{filter_map};
ghost use Rattle.std.specs.Option.{option_map, option_to_list};
ghost use Rattle.lab_text.specs.Bundle.{part_of};
ghost use Rattle.lab_text.specs.Lines.{lines_of};
ghost use Rattle.lab_rulebook.specs.PartsOf.{texts_of};
ghost use Rattle.lab_refusal.specs.Faults.{fault_seen};
ghost use Rattle.lab_verify.specs.ReadFaults.{log_fault, read_faults, script_fault, table_fault};

use crate::parts::{read_commands, read_one_log, read_one_table};
use lab_refusal::{Fault, Refusal};
use lab_sector::NoMemory;
use lab_target::Target;
use lab_text::{Bundle, Part};
use std::alloc::Global;

/// The faults that reading the texts of a bundle finds, at most one a text: in the tables, then the script, then the
/// logs. The first of them is that of `verify`; there are none if all texts can be read.
pub fn read_faults<'a, T: Target>(
    alloc: Global,
    bundle: &Bundle<'a>,
) -> Result<Vec<Fault<'a>>, NoMemory>
    ensures { IfOk result (λ faults.
        map fault_seen faults.items ≡ read_faults T.meaning (texts_of bundle.now)) }
{
    let mut faults = Vec::new(alloc);
    push_tables::<T>(alloc, &bundle.tables, &mut faults)?;
    push_found(&mut faults, script_fault(alloc, bundle)?)?;
    push_logs(alloc, &bundle.logs, &mut faults)?;
    Ok(faults)
}

/// Adds the faults of these tables, at most one a table.
fn push_tables<'a, T: Target>(
    alloc: Global,
    tables: &[Part<'a>],
    faults: &mut Vec<Fault<'a>>,
) -> Result<(), NoMemory>
    ensures { OnOk result (map fault_seen faults.new.items ≡ map fault_seen faults.old.items
        ++ filter_map (λ fault. fault) (map (table_fault T.meaning) (map part_of tables.now))) }
{
    for part in tables {
        push_found(faults, table_fault::<T>(alloc, part)?)?;
    }
    Ok(())
}

/// Adds the faults of these logs, at most one a log.
fn push_logs<'a>(
    alloc: Global,
    logs: &[Part<'a>],
    faults: &mut Vec<Fault<'a>>,
) -> Result<(), NoMemory>
    ensures { OnOk result (map fault_seen faults.new.items ≡ map fault_seen faults.old.items
        ++ filter_map (λ fault. fault) (map log_fault (map part_of logs.now))) }
{
    for part in logs {
        push_found(faults, log_fault(alloc, part)?)?;
    }
    Ok(())
}

/// Adds the fault that a reading found, if it found one.
fn push_found<'a>(faults: &mut Vec<Fault<'a>>, found: Option<Fault<'a>>) -> Result<(), NoMemory>
    ensures { OnOk result (map fault_seen faults.new.items ≡ map fault_seen faults.old.items
        ++ option_to_list (option_map fault_seen found.entry)) }
{
    if let Some(fault) = found {
        faults.push(fault)?;
    }
    Ok(())
}

/// The fault of a table, if it can't be read.
fn table_fault<'a, T: Target>(alloc: Global, part: &Part<'a>) -> Result<Option<Fault<'a>>, NoMemory>
    ensures { IfOk result (λ fault.
        option_map fault_seen fault ≡ table_fault T.meaning (part_of part.now)) }
{
    match read_one_table::<T>(alloc, part) {
        Ok(_table) => Ok(None),
        Err(Refusal::Fault(fault)) => Ok(Some(fault)),
        Err(Refusal::NoMemory) => Err(NoMemory),
    }
}

/// The fault of the script, if it can't be read.
fn script_fault<'a>(alloc: Global, bundle: &Bundle<'a>) -> Result<Option<Fault<'a>>, NoMemory>
    ensures { IfOk result (λ fault.
        option_map fault_seen fault ≡ script_fault (lines_of bundle.now.script.now)) }
{
    match read_commands(alloc, bundle) {
        Ok(_script) => Ok(None),
        Err(Refusal::Fault(fault)) => Ok(Some(fault)),
        Err(Refusal::NoMemory) => Err(NoMemory),
    }
}

/// The fault of a log, if it can't be read.
fn log_fault<'a>(alloc: Global, part: &Part<'a>) -> Result<Option<Fault<'a>>, NoMemory>
    ensures { IfOk result (λ fault.
        option_map fault_seen fault ≡ log_fault (part_of part.now)) }
{
    match read_one_log(alloc, part) {
        Ok(_log) => Ok(None),
        Err(Refusal::Fault(fault)) => Ok(Some(fault)),
        Err(Refusal::NoMemory) => Err(NoMemory),
    }
}
