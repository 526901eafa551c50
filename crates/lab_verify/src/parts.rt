ghost use Rattle.std.specs.Prelude.{◌≡◌, All, IfErr, IfOk, IsOk, OnOk, map};
ghost use Rattle.lab_text.specs.Bundle.{part_of};
ghost use Rattle.lab_text.specs.Lines.{lines_of};
ghost use Rattle.lab_iolog.specs.Log.{log_of_lines};
ghost use Rattle.lab_script.specs.Script.{script_of, script_rows};
ghost use Rattle.lab_table.specs.TableText.{each_known};
ghost use Rattle.lab_rulebook.specs.PartsOf.{log_part as text_log, table_of_lines};
ghost use Rattle.lab_refusal.specs.Faults.{TellsOf};
ghost use Rattle.lab_standing.specs.Image.{text_of};
ghost use Rattle.lab_verify.specs.ReadFaults.{first_fault, log_fault, script_fault, table_fault};
ghost use Rattle.lab_verify.specs.NamedLogs.{named_log_part};

use lab_iolog::{Log, read_log};
use lab_refusal::{Refusal, log_refusal, script_refusal, table_refusal};
use lab_script::{Script, read_script};
use lab_standing::NamedTable;
use lab_table::{TableFault, read_unbound_table};
use lab_target::Target;
use lab_text::{Bundle, Part};
use std::alloc::Global;

/// A log under its name.
#[derive(Drop)]
pub(crate) struct NamedLog<'a> {
    pub name: &'a [u8],
    pub log: Log<'a>,
}

/// Reads the tables, before their device words are bound to devices.
pub(crate) fn read_tables<'a, T: Target>(
    alloc: Global,
    bundle: &Bundle<'a>,
) -> Result<Vec<NamedTable<'a, T>>, Refusal<'a>>
    ensures read { IfOk result (λ tables. map part_of bundle.now.tables.items ≡ map text_of tables.items) }
    ensures readable { OnOk result (All (λ text. IsOk (table_of_lines T.meaning each_known text.1))
        (map part_of bundle.now.tables.items)) }
    ensures fault { IfErr result
        (TellsOf (first_fault (map (table_fault T.meaning)
        (map part_of bundle.now.tables.items)))) }
{
    let mut tables = Vec::with_capacity(alloc, bundle.tables.len())?;
    for part in &bundle.tables {
        tables.push(read_one_table(alloc, part)?)?;
    }
    Ok(tables)
}

/// Reads one table.
pub(crate) fn read_one_table<'a, T: Target>(
    alloc: Global,
    part: &Part<'a>,
) -> Result<NamedTable<'a, T>, Refusal<'a>>
    ensures read { IfOk result (λ table. part_of part.now ≡ text_of table) }
    ensures readable { OnOk result (IsOk (table_of_lines T.meaning each_known (part_of part.now).1)) }
    ensures fault { IfErr result (TellsOf (table_fault T.meaning (part_of part.now))) }
{
    match read_unbound_table(alloc, part.text) {
        Ok(table) => Ok(NamedTable {
            name: part.name,
            table,
        }),
        Err(TableFault { line, why }) => Err(table_refusal(part.name, line, why)),
    }
}

/// Reads the script.
pub(crate) fn read_commands<'a>(
    alloc: Global,
    bundle: &Bundle<'a>,
) -> Result<Script<'a>, Refusal<'a>>
    ensures read { IfOk result
        (λ script. script_of bundle.now.script.now ≡ Ok (script_rows script.lines.items)) }
    ensures fault { IfErr result (TellsOf (script_fault (lines_of bundle.now.script.now))) }
{
    match read_script(alloc, bundle.script) {
        Ok(script) => Ok(script),
        Err(fault) => Err(script_refusal(fault)),
    }
}

/// Reads the logs.
pub(crate) fn read_logs<'a>(
    alloc: Global,
    bundle: &Bundle<'a>,
) -> Result<Vec<NamedLog<'a>>, Refusal<'a>>
    ensures read { IfOk result (λ logs. map text_log (map part_of bundle.now.logs.items)
        ≡ map named_log_part logs.items) }
    ensures readable { OnOk result (All (λ text. IsOk (log_of_lines text.1))
        (map part_of bundle.now.logs.items)) }
    ensures fault { IfErr result
        (TellsOf (first_fault (map log_fault (map part_of bundle.now.logs.items)))) }
{
    let mut logs = Vec::with_capacity(alloc, bundle.logs.len())?;
    for part in &bundle.logs {
        logs.push(read_one_log(alloc, part)?)?;
    }
    Ok(logs)
}

/// Reads one log.
pub(crate) fn read_one_log<'a>(alloc: Global, part: &Part<'a>) -> Result<NamedLog<'a>, Refusal<'a>>
    ensures read { IfOk result (λ log. text_log (part_of part.now) ≡ named_log_part log) }
    ensures readable { OnOk result (IsOk (log_of_lines (part_of part.now).1)) }
    ensures fault { IfErr result (TellsOf (log_fault (part_of part.now))) }
{
    match read_log(alloc, part.text) {
        Ok(log) => Ok(NamedLog {
            name: part.name,
            log,
        }),
        Err(fault) => Err(log_refusal(part.name, fault)),
    }
}
