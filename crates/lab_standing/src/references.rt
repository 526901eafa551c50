ghost use Rattle.std.specs.Prelude.{◌≡◌, ◌==◌, IfOk, option_copied};
ghost use Rattle.std.specs.List.{list_any};
ghost use Rattle.lab_model.specs.Files.{has_device, same_device};
ghost use Rattle.lab_model.specs.Below.{devices_under};
ghost use Rattle.lab_model.specs.Tables.{image};
ghost use Rattle.lab_standing.specs.Linked.{devices_of_line, grown, row_for, with_links, with_number, with_reference};
ghost use Rattle.lab_standing.specs.Refers.{is_on, line_refers};

use lab_sector::{DevNo, Kind, NoMemory};
use lab_table::{Table, TableLine};
use lab_target::{Ref, Target};
use std::alloc::Global;

/// All kinds of requests.
pub const KINDS: [Kind; 4] = [Kind::Read, Kind::Write, Kind::Trim, Kind::Flush];

/// Whether a table refers to a device.
#[tactic(auto, using(crate::proofs::Rulesets::refers_to))]
pub fn refers_to<T: Target>(table: &Table<T>, device: DevNo) -> bool
    ensures { result ≡ has_device device (devices_under (image T.meaning table.now)) }
{
    some_line_refers(table.lines(), device)
}

/// Whether one of some lines refers to a device.
fn some_line_refers<T: Target>(lines: &[TableLine<T>], device: DevNo) -> bool
    ensures { result ≡ list_any (line_refers T.meaning device) lines.now }
{
    lines.iter().any(|line| line_refers_to(line, device))
}

/// Whether a line refers to a device, for some kind.
fn line_refers_to<T: Target>(line: &TableLine<T>, device: DevNo) -> bool
    ensures { result ≡ line_refers T.meaning device line.now }
{
    KINDS
        .iter()
        .any(|kind| is_on(line.target.reference(*kind), device))
}

/// Whether it is a reference to a device.
fn is_on(reference: Option<Ref>, device: DevNo) -> bool
    ensures { result ≡ is_on device reference }
{
    match reference {
        Some(reference) => is_same(device, reference.dev),
        None => false,
    }
}

/// A new row for a table, if there is one: the numbers of the mapped devices that it refers to.
pub(crate) fn row_for<T: Target>(
    alloc: Global,
    table: Option<&Table<T>>,
) -> Result<Vec<u32>, NoMemory>
    ensures { IfOk result (λ row. row.items ≡ row_for T.meaning (option_copied table.entry)) }
{
    let mut row = Vec::new(alloc);
    link_some(&mut row, table)?;
    Ok(row)
}

/// Puts the numbers of all mapped devices that a table refers to into a row, if there is one.
pub(crate) fn link_some<T: Target>(
    row: &mut Vec<u32>,
    table: Option<&Table<T>>,
) -> Result<(), NoMemory>
    ensures { IfOk result (λ done. row.new.items
        ≡ with_links T.meaning row.old.items (option_copied table.entry)) }
{
    match table {
        Some(table) => link_row(row, table),
        None => Ok(()),
    }
}

/// Puts the numbers of all mapped devices that a table refers to into a row.
pub fn link_row<T: Target>(row: &mut Vec<u32>, table: &Table<T>) -> Result<(), NoMemory>
    ensures { IfOk result (λ done. row.new.items
        ≡ grown (devices_under (image T.meaning table.now)) row.old.items) }
{
    link_lines(row, table.lines())
}

/// Puts the numbers of all mapped devices that some lines refer to into a row.
fn link_lines<T: Target>(row: &mut Vec<u32>, lines: &[TableLine<T>]) -> Result<(), NoMemory>
    ensures { IfOk result (λ done. row.new.items
        ≡ grown (devices_under (image T.meaning lines.now)) row.old.items) }
{
    for line in lines {
        link_line(row, line)?;
    }
    Ok(())
}

/// Puts the numbers of all mapped devices that a line refers to into a row.
fn link_line<T: Target>(row: &mut Vec<u32>, line: &TableLine<T>) -> Result<(), NoMemory>
    ensures { IfOk result (λ done. row.new.items
        ≡ grown (devices_of_line T.meaning line.now) row.old.items) }
{
    link_device(row, line.target.reference(Kind::Read))?;
    link_device(row, line.target.reference(Kind::Write))?;
    link_device(row, line.target.reference(Kind::Trim))?;
    link_device(row, line.target.reference(Kind::Flush))
}

/// Puts the number of the device of a reference into a row, if it is a mapped device.
fn link_device(row: &mut Vec<u32>, reference: Option<Ref>) -> Result<(), NoMemory>
    ensures { IfOk result (λ done. row.new.items ≡ with_reference reference row.old.items) }
{
    match reference {
        Some(
            Ref {
                dev: DevNo::Dm(number),
                ..
            },
        ) => add_number(row, number),
        _ => Ok(()),
    }
}

/// Puts a number at the end of a row, unless it is there.
fn add_number(row: &mut Vec<u32>, number: u32) -> Result<(), NoMemory>
    ensures { IfOk result (λ done. row.new.items ≡ with_number number row.old.items) }
{
    if !has_number(row, number) {
        row.push(number)?;
    }
    Ok(())
}

/// Whether a number is in a row.
fn has_number(row: &[u32], number: u32) -> bool
    ensures { result ≡ list_any (λ other. other == number) row.now }
{
    row.iter().any(|other| *other == number)
}

/// Whether they are one device.
pub fn is_same(device: DevNo, other: DevNo) -> bool
    ensures { result ≡ same_device device other }
{
    match (device, other) {
        (DevNo::Ram(number), DevNo::Ram(another)) => number == another,
        (DevNo::Dm(number), DevNo::Dm(another)) => number == another,
        _ => false,
    }
}
