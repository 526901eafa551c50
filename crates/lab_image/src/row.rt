ghost use Rattle.std.specs.Prelude.{◌≡◌, ◌++◌, ◌∷◌, ◌+◌, ◌==◌, [], IfOk, OnOk};
ghost use Rattle.lab_image.specs.Rows.{added, goes_on, is_behind, is_unchanged, joined_rows};
ghost use Rattle.lab_image.specs.Rows.{lies_behind};

use lab_next::Writer;
use lab_sector::NoMemory;
use lab_target::Mark;
use std::marker::Model;

/// Sectors of a disk side by side that a write wrote, one sector of it after another.
#[derive(Debug, Drop)]
pub struct DiskRow {
    /// The disk: N of `/dev/ramN`.
    pub disk: u64,
    /// The first of the sectors.
    pub first: u64,
    /// How many they are.
    pub count: u64,
    /// Which sector of which write stands in the first one.
    pub writer: Writer,
    /// The bytes of the first one that were changed on the way, in order, with their values.
    pub changed: Vec<Mark>,
}

impl Model for DiskRow {
    ghost use Rattle.lab_image.specs.Rows.{DiskRow as Sectors};

    ghost Value = { Sectors };

    ghost view = { λ row. record {
      disk = row.disk;
      first = row.first;
      count = row.count;
      writer = row.writer;
      changed = row.changed.items;
    } };
}

/// Adds a row behind others: to the last one, if it goes on there.
pub(crate) fn add(rows: &mut Vec<DiskRow>, row: DiskRow) -> Result<(), NoMemory>
    ensures { OnOk result (rows.new.items ≡ added rows.old.items row) }
{
    match rows.pop() {
        Some(last) => add_behind(rows, last, row),
        None => Ok(rows.push(row)?),
    }
}

/// Adds two rows behind others, as one if the second goes on where the first ends.
fn add_behind(rows: &mut Vec<DiskRow>, last: DiskRow, row: DiskRow) -> Result<(), NoMemory>
    ensures { OnOk result (rows.new.items ≡ added (rows.old.items ++ last ∷ []) row) }
{
    if goes_on(&last, &row) {
        rows.push(joined_rows(last, row)?)?;
        return Ok(());
    }
    rows.push(last)?;
    rows.push(row)?;
    Ok(())
}

/// Both rows as one.
fn joined_rows(last: DiskRow, row: DiskRow) -> Result<DiskRow, NoMemory>
    ensures { IfOk result (λ both. both ≡ joined_rows last row) }
{
    let count = last.count.checked_add(row.count).ok_or(NoMemory)?;
    Ok(DiskRow { count, ..last })
}

/// Whether a row goes on where another ends: on the disk as well as in the write; and no byte of either was changed.
fn goes_on(last: &DiskRow, row: &DiskRow) -> bool
    ensures { result ≡ goes_on last.now row.now }
{
    is_unchanged(last) && is_unchanged(row) && lies_behind(last, row)
}

/// Whether a row has no changed byte.
fn is_unchanged(row: &DiskRow) -> bool
    ensures { result ≡ is_unchanged row.now }
{
    row.changed.is_empty()
}

/// Whether a row lies behind another, on the disk as well as in the write.
fn lies_behind(last: &DiskRow, row: &DiskRow) -> bool
    ensures { result ≡ lies_behind last.now row.now }
{
    last.disk == row.disk
        && is_sum(last.first, last.count, row.first)
        && is_behind(row.writer, last.writer, last.count)
}

/// Whether a number is the sum of two others.
fn is_sum(one: u64, other: u64, sum: u64) -> bool
    ensures { result ≡ (one + other == sum) }
{
    one.checked_add(other) == Some(sum)
}

/// Whether it is the sector of the same write that comes so far behind the first.
fn is_behind(writer: Writer, first: Writer, count: u64) -> bool
    ensures { result ≡ is_behind writer first count }
{
    writer.origin == first.origin
        && first.sector.checked_add(u128::from(count)) == Some(writer.sector)
}
