ghost use Rattle.std.specs.Prelude.{◌≡◌, ◌++◌, IfOk, OnOk};
ghost use Rattle.lab_model.specs.Report.{text_line};
ghost use Rattle.lab_image.specs.Text.{disk_row_text, rows_text};

use crate::columns::{push_changed, push_operation, push_sectors};
use crate::row::DiskRow;
use lab_sector::NoMemory;
use std::alloc::Global;

/// The columns' names as a line, and a line for each row.
pub(crate) fn text_of(alloc: Global, rows: &[DiskRow]) -> Result<Vec<u8>, NoMemory>
    ensures { IfOk result (λ text. text.items ≡ rows_text rows.now) }
{
    let mut text = b"disk\tsectors\tlog\tline\tfrom\tchanged\n".to_vec(alloc)?;
    for row in rows {
        push_row(&mut text, row)?;
    }
    Ok(text)
}

/// Appends the line of a row.
fn push_row(text: &mut Vec<u8>, row: &DiskRow) -> Result<(), NoMemory>
    ensures { OnOk result (text.new.items ≡ text.old.items ++ text_line (disk_row_text row.now)) }
{
    push_sectors(text, row)?;
    push_operation(text, row.writer)?;
    push_changed(text, &row.changed)?;
    text.push(b'\n')?;
    Ok(())
}
