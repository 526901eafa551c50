use lab_advice::Remedy;
use lab_outline::{Outline, Row, Spotted};
use lab_sector::NoMemory;
use std::alloc::Global;

/// What is told of a table's line that ends in a backslash: it and the line right below it as one.
pub(crate) fn continued(
    alloc: Global,
    outline: &Outline<'_>,
    spotted: Spotted<'_>,
) -> Result<Option<Remedy>, NoMemory> {
    let Some(front) = spotted.line.trim_end().strip_suffix("\\") else {
        return Ok(None);
    };
    let Some(row) = row_below(outline, spotted.number) else {
        return Ok(None);
    };
    let (front, rest, below) = (
        front.trim_end(),
        row.spotted.line.trim(),
        row.spotted.number,
    );
    Ok(Some(Remedy::of(
        alloc,
        format!(in alloc;
            "a line ends at its end, and a backslash there joins no lines: write `{front} {rest}` on this line, and leave line \
             {below} blank"
        )?,
    )))
}

/// The table's line right below the bundle's line of this number.
fn row_below<'a>(outline: &Outline<'a>, number: u64) -> Option<Row<'a>> {
    for row in &outline.rows {
        if number.checked_add(1) == Some(row.spotted.number) {
            return Some(*row);
        }
    }
    None
}
