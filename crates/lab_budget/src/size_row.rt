ghost use Rattle.std.specs.Prelude.{All, IfOk};
ghost use Rattle.lab_budget.specs.Grouped.{AreNext, IsRowOf};

use lab_sector::NoMemory;
use lab_table::Table;
use lab_target::Target;
use std::alloc::Global;

/// The rows of a device have at most so many places together, and one row more.
const MOST_PLACES: usize = 1 << 20;

/// Says for each place of a device's tables which is the next one behind it whose table has more sectors than `size`;
/// the count of the tables if none has.
#[derive(Drop)]
pub(crate) struct SizeRow {
    pub(crate) size: u64,
    pub(crate) next: Vec<usize>,
}

/// A row for each of the chosen sizes.
pub(crate) fn size_rows<T: Target>(
    alloc: Global,
    tables: &[Table<T>],
) -> Result<Vec<SizeRow>, NoMemory>
    ensures { IfOk result (λ rows. All (IsRowOf tables.now) rows.items) }
{
    let mut rows = Vec::new(alloc);
    let sizes = chosen_sizes(alloc, tables)?;
    for size in &sizes {
        let next = next_longer(alloc, tables, *size)?;
        rows.push(SizeRow { size: *size, next })?;
    }
    Ok(rows)
}

/// The sizes that get a row, rising: in the order of their sizes each table's or, of more than 1,023 tables, that of each
/// second, third or so. No clause says which, since a row is right for any size.
fn chosen_sizes<T: Target>(alloc: Global, tables: &[Table<T>]) -> Result<Vec<u64>, NoMemory> {
    let mut sizes = Vec::with_capacity(alloc, tables.len())?;
    for table in tables {
        sizes.push(table.size())?;
    }
    sizes.sort_unstable();
    let step = sizes.len().saturating_mul(sizes.len()) / MOST_PLACES + 1;
    let mut chosen = Vec::new(alloc);
    for size in sizes.iter().step_by(step) {
        if chosen.last() != Some(size) {
            chosen.push(*size)?;
        }
    }
    Ok(chosen)
}

/// For each place the next one behind it whose table has more sectors than `size`; the count of the tables if none has.
fn next_longer<T: Target>(
    alloc: Global,
    tables: &[Table<T>],
    size: u64,
) -> Result<Vec<usize>, NoMemory>
    ensures { IfOk result (λ next. AreNext tables.now size next.items) }
{
    let mut next = Vec::with_capacity(alloc, tables.len())?;
    for place in 0..tables.len() {
        if tables[place].size() > size {
            next.resize(place, place)?;
        }
    }
    next.resize(tables.len(), tables.len())?;
    Ok(next)
}
