use lab_advice::Remedy;
use lab_outline::{Outline, Spotted};
use lab_sector::NoMemory;
use std::alloc::Global;

/// How many commands are looked through at most.
const MOST: usize = 1000;

/// The remedy of a log's line whose file has the name of a table, where a device has that at `replay`: which one. No line is
/// proposed, since the names are two.
pub(crate) fn table_name_remedy(
    alloc: Global,
    outline: &Outline<'_>,
    spotted: Spotted<'_>,
    replay: u64,
) -> Result<Option<Remedy>, NoMemory> {
    let (_folder, table) = spotted.word(0).rsplit_once('/').unwrap_or(("", ""));
    if outline.table(table).is_none() {
        return Ok(None);
    }
    for command in outline.commands.iter().take(MOST) {
        let name = command.device();
        let has_table = outline.live_table(name, replay) == Some(table);
        if command.word(0) == "create" && has_table {
            let why = format!(in alloc;
                "a file is a device, and {table} is the table of the device {name}: its FILE is /dev/mapper/{name}"
            )?;
            return Ok(Some(Remedy::of(alloc, why)));
        }
    }
    Ok(None)
}
