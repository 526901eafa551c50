use lab_advice::{Remedy, Spot};
use lab_outline::{Outline, Spotted};
use lab_sector::NoMemory;
use std::alloc::Global;

/// The remedy of a file whose device has a table that is loaded and not live at the replay, if it has one: the resume that is
/// missing before that.
pub(crate) fn unresumed_remedy(
    alloc: Global,
    outline: &Outline<'_>,
    file: &str,
    replay: u64,
) -> Result<Option<Remedy>, NoMemory> {
    let Some(name) = outline.name_meant(file) else {
        return Ok(None);
    };
    let Some(load) = outline.last_load(name, replay) else {
        return Ok(None);
    };
    if outline.loaded_table(name, replay).is_none() || outline.live_table(name, replay).is_some() {
        return Ok(None);
    }
    let (line, table) = (load.number, load.word(2));
    let why = format!(in alloc;
        "line {line} loads the table {table} for {name}, and a loaded table becomes live by `resume {name}`, which is \
         missing before the `replay`, line {replay}"
    )?;
    let resume = format!(in alloc; "resume {name}")?;
    Ok(Some(Remedy::of(alloc, why).or(Spot::Before(replay), resume)?))
}

/// The remedy of a command for a table that is loaded and not live yet, if its device has one: the resume that is missing
/// before it.
pub fn loaded_remedy(
    alloc: Global,
    outline: &Outline<'_>,
    spotted: Spotted<'_>,
) -> Result<Option<Remedy>, NoMemory> {
    let name = spotted.word(1);
    let Some(table) = outline.loaded_table(name, spotted.number) else {
        return Ok(None);
    };
    let Some(load) = outline.last_load(name, spotted.number) else {
        return Ok(None);
    };
    let line = load.number;
    let why = format!(in alloc;
        "line {line} loads the table {table} for {name}, and a loaded table becomes live by `resume {name}`, which is \
         missing before this line"
    )?;
    let resume = format!(in alloc; "resume {name}")?;
    Ok(Some(Remedy::of(alloc, why).or(Spot::Before(spotted.number), resume)?))
}
