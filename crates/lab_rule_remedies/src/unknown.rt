use crate::asked::only_unused;
use crate::created::{create_wanted, or_created};
use crate::disks::disks_told;
use crate::names::{
    near_names, near_tables, shown, standing, those_told, why_device_cased, with_near,
};
use crate::references::reference_remedy;
use lab_advice::{Remedy, Spot};
use lab_guess::{takes_table, with_word};
use lab_outline::{Outline, Spotted, is_cased, plain};
use lab_sector::NoMemory;
use std::alloc::Global;

/// The remedy of a name that stands for nothing: of the command's device, of its table, or of what a line of this table
/// is laid on.
pub fn unknown_remedy(
    alloc: Global,
    bytes: &[u8],
    outline: &Outline<'_>,
    spotted: Spotted<'_>,
) -> Result<Remedy, NoMemory> {
    let verb = spotted.word(0);
    if verb != "create" && outline.created(spotted.word(1), spotted.number).is_none() {
        return name_remedy(alloc, outline, spotted);
    }
    let table = spotted.word(2);
    if takes_table(verb) && outline.table(table).is_none() {
        return part_remedy(alloc, outline, spotted);
    }
    match outline.missing(table, spotted.number) {
        Some(reference) => reference_remedy(alloc, bytes, outline, reference, spotted.number),
        None => Remedy::told(
            alloc,
            "the command names a device or a table that doesn't stand",
        ),
    }
}

/// The remedy of a command for a device that doesn't stand.
fn name_remedy(
    alloc: Global,
    outline: &Outline<'_>,
    spotted: Spotted<'_>,
) -> Result<Remedy, NoMemory> {
    let name = spotted.word(1);
    let mut why = why_absent(alloc, outline, name, spotted.number)?;
    let near = near_names(alloc, outline, name, spotted.number)?;
    let is_wanted = near.words.is_empty() && create_wanted(outline, spotted);
    if is_wanted {
        why.push_str(
            "; a device is made by `create NAME TABLE`, and `load` gives it another table",
        )?;
    }
    let mut remedy = swapped(alloc, Remedy::of(alloc, why), outline, spotted)?;
    offer_owners(alloc, &mut remedy, outline, spotted)?;
    if let Some(name) = numbered(outline, name) {
        let line = with_word(alloc, spotted.line, 1, name)?;
        remedy
            .why
            .push_str("; a command has the NAME of its device, and no number")?;
        return remedy.or(Spot::On(spotted.number), line);
    }
    if is_wanted {
        return or_created(alloc, remedy, outline, spotted);
    }
    with_near(alloc, remedy, spotted, 1, &near)
}

/// The name of the device that a word means by its number, as `dm-0` and `dm0`.
fn numbered<'a>(outline: &Outline<'a>, word: &str) -> Option<&'a str> {
    let number = word.strip_prefix("dm-").or(word.strip_prefix("dm"))?;
    outline.mapped(plain(number)?)
}

/// Offers the command by each device that has the table of this name, live or loaded.
fn offer_owners(
    alloc: Global,
    remedy: &mut Remedy,
    outline: &Outline<'_>,
    spotted: Spotted<'_>,
) -> Result<(), NoMemory> {
    let (table, number) = (Some(spotted.word(1)), spotted.number);
    for command in &outline.commands {
        let name = command.device();
        let is_owner = outline.live_table(name, number) == table
            || outline.loaded_table(name, number) == table;
        if command.word(0) == "create" && command.number < number && is_owner {
            let line = with_word(alloc, spotted.line, 1, name)?;
            remedy.offer(0, Spot::On(number), line)?;
        }
    }
    Ok(())
}

/// Why no device of this name stands before this line.
pub(crate) fn why_absent(
    alloc: Global,
    outline: &Outline<'_>,
    name: &str,
    before: u64,
) -> Result<String, NoMemory> {
    if let Some(removed) = outline.last_of("remove", name, before) {
        let line = removed.number;
        return Ok(format!(in alloc; "no device {name} stands here: line {line} removes it")?);
    }
    if let Some(later) = outline.created_from(name, before) {
        let line = later.number;
        if line == before {
            let why = format!(in alloc;
                "the device {name} would be laid on itself, and line {line} is the one that creates it"
            )?;
            return disks_told(alloc, why, outline);
        }
        return Ok(format!(in alloc;
            "no device {name} stands here: line {line} creates it, further down, so move that line above this one"
        )?);
    }
    if let Some(why) = why_device_cased(alloc, outline, name, before, "here")? {
        return Ok(why);
    }
    let told = shown(name);
    let why = format!(in alloc; "no device {told} stands here")?;
    those_told(
        why,
        ", but only ",
        standing(alloc, outline, before)?.as_slice(),
    )
}

/// The remedy of a table that has no part.
fn part_remedy(
    alloc: Global,
    outline: &Outline<'_>,
    spotted: Spotted<'_>,
) -> Result<Remedy, NoMemory> {
    let table = spotted.word(2);
    let mut why = why_no_part(alloc, outline, table)?;
    if let Some(unused) = only_unused(outline).filter(|_| 1 < outline.tables.len()) {
        why.push_str(format!(in alloc; "; no command names the table {unused}")?.as_str())?;
    }
    let near = near_tables(alloc, outline, table, live_for(outline, spotted))?;
    let mut remedy = Remedy::of(alloc, why);
    if near.words.is_empty() && spotted.word(0) == "create" {
        remedy = by_file(alloc, remedy, outline, spotted)?;
    }
    let remedy = swapped(alloc, remedy, outline, spotted)?;
    let remedy = without_table(alloc, remedy, spotted)?;
    with_near(alloc, remedy, spotted, 2, &near)
}

/// Why no table has this name.
fn why_no_part(alloc: Global, outline: &Outline<'_>, table: &str) -> Result<String, NoMemory> {
    for heading in &outline.tables {
        if is_cased(heading.line, table) {
            let other = heading.line;
            return Ok(format!(in alloc;
                "the bundle has no part `== table {table}`, but `== table {other}`: capital and small letters are different \
                 in a name"
            )?);
        }
    }
    if outline.tables.is_empty() {
        return Ok(format!(in alloc;
            "the bundle has no part `== table {table}`, and no other table: its heading and its lines, as `0 8 linear /dev/ram0 0`, \
             stand above `== script`"
        )?);
    }
    let why = format!(in alloc; "the bundle has no part `== table {table}`")?;
    those_told(
        why,
        ", but only the tables ",
        tables(alloc, outline)?.as_slice(),
    )
}

/// The live table of a load's device, where the one that is asked for has its name with more behind it: another one is
/// meant then.
fn live_for<'a>(outline: &Outline<'a>, spotted: Spotted<'_>) -> Option<&'a str> {
    if !spotted.is_load() {
        return None;
    }
    let live = outline.live_table(spotted.word(1), spotted.number)?;
    if spotted.word(2).starts_with(live) {
        Some(live)
    } else {
        None
    }
}

/// The remedy with a device without a table, where a word of the kind of `none` stands for one.
fn without_table(alloc: Global, remedy: Remedy, spotted: Spotted<'_>) -> Result<Remedy, NoMemory> {
    let (verb, name, table) = (spotted.word(0), spotted.word(1), spotted.word(2));
    if verb != "create" || !matches!(table, "notable" | "none" | "empty" | "no-table") {
        return Ok(remedy);
    }
    remedy.or(
        Spot::On(spotted.number),
        format!(in alloc; "create {name} --notable")?,
    )
}

/// The remedy with a table for a file: the one of its name without an ending, or the only one that no command names, also for
/// a table of the device's name.
fn by_file(
    alloc: Global,
    remedy: Remedy,
    outline: &Outline<'_>,
    spotted: Spotted<'_>,
) -> Result<Remedy, NoMemory> {
    let file = spotted.word(2);
    let stem = Some(stem_of(file)).filter(|it| outline.table(it).is_some());
    let is_other = stem_of(file) != file || file == spotted.word(1);
    match stem.or(only_unused(outline).filter(|_| is_other)) {
        Some(table) => {
            let line = with_word(alloc, spotted.line, 2, table)?;
            remedy.or(Spot::On(spotted.number), line)
        }
        None => Ok(remedy),
    }
}

/// The name of a file, without its folder and what it ends with behind its last point.
pub fn stem_of(file: &str) -> &str {
    let (_folder, name) = file.rsplit_once('/').unwrap_or(("", file));
    let (stem, _kind) = name.rsplit_once('.').unwrap_or((name, ""));
    stem
}

/// The names of all tables.
fn tables<'a>(alloc: Global, outline: &Outline<'a>) -> Result<Vec<&'a str>, NoMemory> {
    let mut names = Vec::new(alloc);
    for table in &outline.tables {
        names.push(table.line)?;
    }
    Ok(names)
}

/// The remedy with the command's device and table exchanged, where the device has a table's name.
fn swapped(
    alloc: Global,
    remedy: Remedy,
    outline: &Outline<'_>,
    spotted: Spotted<'_>,
) -> Result<Remedy, NoMemory> {
    let (verb, name, table) = (spotted.word(0), spotted.word(1), spotted.word(2));
    if !takes_table(verb) || outline.table(name).is_none() {
        return Ok(remedy);
    }
    remedy.or(
        Spot::On(spotted.number),
        format!(in alloc; "{verb} {table} {name}")?,
    )
}
