use crate::asked::reach_of;
use crate::created::or_lacking;
use crate::disks::{disks_told, is_of_host, or_free_disk};
use crate::names::{near_devices, shown, why_cased, with_near};
use crate::sizes::offered;
use crate::unknown::why_absent;
use lab_advice::{Remedy, Spot};
use lab_guess::with_word;
use lab_outline::{Outline, Reference, Spotted, plain};
use lab_script::{MAX_DISK, MAX_DISK_SECTORS};
use lab_sector::NoMemory;
use lab_text::Lines;
use std::alloc::Global;
use std::str::from_utf8;

/// How many devices are told by their numbers at most.
const SHOWN: u64 = 8;

/// How many commands are looked through at most for a table's device.
const MOST_COMMANDS: usize = 1000;

/// The remedy of a table's line that is laid on what doesn't stand before this line.
pub(crate) fn reference_remedy(
    alloc: Global,
    bytes: &[u8],
    outline: &Outline<'_>,
    reference: Reference<'_>,
    before: u64,
) -> Result<Remedy, NoMemory> {
    let row = reference.row;
    let (table, within, number) = (row.table, row.within, row.spotted.number);
    let (line, device) = (shown(row.spotted.line), shown(reference.device));
    let cause = cause_of(alloc, outline, reference.device, before)?;
    let hint = hint_of(alloc, outline, reference.device, before)?;
    let why = format!(in alloc;
        "line {number} of the bundle, table {table} line {within}, `{line}`, names {device}: {cause}{hint}"
    )?;
    let remedy = Remedy::of(alloc, why);
    if let Some(mend) = disk_wanted(alloc, bytes, outline, reference)? {
        let remedy = or_other_disk(alloc, remedy, outline, reference, before)?;
        let remedy = or_renumbered(alloc, remedy, outline, reference)?;
        return offered(remedy, first_place(outline, before), mend);
    }
    let near = near_devices(alloc, outline, reference.device, before)?;
    if near.words.is_empty() && is_of_host(reference.device) {
        return or_free_disk(alloc, remedy, outline, reference);
    }
    if near.words.is_empty() {
        return or_lacking(alloc, remedy, outline, reference.device, before);
    }
    with_near(alloc, remedy, row.spotted, reference.place, &near)
}

/// The remedy with the only disk under the number that a table's line names, where no line names that disk.
fn or_renumbered(
    alloc: Global,
    remedy: Remedy,
    outline: &Outline<'_>,
    reference: Reference<'_>,
) -> Result<Remedy, NoMemory> {
    let mut disks = outline.commands.iter().filter(|it| it.word(0) == "ram");
    let (Some(disk), None) = (disks.next(), disks.next()) else {
        return Ok(remedy);
    };
    let (own, sectors) = (disk.word(1), disk.word(2));
    let word = format!(in alloc; "/dev/ram{own}")?;
    if outline.count_of(word.as_str()) != 0 {
        return Ok(remedy);
    }
    let wanted = reference.device.strip_prefix("/dev/ram").unwrap_or(own);
    offered(
        remedy,
        Spot::On(disk.number),
        format!(in alloc; "ram {wanted} {sectors}")?,
    )
}

/// What else is told of a word that stands for no device: the device that has a table of this name, the one that a path of
/// LVM means, or how devices are counted.
fn hint_of(
    alloc: Global,
    outline: &Outline<'_>,
    word: &str,
    before: u64,
) -> Result<String, NoMemory> {
    let (folder, last) = word.rsplit_once('/').unwrap_or(("", word));
    let (_front, group) = folder.rsplit_once('/').unwrap_or(("", folder));
    let joined = format!(in alloc; "{group}-{last}")?;
    if outline.created(joined.as_str(), before).is_some() {
        return Ok(format!(in alloc; "; a device of LVM is /dev/mapper/{joined}")?);
    }
    if is_counted(word) {
        return counted_told(alloc, outline, before);
    }
    for command in outline.commands.iter().take(MOST_COMMANDS) {
        let name = command.device();
        let is_owner = command.word(0) == "create" && command.number < before;
        if is_owner && outline.live_table(name, before) == Some(last) {
            return Ok(format!(in alloc; "; {last} is the table of /dev/mapper/{name}")?);
        }
    }
    Ok(String::new(alloc))
}

/// Whether a word has the number of a mapped device.
fn is_counted(word: &str) -> bool {
    let number = word
        .strip_prefix("/dev/dm-")
        .or(word.strip_prefix("253:"))
        .unwrap_or("");
    plain(number).is_some()
}

/// The words that tell the numbers of the mapped devices.
pub(crate) fn counted_told(
    alloc: Global,
    outline: &Outline<'_>,
    before: u64,
) -> Result<String, NoMemory> {
    let mut told = String::from_str(alloc, "; devices are counted from 0, as they are created:")?;
    let mut number = 0u64;
    for command in outline.commands.iter().filter(|it| it.word(0) == "create") {
        if command.number <= before && number < SHOWN {
            let name = shown(command.device());
            let mark = if number == 0 { "" } else { "," };
            told.push_str(format!(in alloc; "{mark} /dev/dm-{number} is {name}")?.as_str())?;
        }
        number = number.saturating_add(1);
    }
    Ok(told)
}

/// The remedy with the line by a disk that stands and has a near name, if no other line is laid on the one that doesn't.
fn or_other_disk(
    alloc: Global,
    mut remedy: Remedy,
    outline: &Outline<'_>,
    reference: Reference<'_>,
    before: u64,
) -> Result<Remedy, NoMemory> {
    if outline.count_of(reference.device) != 1 {
        return Ok(remedy);
    }
    let spotted = reference.row.spotted;
    for word in &near_devices(alloc, outline, reference.device, before)?.words {
        if outline.disk_of(word.as_str()).is_some() {
            let line = with_word(alloc, spotted.line, reference.place, word.as_str())?;
            remedy.offer(0, Spot::On(spotted.number), line)?;
        }
    }
    Ok(remedy)
}

/// The command that makes the memory disk which a table's line names, as large as the first one, or as the lines of all tables and logs reach.
fn disk_wanted(
    alloc: Global,
    bytes: &[u8],
    outline: &Outline<'_>,
    reference: Reference<'_>,
) -> Result<Option<String>, NoMemory> {
    let number = plain(reference.device.strip_prefix("/dev/ram").unwrap_or(""));
    let first = match outline.command("ram") {
        Some(disk) => plain(disk.word(2)).unwrap_or(0),
        None => 0,
    };
    let reach = reach_of(outline, reference.device).max(logged_end(bytes, reference.device));
    let sectors = reach.max(first);
    match number {
        Some(number) if number <= MAX_DISK && sectors <= MAX_DISK_SECTORS => {
            Ok(Some(format!(in alloc; "ram {number} {sectors}")?))
        }
        _ => Ok(None),
    }
}

/// The sector past the last one that an operation of a log on this file reaches.
fn logged_end(bytes: &[u8], file: &str) -> u64 {
    let mut end = 0u64;
    for line in Lines::new(bytes) {
        let line = from_utf8(line).unwrap_or("");
        let own = Spotted { number: 0, line };
        if own.word(0) == file && own.word(1) != "wait" {
            let offset = plain(own.word(2)).unwrap_or(0);
            let length = plain(own.word(3)).unwrap_or(0);
            end = end.max(offset.saturating_add(length).div_ceil(512));
        }
    }
    end
}

/// The place before the first command that makes no disk, or before this line.
fn first_place(outline: &Outline<'_>, before: u64) -> Spot {
    for command in &outline.commands {
        if command.word(0) != "ram" {
            return Spot::Before(command.number);
        }
    }
    Spot::Before(before)
}

/// Why a table's word stands for nothing before this line.
fn cause_of(
    alloc: Global,
    outline: &Outline<'_>,
    device: &str,
    before: u64,
) -> Result<String, NoMemory> {
    if let Some(name) = outline.name_meant(device) {
        return why_absent(alloc, outline, name, before);
    }
    if let Some(why) = why_cased(alloc, outline, device, before, "here")? {
        return Ok(why);
    }
    if device.starts_with("/dev/ram") {
        let why = "no such disk stands; a disk /dev/ramN is made by `ram N SECTORS`";
        return Ok(String::from_str(alloc, why)?);
    }
    if plain(device).is_some() {
        let why =
            "a number stands in the place of the device, as in a line of `dmsetup status`: a table has the line of \
                   `dmsetup table`, with a DEVICE and its OFFSET behind the type";
        return Ok(String::from_str(alloc, why)?);
    }
    let why =
        "a bundle has no such device; its disks are /dev/ramN, made by `ram N SECTORS`, its mapped devices \
               /dev/mapper/NAME, made by `create NAME TABLE`";
    disks_told(alloc, String::from_str(alloc, why)?, outline)
}
