use crate::names::shown;
use lab_advice::{Remedy, Spot};
use lab_guess::with_word;
use lab_outline::{Outline, Reference, Spotted, plain};
use lab_sector::NoMemory;
use std::alloc::Global;

/// How many disks are told at most.
const SHOWN: usize = 8;

/// What the path of a file on a host begins with.
const FOLDERS: &str = "/tmp/ /home/ /root/ /mnt/ /var/ /srv/ /opt/ /data/ ./ ../ ~/";

/// What the name of a disk's file ends with.
const ENDS: &str = ".img .bin .raw .iso .dat .qcow2 .vmdk";

/// The words behind a reason that tell which disks there are; nothing where there are none.
pub(crate) fn disks_told(
    alloc: Global,
    mut why: String,
    outline: &Outline<'_>,
) -> Result<String, NoMemory> {
    let mut count = 0usize;
    for command in &outline.commands {
        if command.word(0) == "ram" && count < SHOWN {
            let front = if count == 0 {
                "; the disks of this bundle are "
            } else {
                ", "
            };
            let number = shown(command.word(1));
            why.push_str(format!(in alloc; "{front}/dev/ram{number}")?.as_str())?;
            count = count.saturating_add(1);
        }
    }
    Ok(why)
}

/// What is told of a command whose table names the command's own device, if it does: the line, and which disks there are.
pub fn self_told(
    alloc: Global,
    outline: &Outline<'_>,
    spotted: Spotted<'_>,
) -> Result<Option<String>, NoMemory> {
    let (verb, name, table) = (spotted.word(0), spotted.word(1), spotted.word(2));
    let Some(reference) = outline.reference_to(table, name) else {
        return Ok(None);
    };
    let row = reference.row;
    let (within, number) = (row.within, row.spotted.number);
    let (line, device) = (shown(row.spotted.line), shown(reference.device));
    let why = format!(in alloc;
        "line {number} of the bundle, table {table} line {within}, `{line}`, names {device}: this `{verb}` would lay the device \
         {name} on itself, and a table names what is below its device"
    )?;
    Ok(Some(disks_told(alloc, why, outline)?))
}

/// The remedy with the line by the one disk that no table's line is laid on, and that has the sectors which this line wants;
/// where none has them, by the only one.
pub(crate) fn or_free_disk(
    alloc: Global,
    remedy: Remedy,
    outline: &Outline<'_>,
    reference: Reference<'_>,
) -> Result<Remedy, NoMemory> {
    let fitting = only_free(alloc, outline, reference.end)?;
    let Some(disk) = fitting.or(only_free(alloc, outline, 0)?) else {
        return Ok(remedy);
    };
    let number = disk.word(1);
    let device = format!(in alloc; "/dev/ram{number}")?;
    let spotted = reference.row.spotted;
    let line = with_word(alloc, spotted.line, reference.place, device.as_str())?;
    remedy.or(Spot::On(spotted.number), line)
}

/// The line of the only disk of so many sectors that no table's line is laid on.
fn only_free<'a>(
    alloc: Global,
    outline: &Outline<'a>,
    sectors: u64,
) -> Result<Option<Spotted<'a>>, NoMemory> {
    let mut found = None;
    for command in &outline.commands {
        let fits = sectors <= plain(command.word(2)).unwrap_or(0);
        if command.word(0) == "ram" && fits && is_free(alloc, outline, *command)? {
            if found.is_some() {
                return Ok(None);
            }
            found = Some(*command);
        }
    }
    Ok(found)
}

/// Whether no table's line is laid on the disk of this line.
fn is_free(alloc: Global, outline: &Outline<'_>, disk: Spotted<'_>) -> Result<bool, NoMemory> {
    let number = disk.word(1);
    let device = format!(in alloc; "/dev/ram{number}")?;
    let pair = format!(in alloc; "1:{number}")?;
    Ok(outline.count_of(device.as_str()) == 0 && outline.count_of(pair.as_str()) == 0)
}

/// Whether a word names a disk of a host: by its two numbers, but for a mapped device's, by what its name begins with, or
/// by a file.
pub(crate) fn is_of_host(word: &str) -> bool {
    if let Some((major, minor)) = word.split_once(':') {
        return major != "253" && plain(major).is_some() && plain(minor).is_some();
    }
    let name = word.strip_prefix("/dev/").unwrap_or(word);
    let kinds = "sd hd vd xvd nvme loop mmcblk nbd pmem zram disk/";
    kinds.split_whitespace().any(|it| name.starts_with(it)) || is_file(word)
}

/// Whether a word is the path of a file, or ends as the name of a disk's file does.
fn is_file(word: &str) -> bool {
    FOLDERS.split_whitespace().any(|it| word.starts_with(it))
        || ENDS.split_whitespace().any(|it| word.ends_with(it))
}
