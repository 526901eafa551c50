use crate::created::or_lacking;
use crate::doubled::{or_on_doubled, or_open_other};
use crate::later::{later_remedy, or_unclosed};
use crate::loaded::unresumed_remedy;
use crate::names::{near_devices, shown, standing, those_told, why_cased, with_near};
use crate::opened::only_open;
use crate::references::counted_told;
use crate::table_names::table_name_remedy;
use crate::unopened::unopened_remedy;
use lab_advice::{Remedy, Spot};
use lab_guess::{Draft, with_word};
use lab_outline::{Outline, Spotted};
use lab_sector::NoMemory;
use lab_text::{Lines, Words};
use std::alloc::Global;
use std::str::from_utf8;

/// The remedy of a file that is no device: the nearest one that stands at `replay`.
pub fn file_remedy(
    alloc: Global,
    bytes: &[u8],
    outline: &Outline<'_>,
    spotted: Spotted<'_>,
) -> Result<Remedy, NoMemory> {
    let replay = replay_of(outline);
    let file = spotted.word(0);
    if let Some(remedy) = unresumed_remedy(alloc, outline, file, replay)? {
        return Ok(remedy);
    }
    if let Some(why) = standing_otherwise(alloc, outline, file, replay)? {
        return Ok(Remedy::of(alloc, why));
    }
    if let Some(remedy) = table_name_remedy(alloc, outline, spotted, replay)? {
        return Ok(remedy);
    }
    let mut remedy = Remedy::of(alloc, why_no_file(alloc, outline, file, replay)?);
    let near = near_devices(alloc, outline, file, replay)?;
    for word in &near.words {
        offer_create(alloc, &mut remedy, bytes, outline, file, word.as_str())?;
    }
    if near.words.is_empty() {
        return or_lacking(alloc, remedy, outline, file, replay);
    }
    with_near(alloc, remedy, spotted, 0, &near)
}

/// Offers the create of the near device under the file's name, where several lines of logs have the file, and nothing
/// but the create names that device.
fn offer_create<'a>(
    alloc: Global,
    remedy: &mut Remedy,
    bytes: &[u8],
    outline: &Outline<'a>,
    file: &'a str,
    word: &'a str,
) -> Result<(), NoMemory> {
    let Some(wanted) = outline.name_meant(file) else {
        return Ok(());
    };
    let Some(name) = outline.name_meant(word) else {
        return Ok(());
    };
    let Some(create) = outline.created_from(name, 0) else {
        return Ok(());
    };
    let is_alone = outline
        .commands
        .iter()
        .all(|it| it.number == create.number || it.device() != name);
    if is_alone
        && outline.count_of(word) == 0
        && lines_of(bytes, word) == 0
        && 1 < lines_of(bytes, file)
    {
        let line = with_word(alloc, create.line, 1, wanted)?;
        remedy.offer(0, Spot::On(create.number), line)?;
    }
    Ok(())
}

/// How many lines begin with this word.
fn lines_of(bytes: &[u8], word: &str) -> u64 {
    let mut count = 0u64;
    for line in Lines::new(bytes) {
        if Words::new(line).next() == Some(word.as_bytes()) {
            count = count.saturating_add(1);
        }
    }
    count
}

/// Why a file is no device that stands at the replay.
fn why_no_file(
    alloc: Global,
    outline: &Outline<'_>,
    file: &str,
    replay: u64,
) -> Result<String, NoMemory> {
    if let Some(why) = why_cased(alloc, outline, file, replay, "at `replay`")? {
        return Ok(why);
    }
    if outline.created(file, replay).is_some() {
        return Ok(format!(in alloc;
            "a log names a device by its path, and {file} is /dev/mapper/{file}"
        )?);
    }
    let why = match outline.name_meant(file) {
        Some(name) => format!(in alloc;
            "no line of the script creates the device {}",
            shown(name)
        )?,
        None => String::from_str(alloc, "no device of this name stands at `replay`")?,
    };
    let why = format!(in alloc;
        "{why}: a file is a device that stands at `replay` with a live table, as /dev/mapper/NAME, or a disk, as /dev/ramN"
    )?;
    if file.starts_with("/dev/dm") {
        let counted = counted_told(alloc, outline, replay)?;
        return Ok(format!(in alloc; "{why}{counted}")?);
    }
    let names = standing(alloc, outline, replay)?;
    those_told(why, "; the NAMEs that stand there are ", names.as_slice())
}

/// The line of the replay, or one past all others.
pub(crate) fn replay_of(outline: &Outline<'_>) -> u64 {
    match outline.command("replay") {
        Some(replay) => replay.number,
        None => u64::MAX,
    }
}

/// What is told of a file that has a device, though none with a live table at `replay`.
fn standing_otherwise(
    alloc: Global,
    outline: &Outline<'_>,
    file: &str,
    replay: u64,
) -> Result<Option<String>, NoMemory> {
    let Some(name) = outline.name_meant(file) else {
        return Ok(None);
    };
    if let Some(created) = outline.created(name, replay) {
        let line = created.number;
        return Ok(Some(format!(in alloc;
            "the device {name}, which line {line} creates, has no live table at the `replay`, \
             line {replay}: `load {name} TABLE` and `resume {name}` before that give it one"
        )?));
    }
    if let Some(later) = outline.created_from(name, replay) {
        let line = later.number;
        return Ok(Some(format!(in alloc;
            "line {line} creates the device {name} behind the `replay`, line {replay}: put that \
             `create` before the `replay`"
        )?));
    }
    match outline.last_of("remove", name, replay) {
        Some(removed) => {
            let line = removed.number;
            Ok(Some(format!(in alloc;
                "line {line} removes the device {name} before the `replay`, line {replay}"
            )?))
        }
        None => Ok(None),
    }
}

/// The remedy of a file that isn't added or open, or is open already: an open before its use, an add before its open,
/// and a blank line in place of a second open or a close of what isn't open.
pub fn use_remedy(
    alloc: Global,
    bytes: &[u8],
    outline: &Outline<'_>,
    spotted: Spotted<'_>,
) -> Result<Remedy, NoMemory> {
    let file = spotted.word(0);
    let added = was_added(bytes, outline, spotted.number, file);
    if let Some(action) = action_lacking(spotted.word(1), added) {
        if let Some(remedy) = later_remedy(alloc, bytes, spotted, action)? {
            return Ok(remedy);
        }
    }
    let remedy = Remedy::of(alloc, why_unused(alloc, spotted, added)?);
    match spotted.word(1) {
        "open" if added => {
            let remedy = remedy.or_blank(alloc, spotted.number)?;
            or_open_other(alloc, bytes, outline, remedy, spotted)
        }
        "open" => match unopened_remedy(alloc, bytes, spotted)? {
            Some(remedy) => Ok(remedy),
            None => put_before(alloc, bytes, remedy, spotted, "add"),
        },
        "close" => remedy.or_blank(alloc, spotted.number),
        _ if added => {
            let remedy = put_before(alloc, bytes, remedy, spotted, "open")?;
            or_unclosed(alloc, bytes, remedy, spotted)
        }
        _ => {
            let near = near_devices(alloc, outline, file, replay_of(outline))?;
            let remedy = with_near(alloc, remedy, spotted, 0, &near)?;
            or_of_open(alloc, remedy, bytes, spotted)
        }
    }
}

/// The action that lacks before a line with this one: an add before an open, and an open before a use of an added file.
fn action_lacking(action: &str, added: bool) -> Option<&'static str> {
    match action {
        "open" if !added => Some("add"),
        "open" | "close" => None,
        _ if added => Some("open"),
        _ => None,
    }
}

/// The remedy that also tells the line by the only file that is open there, unless that is proposed.
fn or_of_open(
    alloc: Global,
    mut remedy: Remedy,
    bytes: &[u8],
    spotted: Spotted<'_>,
) -> Result<Remedy, NoMemory> {
    if let Some(file) = only_open(bytes, spotted.number) {
        let line = with_word(alloc, spotted.line, 0, file)?;
        let line = shown(line.as_str());
        if !remedy.mends.iter().any(|it| it.line.as_str() == line) {
            remedy.why.push_str(format!(in alloc;
                "; or `{line}` is meant, of the only file that is open here"
            )?.as_str())?;
        }
    }
    Ok(remedy)
}

/// What is told of a file that isn't added or open.
fn why_unused(alloc: Global, spotted: Spotted<'_>, added: bool) -> Result<String, NoMemory> {
    let file = spotted.word(0);
    if !added && !matches!(spotted.word(1), "open" | "close") {
        return Ok(format!(in alloc;
            "the log never adds this file: `{file} add` and then `{file} open` stand before its first use"
        )?);
    }
    let why = "a file is added, then opened, then used, then closed, as often as it is opened";
    Ok(String::from_str(alloc, why)?)
}

/// The remedy of a line before this one that adds or opens its file, or in the place of an `add` that stands there
/// twice.
fn put_before(
    alloc: Global,
    bytes: &[u8],
    remedy: Remedy,
    spotted: Spotted<'_>,
    action: &str,
) -> Result<Remedy, NoMemory> {
    let mut draft = Draft::new(alloc);
    draft.push(spotted.word(0))?;
    draft.push(action)?;
    or_on_doubled(alloc, bytes, remedy, spotted, action)?.or(
        Spot::Before(spotted.number),
        draft.line(),
    )
}

/// Whether the file is added on a line since the last heading before this one.
fn was_added(bytes: &[u8], outline: &Outline<'_>, number: u64, file: &str) -> bool {
    let mut at = 0u64;
    let mut added = false;
    for line in Lines::new(bytes) {
        at = at.saturating_add(1);
        if at >= number {
            return added;
        }
        added = !line.starts_with(b"==") && (added || adds(outline, line, file));
    }
    added
}

/// Whether a log's line adds the file, under this name or another one.
fn adds(outline: &Outline<'_>, line: &[u8], file: &str) -> bool {
    let mut words = Words::new(line);
    let (Some(other), Some(action)) = (words.next(), words.next()) else {
        return false;
    };
    let other = from_utf8(other).unwrap_or("");
    action == b"add".as_slice() && (other == file || is_same(outline, other, file))
}

/// Whether two words stand for one mapped device.
fn is_same(outline: &Outline<'_>, other: &str, file: &str) -> bool {
    match (outline.name_meant(other), outline.name_meant(file)) {
        (Some(one), Some(two)) => one == two,
        _ => false,
    }
}
