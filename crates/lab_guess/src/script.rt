use crate::draft::Draft;
use crate::numbers::{Unit, meant};
use crate::table::without_comment;
use lab_outline::{nearest_of, plain};
use lab_sector::NoMemory;
use std::alloc::Global;

/// The command as a script could have it, unless it has these words already: without `dmsetup` before it and a comment
/// behind it, its verb by its name, its numbers plain, its device by its name alone, and with this table, where it wants one.
pub fn mended_command(
    alloc: Global,
    line: &str,
    table: Option<&str>,
) -> Result<Option<String>, NoMemory> {
    let bare = without_dmsetup(without_comment(line));
    let bare = bare.trim_end_matches(|c: char| c == ';' || c == '\\');
    let verb = verb_near(alloc, bare.split_whitespace().next().unwrap_or(""))?;
    let is_listed = verb == "ram" && plain(bare.split_whitespace().nth(3).unwrap_or("")).is_some();
    if is_listed
        || bare.contains(';')
        || (!takes_name(verb) && bare.split_whitespace().any(is_other_option))
    {
        return Ok(None);
    }
    let mut draft = Draft::new(alloc);
    let mut place = 0usize;
    for word in bare.split_whitespace() {
        if place < most_words(verb) && !is_option(verb, word) {
            push_word(&mut draft, verb, place, word)?;
            place = place.saturating_add(1);
        }
    }
    push_table(&mut draft, verb, bare.split_whitespace().count(), table)?;
    Ok(draft.changed(line))
}

/// The verb that a word means, or the one that is nearest to it; another word as it is.
pub fn verb_near(alloc: Global, word: &str) -> Result<&str, NoMemory> {
    let verbs =
        "ram create load reload clear suspend resume remove message status table sleep replay wait";
    let word = verb_meant(word);
    if matches!(word, "rename" | "mangle" | "measure") {
        return Ok(word);
    }
    Ok(nearest_of(alloc, word, verbs)?.unwrap_or(word))
}

/// The verb that another word stands for elsewhere; another word as it is.
fn verb_meant(word: &str) -> &str {
    match word {
        "rm" | "del" | "delete" | "destroy" => "remove",
        "pause" | "freeze" => "suspend",
        "unpause" | "continue" | "thaw" | "unfreeze" | "unsuspend" => "resume",
        "msg" => "message",
        "waitall" | "wait_all" | "wait-all" => "wait",
        "disk" | "brd" | "ramdisk" | "mem" => "ram",
        other => other,
    }
}

/// Whether a word is the verb of a command.
pub(crate) fn is_verb(word: &str) -> bool {
    takes_name(word)
        || takes_table(word)
        || matches!(word, "ram" | "message" | "sleep" | "replay" | "wait")
}

/// Whether the command has a table behind its device.
pub fn takes_table(verb: &str) -> bool {
    matches!(verb, "create" | "load" | "reload")
}

/// Whether the command has the name of a device behind it, and no more.
pub fn takes_name(verb: &str) -> bool {
    matches!(
        verb,
        "suspend" | "resume" | "remove" | "clear" | "status" | "table"
    )
}

/// Whether the word is an option of dmsetup's at such a command.
fn is_option(verb: &str, word: &str) -> bool {
    takes_name(verb) && word.starts_with('-')
}

/// Whether the word is an option that no command of a script takes.
fn is_other_option(word: &str) -> bool {
    word.starts_with("--") && !is_notable(word)
}

/// Whether the word stands for the option of a create without a table.
fn is_notable(word: &str) -> bool {
    word.starts_with("--not") || word.starts_with("--no-t") || word.starts_with("--no_t")
}

/// The line behind the word `dmsetup`, where none or only words of a shell stand before it.
pub fn without_dmsetup(line: &str) -> &str {
    let bare = line.trim();
    match bare.split_once("dmsetup ") {
        Some((front, rest)) if front.split_whitespace().all(is_of_shell) => without_option(
            rest.trim_start(),
        ),
        _ => bare,
    }
}

/// The line behind an option that stands first.
fn without_option(line: &str) -> &str {
    match line.split_once(' ') {
        Some((option, rest)) if option.starts_with('-') => rest.trim_start(),
        _ => line,
    }
}

/// Whether a word stands before a command of a shell: its prompt, `sudo`, or the begin of the program's path.
fn is_of_shell(word: &str) -> bool {
    matches!(word, "sudo" | "$" | "%" | ">") || word.ends_with('/')
}

/// How many words a command has at most.
fn most_words(verb: &str) -> usize {
    match verb {
        "replay" | "wait" => 1,
        "suspend" | "resume" | "remove" | "clear" | "status" | "table" | "sleep" => 2,
        "ram" | "create" | "load" | "reload" => 3,
        _ => usize::MAX,
    }
}

/// Adds a word as a script could have it.
fn push_word(draft: &mut Draft, verb: &str, place: usize, word: &str) -> Result<(), NoMemory> {
    match (verb, place) {
        (_, 0) => draft.push(verb),
        ("ram", 1) => push_meant(draft, disk_number(word), Unit::Sectors),
        ("ram", _) => push_meant(draft, word, Unit::Sectors),
        ("sleep", _) => push_meant(draft, word, Unit::Microseconds),
        ("message", 2) if plain(word).is_none() => push_sector(draft, word),
        ("create", _) if is_notable(word) => draft.push("--notable"),
        (_, 1) => draft.push(device_name(word)),
        _ => draft.push(word),
    }
}

/// Adds the number that a word means; the word itself where it means none.
fn push_meant(draft: &mut Draft, word: &str, unit: Unit) -> Result<(), NoMemory> {
    match plain(word).or(meant(word, unit)) {
        Some(number) => draft.push_number(number),
        None => draft.push(word),
    }
}

/// Adds the sector that a word means; for another word sector 0, and then the word.
fn push_sector(draft: &mut Draft, word: &str) -> Result<(), NoMemory> {
    if let Some(sector) = meant(word, Unit::Sectors) {
        return draft.push_number(sector);
    }
    draft.push("0")?;
    draft.push(word)
}

/// The number behind `/dev/ram`.
fn disk_number(word: &str) -> &str {
    word.strip_prefix("/dev/ram").unwrap_or(word)
}

/// The name behind `/dev/mapper/`.
fn device_name(word: &str) -> &str {
    word.strip_prefix("/dev/mapper/").unwrap_or(word)
}

/// Adds this table, if there is one, where a create or a load names none.
fn push_table(
    draft: &mut Draft,
    verb: &str,
    count: usize,
    table: Option<&str>,
) -> Result<(), NoMemory> {
    match table {
        Some(table) if takes_table(verb) && count == 2 => draft.push(table),
        _ => Ok(()),
    }
}
