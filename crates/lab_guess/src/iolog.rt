use crate::draft::Draft;
use crate::numbers::{Unit, meant};
use crate::table::without_comment;
use lab_outline::{nearest_of, plain};
use lab_sector::NoMemory;
use std::alloc::Global;

/// The line as a log could have it, unless it has these words already: without a comment behind it, its action by its name
/// in version 2, its numbers plain, and the zeroes that are missing. No offset and no length is put in or changed.
pub fn mended_log_line(alloc: Global, line: &str) -> Result<Option<String>, NoMemory> {
    let bare = without_comment(line)
        .trim_end()
        .trim_end_matches(|c: char| c == ';' || c == '\\');
    let action = action_near(alloc, bare.split_whitespace().nth(1).unwrap_or(""))?;
    let mut draft = Draft::new(alloc);
    for (place, word) in bare.split_whitespace().take(most_words(action)).enumerate() {
        push_word(&mut draft, action, place, word)?;
    }
    push_wanted(&mut draft, action, bare.split_whitespace().count())?;
    Ok(draft.changed(line))
}

/// The line behind the time that version 3 puts before it.
pub fn without_time(line: &str) -> &str {
    match line.trim().split_once(|c: char| c == ' ' || c == '\t') {
        Some((time, rest)) if plain(time).is_some() => rest,
        _ => line,
    }
}

/// The action of version 2 that a word means; another word as it is.
pub fn action_meant(word: &str) -> &str {
    match word {
        "fsync" | "SYNC" | "Sync" | "flush" => "sync",
        "fdatasync" => "datasync",
        "discard" | "TRIM" | "Trim" | "erase" | "unmap" => "trim",
        "READ" | "Read" | "pread" | "randread" | "R" | "r" => "read",
        "WRITE" | "Write" | "pwrite" | "randwrite" | "W" | "w" => "write",
        "sleep" => "wait",
        other => other,
    }
}

/// The action that a word means, or the one that is nearest to it; another word as it is.
pub fn action_near(alloc: Global, word: &str) -> Result<&str, NoMemory> {
    let actions = "add open close read write trim sync datasync wait";
    let meant = action_meant(word);
    Ok(nearest_of(alloc, meant, actions)?.unwrap_or(meant))
}

/// How many words a line of this action has at most.
fn most_words(action: &str) -> usize {
    match action {
        "add" | "open" | "close" => 2,
        _ => 4,
    }
}

/// Adds a word as a log could have it.
fn push_word(draft: &mut Draft, action: &str, place: usize, word: &str) -> Result<(), NoMemory> {
    match place {
        0 => draft.push(word),
        1 => draft.push(action),
        _ => push_count(draft, action, word),
    }
}

/// Adds a number of a line.
fn push_count(draft: &mut Draft, action: &str, word: &str) -> Result<(), NoMemory> {
    let unit = match action {
        "wait" => Unit::Microseconds,
        _ => Unit::Bytes,
    };
    match plain(word).or(meant(word, unit)) {
        Some(number) => draft.push_number(number),
        None => draft.push(word),
    }
}

/// Adds the zeroes that a line of this action lacks.
fn push_wanted(draft: &mut Draft, action: &str, count: usize) -> Result<(), NoMemory> {
    for word in wanted(action, count)
        .split_whitespace()
        .skip(count.saturating_sub(2))
    {
        draft.push(word)?;
    }
    Ok(())
}

/// The zeroes that a line of this action has, from its third word on.
fn wanted(action: &str, count: usize) -> &'static str {
    match action {
        "sync" | "datasync" => "0 0",
        "wait" if count == 3 => "0 0",
        _ => "",
    }
}
