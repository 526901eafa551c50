use lab_guess::{is_command, is_event, is_of_log, is_row, is_sign, words_from};
use lab_sector::NoMemory;
use std::alloc::Global;

/// How many bytes a heading has at most that is shown in two lines.
const LONGEST: usize = 200;

/// What is told of a heading that has a line of its part behind it, if it has one.
pub(crate) fn with_line(alloc: Global, line: &str) -> Result<Option<String>, NoMemory> {
    if LONGEST < line.len() {
        return Ok(None);
    }
    let kind = line
        .split_whitespace()
        .nth(1)
        .unwrap_or("")
        .trim_matches(is_sign);
    let words = if matches!(kind, "script" | "history") {
        2
    } else {
        3
    };
    let rest = words_from(alloc, line, words, usize::MAX)?;
    let is_line = match kind {
        "table" => is_row(rest.as_str()),
        "script" => is_command(rest.as_str()),
        "log" => is_of_log(rest.as_str()) && !is_device(rest.as_str()),
        "history" => is_event(rest.as_str()),
        _ => false,
    };
    if !is_line {
        return Ok(None);
    }
    let heading = words_from(alloc, line, 0, words)?;
    Ok(Some(format!(in alloc;
        "a heading stands alone on its line: write `{heading}` there, and `{rest}` on a line of its own below it"
    )?))
}

/// Whether words are those of devices alone.
fn is_device(words: &str) -> bool {
    words
        .split_whitespace()
        .all(|word| word.starts_with("/dev/"))
}

/// Whether a log's heading names devices behind its name.
pub(crate) fn names_devices(line: &str) -> bool {
    let mut words = line.split_whitespace().skip(1);
    let is_log = words.next() == Some("log");
    let name = words.next().unwrap_or("");
    is_log
        && !name.is_empty()
        && is_begun(words.next())
        && words.all(|word| word.starts_with("/dev/"))
}

/// Whether a word is there, and is the path of a device.
fn is_begun(word: Option<&str>) -> bool {
    word.is_some_and(|it| it.starts_with("/dev/"))
}

/// The words that name disks in a heading.
const DISKS: &str = "disk disks ram rams ramdisk ramdisks memory storage drives";

/// The words that name mapped devices in a heading.
const DEVICES: &str = "device devices dm mapper stack volume volumes setup create";

/// The words that name commands in a heading.
const COMMANDS: &str = "command commands steps actions messages run";

/// The words that name what is read and written in a heading.
const REQUESTS: &str = "fio io workload workloads job jobs ops operations writes requests";

/// Where the lines belong of a part that a bundle hasn't.
pub(crate) fn instead_of(line: &str) -> Option<&'static str> {
    let bare = line.trim_start_matches('=');
    let word = bare.split_whitespace().next().unwrap_or("");
    if is_one_of(word, DISKS) {
        return Some(
            "a bundle has no part for its disks: `ram N SECTORS` makes one, and stands under `== script`, before all \
             other commands",
        );
    }
    if is_one_of(word, DEVICES) {
        return Some(
            "a bundle has no part for its devices: `create NAME TABLE` makes one, and stands under `== script`, behind \
             the `ram` lines",
        );
    }
    if is_one_of(word, COMMANDS) {
        return Some("a bundle has no part of this kind: its commands stand under `== script`");
    }
    other_part(word)
}

/// Where the lines belong of a part of this name that a bundle hasn't, and that isn't one of its script.
fn other_part(word: &str) -> Option<&'static str> {
    if is_one_of(word, REQUESTS) {
        return Some(
            "a bundle has no part of this kind: what is read and written stands under `== log NAME`, as in fio's logs",
        );
    }
    if is_one_of(word, "events trace order schedule") {
        return Some(
            "a bundle has no part of this kind: the events of a run stand under `== history`",
        );
    }
    if is_one_of(word, "target targets mapping mappings") {
        return Some(
            "a bundle has no part of this kind: the lines of a device stand under `== table NAME`",
        );
    }
    None
}

/// Whether a word is one of these.
fn is_one_of(word: &str, words: &'static str) -> bool {
    words.split_whitespace().any(|it| it == word)
}
