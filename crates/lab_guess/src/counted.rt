use crate::script::is_verb;
use lab_outline::plain;

/// The number before a line, as `cat -n`, `nl` and `grep -n` print one, and the line behind it.
pub fn without_number(line: &str) -> Option<(u64, &str)> {
    let bare = line.trim_start();
    let behind = bare.trim_start_matches(|c: char| c.is_ascii_digit());
    let number = plain(bare.strip_suffix(behind)?)?;
    let rest = behind.trim_start_matches(is_between);
    if rest.len() == behind.len() && !rest.is_empty() {
        return None;
    }
    Some((number, rest))
}

/// Whether the letter stands between a line's number and the line.
fn is_between(letter: char) -> bool {
    matches!(letter, ' ' | '\t' | ':')
}

/// Whether a line is a heading, or a comment.
pub fn is_mark(line: &str) -> bool {
    line.starts_with("==") || line.starts_with('#')
}

/// Whether a line begins as a command of a script does.
pub fn is_command(line: &str) -> bool {
    is_verb(line.split_whitespace().next().unwrap_or(""))
}

/// Whether a line begins as one of a log does.
pub fn is_of_log(line: &str) -> bool {
    line.starts_with("/dev/") || line.starts_with("fio version ")
}

/// Whether a line begins as one of a history does.
pub fn is_event(line: &str) -> bool {
    let word = line.split_whitespace().next().unwrap_or("");
    matches!(
        word,
        "control" | "clock" | "line" | "map" | "serve" | "release" | "finish"
    )
}
