use crate::script::takes_name;
use crate::targets::is_row;
use lab_outline::plain;
use lab_sector::NoMemory;
use std::alloc::Global;

/// How many words of a line are looked at behind which another line may stand.
const MOST: usize = 20;

/// The two lines of a table that stand on one, with a mark between them or not; nothing of another line.
pub fn two_rows(alloc: Global, line: &str) -> Result<Option<[String; 2]>, NoMemory> {
    if let Some(rows) = rows_of(alloc, line)? {
        return Ok(Some(rows));
    }
    let parted = without_breaks(alloc, line)?;
    rows_of(alloc, parted.as_str())
}

/// The line with a blank for each comma, each semicolon and each `\n` of two letters.
fn without_breaks(alloc: Global, line: &str) -> Result<String, NoMemory> {
    let mut text = String::new(alloc);
    let mut is_escaped = false;
    for letter in line.chars() {
        let is_break = is_escaped && letter == 'n';
        let is_mark = is_break || matches!(letter, ',' | ';' | '\\');
        text.push(if is_mark { ' ' } else { letter })?;
        is_escaped = letter == '\\';
    }
    Ok(text)
}

/// The two lines of a table that stand on one, with blanks round what parts them; nothing of another line.
fn rows_of(alloc: Global, line: &str) -> Result<Option<[String; 2]>, NoMemory> {
    if !is_row(line) {
        return Ok(None);
    }
    let own = words_of(line.split_whitespace().nth(2).unwrap_or(""));
    for place in 3..own.saturating_add(1) {
        let rest = words_from(alloc, line, place, usize::MAX)?;
        let is_next = start_of(rest.as_str()) == end_of(line) || (place == own && own < MOST);
        if is_row(rest.as_str()) && is_next {
            let first = words_from(alloc, line, 0, place)?;
            return Ok(Some([first, rest]));
        }
    }
    Ok(None)
}

/// The sector at which a table's line starts.
fn start_of(line: &str) -> Option<u64> {
    plain(line.split_whitespace().next()?)
}

/// The sector past a table line's last one.
fn end_of(line: &str) -> Option<u64> {
    start_of(line)?.checked_add(plain(line.split_whitespace().nth(1)?)?)
}

/// How many words a line of this type has at most behind which another line may stand.
fn words_of(kind: &str) -> usize {
    match kind {
        "zero" | "error" => 3,
        "linear" => 5,
        "dust" => 6,
        _ => MOST,
    }
}

/// So many words of a line from this place on, without a `;` or a comma behind them.
fn words_from(alloc: Global, line: &str, place: usize, count: usize) -> Result<String, NoMemory> {
    let mut text = String::new(alloc);
    for word in line.split_whitespace().skip(place).take(count) {
        let bare = word.trim_matches(|c: char| matches!(c, ',' | ';'));
        if !text.as_str().is_empty() && !bare.is_empty() {
            text.push_str(" ")?;
        }
        text.push_str(bare)?;
    }
    Ok(text)
}

/// The two commands of a script that stand on one line, with a sign between them or not; nothing of another line.
pub fn two_commands(alloc: Global, line: &str) -> Result<Option<[String; 2]>, NoMemory> {
    for place in 1..6usize {
        let first = commands_from(alloc, line, 0, place)?;
        let rest = commands_from(alloc, line, place, usize::MAX)?;
        let is_parted = !rest.as_str().starts_with("table");
        if is_parted && is_whole(first.as_str()) && is_whole(rest.as_str()) {
            return Ok(Some([first, rest]));
        }
    }
    Ok(None)
}

/// So many words of a line from this place on, without the signs that part commands.
fn commands_from(
    alloc: Global,
    line: &str,
    place: usize,
    count: usize,
) -> Result<String, NoMemory> {
    let mut text = String::new(alloc);
    for word in line.split_whitespace().skip(place).take(count) {
        let bare = if matches!(word, "and" | "then") {
            ""
        } else {
            word.trim_matches(is_sign)
        };
        if !text.as_str().is_empty() && !bare.is_empty() {
            text.push_str(" ")?;
        }
        text.push_str(bare)?;
    }
    Ok(text)
}

/// Whether the letter stands between commands of a shell.
fn is_sign(letter: char) -> bool {
    matches!(letter, ';' | '&' | '|' | ',')
}

/// Whether a line begins with a verb, and has as many words as its command.
fn is_whole(line: &str) -> bool {
    let verb = line.split_whitespace().next().unwrap_or("");
    let count = line.split_whitespace().count();
    match verb {
        "replay" | "wait" => count == 1,
        "ram" | "create" | "load" | "reload" => count == 3,
        "message" => count == 4 || count == 5,
        "sleep" => count == 2,
        _ => takes_name(verb) && count == 2,
    }
}
