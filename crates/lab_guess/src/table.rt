use crate::draft::Draft;
use crate::flakey::{COUNT_AT, feature_near, push_count, push_value};
use crate::numbers::{Unit, meant};
use crate::targets::{is_lacking, is_row};
use lab_outline::{nearest_of, plain};
use lab_sector::NoMemory;
use lab_text::{Lines, is_heading, is_skipped};
use std::alloc::Global;
use std::str::from_utf8;

/// How many words of a flakey line are taken: each feature once has fewer.
const MOST_WORDS: usize = 64;

/// A table line's words, and what a word's place says of it.
#[derive(Clone, Copy)]
struct TableLine<'a> {
    kind: &'a str,
    count: usize,
}

/// The line as a table could have it, unless it has these words already: without a name before it and a comment behind
/// it, its numbers plain, its type in small letters, and with what its type wants besides: behind a device alone only where
/// its offset is known.
pub fn mended_table_line(
    alloc: Global,
    line: &str,
    offset: Option<u64>,
) -> Result<Option<String>, NoMemory> {
    let bare = without_slash(without_name(without_fields(without_remark(line))));
    let table_line = TableLine {
        kind: type_near(alloc, bare.split_whitespace().nth(2).unwrap_or(""))?,
        count: bare.split_whitespace().count(),
    };
    let mut draft = Draft::new(alloc);
    let most = most_words(table_line.kind);
    for (place, word) in bare.split_whitespace().take(most).enumerate() {
        push_word(alloc, &mut draft, table_line, place, word)?;
    }
    if plain(bare.split_whitespace().nth(3).unwrap_or("")).is_none() {
        push_wanted(&mut draft, table_line, offset)?;
    }
    Ok(draft.changed(line))
}

/// The target type that a word means, with `dm-` before it or not, or the one that is nearest to it; another word as it is.
pub fn type_near(alloc: Global, word: &str) -> Result<&str, NoMemory> {
    let types = "linear zero error flakey dust delay";
    let bare = word.strip_prefix("dm-").unwrap_or(word);
    let bare = bare.strip_suffix("-target").unwrap_or(bare);
    if is_lacking(bare) {
        return Ok(word);
    }
    Ok(nearest_of(alloc, bare, types)?.unwrap_or(word))
}

/// The line without a backslash at its end, as a shell has it, or a semicolon.
fn without_slash(line: &str) -> &str {
    line.trim_end()
        .trim_end_matches(|c: char| c == ';' || c == '\\')
}

/// The line with another start.
pub fn from_start(alloc: Global, line: &str, start: u64) -> Result<String, NoMemory> {
    let mut draft = Draft::new(alloc);
    draft.push_number(start)?;
    for word in line.split_whitespace().skip(1) {
        draft.push(word)?;
    }
    Ok(draft.line())
}

/// The line with another word at this place, counted from 0.
pub fn with_word(alloc: Global, line: &str, at: usize, other: &str) -> Result<String, NoMemory> {
    let mut draft = Draft::new(alloc);
    for (place, word) in line.split_whitespace().enumerate() {
        draft.push(if place == at { other } else { word })?;
    }
    Ok(draft.line())
}

/// The line before a comment behind its words.
pub fn without_comment(line: &str) -> &str {
    let (front, _comment) = line.split_once(" #").unwrap_or((line, ""));
    let (before, _comment) = front.split_once("\t#").unwrap_or((front, ""));
    before
}

/// The table line before a comment behind its words, which begins with `#`, with `//` or with `/*`.
pub fn without_remark(line: &str) -> &str {
    let front = without_comment(line);
    let (front, _remark) = front.split_once(" //").unwrap_or((front, ""));
    let (front, _remark) = front.split_once("\t//").unwrap_or((front, ""));
    let (front, _remark) = front.split_once(" /*").unwrap_or((front, ""));
    let (before, _remark) = front.split_once("\t/*").unwrap_or((front, ""));
    before
}

/// The line behind a device's name, as `dmsetup table` prints it before each line.
pub fn without_name(line: &str) -> &str {
    match line.split_once(": ") {
        Some((name, rest)) if !name.trim().contains(' ') => rest,
        _ => line,
    }
}

/// The table line behind what `dmsetup table --concise` prints before it: a device's name, UUID, number and mode, and a
/// comma behind each, or a kernel's `dm-mod.create="..."`; another line as it is.
pub fn without_fields(line: &str) -> &str {
    let mut rest = line;
    for _field in 0..4 {
        match rest.split_once(',') {
            Some((field, behind)) if !field.contains(' ') => rest = behind,
            _ => return line,
        }
    }
    if !is_row(rest) {
        return line;
    }
    rest.trim_end()
        .trim_end_matches(|c: char| matches!(c, '"' | '\''))
}

/// Adds a word as a table could have it.
fn push_word(
    alloc: Global,
    draft: &mut Draft,
    line: TableLine<'_>,
    place: usize,
    word: &str,
) -> Result<(), NoMemory> {
    if place == 2 {
        return draft.push(line.kind);
    }
    if place == COUNT_AT && line.kind == "flakey" {
        return push_count(
            draft,
            feature_near(alloc, word)?,
            line.count.saturating_sub(COUNT_AT + 1) as u64,
        );
    }
    if COUNT_AT < place && line.kind == "flakey" {
        return push_value(alloc, draft, word);
    }
    match meant(word, unit_at(line.kind, place)).or(plain(word)) {
        Some(number) if line.kind == "dust" && place == 5 => draft.push_number(block_near(number)),
        Some(number) => draft.push_number(number),
        None => draft.push(word),
    }
}

/// The block of so many sectors, where that is one and they are less than 128, or else the nearest block of so many bytes,
/// unless they are more than the greatest one has.
fn block_near(number: u64) -> u64 {
    let bytes = number.saturating_mul(512);
    if 0 < number && number < 128 && is_block(bytes) {
        return bytes;
    }
    power_of_two(number).max(number)
}

/// Whether so many bytes may be a block.
pub(crate) fn is_block(number: u64) -> bool {
    power_of_two(number) == number
}

/// The least power of two from 512 to 1,073,741,824 that is no less than this number, or the greatest.
fn power_of_two(number: u64) -> u64 {
    let mut power = 512u64;
    for _doubled in 0..21 {
        if power < number {
            power = power.saturating_mul(2);
        }
    }
    power
}

/// What a number at its place in a line of this type counts.
fn unit_at(kind: &str, place: usize) -> Unit {
    match (kind, place) {
        ("delay", 5 | 8 | 11) => Unit::Milliseconds,
        ("flakey", 5 | 6) => Unit::Seconds,
        ("dust", 5) => Unit::Bytes,
        _ => Unit::Sectors,
    }
}

/// How many words a line of this type has at most.
fn most_words(kind: &str) -> usize {
    match kind {
        "zero" | "error" => 3,
        "linear" => 5,
        "dust" => 6,
        "delay" => 12,
        _ => MOST_WORDS,
    }
}

/// Adds what a line of its type wants behind its device; nothing where that is its offset, and isn't known, or flakey's
/// DOWN alone.
fn push_wanted(
    draft: &mut Draft,
    line: TableLine<'_>,
    offset: Option<u64>,
) -> Result<(), NoMemory> {
    let there = line.count.saturating_sub(4);
    if line.kind == "flakey" && there == 2 {
        return Ok(());
    }
    for (place, word) in wanted(line.kind).split_whitespace().enumerate() {
        match offset {
            Some(offset) if place == 0 && there == 0 => draft.push_number(offset)?,
            None if there == 0 => {}
            _ if there <= place => draft.push(word)?,
            _ => {}
        }
    }
    Ok(())
}

/// What stands in a mended line of this type for example, where it has so many words: values that a tester chooses.
pub fn put_in_words(kind: &str, count: usize) -> Option<&'static str> {
    match (kind, count) {
        ("dust", 4 | 5) => Some("a BLOCK of 512 bytes"),
        ("delay", 4 | 5) => Some("a delay of 100 milliseconds"),
        ("delay", 8 | 11) => Some("a delay of 0 milliseconds in the last group"),
        ("flakey", 4 | 5) => Some("an UP of 10 and a DOWN of 5 seconds"),
        _ => None,
    }
}

/// What a line of this type has behind its device at least.
fn wanted(kind: &str) -> &'static str {
    match kind {
        "linear" => "0",
        "dust" => "0 512",
        "delay" => "0 100",
        "flakey" => "0 10 5",
        _ => "",
    }
}

/// Where the table's line of this number has to start: where the table line before it ends, 0 for the first.
pub fn start_wanted(bytes: &[u8], number: u64) -> u64 {
    let mut at = 0u64;
    let mut end = 0;
    for line in Lines::new(bytes) {
        at = at.saturating_add(1);
        if at == number {
            return end;
        }
        end = end_after(end, line);
    }
    end
}

/// Where a table ends after one more line of the bundle: a heading begins another part.
fn end_after(end: u64, line: &[u8]) -> u64 {
    if is_heading(line) {
        return 0;
    }
    if is_skipped(line) {
        return end;
    }
    line_end(line).unwrap_or(end)
}

/// Where a table line ends.
fn line_end(line: &[u8]) -> Option<u64> {
    let mut words = from_utf8(line).ok()?.split_whitespace();
    let start = plain(words.next()?)?;
    start.checked_add(plain(words.next()?)?)
}
