use lab_guess::{Unit, action_meant, meant, without_comment};
use lab_outline::plain;
use lab_refusal::Rule;

/// What is told of a log of version 3.
pub const OF_VERSION_3: &str =
    "dmlab reads version 2 of fio's logs, whose lines begin with no time: `tools/iolog3to2` makes it of version 3, as \
     `tools/iolog3to2 DEVICE < LOG`, whose output stands below the heading";

/// What is told of a call of dd.
pub const OF_DD: &str =
    "a log runs no program: what dd does is a line of FILE, read or write, OFFSET and LENGTH, the two in bytes";

/// What is wrong with a log's first line.
pub fn header_reason(line: &str) -> &'static str {
    if line.split_whitespace().nth(2) == Some("3") {
        return OF_VERSION_3;
    }
    by_rule(Rule::Header)
}

/// What is wrong with a line: first what comes of another tool, then the rule.
pub fn reason(rule: Rule, line: &str) -> &'static str {
    if without_comment(line).len() != line.len() {
        return "a log has no comments, and a `#` behind words is one word more";
    }
    if line.trim_end().ends_with(|c: char| c == ';' || c == '\\') {
        return "a line of a log ends at its end, with no `;` and no backslash there";
    }
    let action = line.split_whitespace().nth(1).unwrap_or("");
    if action_meant(action) == "write" && has_bytes(line) {
        return "a write has no word behind its LENGTH: a log can't choose the bytes of a write. Line L of the log number K \
                writes (16 * K + L) mod 256 into each byte";
    }
    if lacks_number(line) {
        return "the OFFSET or the LENGTH is missing: a line has FILE, read, write or trim, OFFSET and LENGTH in bytes";
    }
    if 4 < line.split_whitespace().count() {
        return "a line has at most four words, and is done once: FILE, an action, and two numbers";
    }
    if action_meant(action) != action {
        return "the actions are add, open, close, read, write, trim, sync, datasync and wait";
    }
    if line.split_whitespace().skip(2).any(is_meant) {
        return "a number is plain decimal digits, with no sign, suffix or 0x: of bytes, but for a wait's microseconds";
    }
    by_rule(rule)
}

/// Whether a line has one number, and its action two.
fn lacks_number(line: &str) -> bool {
    let mut words = line.split_whitespace().skip(1);
    let action = action_meant(words.next().unwrap_or(""));
    let number = words.next().and_then(plain);
    matches!(action, "read" | "write" | "trim") && number.is_some() && words.next().is_none()
}

/// Whether a line has two numbers, and bytes or a pattern of them behind.
fn has_bytes(line: &str) -> bool {
    let mut words = line.split_whitespace().skip(2);
    let are_numbers = words
        .next()
        .and_then(plain)
        .and(words.next().and_then(plain))
        .is_some();
    match words.next() {
        Some(word) => are_numbers && is_of_bytes(word),
        None => false,
    }
}

/// Whether a word is a number, or names a pattern of bytes.
fn is_of_bytes(word: &str) -> bool {
    word.starts_with(|c: char| c.is_ascii_digit() || matches!(c, '"' | '\''))
        || word.contains('=')
        || word.contains("pattern")
}

/// Whether a word means a number, and is none.
fn is_meant(word: &str) -> bool {
    meant(word, Unit::Bytes)
        .or(meant(word, Unit::Microseconds))
        .is_some()
}

/// What a rule of logs asks for.
pub fn by_rule(rule: Rule) -> &'static str {
    match rule {
        Rule::Header => "a log's first line is `fio version 2 iolog`",
        Rule::TooManyLines =>
            "a log has at most 10000 lines behind its first: put the others into a second log",
        Rule::Unaligned => "an offset and a length are bytes, multiples of 512: a sector has 512",
        Rule::V12 => {
            "a file is a device that stands at `replay` with a live table, as /dev/mapper/NAME, \
             or a disk, as /dev/ramN"
        }
        Rule::V13 =>
            "a file is added, then opened, then used, then closed, as often as it is opened",
        Rule::V14 =>
            "the range ends past the size that its device has at `replay`: take a smaller offset or length",
        _ => {
            "a line is FILE and add, open or close; or FILE, one of read, write, trim, sync and datasync, OFFSET and \
             LENGTH in bytes; or FILE wait MICROSECONDS 0"
        }
    }
}
