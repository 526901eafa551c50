use crate::numbers::{digits_meant, number_at_fault};
use lab_flakey::MAX_VALUE;
use lab_guess::{
    Unit, chance_at_fault, has_block, has_chance, has_no_block, has_point, instead_of, is_feature,
    is_lacking, is_type, meant, miscounts, put_in_words, value_at_fault, value_meant,
    without_comment, without_fields, without_name, without_remark,
};
use lab_outline::{Spotted, plain};
use lab_refusal::Rule;
use lab_sector::NoMemory;
use std::alloc::Global;

/// What is told of a number with letters that look like digits.
const OF_LETTERS: &str =
    "a letter stands in it that looks like a digit: O is no 0, and l and I are no 1";

/// What is told of a comment of another language behind words.
const OF_REMARK: &str =
    "`//` or `/* */` behind words is no comment; a comment has a line of its own, whose first byte is `#`";

/// What is wrong with a table line, and which of its words is no number.
pub fn why_refused(alloc: Global, rule: Rule, spotted: Spotted<'_>) -> Result<String, NoMemory> {
    let (why, kind) = (reason(rule, spotted.line), spotted.word(2));
    if rule == Rule::Unknown && is_lacking(kind) {
        let instead = instead_of(kind);
        return Ok(format!(in alloc;
            "{kind} is a target of Linux that dmlab lacks: its types are linear, zero, error, flakey, \
             dust and delay{instead}"
        )?);
    }
    if rule == Rule::Unknown && is_feature(kind) {
        return Ok(format!(in alloc;
            "{kind} is a feature of flakey and no type: a line has the type flakey in its place, and the features last, with \
             the number of their words before them"
        )?);
    }
    if let Some(chance) = chance_at_fault(spotted.line) {
        return Ok(format!(in alloc;
            "`{chance}` is no number; a chance counts in 1,000,000,000: 50000000 is one of 5 percent"
        )?);
    }
    if let Some(value) = value_at_fault(spotted.line).filter(|_| rule == Rule::Value) {
        let number = value_meant(value).unwrap_or(0);
        return Ok(format!(in alloc;
            "`{value}` is no number; a value is 0 to {MAX_VALUE}, in decimal digits: {value} is {number} in them"
        )?);
    }
    if rule == Rule::Args {
        return for_example(alloc, spotted, why);
    }
    if rule != Rule::Number || why == OF_REMARK {
        return Ok(String::from_str(alloc, why)?);
    }
    if why == by_rule(Rule::Number) {
        return argument_at_fault(alloc, spotted);
    }
    number_at_fault(alloc, spotted, table_numbers(spotted.word(2)), why)
}

/// What is told of a line with a word that is no number for no reason that is known: what stands in its place.
fn argument_at_fault(alloc: Global, spotted: Spotted<'_>) -> Result<String, NoMemory> {
    let (kind, why) = (spotted.word(2), by_rule(Rule::Number));
    for place in table_numbers(kind) {
        if digits_meant(spotted.word(*place)).is_some() {
            return number_at_fault(alloc, spotted, &[*place], OF_LETTERS);
        }
        if plain(spotted.word(*place)).is_none() {
            let form = by_type(kind);
            let argument = argument_of(kind, *place);
            let number = place.saturating_add(1);
            let why = format!(in alloc;
                "word {number} is the {argument} in plain decimal digits: {form}"
            )?;
            return number_at_fault(alloc, spotted, &[*place], why.as_str());
        }
    }
    Ok(String::from_str(alloc, why)?)
}

/// What is wrong with a line that lacks words, and which values a mended line has for example.
fn for_example(alloc: Global, spotted: Spotted<'_>, why: &str) -> Result<String, NoMemory> {
    let count = without_remark(spotted.line).split_whitespace().count();
    let has_groups = spotted.word(6).is_empty() || plain(spotted.word(6)).is_none();
    match put_in_words(spotted.word(2), count) {
        Some(values) if has_groups && !is_taken(spotted, count) => Ok(format!(in alloc;
            "{why}; here for example with {values}"
        )?),
        _ => Ok(String::from_str(alloc, why)?),
    }
}

/// Whether a delay's or a dust's one number behind its device is taken for the last one, and not for the OFFSET: the lines
/// that are tried have it so where it isn't 0.
fn is_taken(spotted: Spotted<'_>, count: usize) -> bool {
    let is_of_two = matches!(spotted.word(2), "delay" | "dust") && count == 5;
    is_of_two && plain(spotted.word(4)).is_some_and(|it| it != 0)
}

/// At which places a line of this type has numbers, counted from 0.
pub fn table_numbers(kind: &str) -> &'static [usize] {
    match kind {
        "linear" => &[0, 1, 4],
        "dust" => &[0, 1, 4, 5],
        "flakey" => &[0, 1, 4, 5, 6, 7],
        "delay" => &[0, 1, 4, 5, 7, 8, 10, 11],
        _ => &[0, 1],
    }
}

/// What the number at this place of a line of this type is, counted from 0.
fn argument_of(kind: &str, place: usize) -> &'static str {
    match (kind, place) {
        (_, 0) => "START, a number of sectors",
        (_, 1) => "LENGTH, a number of sectors",
        (_, 4) | ("delay", 7 | 10) => "OFFSET, a number of sectors",
        ("dust", 5) => "BLOCK, a number of bytes",
        ("delay", _) => "time of the delay, a number of milliseconds",
        ("flakey", 5) => "UP, a number of seconds",
        ("flakey", 6) => "DOWN, a number of seconds",
        _ => "COUNT of all words behind it,"
    }
}

/// What is wrong with a table line: first what comes of copying one from elsewhere, then the rule.
fn reason(rule: Rule, line: &str) -> &'static str {
    if let Some(why) = copied_reason(line) {
        return why;
    }
    if is_part_of_second(line) {
        return "flakey's UP and DOWN are whole seconds: for a shorter time the script has `sleep 500000`, in microseconds, and \
                then `load NAME TABLE` and `resume NAME`, with another table";
    }
    if line.split_whitespace().any(is_meant) {
        return "a number is plain decimal digits, with no sign, suffix or 0x: of sectors of 512 bytes, but for \
                flakey's seconds, delay's milliseconds and dust's bytes";
    }
    if line.contains("fail_read_on_bad_block") {
        return "dust's line has no word for its state: `message NAME SECTOR enable` in the script lets its bad blocks fail";
    }
    if line.split_whitespace().any(is_message) {
        return "dust's messages stand in the script, as `message NAME SECTOR addbadblock N`, and not in its table's line";
    }
    let has_chances = rule == Rule::Value && line.split_whitespace().any(has_chance);
    if !has_chances && line.split_whitespace().any(has_point) {
        return "a number is whole, and has no point: of flakey's seconds, of delay's milliseconds, of dust's bytes, \
                and else of sectors";
    }
    if line.split_whitespace().take(2).any(is_type) {
        return "the type is the third word of a line: START LENGTH TYPE ARGUMENTS";
    }
    if miscounts(line) {
        return "flakey's features have their number of words before them, their values counted too: DEVICE OFFSET UP DOWN \
                [COUNT FEATURES]";
    }
    match rule {
        Rule::Value
            if line.split_whitespace().any(has_chance) && !line.contains("corrupt_bio_byte") => {
            "a chance counts in 1,000,000,000: it is a number of 0 to 1000000000"
        }
        Rule::Args => by_type(line.split_whitespace().nth(2).unwrap_or("")),
        _ => by_rule(rule),
    }
}

/// What is wrong with a line that comes of dmsetup, or of a shell, if that is so.
fn copied_reason(line: &str) -> Option<&'static str> {
    if without_fields(line).len() != line.len() {
        return Some(
            "`dmsetup table --concise` prints a device's name, UUID, number and mode before a line, with a comma behind each; a \
             table's line begins with its start",
        );
    }
    let bare = without_name(line);
    let kind = bare.split_whitespace().nth(2).unwrap_or("");
    if bare.len() != line.len()
        && bare.split_whitespace().count() == 3
        && !matches!(kind, "zero" | "error")
    {
        return Some(
            "`dmsetup status` prints no device: a table's lines are those of `dmsetup table`, without NAME: before them",
        );
    }
    if bare.len() != line.len() {
        return Some(
            "`dmsetup table` prints a device's name and a colon before a line; a table's line begins with its start",
        );
    }
    if line.contains('$') || line.contains('`') {
        return Some(
            "a table has no variables of a shell and runs no command: write the number itself",
        );
    }
    if line.trim_end().ends_with('\\') {
        return Some("a line ends at its end: a backslash there joins no lines");
    }
    if without_comment(line).len() != line.len() {
        return Some(
            "a `#` behind words begins no comment; a comment has a line of its own, whose first byte is `#`",
        );
    }
    if without_remark(line).len() != line.len() {
        return Some(OF_REMARK);
    }
    None
}

/// Whether a word means a number, and is none.
fn is_meant(word: &str) -> bool {
    meant(word, Unit::Sectors)
        .or(meant(word, Unit::Milliseconds))
        .or(time_in_microseconds(word))
        .is_some()
}

/// Whether a flakey line has a time with a point.
fn is_part_of_second(line: &str) -> bool {
    let mut words = line.split_whitespace().skip(2);
    let is_flakey = words.next() == Some("flakey");
    is_flakey && words.skip(2).take(2).any(is_short)
}

/// Whether a word is a time with a point, or in units of less than a second.
fn is_short(word: &str) -> bool {
    let is_number = word.starts_with(|c: char| c.is_ascii_digit());
    is_number && (word.contains('.') || word.ends_with("ms") || word.ends_with("us"))
}

/// Whether a word is a message of dust.
fn is_message(word: &str) -> bool {
    has_block(word) || has_no_block(word)
}

/// The microseconds that a word with a suffix means.
fn time_in_microseconds(word: &str) -> Option<u64> {
    meant(word, Unit::Microseconds).filter(|_| word.ends_with('s'))
}

/// The form of a line of this type.
pub fn by_type(kind: &str) -> &'static str {
    match kind {
        "linear" => "it is `START LENGTH linear DEVICE OFFSET`",
        "zero" => "it is `START LENGTH zero`",
        "error" => "it is `START LENGTH error`",
        "dust" => "it is `START LENGTH dust DEVICE OFFSET BLOCK`",
        "delay" =>
            "it is `START LENGTH delay`, and then one group `DEVICE OFFSET MILLISECONDS` for all requests; or two, the \
             first for reads; or three: for reads, for writes and trims, for flushes. Each group has its own DEVICE and OFFSET",
        "flakey" => {
            "it is `START LENGTH flakey DEVICE OFFSET UP DOWN [COUNT FEATURES]`, where COUNT counts all words behind it: \
             corrupt_bio_byte has N r|w V F behind it, the two of random_.._corrupt P, the others nothing"
        }
        _ => "a table line is START LENGTH TYPE ARGUMENTS",
    }
}

/// What a table's rule asks for.
pub fn by_rule(rule: Rule) -> &'static str {
    match rule {
        Rule::TooManyLines => "a table has at most 64 lines",
        Rule::Number => {
            "a number here is plain decimal digits, at most 1099511627776, or 4294967295 where it \
             counts no sectors"
        }
        Rule::ZeroLength => "a line has at least one sector",
        Rule::Gap =>
            "a table's first line starts at 0, each other one where the line before it ends",
        Rule::Unknown =>
            "the target types are linear, zero, error, flakey, dust and delay, in small letters",
        Rule::Empty =>
            "a table has at least one line, START LENGTH TYPE ARGUMENTS, as `0 8 linear /dev/ram0 0`; a line whose first byte is `#` is a comment",
        _ => by_target_rule(rule),
    }
}

/// What a target's rule asks for.
fn by_target_rule(rule: Rule) -> &'static str {
    match rule {
        Rule::Interval =>
            "flakey's UP and DOWN are seconds, together 1 to 4294967295: a line that is always down has 0 and 1, one that is always up \
             1 and 0",
        Rule::Feature => {
            "flakey's features are error_reads, drop_writes, error_writes, corrupt_bio_byte N r|w V F, \
             random_read_corrupt P and random_write_corrupt P"
        }
        Rule::Conflict => {
            "flakey takes each feature once; drop_writes, error_writes and corrupt_bio_byte with \
             `w`, which is of writes, don't go together; one with `r`, of reads, goes with each"
        }
        Rule::Value => {
            "corrupt_bio_byte takes a byte from 1 on, `r` or `w`, a value of 0 to 255 and flags; a chance is at most \
             1000000000"
        }
        Rule::BlockSize => "dust's BLOCK is a power of two, 512 to 1073741824 bytes",
        _ => "a table line is START LENGTH TYPE ARGUMENTS",
    }
}
