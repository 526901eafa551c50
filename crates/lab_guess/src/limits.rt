use crate::chance::has_chance;
use crate::iolog::action_near;
use crate::numbers::{Unit, meant};
use crate::script::verb_near;
use crate::table::type_near;
use lab_delay::LONGEST_DELAY;
use lab_dust::MAX_BLOCK;
use lab_flakey::{CERTAIN, MAX_SECONDS, MAX_VALUE};
use lab_iolog::{MAX_LENGTH, MAX_WAIT};
use lab_outline::plain;
use lab_script::{MAX_DISK, MAX_DISK_SECTORS, MAX_SLEEP};
use lab_sector::{MAX_SECTOR, NoMemory};
use std::alloc::Global;

/// How many words of a line are looked at.
const MOST_WORDS: usize = 64;

/// The greatest number that a word may have.
#[derive(Clone, Copy)]
pub struct Limit {
    most: u64,
    /// What it counts, where it may have a suffix.
    unit: Option<Unit>,
    /// The words before and behind the limit, as it is told.
    told: [&'static str; 2],
}

/// The limit of a number, without a unit.
fn count_to(most: u64, told: [&'static str; 2]) -> Option<Limit> {
    Some(Limit {
        most,
        unit: None,
        told,
    })
}

/// The limit of a number that counts these.
fn limit_to(most: u64, unit: Unit, told: [&'static str; 2]) -> Option<Limit> {
    Some(Limit {
        most,
        unit: Some(unit),
        told,
    })
}

/// What is told of a table line that passes the limit of a number, if it does.
pub fn past_table_limit(alloc: Global, line: &str) -> Result<Option<String>, NoMemory> {
    let kind = type_near(alloc, line.split_whitespace().nth(2).unwrap_or(""))?;
    for place in 0..MOST_WORDS {
        if let Some(limit) = limit_in_row(line, kind, place) {
            if let Some(why) = past(alloc, line, place, limit)? {
                return Ok(Some(why));
            }
        }
    }
    Ok(None)
}

/// The limit of the number at this place of a table line.
fn limit_in_row(line: &str, kind: &str, place: usize) -> Option<Limit> {
    match (kind, place) {
        (_, 0 | 1) | ("linear" | "dust" | "flakey" | "delay", 4) | ("delay", 7 | 10) => limit_to(
            MAX_SECTOR,
            Unit::Sectors,
            ["a table and a device have at most ", " sectors"],
        ),
        ("delay", 5 | 8 | 11) => limit_to(
            LONGEST_DELAY,
            Unit::Milliseconds,
            ["a delay is at most ", " milliseconds, which are an hour"],
        ),
        ("dust", 5) => limit_to(
            MAX_BLOCK,
            Unit::Bytes,
            ["dust's BLOCK is a power of two, 512 to ", " bytes"],
        ),
        ("flakey", 5 | 6) => limit_to(
            MAX_SECONDS,
            Unit::Seconds,
            ["flakey's UP and DOWN are seconds, together 1 to ", ""],
        ),
        ("flakey", _) => limit_of_feature(line, place),
        _ => None,
    }
}

/// The limit of a feature's value at this place of a flakey line.
fn limit_of_feature(line: &str, place: usize) -> Option<Limit> {
    let before = place.checked_sub(1)?;
    if has_chance(line.split_whitespace().nth(before)?) {
        return count_to(
            u64::from(CERTAIN),
            [
                "a chance counts in 1,000,000,000: it is a number of 0 to ",
                "",
            ],
        );
    }
    let feature = line.split_whitespace().nth(place.checked_sub(3)?)?;
    if feature == "corrupt_bio_byte" {
        return count_to(
            MAX_VALUE,
            [
                "corrupt_bio_byte takes a byte from 1 on, `r` or `w`, a value of 0 to ",
                " and flags",
            ],
        );
    }
    None
}

/// What is told of a command that passes the limit of a number, if it does.
pub fn past_command_limit(alloc: Global, line: &str) -> Result<Option<String>, NoMemory> {
    let verb = verb_near(alloc, line.split_whitespace().next().unwrap_or(""))?;
    for place in 1..3 {
        if let Some(limit) = limit_in_command(line, verb, place) {
            if let Some(why) = past(alloc, line, place, limit)? {
                return Ok(Some(why));
            }
        }
    }
    Ok(None)
}

/// The limit of the number at this place of a command; a disk of no sectors has its two numbers exchanged.
fn limit_in_command(line: &str, verb: &str, place: usize) -> Option<Limit> {
    let sectors = line.split_whitespace().nth(2).unwrap_or("");
    match (verb, place) {
        ("ram", 1) if plain(sectors) != Some(0) && !sectors.is_empty() => count_to(
            MAX_DISK,
            ["the number of a disk is 0 to ", ""],
        ),
        ("ram", 2) => limit_to(
            MAX_DISK_SECTORS,
            Unit::Sectors,
            [
                "all disks of a bundle have at most ",
                " sectors together, which is 32 MiB",
            ],
        ),
        ("sleep", 1) => limit_to(
            MAX_SLEEP,
            Unit::Microseconds,
            ["a `sleep` is at most ", " microseconds, which are an hour"],
        ),
        ("wait", 1) => limit_to(
            MAX_SLEEP,
            Unit::Microseconds,
            [
                "`wait` has no time behind it, and a `sleep` is at most ",
                " microseconds, which are an hour",
            ],
        ),
        _ => None,
    }
}

/// What is told of a log's line that passes the limit of a number, if it does.
pub fn past_log_limit(alloc: Global, line: &str) -> Result<Option<String>, NoMemory> {
    let action = action_near(alloc, line.split_whitespace().nth(1).unwrap_or(""))?;
    let limit = match action {
        "wait" => limit_to(
            MAX_WAIT,
            Unit::Microseconds,
            ["a `wait` is at most ", " microseconds, which are an hour"],
        ),
        "read" | "write" | "trim" => limit_to(
            MAX_LENGTH,
            Unit::Bytes,
            ["an operation has at most ", " bytes: part it into several"],
        ),
        _ => None,
    };
    match limit {
        Some(limit) => past(alloc, line, if action == "wait" { 2 } else { 3 }, limit),
        None => Ok(None),
    }
}

/// The microseconds of a wait's number that passes the limit, if it counts nanoseconds; not of one that is whole
/// hours in microseconds.
pub fn of_nanoseconds(word: &str) -> Option<u64> {
    let number = plain(word)?;
    let is_of_hours = number % MAX_WAIT == 0 && number < MAX_WAIT.saturating_mul(1000);
    let is_whole = number % 1000 == 0 && MAX_WAIT < number && !is_of_hours;
    Some(number / 1000).filter(|it| is_whole && *it <= MAX_WAIT)
}

/// What is told of a number at this place of a line that passes its limit, if it does: both, and by how much.
fn past(alloc: Global, line: &str, place: usize, limit: Limit) -> Result<Option<String>, NoMemory> {
    let word = line.split_whitespace().nth(place).unwrap_or("");
    let number = match limit.unit {
        Some(unit) => plain(word).or(meant(word, unit)).unwrap_or(0),
        None => plain(word).unwrap_or(0),
    };
    let Some(more) = number.checked_sub(limit.most).filter(|it| *it != 0) else {
        return Ok(None);
    };
    let (place, most, [front, behind]) = (place.saturating_add(1), limit.most, limit.told);
    let units = limit.unit.map(name_of).unwrap_or("");
    Ok(Some(format!(in alloc;
        "word {place} of the line stands for {number}{units}, {more} more than the limit: \
         {front}{most}{behind}"
    )?))
}

/// The name of a unit, behind a blank.
fn name_of(unit: Unit) -> &'static str {
    match unit {
        Unit::Sectors => " sectors",
        Unit::Bytes => " bytes",
        Unit::Seconds => " seconds",
        Unit::Milliseconds => " milliseconds",
        Unit::Microseconds => " microseconds",
    }
}
