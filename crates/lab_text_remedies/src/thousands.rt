use lab_advice::{Remedy, Spot};
use lab_guess::{mended_command, mended_log_line, with_joined_units};
use lab_outline::Spotted;
use lab_refusal::PartName;
use lab_sector::NoMemory;
use std::alloc::Global;

/// How many bytes a line has at most that is joined.
const LONGEST: usize = 200;

/// How many words a line has at most before the first one that is joined.
const MOST: usize = 8;

/// The remedy of a line in which a number stands in several words for sure: behind `sleep` and `ram`, and where three of
/// its digits begin with 0.
pub fn thousands_remedy(
    alloc: Global,
    part: PartName<'_>,
    spotted: Spotted<'_>,
) -> Result<Option<Remedy>, NoMemory> {
    let is_plain = matches!(spotted.word(0), "sleep" | "ram");
    let is_sure = match part {
        PartName::Script => is_plain || is_grouped(spotted.line),
        PartName::Table(_) | PartName::Log(_) => is_grouped(spotted.line),
        _ => false,
    };
    let why = "a number is one word of digits, with no blank and no mark between its thousands";
    let remedy = or_joined(alloc, Remedy::told(alloc, why)?, spotted)?;
    let is_joined = is_sure && !remedy.mends.is_empty();
    Ok(if is_joined { Some(remedy) } else { None })
}

/// The remedy with the line more in which numbers are joined with the thousands behind them: all of them, or one or two.
pub fn or_joined(
    alloc: Global,
    mut remedy: Remedy,
    spotted: Spotted<'_>,
) -> Result<Remedy, NoMemory> {
    if LONGEST < spotted.line.len() {
        return Ok(remedy);
    }
    let rank = remedy.mends.len() as u64;
    for most in [MOST, 1, 2] {
        for from in 0..MOST {
            let line = joined(alloc, spotted.line, from, most)?;
            let mut words = line.as_str().split_whitespace();
            let is_same = words.eq(spotted.line.split_whitespace());
            if !is_same && !line.as_str().split_whitespace().any(is_zeroed) {
                let line = with_units(alloc, line)?;
                remedy.offer(rank, Spot::On(spotted.number), line)?;
            }
        }
    }
    Ok(remedy)
}

/// A sleep or a wait with its time in microseconds, and with the zero that a wait lacks; another line as it is.
fn with_units(alloc: Global, line: String) -> Result<String, NoMemory> {
    let plain = with_joined_units(alloc, line.as_str())?;
    let mut words = line.as_str().split_whitespace();
    let mended = match (words.next(), words.next()) {
        (Some("sleep"), _) => mended_command(alloc, plain.as_str(), None)?,
        (_, Some("wait")) => mended_log_line(alloc, plain.as_str())?,
        _ => None,
    };
    Ok(mended.unwrap_or(line))
}

/// The line in which each number from this place on is joined with so many thousands behind it at most, and has no marks
/// between them.
fn joined(alloc: Global, line: &str, from: usize, most: usize) -> Result<String, NoMemory> {
    let mut text = String::new(alloc);
    let mut left = 0usize;
    for (place, word) in line.split_whitespace().enumerate() {
        if 0 < left && is_thousand(word) {
            left = left.saturating_sub(1);
        } else {
            text.push_str(if place == 0 { "" } else { " " })?;
            left = if from <= place && is_begin(word) {
                most
            } else {
                0
            };
        }
        let is_marked = is_marked(word);
        for letter in word.chars().filter(|it| !is_marked || it.is_ascii_digit()) {
            text.push(letter)?;
        }
    }
    Ok(text)
}

/// Whether thousands may follow a word: it has one to three digits, and doesn't begin with 0.
fn is_begin(word: &str) -> bool {
    (1..=3).contains(&word.len()) && !word.starts_with('0') && is_digits(word)
}

/// Whether a word is three digits.
fn is_thousand(word: &str) -> bool {
    word.len() == 3 && is_digits(word)
}

/// Whether a word is digits alone.
fn is_digits(word: &str) -> bool {
    word.chars().all(|it| it.is_ascii_digit())
}

/// Whether a word is a number with the same marks between all its thousands; of points two at least, as one is that of a
/// fraction.
fn is_marked(word: &str) -> bool {
    is_parted_by(word, '_')
        || is_parted_by(word, '\'')
        || word.split('.').count() != 2 && is_parted_by(word, '.')
}

/// Whether a word is a number with this mark between its thousands.
fn is_parted_by(word: &str, mark: char) -> bool {
    let mut groups = word.split(mark);
    let begins = is_begin(groups.next().unwrap_or(""));
    begins && word.contains(mark) && groups.all(is_thousand)
}

/// Whether a line has a number with marks between its thousands, or with thousands behind it that begin with 0.
fn is_grouped(line: &str) -> bool {
    let mut is_number = false;
    for word in line.split_whitespace() {
        if is_marked(word) || is_number && is_zeroed(word) {
            return true;
        }
        is_number = is_begin(word) || is_number && is_thousand(word);
    }
    false
}

/// Whether a word is three digits, and begins with 0.
fn is_zeroed(word: &str) -> bool {
    is_thousand(word) && word.starts_with('0')
}
