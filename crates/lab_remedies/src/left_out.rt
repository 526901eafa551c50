use lab_advice::{Mend, Spot};
use lab_outline::Spotted;
use lab_sector::NoMemory;
use lab_text::Lines;
use std::alloc::Global;
use std::str::from_utf8;

/// How many bytes a line has at most whose words are compared.
const LONGEST: usize = 400;

/// What is wrong, and which words of the bundle's line are left out by the only line that is told in its place, if it has some
/// fewer.
pub fn with_left_out(
    alloc: Global,
    bytes: &[u8],
    mut why: String,
    mends: &[Mend],
) -> Result<String, NoMemory> {
    let [mend] = mends else {
        return Ok(why);
    };
    let Spot::On(number) = mend.spot else {
        return Ok(why);
    };
    let line = line_at(bytes, number);
    if LONGEST < line.line.len() || line.line.starts_with('#') {
        return Ok(why);
    }
    let words = words_left(alloc, line, mend.line.as_str())?;
    let told = words.as_str();
    if !told.is_empty() && !why.as_str().contains(told) {
        why.push_str(format!(in alloc; "; `{told}` is left out")?.as_str())?;
    }
    Ok(why)
}

/// The line of this number, as far as it is text.
fn line_at(bytes: &[u8], number: u64) -> Spotted<'_> {
    let place = number.saturating_sub(1) as usize;
    let line = Lines::new(bytes).nth(place).unwrap_or(b"".as_slice());
    Spotted {
        number,
        line: from_utf8(line).unwrap_or(""),
    }
}

/// The words of a line that another one lacks, where this has no word more; not those that stand twice side by side.
fn words_left(alloc: Global, line: Spotted<'_>, other: &str) -> Result<String, NoMemory> {
    let mut left = String::new(alloc);
    let mut taken = 0usize;
    for (place, word) in line.line.split_whitespace().enumerate() {
        if other.split_whitespace().nth(taken) == Some(word) {
            taken = taken.saturating_add(1);
        } else if place == 0 || line.word(place.saturating_sub(1)) != word {
            let mark = if left.as_str().is_empty() { "" } else { " " };
            left.push_str(mark)?;
            left.push_str(word)?;
        }
    }
    if taken == other.split_whitespace().count() {
        Ok(left)
    } else {
        Ok(String::new(alloc))
    }
}
