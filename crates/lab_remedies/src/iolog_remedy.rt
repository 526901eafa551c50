use crate::calls::call_remedy;
use crate::log_forms::{is_timed, other_form};
use crate::unaligned::or_aligned;
use lab_advice::{Remedy, Spot};
use lab_guess::{action_meant, mended_log_line, with_joined_units, with_range};
use lab_line_remedies::extra_words::with_extra_words;
use lab_line_remedies::log_reason::{OF_VERSION_3, by_rule, header_reason, reason};
use lab_outline::{Outline, Spotted, nearest_of, plain};
use lab_refusal::Rule;
use lab_row_remedies::numbers::{number_at_fault, with_digits};
use lab_rule_remedies::{empty_remedy, file_remedy, range_remedy, use_remedy};
use lab_sector::NoMemory;
use lab_text::Lines;
use lab_text_remedies::file_kinds::of_other_tool;
use lab_text_remedies::fileless::{fileless_remedy, lacks_file};
use lab_text_remedies::foreign_line::numbers_remedy;
use lab_text_remedies::other_file::{empty_log, line_of};
use std::alloc::Global;
use std::str::from_utf8;

/// The remedy of a log that can't be read, or that breaks a rule.
pub(crate) fn iolog_remedy(
    alloc: Global,
    bytes: &[u8],
    outline: &Outline<'_>,
    rule: Rule,
    spotted: Option<Spotted<'_>>,
) -> Result<Remedy, NoMemory> {
    if rule == Rule::Header {
        if let Some(why) = empty_log(alloc, bytes, outline, spotted)? {
            return Ok(Remedy::of(alloc, why));
        }
    }
    let Some(spotted) = spotted else {
        return Remedy::told(alloc, by_rule(rule));
    };
    match rule {
        Rule::Header => first_line_remedy(alloc, bytes, spotted),
        Rule::V12 => match numbers_remedy(alloc, outline, spotted)? {
            Some(remedy) => Ok(remedy),
            None => file_remedy(alloc, bytes, outline, spotted),
        },
        Rule::V13 => use_remedy(alloc, bytes, outline, spotted),
        Rule::V14 => range_remedy(alloc, outline, spotted),
        Rule::EmptyRange => empty_remedy(alloc, bytes, outline, spotted),
        Rule::TooManyLines => Remedy::told(alloc, by_rule(rule)),
        Rule::BadLine if lacks_file(spotted) => fileless_remedy(alloc, bytes, spotted),
        _ => match call_remedy(alloc, bytes, spotted)? {
            Some(remedy) => Ok(remedy),
            None => line_remedy(alloc, outline, rule, spotted),
        },
    }
}

/// The remedy of a log's first line: the right one in its place where it looks like one, and else before it; none
/// where the line below it begins with a time, as version 3 has it.
fn first_line_remedy(
    alloc: Global,
    bytes: &[u8],
    spotted: Spotted<'_>,
) -> Result<Remedy, NoMemory> {
    if let Some(why) = of_other_tool(spotted.line) {
        return Remedy::told(alloc, why);
    }
    if looks_first(spotted.line) && is_timed_below(bytes, spotted.number) {
        return Remedy::told(alloc, OF_VERSION_3);
    }
    if let Some(why) = header_next(alloc, bytes, spotted)? {
        return Ok(Remedy::of(alloc, why));
    }
    if let Some(why) = header_below(alloc, bytes, spotted)? {
        return Ok(Remedy::of(alloc, why));
    }
    let line = String::from_str(alloc, "fio version 2 iolog")?;
    let spot = if looks_first(spotted.line) {
        Spot::On(spotted.number)
    } else {
        Spot::Before(spotted.number)
    };
    Remedy::told(alloc, header_reason(spotted.line))?.or(spot, line)
}

/// What is told of a line of a log above its first one, if that is the next one.
fn header_next(
    alloc: Global,
    bytes: &[u8],
    spotted: Spotted<'_>,
) -> Result<Option<String>, NoMemory> {
    let (number, next) = (spotted.number, spotted.number.saturating_add(1));
    if !spotted.line.starts_with("/dev/") || line_of(bytes, next) != "fio version 2 iolog" {
        return Ok(None);
    }
    Ok(Some(format!(in alloc;
        "a log's first line is `fio version 2 iolog`: exchange the lines {number} and {next}"
    )?))
}

/// What is told of blank lines and comments that stand between a log's heading and its header, if there are some.
fn header_below(
    alloc: Global,
    bytes: &[u8],
    spotted: Spotted<'_>,
) -> Result<Option<String>, NoMemory> {
    let mut at = 0u64;
    for line in Lines::new(bytes) {
        at = at.saturating_add(1);
        let line = from_utf8(line).unwrap_or("").trim();
        if spotted.number <= at && !is_remark(line) {
            let last = at.saturating_sub(1);
            if line != "fio version 2 iolog" || last < spotted.number {
                return Ok(None);
            }
            return Ok(Some(format!(in alloc;
                "a log's first line, right below its heading, is `fio version 2 iolog`: delete the blank lines and comments \
                 between the two, up to line {last}"
            )?));
        }
    }
    Ok(None)
}

/// Whether a line is blank, or begins as a comment does.
fn is_remark(line: &str) -> bool {
    line.is_empty()
        || line.starts_with('#')
        || line.starts_with("//")
        || line.starts_with("-- ")
        || line.starts_with(';')
}

/// Whether the line below the one of this number begins with a time.
fn is_timed_below(bytes: &[u8], number: u64) -> bool {
    let mut at = 0u64;
    for line in Lines::new(bytes) {
        if at == number {
            return is_timed(from_utf8(line).unwrap_or(""));
        }
        at = at.saturating_add(1);
    }
    false
}

/// Whether a line looks like the first one of a log.
fn looks_first(line: &str) -> bool {
    let other = line.starts_with('/') || line.starts_with("==");
    let first = line.split_whitespace().next().unwrap_or("");
    !other
        && (first.starts_with("fio")
            || first.eq_ignore_ascii_case("fio")
            || line.contains("version")
            || line.contains("iolog"))
}

/// The remedy of a line that is none of a log.
fn line_remedy(
    alloc: Global,
    outline: &Outline<'_>,
    rule: Rule,
    spotted: Spotted<'_>,
) -> Result<Remedy, NoMemory> {
    if let Some(remedy) = other_form(alloc, outline, spotted)? {
        return Ok(remedy);
    }
    let joined = with_joined_units(alloc, spotted.line)?;
    let why = reason(rule, joined.as_str());
    let action = nearest_of(alloc, spotted.word(1), "read write trim sync datasync wait")?;
    let places: &[usize] = if action.is_some() { &[2, 3] } else { &[] };
    let why = number_at_fault(alloc, spotted, places, why)?;
    if rule == Rule::Unaligned {
        return or_aligned(alloc, Remedy::of(alloc, why), outline, spotted);
    }
    let mut remedy = Remedy::of(alloc, with_extra_words(alloc, spotted, why)?);
    offer_actions(alloc, &mut remedy, spotted)?;
    offer_meant(alloc, &mut remedy, spotted, action)?;
    offer_waits(alloc, &mut remedy, spotted)?;
    if is_short_wait(spotted) {
        return Ok(remedy);
    }
    remedy = remedy.or_if(
        Spot::On(spotted.number),
        with_digits(alloc, spotted.line, places)?,
    )?;
    for more in [1u64, 0] {
        remedy = remedy.or_if(
            Spot::On(spotted.number),
            with_range(alloc, spotted.line, 2, more)?,
        )?;
    }
    remedy.or_if(
        Spot::On(spotted.number),
        mended_log_line(alloc, joined.as_str())?,
    )
}

/// Offers a line of a FILE alone with each of the actions that have no numbers.
fn offer_actions(alloc: Global, remedy: &mut Remedy, spotted: Spotted<'_>) -> Result<(), NoMemory> {
    let file = spotted.word(0);
    if !file.starts_with("/dev/") || !spotted.word(1).is_empty() {
        return Ok(());
    }
    for action in "add open close".split_whitespace() {
        remedy.offer(
            0,
            Spot::On(spotted.number),
            format!(in alloc; "{file} {action}")?,
        )?;
    }
    Ok(())
}

/// Offers a line whose OFFSET stands twice without the second one, and one with two numbers by the action of such a
/// line that is nearest to its own.
fn offer_meant(
    alloc: Global,
    remedy: &mut Remedy,
    spotted: Spotted<'_>,
    action: Option<&'static str>,
) -> Result<(), NoMemory> {
    let (first, second, third) = (spotted.word(2), spotted.word(3), spotted.word(4));
    let are_numbers = plain(first).and(plain(second)).is_some();
    let length = if first == second && plain(third).is_some() {
        third
    } else {
        second
    };
    let Some(action) = action.filter(|_| are_numbers && spotted.word(5).is_empty()) else {
        return Ok(());
    };
    if third.is_empty() || length == third {
        let file = spotted.word(0);
        let line = format!(in alloc; "{file} {action} {first} {length}")?;
        remedy.offer(0, Spot::On(spotted.number), line)?;
    }
    Ok(())
}

/// Whether a line is a wait of no time that lacks its LENGTH: how long it is to be can't be guessed.
fn is_short_wait(spotted: Spotted<'_>) -> bool {
    spotted.word(1) == "wait" && spotted.word(2) == "0" && spotted.word(3).is_empty()
}

/// Offers a wait that lacks its LENGTH and is too short to be kept: of so many seconds, or of as many microseconds.
fn offer_waits(alloc: Global, remedy: &mut Remedy, spotted: Spotted<'_>) -> Result<(), NoMemory> {
    let number = plain(spotted.word(2)).unwrap_or(0);
    if action_meant(spotted.word(1)) != "wait"
        || !spotted.word(3).is_empty()
        || !(1..100).contains(&number)
    {
        return Ok(());
    }
    let file = spotted.word(0);
    for scale in [1_000_000u64, 1000] {
        let time = number.saturating_mul(scale);
        remedy.offer(
            0,
            Spot::On(spotted.number),
            format!(in alloc; "{file} wait {time} 0")?,
        )?;
    }
    Ok(())
}
