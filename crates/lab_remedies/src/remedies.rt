use crate::iolog_remedy::iolog_remedy;
use crate::scaled::past_remedy;
use crate::script_remedy::script_remedy;
use crate::spotted::spotted_at;
use crate::table_remedy::table_remedy;
use lab_advice::{GUESSED, Place, Remedy, Spot, Trouble, place_of};
use lab_guess::{
    exchanged, past_command_limit, past_log_limit, past_table_limit, two_lines, with_blanks,
    with_joined_units, without_commas, without_doubles, without_labels, without_marks,
    without_suffixes,
};
use lab_line_remedies::history_remedy::{history_remedy, not_a_run, unfinished};
use lab_outline::{Outline, Spotted};
use lab_refusal::{Fault, PartName, Rule};
use lab_row_remedies::last_guesses::or_last;
use lab_row_remedies::wrapped::wrapped;
use lab_rule_remedies::{budget_remedy, limits_remedy};
use lab_sector::NoMemory;
use lab_text_remedies::bundle_remedy::bundle_remedy;
use lab_text_remedies::misplaced::misplaced_remedy;
use lab_text_remedies::parted::or_parted;
use lab_text_remedies::thousands::or_joined;
use std::alloc::Global;

/// How many bytes a line has at most that is tidied.
const LONGEST: usize = 2000;

/// How many bytes a line has at most that a line may be proposed for.
const LONGEST_MENDED: usize = 4096;

/// The remedy of a trouble of these bytes: what would be right there, and which lines may mend it. No clause says which
/// words it has.
pub fn remedy_of(alloc: Global, bytes: &[u8], trouble: Trouble<'_>) -> Result<Remedy, NoMemory> {
    let place = place_of(bytes, trouble);
    if place.is_some_and(|it| LONGEST_MENDED < it.line.len()) {
        let why = "the line has more than 4,096 bytes, so no line is proposed for it";
        return Remedy::told(alloc, why);
    }
    match trouble {
        Trouble::Fault(fault) => fault_remedy(alloc, bytes, fault, place),
        Trouble::NotARun(_) => not_a_run(alloc, bytes, place),
        Trouble::Unfinished(_) => unfinished(alloc),
    }
}

/// The remedy of a bundle's fault.
fn fault_remedy(
    alloc: Global,
    bytes: &[u8],
    fault: Fault<'_>,
    place: Option<Place<'_>>,
) -> Result<Remedy, NoMemory> {
    if let Some(why) = of_two_lines(alloc, fault, place.and_then(spotted_at))? {
        return Ok(Remedy::of(alloc, why));
    }
    let outline = Outline::of(alloc, bytes)?;
    if let Some(remedy) = wrapped(alloc, &outline, fault, place.and_then(spotted_at))? {
        return Ok(remedy);
    }
    if let Some(remedy) = misplaced_remedy(
        alloc,
        bytes,
        &outline,
        fault,
        place.and_then(spotted_at),
    )? {
        return Ok(remedy);
    }
    let spotted = place.and_then(spotted_at);
    if let Some(why) = past_limit(alloc, fault, spotted)? {
        return past_remedy(alloc, &outline, fault, spotted, why);
    }
    let remedy = part_remedy(alloc, bytes, &outline, fault, place)?;
    if fault.rule == Rule::Gap && remedy.mends.is_empty() {
        return Ok(remedy);
    }
    match place.and_then(spotted_at) {
        Some(spotted) if is_of_line(fault) && spotted.line.len() <= LONGEST => {
            let parted = or_parted(alloc, &outline, remedy, spotted)?;
            if fault.rule == Rule::Interval {
                return Ok(parted);
            }
            let remedy = or_tidied(alloc, parted, spotted)?;
            or_last(alloc, remedy, fault.part, spotted)
        }
        _ => Ok(remedy),
    }
}

/// What is told of a line that can't be read and has two lines in it, if it has.
fn of_two_lines(
    alloc: Global,
    fault: Fault<'_>,
    spotted: Option<Spotted<'_>>,
) -> Result<Option<String>, NoMemory> {
    match spotted {
        Some(spotted) if !fault.rule.is_of_scenario() => two_lines(alloc, spotted.line),
        _ => Ok(None),
    }
}

/// What is told of a line that can't be read and passes the limit of a number, if it does.
fn past_limit(
    alloc: Global,
    fault: Fault<'_>,
    spotted: Option<Spotted<'_>>,
) -> Result<Option<String>, NoMemory> {
    let Some(spotted) = spotted.filter(|it| it.line.len() <= LONGEST) else {
        return Ok(None);
    };
    let line = with_joined_units(alloc, spotted.line)?;
    match fault.part {
        _ if fault.rule.is_of_scenario() || fault.rule == Rule::Gap => Ok(None),
        PartName::Table(_) => past_table_limit(alloc, line.as_str()),
        PartName::Script => past_command_limit(alloc, line.as_str()),
        PartName::Log(_) => past_log_limit(alloc, line.as_str()),
        _ => Ok(None),
    }
}

/// Whether a fault is one of reading a part's line, and not of a number that is too great.
fn is_of_line(fault: Fault<'_>) -> bool {
    let other = fault.part == PartName::Bundle
        || matches!(fault.rule, Rule::Header | Rule::TooLong | Rule::EmptyRange);
    !other && !fault.rule.is_of_scenario()
}

/// The remedy with the line tidied, or with two neighbouring words exchanged, as the least likely ones.
fn or_tidied(alloc: Global, remedy: Remedy, spotted: Spotted<'_>) -> Result<Remedy, NoMemory> {
    let spot = Spot::On(spotted.number);
    let mut remedy = remedy.or_if(spot, without_doubles(alloc, spotted.line)?)?;
    remedy = or_line(
        alloc,
        remedy,
        spotted.number,
        without_marks(alloc, spotted.line)?,
    )?
    .or_if(spot, without_commas(alloc, spotted.line)?)?
    .or_if(spot, without_labels(alloc, spotted.line)?)?;
    remedy = or_line(
        alloc,
        remedy,
        spotted.number,
        with_blanks(alloc, spotted.line)?,
    )?;
    if spotted.word(0) != "message" {
        remedy = or_joined(alloc, remedy, spotted)?;
    }
    for place in 0..4 {
        remedy = remedy.or_if(spot, exchanged(alloc, spotted.line, place)?)?;
    }
    remedy.or_guess(spot, without_suffixes(alloc, spotted.line)?)
}

/// The remedy with a line more in the place of this one, which is left blank where that has no words.
fn or_line(
    alloc: Global,
    remedy: Remedy,
    number: u64,
    line: Option<String>,
) -> Result<Remedy, NoMemory> {
    match line {
        Some(line) if line.as_str().is_empty() => remedy.or_blank(alloc, number),
        line => remedy.or_if(Spot::On(number), line),
    }
}

/// The remedy with each command that is to stand before another one below the `replay` before that, too: a log may want its
/// device there.
fn or_before_replay(
    alloc: Global,
    outline: &Outline<'_>,
    mut remedy: Remedy,
) -> Result<Remedy, NoMemory> {
    let Some(replay) = outline.command("replay") else {
        return Ok(remedy);
    };
    let mut line: Option<(u64, String)> = None;
    for mend in &remedy.mends {
        let is_below = matches!(mend.spot, Spot::Before(number) if replay.number < number);
        if is_below && line.is_none() {
            line = Some((mend.rank, String::from_str(alloc, mend.line.as_str())?));
        }
    }
    if let Some((rank, line)) = line {
        let rank = GUESSED.saturating_add(rank);
        remedy.offer(rank, Spot::Before(replay.number), line)?;
    }
    Ok(remedy)
}

/// The remedy of a fault, by the part that it is in.
fn part_remedy(
    alloc: Global,
    bytes: &[u8],
    outline: &Outline<'_>,
    fault: Fault<'_>,
    place: Option<Place<'_>>,
) -> Result<Remedy, NoMemory> {
    let spotted = place.and_then(spotted_at);
    match fault.part {
        PartName::Bundle => bundle_remedy(alloc, bytes, outline, fault.rule, place),
        PartName::Table(_) => table_remedy(alloc, bytes, outline, fault.rule, spotted),
        PartName::Script => {
            let remedy = script_remedy(alloc, bytes, outline, fault.rule, spotted)?;
            or_before_replay(alloc, outline, remedy)
        }
        PartName::Log(_) => iolog_remedy(alloc, bytes, outline, fault.rule, spotted),
        PartName::Limits => limits_remedy(alloc, outline),
        PartName::Budget => budget_remedy(alloc),
        PartName::History => history_remedy(alloc, outline, fault.rule, spotted),
    }
}
