use crate::command_remedy::command_remedy;
use crate::removed::removed_remedy;
use crate::suspended::order_remedy;
use lab_advice::{Part, Remedy, Spot, end_number, heading_number};
use lab_line_remedies::cycles::cycle_told;
use lab_line_remedies::lost_words::{offer_creates, or_lost};
use lab_line_remedies::phases::repeated_remedy;
use lab_outline::{Outline, Spotted, plain};
use lab_refusal::Rule;
use lab_rule_remedies::{
    loaded_remedy, message_remedy, self_told, shorter_remedy, size_remedy, unknown_remedy,
};
use lab_sector::NoMemory;
use std::alloc::Global;

/// The remedy of a script that is none, or that breaks a rule.
pub(crate) fn script_remedy(
    alloc: Global,
    bytes: &[u8],
    outline: &Outline<'_>,
    rule: Rule,
    spotted: Option<Spotted<'_>>,
) -> Result<Remedy, NoMemory> {
    match (rule, spotted) {
        (Rule::BadLine, Some(spotted)) => {
            let remedy = command_remedy(alloc, outline, spotted)?;
            or_lost(alloc, bytes, outline, remedy, spotted)
        }
        (Rule::V1, Some(spotted)) => unknown_remedy(alloc, bytes, outline, spotted),
        (Rule::V2, Some(spotted)) => used_remedy(alloc, bytes, outline, spotted),
        (Rule::V4, Some(spotted)) => size_remedy(alloc, outline, spotted),
        (Rule::V5, Some(spotted)) => shorter_remedy(alloc, outline, spotted),
        (Rule::V6, Some(spotted)) => order_remedy(alloc, outline, spotted),
        (Rule::V8, Some(spotted)) => removed_remedy(alloc, outline, spotted),
        (Rule::V9, Some(spotted)) => message_remedy(alloc, outline, spotted),
        (Rule::V3, Some(spotted)) => live_remedy(alloc, outline, spotted),
        (Rule::V11, Some(spotted)) => cycle_remedy(alloc, outline, spotted),
        (Rule::V7, _) => resume_remedy(alloc, bytes, outline, spotted),
        (Rule::V10, _) => replay_remedy(alloc, bytes, outline, spotted),
        _ => Remedy::told(alloc, by_rule(rule)),
    }
}

/// The remedy of a name or a number that is in use: the line that took it, which this one may repeat.
fn used_remedy(
    alloc: Global,
    bytes: &[u8],
    outline: &Outline<'_>,
    spotted: Spotted<'_>,
) -> Result<Remedy, NoMemory> {
    let verb = spotted.word(0);
    let taken = if verb == "ram" {
        outline.disk_of_number(spotted.word(1))
    } else {
        outline.created(spotted.device(), spotted.number)
    };
    let Some(taken) = taken else {
        return Remedy::told(alloc, by_rule(Rule::V2));
    };
    let number = taken.number;
    let again = taken
        .line
        .split_whitespace()
        .eq(spotted.line.split_whitespace());
    if verb == "create" && !again && !spotted.line.contains("--notable") {
        return other_table(alloc, bytes, outline, spotted, number);
    }
    let why = format!(in alloc;
        "the name or the disk's number is in use, by line {number}: take another one"
    )?;
    let remedy = Remedy::of(alloc, why);
    if let Some(disk) = disk_wanted(outline).filter(|_| verb == "ram") {
        let sectors = spotted.word(2);
        let line = format!(in alloc; "ram {disk} {sectors}")?;
        return remedy.or(Spot::On(spotted.number), line);
    }
    if again {
        return remedy.or_blank(alloc, spotted.number);
    }
    Ok(remedy)
}

/// The number of the first disk that a table's line names and no command makes.
fn disk_wanted(outline: &Outline<'_>) -> Option<u64> {
    for row in &outline.rows {
        let device = row.spotted.word(3);
        if let Some(number) = device.strip_prefix("/dev/ram").and_then(plain) {
            if outline.disk(number).is_none() {
                return Some(number);
            }
        }
    }
    None
}

/// What is told of a create of a device that stands already, by another table.
fn other_table(
    alloc: Global,
    bytes: &[u8],
    outline: &Outline<'_>,
    spotted: Spotted<'_>,
    number: u64,
) -> Result<Remedy, NoMemory> {
    let (name, table) = (spotted.word(1), spotted.word(2));
    let why = format!(in alloc;
        "the device {name} is in use, by line {number}: another device has another name; or, to change the table of \
         {name}, write `load {name} {table}` and below it `resume {name}`"
    )?;
    let mut remedy = Remedy::of(alloc, why);
    offer_creates(alloc, &mut remedy, bytes, outline, spotted.number, table)?;
    Ok(remedy)
}

/// The remedy of a device without a live table: a resume before the command, or a load before a resume.
fn live_remedy(
    alloc: Global,
    outline: &Outline<'_>,
    spotted: Spotted<'_>,
) -> Result<Remedy, NoMemory> {
    if let Some(remedy) = loaded_remedy(alloc, outline, spotted)? {
        return Ok(remedy);
    }
    let mut remedy = Remedy::told(alloc, by_rule(Rule::V3))?;
    let (spot, name) = (Spot::Before(spotted.number), spotted.word(1));
    if spotted.word(0) != "resume" {
        return remedy.or(spot, format!(in alloc; "resume {name}")?);
    }
    for table in &outline.tables {
        let table = table.line;
        remedy.offer(0, spot, format!(in alloc; "load {name} {table}")?)?;
    }
    Ok(remedy)
}

/// The remedy of a load that closes a cycle: the line that names the device itself, where one does.
fn cycle_remedy(
    alloc: Global,
    outline: &Outline<'_>,
    spotted: Spotted<'_>,
) -> Result<Remedy, NoMemory> {
    match self_told(alloc, outline, spotted)? {
        Some(why) => Ok(Remedy::of(alloc, why)),
        None => match cycle_told(alloc, outline, spotted)? {
            Some(why) => Ok(Remedy::of(alloc, why)),
            None => Remedy::told(alloc, by_rule(Rule::V11)),
        },
    }
}

/// The remedy of a device that doesn't run at the `wait`, or at the end: a resume of each before it.
fn resume_remedy(
    alloc: Global,
    bytes: &[u8],
    outline: &Outline<'_>,
    spotted: Option<Spotted<'_>>,
) -> Result<Remedy, NoMemory> {
    let mut remedy = Remedy::told(alloc, by_rule(Rule::V7))?;
    let spot = place_before(bytes, spotted);
    for command in &outline.commands {
        if matches!(command.word(0), "suspend" | "create") {
            let name = command.device();
            remedy.offer(0, spot, format!(in alloc; "resume {name}")?)?;
        }
    }
    Ok(remedy)
}

/// The place before a command, or behind the script's last line.
fn place_before(bytes: &[u8], spotted: Option<Spotted<'_>>) -> Spot {
    match spotted {
        Some(spotted) => Spot::Before(spotted.number),
        None => {
            let heading = heading_number(bytes, Part::Script).unwrap_or(0);
            Spot::Before(end_number(bytes, heading))
        }
    }
}

/// The remedy of a script without a replay, or of a replay or a wait that is out of place.
fn replay_remedy(
    alloc: Global,
    bytes: &[u8],
    outline: &Outline<'_>,
    spotted: Option<Spotted<'_>>,
) -> Result<Remedy, NoMemory> {
    let mut remedy = Remedy::told(alloc, by_rule(Rule::V10))?;
    if let (Some(spotted), Some(replay)) = (spotted, outline.command("replay")) {
        if spotted.word(0) == "wait" && !waits_behind(outline, replay.number) {
            return early_wait(alloc, replay.number);
        }
        return repeated_remedy(alloc, outline, remedy, spotted);
    }
    let sleep = outline.command("sleep");
    for spot in [
        sleep.map(|it| Spot::Before(it.number)),
        Some(place_before(bytes, spotted)),
    ] {
        if let Some(spot) = spot {
            remedy.offer(0, spot, String::from_str(alloc, "replay")?)?;
        }
    }
    Ok(remedy)
}

/// Whether a wait stands behind this line.
fn waits_behind(outline: &Outline<'_>, number: u64) -> bool {
    outline
        .commands
        .iter()
        .any(|it| it.word(0) == "wait" && number < it.number)
}

/// What is told of a wait before the replay on this line, where no other one stands behind it.
fn early_wait(alloc: Global, replay: u64) -> Result<Remedy, NoMemory> {
    let why = format!(in alloc;
        "a `wait` waits for the logs, which start at the `replay`, line {replay}: move this line behind that one"
    )?;
    Ok(Remedy::of(alloc, why))
}

/// What a rule of the script asks for.
pub(crate) fn by_rule(rule: Rule) -> &'static str {
    match rule {
        Rule::V2 => "the name or the disk's number is in use: take another one",
        Rule::V3 =>
            "the device has no live table here: `load NAME TABLE` and `resume NAME` give it one",
        Rule::V6 => {
            "a device is suspended before those below it: suspend the upper one first, and resume \
             the lower one first"
        }
        Rule::V7 =>
            "each device runs at the `wait`, or at the end where there is none: `resume NAME` before it",
        Rule::V8 => {
            "the device is in use, by a table or between `replay` and `wait` by a log: remove the upper device first, \
             or `wait` before"
        }
        Rule::V10 =>
            "a script has one `replay`, which starts all logs, and at most one `wait`, behind it",
        Rule::V11 =>
            "over all tables ever loaded no device may stand on itself: take another table",
        _ => "a script has one command on a line",
    }
}
