use lab_advice::{Remedy, Spot};
use lab_guess::{action_meant, milliseconds_meant, of_nanoseconds, with_word};
use lab_outline::{Outline, Spotted, plain};
use lab_refusal::{Fault, PartName};
use lab_rule_remedies::reach_of;
use lab_sector::NoMemory;
use std::alloc::Global;

/// At which places a delay line has its delays, counted from 0.
const DELAYS: [usize; 3] = [5, 8, 11];

/// The remedy of a line that passes the limit of a number, told by these words; with the line by the unit that is meant,
/// where the number counts a smaller one.
pub(crate) fn past_remedy(
    alloc: Global,
    outline: &Outline<'_>,
    fault: Fault<'_>,
    spotted: Option<Spotted<'_>>,
    why: String,
) -> Result<Remedy, NoMemory> {
    match (fault.part, spotted) {
        (PartName::Script, Some(spotted)) => in_sectors(alloc, outline, spotted, why),
        (PartName::Table(_), Some(spotted)) => in_milliseconds(alloc, spotted, why),
        (PartName::Log(_), Some(spotted)) => in_microseconds(alloc, spotted, why),
        _ => Ok(Remedy::of(alloc, why)),
    }
}

/// The remedy of a wait that is too long: in microseconds, where its number counts nanoseconds.
fn in_microseconds(alloc: Global, spotted: Spotted<'_>, why: String) -> Result<Remedy, NoMemory> {
    match of_nanoseconds(spotted.word(2)) {
        Some(time) if action_meant(spotted.word(1)) == "wait" => {
            let why = format!(in alloc; "{why}; in nanoseconds that are {time} microseconds")?;
            let file = spotted.word(0);
            let line = format!(in alloc; "{file} wait {time} 0")?;
            Remedy::of(alloc, why).or(Spot::On(spotted.number), line)
        }
        _ => Ok(Remedy::of(alloc, why)),
    }
}

/// The remedy of a disk that is too large: in sectors, where its number counts the bytes that the tables' lines reach.
fn in_sectors(
    alloc: Global,
    outline: &Outline<'_>,
    spotted: Spotted<'_>,
    why: String,
) -> Result<Remedy, NoMemory> {
    let (number, bytes) = (spotted.word(1), plain(spotted.word(2)).unwrap_or(0));
    let sectors = bytes / 512;
    let device = format!(in alloc; "/dev/ram{number}")?;
    let is_reached = sectors != 0 && reach_of(outline, device.as_str()) == sectors;
    if spotted.word(0) != "ram" || bytes % 512 != 0 || !is_reached {
        return Ok(Remedy::of(alloc, why));
    }
    let why = format!(in alloc; "{why}; {bytes} bytes are {sectors} sectors")?;
    let line = format!(in alloc; "ram {number} {sectors}")?;
    Remedy::of(alloc, why).or(Spot::On(spotted.number), line)
}

/// The remedy of a delay that is too long: in milliseconds, where its number counts microseconds.
fn in_milliseconds(alloc: Global, spotted: Spotted<'_>, why: String) -> Result<Remedy, NoMemory> {
    if spotted.word(2) != "delay" {
        return Ok(Remedy::of(alloc, why));
    }
    for place in DELAYS {
        if let Some(delay) = milliseconds_meant(spotted.word(place)) {
            let why = format!(in alloc; "{why}; in microseconds that are {delay} milliseconds")?;
            let number = format!(in alloc; "{delay}")?;
            let line = with_word(alloc, spotted.line, place, number.as_str())?;
            return Remedy::of(alloc, why).or(Spot::On(spotted.number), line);
        }
    }
    Ok(Remedy::of(alloc, why))
}
