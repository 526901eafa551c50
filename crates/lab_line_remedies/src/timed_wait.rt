use lab_advice::{Remedy, Spot};
use lab_guess::{SCALES, time_meant, verb_near, with_joined_units};
use lab_outline::Spotted;
use lab_sector::NoMemory;
use std::alloc::Global;

/// What is told of a wait with a time behind it.
const WHY: &str =
    "`wait` has no number behind it: it waits until all logs have ended. `sleep MICROSECONDS` lets time pass, 1000000 for \
     one second";

/// The remedy of a script's `wait` that has a time behind it, if it has one: a sleep of each time that may be meant, or the
/// wait alone.
pub fn timed_wait(alloc: Global, spotted: Spotted<'_>) -> Result<Option<Remedy>, NoMemory> {
    if verb_near(alloc, spotted.word(0))? != "wait" {
        return Ok(None);
    }
    let joined = with_joined_units(alloc, spotted.line)?;
    let time = joined.as_str().split_whitespace().nth(1).unwrap_or("");
    if !time.starts_with(|c: char| c.is_ascii_digit()) {
        return Ok(None);
    }
    let spot = Spot::On(spotted.number);
    let mut remedy = Remedy::told(alloc, WHY)?;
    for scale in SCALES {
        if let Some(time) = time_meant(time, scale) {
            remedy.offer(0, spot, format!(in alloc; "sleep {time}")?)?;
        }
    }
    if time
        .trim_start_matches(|c: char| c.is_ascii_digit())
        .is_empty()
    {
        remedy.offer(0, spot, String::from_str(alloc, "wait")?)?;
    }
    Ok(Some(remedy))
}
