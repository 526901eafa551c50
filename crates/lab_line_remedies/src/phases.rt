use lab_advice::{Remedy, Spot};
use lab_outline::{Outline, Spotted};
use lab_sector::NoMemory;
use std::alloc::Global;

/// What is told of a second replay behind commands that change a device.
const OF_PHASES: &str =
    "a script has one `replay`, and each log runs once: for more requests behind a change of a table, write them into the log \
     behind a line `FILE wait MICROSECONDS 0`, and in the script put `sleep MICROSECONDS` and the commands that change the \
     table between `replay` and the one `wait`";

/// The remedy of a replay or a wait that stands behind another one: one of the two is left out, unless commands that change
/// a device stand between.
pub fn repeated_remedy(
    alloc: Global,
    outline: &Outline<'_>,
    remedy: Remedy,
    spotted: Spotted<'_>,
) -> Result<Remedy, NoMemory> {
    let Some(first) = outline.command(spotted.word(0)) else {
        return remedy.or_blank(alloc, spotted.number);
    };
    let changes = outline.commands.iter().any(|it| first.number < it.number
        && it.number < spotted.number
        && is_change(it.word(0)));
    let is_replay = spotted.word(0) == "replay";
    if changes && is_replay && first.number < spotted.number {
        return Remedy::told(alloc, OF_PHASES);
    }
    let mut remedy = remedy;
    if !is_replay && first.number < spotted.number {
        let line = first.number;
        remedy.why = format!(in alloc;
            "a script has at most one `wait`, and one stands on line {line}"
        )?;
    }
    let mut remedy = remedy.or_blank(alloc, spotted.number)?;
    if first.number < spotted.number {
        remedy.offer(1, Spot::Blank(first.number), String::new(alloc))?;
    }
    Ok(remedy)
}

/// The remedy of a replay with a name behind it, below another replay: it's left out.
pub fn replay_again(
    alloc: Global,
    outline: &Outline<'_>,
    spotted: Spotted<'_>,
) -> Result<Option<Remedy>, NoMemory> {
    let Some(first) = outline.command("replay") else {
        return Ok(None);
    };
    let is_again = spotted.word(0) == "replay" && first.number < spotted.number;
    if !is_again || spotted.line.contains(';') || spotted.word(2) != "" {
        return Ok(None);
    }
    let line = first.number;
    let why = format!(in alloc;
        "`replay` starts all logs at once, has no name behind it, and stands on line {line} already"
    )?;
    Ok(Some(Remedy::of(alloc, why).or_blank(alloc, spotted.number)?))
}

/// Whether a command of this verb changes a device.
fn is_change(verb: &str) -> bool {
    matches!(
        verb,
        "load" | "reload" | "resume" | "suspend" | "message" | "clear" | "remove"
    )
}
