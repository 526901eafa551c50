use crate::script_remedy::by_rule;
use lab_advice::{Remedy, Spot};
use lab_outline::{Outline, Spotted};
use lab_refusal::Rule;
use lab_sector::NoMemory;
use std::alloc::Global;

/// The remedy of a device that is removed while a table names it, or while a log may use it.
pub(crate) fn removed_remedy(
    alloc: Global,
    outline: &Outline<'_>,
    spotted: Spotted<'_>,
) -> Result<Remedy, NoMemory> {
    if let Some(upper) = outline.laid_on(spotted.word(1), spotted.number) {
        return Ok(Remedy::of(alloc, why_below(alloc, outline, spotted, upper)?));
    }
    if let Some(late) = outline
        .command("wait")
        .filter(|it| spotted.number < it.number)
    {
        let (name, line) = (spotted.word(1), late.number);
        let why = format!(in alloc;
            "the logs may still use the device here, and it can't be removed under them: the `wait` of line {line} comes too \
             late, so move it above this one; or, to let all requests from here on fail, write `load {name} TABLE` with a \
             table of `error`, and below it `resume {name}`"
        )?;
        return Ok(Remedy::of(alloc, why));
    }
    let remedy = Remedy::told(alloc, by_rule(Rule::V8))?;
    let replay = outline
        .command("replay")
        .map(|it| it.number)
        .unwrap_or(u64::MAX);
    if spotted.number < replay || outline.command("wait").is_some() {
        return Ok(remedy);
    }
    remedy.or(
        Spot::Before(spotted.number),
        String::from_str(alloc, "wait")?,
    )
}

/// Why a device isn't removed on which the one that this line creates is laid: that one goes first, by a line below this one
/// where one removes it.
fn why_below(
    alloc: Global,
    outline: &Outline<'_>,
    spotted: Spotted<'_>,
    upper: Spotted<'_>,
) -> Result<String, NoMemory> {
    let (name, number) = (spotted.word(1), spotted.number);
    let (line, other) = (upper.number, upper.device());
    if outline.laid_on(other, number).is_some() {
        return in_order(alloc, outline, spotted);
    }
    match removal_below(outline, other, number) {
        Some(removal) => {
            let below = removal.number;
            Ok(format!(in alloc;
                "the device {other}, which line {line} creates, is laid on {name}, and goes first: exchange this line and line \
                 {below}, so that `remove {other}` stands on line {number} and `remove {name}` on line {below}"
            )?)
        }
        None => Ok(format!(in alloc;
            "the device {other}, which line {line} creates, is laid on {name}: write `remove {other}` before this line, or \
             leave it out"
        )?),
    }
}

/// In which order the devices are removed that are laid on one another above this line's device: the top one first.
fn in_order(
    alloc: Global,
    outline: &Outline<'_>,
    spotted: Spotted<'_>,
) -> Result<String, NoMemory> {
    let (name, number) = (spotted.word(1), spotted.number);
    let mut order = format!(in alloc; "`remove {name}`")?;
    let mut lower = name;
    for _device in 0..outline.commands.len() {
        if let Some(upper) = outline.laid_on(lower, number) {
            lower = upper.device();
            order = format!(in alloc; "`remove {lower}`, {order}")?;
        }
    }
    Ok(format!(in alloc;
        "the devices that are laid on {name} go first, the top one before all: {order}, in this order"
    )?)
}

/// The first line below this one that removes the device of this name.
fn removal_below<'a>(outline: &Outline<'a>, name: &str, number: u64) -> Option<Spotted<'a>> {
    for command in &outline.commands {
        if number < command.number && command.does("remove", name) {
            return Some(*command);
        }
    }
    None
}
