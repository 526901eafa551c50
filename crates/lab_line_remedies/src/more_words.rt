use crate::timed_command::first_meant;
use lab_guess::{takes_name, with_joined_units, without_comment, without_dmsetup};
use lab_outline::{Outline, Spotted};
use lab_sector::NoMemory;
use std::alloc::Global;

/// How many bytes a line has at most that is told in parts.
const LONGEST: usize = 200;

/// What is told of a command of one device that has another device behind it, or a time, if it is one: the commands that
/// it stands for.
pub fn with_more(
    alloc: Global,
    outline: &Outline<'_>,
    spotted: Spotted<'_>,
) -> Result<Option<String>, NoMemory> {
    if LONGEST < spotted.line.len() {
        return Ok(None);
    }
    let joined = with_joined_units(alloc, spotted.line)?;
    let own = Spotted {
        number: spotted.number,
        line: without_dmsetup(without_comment(joined.as_str())),
    };
    let (verb, name, more) = (own.word(0), own.word(1), own.word(2));
    if !takes_name(verb) || outline.created(name, own.number).is_none() || more.is_empty() {
        return Ok(None);
    }
    if outline.created(more, own.number).is_some() {
        return Ok(Some(format!(in alloc;
            "a `{verb}` is of one device: write `{verb} {name}` on this line, and `{verb} {more}` on a line of its own below it"
        )?));
    }
    match first_meant(own.line.split_whitespace().last().unwrap_or("")) {
        Some(time) if verb == "suspend" => Ok(Some(format!(in alloc;
            "a `suspend` has no time, and lasts until the device's `resume`: write `suspend {name}` on this line, and below it \
             `sleep {time}`, in microseconds, and `resume {name}`"
        )?)),
        _ => Ok(None),
    }
}
