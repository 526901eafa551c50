use lab_advice::{Remedy, Spot};
use lab_outline::{Outline, Spotted};
use lab_sector::NoMemory;
use std::alloc::Global;

/// What is told of a seed in a script.
const OF_SEED: &str =
    "the seed is no part of a bundle: it is an option of a run, as in `dmlab sim --seed 7 FILE`";

/// What is told of an option of a run in a script.
const OF_OPTION: &str =
    "the word is an option of a run and no command of a script: write it on the command line, as in `dmlab sim --prompt FILE`";

/// What is told of a fast or slow clock in a script.
const OF_SPEED: &str =
    "the clock of a run is simulated, and goes on at once to the next moment at which something is due: there is nothing to set";

/// The remedy of a line that sets what is an option of a run, or calls fio where no replay stands; none for another line.
pub fn option_remedy(
    alloc: Global,
    outline: &Outline<'_>,
    spotted: Spotted<'_>,
) -> Result<Option<Remedy>, NoMemory> {
    let first = spotted.word(0).trim_start_matches('-');
    let (word, _value) = first.split_once('=').unwrap_or((first, ""));
    let why = match word {
        "seed" | "srand" | "random_seed" => OF_SEED,
        "prompt" | "history" | "threads" | "budget" | "seeds" => OF_OPTION,
        "speed" | "scale" | "realtime" | "replay_time_scale" => OF_SPEED,
        _ => return fio_remedy(alloc, outline, spotted),
    };
    Ok(Some(Remedy::told(alloc, why)?.or_blank(alloc, spotted.number)?))
}

/// The remedy of a call of fio that replays a log: the script's replay, or nothing where that stands.
fn fio_remedy(
    alloc: Global,
    outline: &Outline<'_>,
    spotted: Spotted<'_>,
) -> Result<Option<Remedy>, NoMemory> {
    let is_call = spotted.word(0) == "fio" && spotted.line.contains("iolog");
    if !is_call || spotted.word(1) == "version" {
        return Ok(None);
    }
    let why =
        "`replay` does what fio does with its `--read_iolog`, for all logs of the bundle at once";
    let remedy = Remedy::told(alloc, why)?;
    if outline.command("replay").is_some() {
        return Ok(Some(remedy.or_blank(alloc, spotted.number)?));
    }
    let line = String::from_str(alloc, "replay")?;
    Ok(Some(remedy.or(Spot::On(spotted.number), line)?))
}
