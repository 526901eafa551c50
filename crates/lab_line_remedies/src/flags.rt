use lab_guess::{takes_name, takes_table, without_comment};
use lab_outline::Spotted;
use lab_sector::NoMemory;
use std::alloc::Global;

/// How many bytes a line has at most whose options are told.
const LONGEST: usize = 200;

/// The options that change nothing where there are no files of devices and nothing is printed.
const IDLE: &str =
    "--noudevsync --noudevrules --verifyudev --addnodeoncreate --addnodeonresume --noopencount --showkeys --verbose -v -vv \
     --yes -y --checks --nocookie";

/// The options that give a device more than its name.
const NAMING: &str = "--uuid -u --major -j --minor -m --mode --uid --gid --readahead";

/// What is told of dmsetup's options on a command that takes none, if it has some: what each would do, and what is here.
pub fn flags_told(
    alloc: Global,
    verb: &str,
    spotted: Spotted<'_>,
) -> Result<Option<String>, NoMemory> {
    if LONGEST < spotted.line.len() || !(takes_name(verb) || takes_table(verb)) {
        return Ok(None);
    }
    let mut told = String::new(alloc);
    for word in without_comment(spotted.line).split_whitespace() {
        let (flag, _value) = word.split_once('=').unwrap_or((word, ""));
        if let Some(why) = of_flag(verb, flag) {
            if !told.as_str().is_empty() {
                told.push_str("; ")?;
            }
            told.push_str(format!(in alloc; "dmlab has no `{flag}`: {why}")?.as_str())?;
        }
    }
    if told.as_str().is_empty() {
        return Ok(None);
    }
    Ok(Some(told))
}

/// What is there in the place of an option.
fn of_flag(verb: &str, flag: &str) -> Option<&'static str> {
    if IDLE.split_whitespace().any(|it| it == flag) {
        return Some("nothing here depends on it");
    }
    if NAMING.split_whitespace().any(|it| it == flag) {
        return Some("a device has its name alone");
    }
    match flag {
        "--noflush" if verb == "suspend" => {
            Some("its `suspend` lets held requests go, and waits for all that are in flight")
        }
        "--noflush" if verb == "resume" => {
            Some(
                "where it swaps a table, it lets held requests go, and waits for all that are in flight",
            )
        }
        "--noflush" => Some("nothing here depends on it"),
        "--nolockfs" | "--skip-lockfs" | "--skiplockfs" => {
            Some("no file system stands on its devices, so there is none to lock")
        }
        "--force" | "-f" => Some(
            "a device in use isn't removed; a table of `error` lines that is loaded and resumed fails its requests",
        ),
        "--retry" | "--deferred" => {
            Some(
                "a device is removed at once, where nothing uses it any more, as behind the `wait`",
            )
        }
        "--inactive" => Some("`table` and `status` are of the live table"),
        _ => None,
    }
}
