use crate::creates::{create_meant, wiped, with_row, with_table};
use crate::shell::shell_remedy;
use lab_advice::{Remedy, Spot};
use lab_guess::{
    Draft, exchanged_message, mended_command, message_of_verb, ordered_message, takes_name,
    takes_table, two_commands, verb_near, with_joined_units, without_comment, without_dmsetup,
    without_doubles,
};
use lab_line_remedies::command_form::{command_numbers, reason};
use lab_line_remedies::command_tables::{offer_tables, only_live};
use lab_line_remedies::flags::flags_told;
use lab_line_remedies::foreign_command::foreign_command;
use lab_line_remedies::late_disk::late_disk;
use lab_line_remedies::message_words::of_two;
use lab_line_remedies::more_words::with_more;
use lab_line_remedies::named::name_remedy;
use lab_line_remedies::phases::replay_again;
use lab_line_remedies::renamed::renamed_remedy;
use lab_line_remedies::seeded::option_remedy;
use lab_line_remedies::timed_command::timed_command;
use lab_line_remedies::timed_wait::timed_wait;
use lab_outline::{Outline, Spotted, plain};
use lab_row_remedies::numbers::number_at_fault;
use lab_sector::NoMemory;
use std::alloc::Global;

/// How many commands a script has at most, so that its disks are looked through.
const MOST_COMMANDS: usize = 1000;

/// The remedy of a line that is no command: the command that it seems to mean, by each table where it lacks one.
pub(crate) fn command_remedy(
    alloc: Global,
    outline: &Outline<'_>,
    spotted: Spotted<'_>,
) -> Result<Remedy, NoMemory> {
    if let Some(remedy) = copied_remedy(alloc, outline, spotted)? {
        return Ok(remedy);
    }
    if let Some(remedy) = name_remedy(alloc, outline, spotted)? {
        return Ok(remedy);
    }
    let bare = without_dmsetup(without_comment(spotted.line));
    let verb = verb_near(alloc, bare.split_whitespace().next().unwrap_or(""))?;
    let joined = with_joined_units(alloc, spotted.line)?;
    if let Some(why) = only_live(alloc, outline, spotted.number, bare)? {
        return Ok(Remedy::of(alloc, why));
    }
    let why = match flags_told(alloc, verb, spotted)? {
        Some(why) => why,
        None => number_at_fault(
            alloc,
            spotted,
            command_numbers(verb),
            reason(joined.as_str(), verb),
        )?,
    };
    let spot = Spot::On(spotted.number);
    let mut remedy = Remedy::of(alloc, why)
        .or_if(spot, without_values(alloc, bare, verb)?)?
        .or_if(spot, without_doubles(alloc, spotted.line)?)?
        .or_if(spot, create_meant(alloc, outline, bare)?)?
        .or_if(spot, replay_meant(alloc, outline, bare)?)?;
    offer_tables(alloc, &mut remedy, outline, spotted, verb)?;
    offer_named(alloc, &mut remedy, outline, spotted.number, bare)?;
    offer_messages(alloc, &mut remedy, spotted.number, bare)?;
    remedy
        .or_if(spot, mended_bare(alloc, joined.as_str(), verb)?)?
        .or_if(spot, disk_meant(alloc, spotted)?)?
        .or_if(spot, disk_numbered(alloc, outline, spotted)?)
}

/// The command of a device without dmsetup's options, and the values that stand behind some; nothing of a line without such
/// a value.
fn without_values(alloc: Global, bare: &str, verb: &str) -> Result<Option<String>, NoMemory> {
    let mut draft = Draft::new(alloc);
    let mut has_value = false;
    let mut is_value = false;
    for word in bare.split_whitespace() {
        if !is_value && !word.starts_with('-') {
            draft.push(word)?;
        }
        is_value = matches!(word, "--target" | "--options" | "-o");
        has_value = has_value || is_value;
    }
    if !has_value || !takes_name(verb) {
        return Ok(None);
    }
    let line = draft.line();
    let mended = mended_command(alloc, line.as_str(), None)?;
    Ok(Some(mended.unwrap_or(line)))
}

/// The command as a script could have it, but for a create or a load with more words than these have.
fn mended_bare(alloc: Global, line: &str, verb: &str) -> Result<Option<String>, NoMemory> {
    let count = without_dmsetup(without_comment(line))
        .split_whitespace()
        .count();
    if takes_table(verb) && 3 < count && !line.contains("--not") {
        return Ok(None);
    }
    mended_command(alloc, line, None)
}

/// The remedy of a line that is no command for a reason of its own: two messages, a time behind a wait, a line of a shell.
fn copied_remedy(
    alloc: Global,
    outline: &Outline<'_>,
    spotted: Spotted<'_>,
) -> Result<Option<Remedy>, NoMemory> {
    if let Some(remedy) = replay_again(alloc, outline, spotted)? {
        return Ok(Some(remedy));
    }
    if let Some(remedy) = option_remedy(alloc, outline, spotted)? {
        return Ok(Some(remedy));
    }
    if let Some(why) = of_two(alloc, spotted)? {
        return Ok(Some(Remedy::of(alloc, why)));
    }
    if let Some([first, rest]) = two_commands(alloc, spotted.line)? {
        return Ok(Some(of_two_commands(alloc, first, rest)?));
    }
    if let Some(why) = with_table(alloc, outline, spotted)? {
        return Ok(Some(Remedy::of(alloc, why)));
    }
    if let Some(why) = with_row(alloc, spotted)? {
        return Ok(Some(Remedy::of(alloc, why)));
    }
    if let Some(why) = with_more(alloc, outline, spotted)? {
        return Ok(Some(Remedy::of(alloc, why)));
    }
    if let Some(why) = wiped(alloc, outline, spotted)? {
        return Ok(Some(Remedy::of(alloc, why)));
    }
    if let Some(remedy) = renamed_remedy(alloc, outline, spotted)? {
        return Ok(Some(remedy));
    }
    if let Some(why) = late_disk(alloc, outline, spotted)? {
        return Ok(Some(Remedy::of(alloc, why)));
    }
    if let Some(remedy) = timed_command(alloc, spotted)? {
        return Ok(Some(remedy));
    }
    if let Some(remedy) = timed_wait(alloc, spotted)? {
        return Ok(Some(remedy));
    }
    if let Some(remedy) = shell_remedy(alloc, outline, spotted)? {
        return Ok(Some(remedy));
    }
    foreign_command(alloc, spotted)
}

/// What is told of two commands that stand on one line.
fn of_two_commands(alloc: Global, first: String, rest: String) -> Result<Remedy, NoMemory> {
    let why = format!(in alloc;
        "a script has one command on a line, and no `;`: write `{first}` here, and `{rest}` on lines of their own below it"
    )?;
    Ok(Remedy::of(alloc, why))
}

/// The replay that a line means by another word, where the script has none.
fn replay_meant(
    alloc: Global,
    outline: &Outline<'_>,
    bare: &str,
) -> Result<Option<String>, NoMemory> {
    let is_start = matches!(
        bare,
        "start" | "run" | "play" | "go" | "begin" | "replay_all"
    );
    if !is_start || outline.command("replay").is_some() {
        return Ok(None);
    }
    Ok(Some(String::from_str(alloc, "replay")?))
}

/// Offers a message with its words in order, by each order that is as likely.
fn offer_messages(
    alloc: Global,
    remedy: &mut Remedy,
    number: u64,
    bare: &str,
) -> Result<(), NoMemory> {
    if let Some(line) = ordered_message(alloc, bare)? {
        remedy.offer(0, Spot::On(number), line)?;
    }
    if let Some(line) = exchanged_message(alloc, bare)? {
        remedy.offer(0, Spot::On(number), line)?;
    }
    if let Some(line) = message_of_verb(alloc, bare)? {
        remedy.offer(0, Spot::On(number), line)?;
    }
    Ok(())
}

/// Offers a command by each device where it names none, and a `status` in the place of dmsetup's `info`.
fn offer_named(
    alloc: Global,
    remedy: &mut Remedy,
    outline: &Outline<'_>,
    number: u64,
    bare: &str,
) -> Result<(), NoMemory> {
    let own = Spotted { number, line: bare };
    let verb = match own.word(0) {
        "info" => "status",
        verb => verb,
    };
    if !takes_name(verb) || (!own.word(1).is_empty() && verb == own.word(0)) {
        return Ok(());
    }
    for command in &outline.commands {
        let name = command.device();
        let is_meant = own.word(1).is_empty() || own.word(1) == name;
        let stands = outline.created(name, number).is_some();
        if command.word(0) == "create" && is_meant && stands {
            remedy.offer(0, Spot::On(number), format!(in alloc; "{verb} {name}")?)?;
        }
    }
    Ok(())
}

/// The command of a disk that has its sectors alone, by the first number that no disk has.
fn disk_numbered(
    alloc: Global,
    outline: &Outline<'_>,
    spotted: Spotted<'_>,
) -> Result<Option<String>, NoMemory> {
    let sectors = spotted.word(1);
    let is_lone = spotted.word(0) == "ram" && spotted.word(2).is_empty();
    if !is_lone || plain(sectors).is_none() || MOST_COMMANDS < outline.commands.len() {
        return Ok(None);
    }
    let number = outline.free_disk();
    Ok(Some(format!(in alloc; "ram {number} {sectors}")?))
}

/// The command of a disk whose number stands right behind the verb.
fn disk_meant(alloc: Global, spotted: Spotted<'_>) -> Result<Option<String>, NoMemory> {
    let own = spotted
        .word(0)
        .trim_end_matches(|c: char| matches!(c, ':' | '='));
    let (number, sectors) = (own.trim_start_matches("ram"), spotted.word(1));
    if plain(number).is_none() || own.len() == number.len() {
        return Ok(None);
    }
    Ok(Some(format!(in alloc; "ram {number} {sectors}")?))
}
