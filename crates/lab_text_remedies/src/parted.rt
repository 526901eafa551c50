use lab_advice::{Remedy, Spot};
use lab_guess::{is_feature, with_word};
use lab_outline::{Outline, Spotted, plain};
use lab_sector::NoMemory;
use std::alloc::Global;

/// How many bytes a line has at most whose words are parted and joined.
const LONGEST: usize = 200;

/// The words that lines have at places of their own.
const KNOWN: &str =
    "reload load ram create clear suspend resume remove message status table sleep replay wait add open close read write \
     trim sync datasync linear zero error flakey dust delay control clock line map serve release finish addbadblock \
     removebadblock queryblock countbadblocks clearbadblocks listbadblocks enable disable quiet fio version iolog --notable";

/// The remedy with the lines more in which a word is parted that is two known ones, or two are joined that are one.
pub fn or_parted(
    alloc: Global,
    outline: &Outline<'_>,
    mut remedy: Remedy,
    spotted: Spotted<'_>,
) -> Result<Remedy, NoMemory> {
    if LONGEST < spotted.line.len() {
        return Ok(remedy);
    }
    for (place, word) in spotted.line.split_whitespace().enumerate() {
        offer_parted(alloc, &mut remedy, outline, spotted, place)?;
        let next = spotted.word(place.saturating_add(1));
        let whole = format!(in alloc; "{word}{next}")?;
        if !next.is_empty()
            && is_known(outline, whole.as_str())
            && plain(whole.as_str()).is_none()
        {
            let line = joined(alloc, spotted.line, place)?;
            remedy = remedy.or(Spot::On(spotted.number), line)?;
        }
    }
    Ok(remedy)
}

/// The line with the word at this place and the one behind it in one.
fn joined(alloc: Global, line: &str, place: usize) -> Result<String, NoMemory> {
    let mut text = String::new(alloc);
    for (at, word) in line.split_whitespace().enumerate() {
        let is_next = at == 0 || at == place.saturating_add(1);
        text.push_str(if is_next { "" } else { " " })?;
        text.push_str(word)?;
    }
    Ok(text)
}

/// Offers the lines in which the word at this place is parted behind a known word, a number, or a device's name.
fn offer_parted(
    alloc: Global,
    remedy: &mut Remedy,
    outline: &Outline<'_>,
    spotted: Spotted<'_>,
    place: usize,
) -> Result<(), NoMemory> {
    let word = spotted.word(place);
    let behind_digits = word.trim_start_matches(|c: char| c.is_ascii_digit());
    offer_two(alloc, remedy, outline, spotted, place, behind_digits)?;
    for known in KNOWN.split_whitespace() {
        let behind = word.strip_prefix(known).unwrap_or("");
        offer_two(alloc, remedy, outline, spotted, place, behind)?;
    }
    let is_create = spotted.word(0) == "create";
    for table in &outline.tables {
        if is_create && word.ends_with(table.line) {
            offer_two(alloc, remedy, outline, spotted, place, table.line)?;
        }
    }
    for command in &outline.commands {
        let behind = behind_device(*command, word).unwrap_or("");
        offer_two(alloc, remedy, outline, spotted, place, behind)?;
    }
    Ok(())
}

/// What stands in a word behind the device that a command makes.
fn behind_device<'a>(command: Spotted<'_>, word: &'a str) -> Option<&'a str> {
    match command.word(0) {
        "ram" => word.strip_prefix("/dev/ram")?.strip_prefix(command.word(1)),
        "create" => word
            .strip_prefix("/dev/mapper/")
            .unwrap_or(word)
            .strip_prefix(command.device()),
        _ => None,
    }
}

/// Offers the line in which the word at this place is parted before its end `rest`, where this is a known word or a name
/// to create.
fn offer_two(
    alloc: Global,
    remedy: &mut Remedy,
    outline: &Outline<'_>,
    spotted: Spotted<'_>,
    place: usize,
    rest: &str,
) -> Result<(), NoMemory> {
    let front = spotted.word(place).strip_suffix(rest).unwrap_or("");
    let is_name = front == "create" || is_known(outline, rest);
    if rest.is_empty() || front.is_empty() || !is_name {
        return Ok(());
    }
    let two = format!(in alloc; "{front} {rest}")?;
    let rank = remedy.mends.len() as u64;
    let line = with_word(alloc, spotted.line, place, two.as_str())?;
    remedy.offer(rank, Spot::On(spotted.number), line)
}

/// Whether a word has a place of its own in some line: a number, a device, a table, or one of the known words.
fn is_known(outline: &Outline<'_>, word: &str) -> bool {
    plain(word).is_some()
        || is_feature(word)
        || (&*outline).stands(word, u64::MAX)
        || outline.created(word, u64::MAX).is_some()
        || outline.tables.iter().any(|it| it.line == word)
        || KNOWN.split_whitespace().any(|it| it == word)
}
