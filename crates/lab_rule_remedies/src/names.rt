use lab_advice::{Remedy, Spot};
use lab_guess::with_word;
use lab_outline::{Near, Outline, Spotted};
use lab_sector::NoMemory;
use std::alloc::Global;

/// How many bytes of a text are shown at most.
const LONGEST: usize = 200;

/// How many names are told at most.
const SHOWN: usize = 8;

/// A text of a bundle as it is shown: whole, unless it is long.
pub(crate) fn shown(text: &str) -> &str {
    if text.len() <= LONGEST { text } else { ".." }
}

/// The words for a standing device or disk that are nearest to this word of a table or of a log.
pub(crate) fn near_devices<'a>(
    alloc: Global,
    outline: &Outline<'_>,
    word: &'a str,
    before: u64,
) -> Result<Near<'a>, NoMemory> {
    let word = word.trim_end_matches('/');
    let (_folder, name) = word.rsplit_once('/').unwrap_or(("", word));
    let mut near = Near::to(alloc, name);
    let mut number = 0u64;
    for command in &outline.commands {
        match command.word(0) {
            "ram" => add_disk(alloc, &mut near, command.word(1))?,
            "create" => {
                add_mapped(alloc, &mut near, outline, *command, number, before)?;
                number = number.saturating_add(1);
            }
            _ => {}
        }
    }
    Ok(near)
}

/// Takes the words of a memory disk in.
fn add_disk(alloc: Global, near: &mut Near<'_>, number: &str) -> Result<(), NoMemory> {
    let name = format!(in alloc; "ram{number}")?;
    near.add(alloc, name.as_str(), format!(in alloc; "/dev/ram{number}")?)?;
    let pair = format!(in alloc; "1:{number}")?;
    near.add_pair(alloc, pair)
}

/// Takes the words of a mapped device in, if it stands before this line.
fn add_mapped(
    alloc: Global,
    near: &mut Near<'_>,
    outline: &Outline<'_>,
    command: Spotted<'_>,
    number: u64,
    before: u64,
) -> Result<(), NoMemory> {
    let name = command.device();
    if outline.created(name, before).is_none() {
        return Ok(());
    }
    near.add(alloc, name, format!(in alloc; "/dev/mapper/{name}")?)?;
    if near.is_numbered() {
        let numbered = format!(in alloc; "dm-{number}")?;
        near.add(
            alloc,
            numbered.as_str(),
            format!(in alloc; "/dev/dm-{number}")?,
        )?;
    }
    near.add_pair(alloc, format!(in alloc; "253:{number}")?)
}

/// The names of standing devices that are nearest to this name in a command.
pub(crate) fn near_names<'a>(
    alloc: Global,
    outline: &Outline<'_>,
    name: &'a str,
    before: u64,
) -> Result<Near<'a>, NoMemory> {
    let mut near = Near::to(alloc, name);
    for command in &outline.commands {
        let other = command.device();
        if command.word(0) == "create" && outline.created(other, before).is_some() {
            near.add_word(alloc, other)?;
        }
    }
    Ok(near)
}

/// The names of tables that are nearest to this name, but for one of them.
pub(crate) fn near_tables<'a>(
    alloc: Global,
    outline: &Outline<'_>,
    name: &'a str,
    other: Option<&str>,
) -> Result<Near<'a>, NoMemory> {
    let mut near = Near::to(alloc, name);
    for table in &outline.tables {
        if Some(table.line) != other {
            near.add_word(alloc, table.line)?;
        }
    }
    Ok(near)
}

/// What is told of a word of a table or of a log whose name stands before this line in letters of another case, if one does.
pub(crate) fn why_cased(
    alloc: Global,
    outline: &Outline<'_>,
    word: &str,
    before: u64,
    here: &str,
) -> Result<Option<String>, NoMemory> {
    let (_folder, name) = word.rsplit_once('/').unwrap_or(("", word));
    if let Some(disk) = outline.disk_cased(name) {
        let (line, number) = (disk.number, disk.word(1));
        return Ok(Some(format!(in alloc;
            "no disk {name} stands {here}, but /dev/ram{number}, which line {line} makes: capital and small letters are \
             different in a name"
        )?));
    }
    why_device_cased(alloc, outline, name, before, here)
}

/// What is told of the name of a device that stands before this line in letters of another case, if one does.
pub(crate) fn why_device_cased(
    alloc: Global,
    outline: &Outline<'_>,
    name: &str,
    before: u64,
    here: &str,
) -> Result<Option<String>, NoMemory> {
    let Some(created) = outline.created_cased(name, before) else {
        return Ok(None);
    };
    let (line, other) = (created.number, created.device());
    Ok(Some(format!(in alloc;
        "no device {name} stands {here}, but {other}, which line {line} creates: capital and small letters are different \
         in a name"
    )?))
}

/// The remedy with the line that has one of these words at this place, each as likely as the others.
pub(crate) fn with_near(
    alloc: Global,
    mut remedy: Remedy,
    spotted: Spotted<'_>,
    place: usize,
    near: &Near<'_>,
) -> Result<Remedy, NoMemory> {
    let rank = remedy.mends.len() as u64;
    for word in &near.words {
        let line = with_word(alloc, spotted.line, place, word.as_str())?;
        remedy.offer(rank, Spot::On(spotted.number), line)?;
    }
    Ok(remedy)
}

/// The words behind a reason that tell which names there are; nothing where there are none, or too many.
pub(crate) fn those_told(mut why: String, front: &str, names: &[&str]) -> Result<String, NoMemory> {
    if names.is_empty() || SHOWN < names.len() {
        return Ok(why);
    }
    let mut before = front;
    for name in names {
        why.push_str(before)?;
        why.push_str(*name)?;
        before = ", ";
    }
    Ok(why)
}

/// The names of the mapped devices that stand before this line.
pub(crate) fn standing<'a>(
    alloc: Global,
    outline: &Outline<'a>,
    before: u64,
) -> Result<Vec<&'a str>, NoMemory> {
    let mut names = Vec::new(alloc);
    for command in &outline.commands {
        let name = command.device();
        let stands = match outline.created(name, before) {
            Some(created) => created.number == command.number,
            None => false,
        };
        if command.word(0) == "create" && stands {
            names.push(name)?;
        }
    }
    Ok(names)
}
