use lab_advice::{Remedy, Spot};
use lab_guess::{takes_name, takes_table, without_dmsetup};
use lab_outline::{Outline, Spotted};
use lab_sector::NoMemory;
use lab_text::is_name;
use std::alloc::Global;

/// How many bytes a line has at most in which a name in quotes is sought.
const LONGEST: usize = 200;

/// The words of a create that belong to no name.
const LABELS: &str =
    "device dev name named table with from using on of as to for the and in by at is create load";

/// What is told of a name with blanks.
const WHY: &str =
    "a NAME has no blanks and no quotes: it has 1 to 32 letters, digits, `_`, `.` and `-`, and each line that names the device \
     has it so";

/// The remedy of a command whose device has a name in quotes with blanks in it, if it has one: the name with `_` for them.
pub(crate) fn quoted_remedy(
    alloc: Global,
    outline: &Outline<'_>,
    spotted: Spotted<'_>,
) -> Result<Option<Remedy>, NoMemory> {
    let bare = without_dmsetup(spotted.line);
    let verb = bare.split_whitespace().next().unwrap_or("");
    let has_name = takes_name(verb) || takes_table(verb) || verb == "message";
    if LONGEST < bare.len() || !has_name {
        return Ok(None);
    }
    let Some((quoted, rest)) = quoted_in(bare) else {
        return bare_remedy(alloc, outline, spotted.number, bare);
    };
    let name = with_underscores(alloc, quoted)?;
    if !is_name(name.as_bytes()) {
        return Ok(None);
    }
    let line = format!(in alloc; "{verb} {name}{rest}")?;
    Ok(Some(Remedy::told(alloc, WHY)?.or(Spot::On(spotted.number), line)?))
}

/// The remedy of a create with two words for its name: the name with `_` between, or else the first one alone.
fn bare_remedy(
    alloc: Global,
    outline: &Outline<'_>,
    number: u64,
    bare: &str,
) -> Result<Option<Remedy>, NoMemory> {
    let own = Spotted { number, line: bare };
    let (first, second, table) = (own.word(1), own.word(2), own.word(3));
    let are_names = is_name(first.as_bytes()) && is_name(second.as_bytes());
    let is_known = outline.table(second).is_some()
        || LABELS
            .split_whitespace()
            .any(|it| it == first || it == second);
    if own.word(0) != "create"
        || !are_names
        || is_known
        || first == second
        || outline.table(table).is_none()
        || !own.word(4).is_empty()
    {
        return Ok(None);
    }
    let line = format!(in alloc; "create {first}_{second} {table}")?;
    let other = format!(in alloc; "create {first} {table}")?;
    let remedy = Remedy::told(alloc, WHY)?.or(Spot::On(number), line)?;
    Ok(Some(remedy.or(Spot::On(number), other)?))
}

/// The words in quotes behind a line's first word, where there are several, and what stands behind the quotes.
fn quoted_in(line: &str) -> Option<(&str, &str)> {
    let (_verb, behind) = line.split_once(' ')?;
    let mark = if behind.trim_start().starts_with('"') {
        '"'
    } else {
        '\''
    };
    let (before, quoted) = behind.split_once(mark)?;
    let (name, rest) = quoted.split_once(mark)?;
    Some((name, rest)).filter(|_| before.trim().is_empty() && name.trim().contains(' '))
}

/// Some words with `_` in the place of the blanks between them.
fn with_underscores(alloc: Global, words: &str) -> Result<String, NoMemory> {
    let mut name = String::new(alloc);
    for word in words.split_whitespace() {
        if !name.as_str().is_empty() {
            name.push_str("_")?;
        }
        name.push_str(word)?;
    }
    Ok(name)
}
