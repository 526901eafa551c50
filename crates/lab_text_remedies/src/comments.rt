use lab_advice::{Remedy, Spot};
use lab_guess::{is_command, is_event, is_of_log, is_row, without_dmsetup};
use lab_outline::{Spotted, plain};
use lab_refusal::PartName;
use lab_sector::NoMemory;
use std::alloc::Global;

/// The remedy of a line that is a comment elsewhere, or that parts the lines of a part or ends it, if it is one.
pub(crate) fn comment_remedy(
    alloc: Global,
    part: PartName<'_>,
    spotted: Spotted<'_>,
) -> Result<Option<Remedy>, NoMemory> {
    let bare = spotted.line.trim();
    if is_rule(bare) {
        let why =
            "no line parts or ends the lines of a part: it ends where the next heading stands";
        return Ok(Some(Remedy::told(alloc, why)?.or_blank(alloc, spotted.number)?));
    }
    let is_log = matches!(part, PartName::Log(_));
    let is_remark = bare.starts_with('#') && !bare.contains("==");
    if is_log && (is_remark || text_of(bare).is_some()) {
        let why =
            "a log has no comments: they stand in tables, in the script and before the first heading";
        return Ok(Some(Remedy::told(alloc, why)?.or_blank(alloc, spotted.number)?));
    }
    let Some(text) = text_of(bare) else {
        return Ok(None);
    };
    let line = format!(in alloc; "# {text}")?;
    Ok(Some(Remedy::told(alloc, "the first byte of a comment is `#`")?.or(
        Spot::On(spotted.number),
        line,
    )?))
}

/// The remedy of a log's line that is a comment of SQL or of Lua, if it is one.
pub(crate) fn dashed_remedy(
    alloc: Global,
    part: PartName<'_>,
    spotted: Spotted<'_>,
) -> Result<Option<Remedy>, NoMemory> {
    if !matches!(part, PartName::Log(_)) || !spotted.line.trim().starts_with("-- ") {
        return Ok(None);
    }
    let why = "a log has no comments";
    Ok(Some(Remedy::told(alloc, why)?.or_blank(alloc, spotted.number)?))
}

/// Whether a line has two marks or more, and nothing else.
pub(crate) fn is_rule(bare: &str) -> bool {
    1 < bare.len() && bare.trim_matches(is_mark).is_empty()
}

/// Whether the letter is a mark that parts lines elsewhere.
fn is_mark(letter: char) -> bool {
    matches!(letter, '-' | '*' | '_' | '~' | '+' | '.')
}

/// Whether a line is a heading with hyphens for its marks.
fn is_marked_heading(bare: &str) -> bool {
    let kind = bare.split_whitespace().nth(1).unwrap_or("");
    bare.starts_with("--") && matches!(kind, "table" | "script" | "log" | "history")
}

/// The text behind the marks that begin a comment elsewhere.
fn text_of(bare: &str) -> Option<&str> {
    if is_marked_heading(bare) {
        return None;
    }
    let text = bare
        .strip_prefix("//")
        .or(bare.strip_prefix("/*"))
        .or(bare.strip_prefix(";"))
        .or(bare.strip_prefix("-- "))
        .or(bare.strip_prefix("REM "))
        .or(bare.strip_prefix("rem "))?;
    Some(
        text.trim_end_matches(|c: char| matches!(c, '*' | '/'))
            .trim(),
    )
}

/// The remedy of a line that has a mark of a list, a number with a point or a prompt before it, if it is one.
pub(crate) fn bullet_remedy(
    alloc: Global,
    part: PartName<'_>,
    spotted: Spotted<'_>,
) -> Result<Option<Remedy>, NoMemory> {
    let bare = spotted.line.trim();
    let (first, rest) = bare.split_once(' ').unwrap_or((bare, ""));
    let rest = without_dmsetup(rest);
    let is_own = match part {
        PartName::Table(_) => is_row(rest),
        PartName::Script => is_command(rest),
        PartName::Log(_) => is_of_log(rest),
        PartName::History => is_event(rest),
        _ => false,
    };
    if !is_own || !is_bullet(first) {
        return Ok(None);
    }
    let why = "nothing stands before a line's first word: no mark, no number and no prompt";
    let line = String::from_str(alloc, rest)?;
    Ok(Some(Remedy::told(alloc, why)?.or(Spot::On(spotted.number), line)?))
}

/// Whether a word is a mark of a list, a number with a point, or a prompt.
fn is_bullet(word: &str) -> bool {
    let number = word.trim_end_matches(|c: char| matches!(c, '.' | ')' | ':'));
    let is_number = number.len() != word.len() && plain(number).is_some();
    matches!(word, "-" | "*" | "+" | ">") || is_number || word.ends_with(is_prompt)
}

/// Whether the letter ends a prompt.
fn is_prompt(letter: char) -> bool {
    matches!(letter, '>' | '$' | '#' | '%')
}
