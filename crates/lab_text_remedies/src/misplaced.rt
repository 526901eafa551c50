use crate::alien::{alien_remedy, repeats_log, wordless_remedy};
use crate::belongs::{is_use, lone_use};
use crate::comments::{bullet_remedy, comment_remedy, dashed_remedy};
use crate::conflict::conflict_remedy;
use crate::fileless::lacks_file;
use crate::foreign_line::repeated_remedy;
use crate::heading_marks::{heading_bare, heading_marked};
use crate::numbered::numbered_remedy;
use crate::second_header::second_header_remedy;
use crate::thousands::thousands_remedy;
use lab_advice::{Remedy, Spot};
use lab_guess::type_near;
use lab_outline::{Outline, Spotted, plain};
use lab_refusal::{Fault, PartName, Rule};
use lab_sector::NoMemory;
use std::alloc::Global;

/// The remedy of a line that belongs to another part than the one that it stands in, if it does.
pub fn misplaced_remedy(
    alloc: Global,
    bytes: &[u8],
    outline: &Outline<'_>,
    fault: Fault<'_>,
    spotted: Option<Spotted<'_>>,
) -> Result<Option<Remedy>, NoMemory> {
    let Some(spotted) = spotted else {
        return Ok(None);
    };
    if fault.rule.is_of_scenario() || fault.part == PartName::Bundle {
        return Ok(None);
    }
    if let Some(remedy) = conflict_remedy(alloc, spotted)? {
        return Ok(Some(remedy));
    }
    if fault.rule != Rule::Header {
        if let Some(remedy) = comment_remedy(alloc, fault.part, spotted)? {
            return Ok(Some(remedy));
        }
        if let Some(remedy) = alien_remedy(alloc, outline, fault.part, spotted)? {
            return Ok(Some(remedy));
        }
    }
    if let Some(remedy) = marked_remedy(alloc, bytes, outline, fault, spotted)? {
        return Ok(Some(remedy));
    }
    if fault.part == PartName::Script {
        if let Some(remedy) = repeated_remedy(alloc, outline, spotted)? {
            return Ok(Some(remedy));
        }
    }
    if let Some(remedy) = of_log(alloc, bytes, outline, fault, spotted)? {
        return Ok(Some(remedy));
    }
    match lacking(alloc, outline, fault, spotted)? {
        Some(heading) => before(alloc, spotted, heading),
        None => elsewhere(alloc, outline, fault, spotted),
    }
}

/// The remedy of a line with marks or a number before its first word, of a heading with other marks, and of a number in
/// several words.
fn marked_remedy(
    alloc: Global,
    bytes: &[u8],
    outline: &Outline<'_>,
    fault: Fault<'_>,
    spotted: Spotted<'_>,
) -> Result<Option<Remedy>, NoMemory> {
    if let Some(remedy) = bullet_remedy(alloc, fault.part, spotted)? {
        return Ok(Some(remedy));
    }
    if let Some(remedy) = numbered_remedy(alloc, bytes, fault, spotted)? {
        return Ok(Some(remedy));
    }
    if let Some(remedy) = heading_remedy(alloc, outline, fault.part, spotted)? {
        return Ok(Some(remedy));
    }
    thousands_remedy(alloc, fault.part, spotted)
}

/// The remedy of a line of a log that stands in another part, of a log's first line within a log, and of a comment
/// that no log has.
fn of_log(
    alloc: Global,
    bytes: &[u8],
    outline: &Outline<'_>,
    fault: Fault<'_>,
    spotted: Spotted<'_>,
) -> Result<Option<Remedy>, NoMemory> {
    if let Some(remedy) = second_header_remedy(alloc, bytes, outline, fault, spotted)? {
        return Ok(Some(remedy));
    }
    if let Some(remedy) = lone_use(alloc, bytes, outline, fault.part, spotted)? {
        return Ok(Some(remedy));
    }
    if fault.rule == Rule::Header {
        return Ok(None);
    }
    dashed_remedy(alloc, fault.part, spotted)
}

/// The remedy of a heading with blanks or other marks before it, and of a line of the output of a run.
fn heading_remedy(
    alloc: Global,
    outline: &Outline<'_>,
    part: PartName<'_>,
    spotted: Spotted<'_>,
) -> Result<Option<Remedy>, NoMemory> {
    let bare = spotted.line.trim();
    if bare.starts_with("==") && !spotted.line.starts_with("==") {
        let why = "a heading's first two bytes are `==`, with no blank before them";
        let line = String::from_str(alloc, bare)?;
        return Ok(Some(Remedy::told(alloc, why)?.or(Spot::On(spotted.number), line)?));
    }
    let mut heading = heading_marked(alloc, outline, spotted.line)?;
    let is_event = part == PartName::History
        && (plain(spotted.word(1)).is_some()
            || spotted.word(0) == "script"
            || repeats_log(outline, spotted));
    if heading.is_none() && spotted.word(0) != "table" && !is_event {
        heading = heading_bare(alloc, outline, spotted.line)?;
    }
    if let Some(line) = heading {
        let why = "a heading begins with the two marks `==`, and has no marks behind it";
        return Ok(Some(Remedy::told(alloc, why)?.or(Spot::On(spotted.number), line)?));
    }
    if spotted.word(0) == "accepted" && spotted.word(1).starts_with("budget=") {
        let why =
            "from here on stands what a run wrote: of `sim --history` only the part from `== history` on belongs to \
                   a bundle, so leave out the lines before it";
        return Ok(Some(Remedy::told(alloc, why)?));
    }
    Ok(None)
}

/// The remedy of a heading before a line.
fn before(
    alloc: Global,
    spotted: Spotted<'_>,
    heading: String,
) -> Result<Option<Remedy>, NoMemory> {
    let why = "the line looks like one of another part: the heading of that part is missing";
    Ok(Some(Remedy::told(alloc, why)?.or(Spot::Before(spotted.number), heading)?))
}

/// What is told of a line of another part whose heading stands elsewhere.
fn elsewhere(
    alloc: Global,
    outline: &Outline<'_>,
    fault: Fault<'_>,
    spotted: Spotted<'_>,
) -> Result<Option<Remedy>, NoMemory> {
    let told = match fault.part {
        PartName::Script if is_row(alloc, spotted)? => {
            "the line looks like one of a table: it belongs under the heading `== table NAME` of its table"
        }
        PartName::Log(_) if lacks_file(spotted) => return Ok(None),
        PartName::Table(_) | PartName::Log(_) if is_command(spotted) => {
            "the line looks like a command of the script: it belongs under the heading `== script`"
        }
        _ if fault.rule == Rule::Header => return Ok(None),
        _ => return wordless_remedy(alloc, outline, fault.part, spotted),
    };
    Ok(Some(Remedy::told(alloc, told)?))
}

/// Whether a line looks like a command of a script.
fn is_command(spotted: Spotted<'_>) -> bool {
    let verbs =
        "ram create load reload clear suspend resume remove message status table sleep replay wait";
    let count = spotted.line.split_whitespace().count();
    count <= 5 && verbs.split_whitespace().any(|it| it == spotted.word(0))
}

/// The heading that is lacking before a line, if it looks like one of another part.
fn lacking(
    alloc: Global,
    outline: &Outline<'_>,
    fault: Fault<'_>,
    spotted: Spotted<'_>,
) -> Result<Option<String>, NoMemory> {
    if spotted.word(0) == "fio" && spotted.word(1) == "version" && fault.rule != Rule::Header {
        return log_heading(alloc, outline);
    }
    if is_use(spotted) && !matches!(fault.part, PartName::Log(_)) {
        return log_heading(alloc, outline);
    }
    if is_event(spotted) && fault.part != PartName::History {
        return Ok(Some(String::from_str(alloc, "== history")?));
    }
    if !is_row(alloc, spotted)? || !may_begin(fault, spotted) {
        return Ok(None);
    }
    match outline.wanted_table() {
        Some(table) => Ok(Some(format!(in alloc; "== table {table}")?)),
        None => Ok(None),
    }
}

/// Whether a line is an event of a history.
fn is_event(spotted: Spotted<'_>) -> bool {
    let is_numbered = matches!(
        spotted.word(0),
        "line" | "map" | "serve" | "finish" | "release"
    );
    let number = spotted.word(1);
    spotted.word(2).is_empty()
        && (spotted.line == "control" || is_numbered && plain(number).is_some())
}

/// The heading of a log of a name that none has.
fn log_heading(alloc: Global, outline: &Outline<'_>) -> Result<Option<String>, NoMemory> {
    match outline.free_log() {
        Some(name) => Ok(Some(format!(in alloc; "== log {name}")?)),
        None => Ok(None),
    }
}

/// Whether a line looks like one of a table.
fn is_row(alloc: Global, spotted: Spotted<'_>) -> Result<bool, NoMemory> {
    let types = "linear zero error flakey dust delay";
    let kind = type_near(alloc, spotted.word(2))?;
    Ok(plain(spotted.word(0)).is_some() && types.split_whitespace().any(|it| it == kind))
}

/// Whether a table may begin with a line: in a table only one that starts at 0 again.
fn may_begin(fault: Fault<'_>, spotted: Spotted<'_>) -> bool {
    match fault.part {
        PartName::Table(_) => fault.rule == Rule::Gap && plain(spotted.word(0)) == Some(0),
        _ => true,
    }
}
