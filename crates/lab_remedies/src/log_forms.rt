use crate::blktrace::letters_remedy;
use crate::count_first::count_first_remedy;
use crate::sector_pair::sum_remedy;
use lab_advice::{Remedy, Spot};
use lab_guess::{Draft, is_dd, is_type, operation_of_dd, without_time};
use lab_line_remedies::lacking_action::lacking_action_remedy;
use lab_line_remedies::log_reason::{OF_DD, OF_VERSION_3};
use lab_outline::{Outline, Spotted, plain};
use lab_sector::NoMemory;
use lab_text_remedies::file_kinds::of_other_tool;
use lab_text_remedies::foreign_line::foreign_remedy;
use std::alloc::Global;

/// The remedy of a log's line that has the form of another tool or part, if it has one.
pub(crate) fn other_form(
    alloc: Global,
    outline: &Outline<'_>,
    spotted: Spotted<'_>,
) -> Result<Option<Remedy>, NoMemory> {
    if let Some(remedy) = of_other_part(alloc, spotted)? {
        return Ok(Some(remedy));
    }
    if let Some(remedy) = foreign_remedy(alloc, spotted)? {
        return Ok(Some(remedy));
    }
    if let Some(remedy) = letters_remedy(alloc, outline, spotted)? {
        return Ok(Some(remedy));
    }
    if let Some(remedy) = sum_remedy(alloc, outline, spotted)? {
        return Ok(Some(remedy));
    }
    if let Some(remedy) = count_first_remedy(alloc, outline, spotted)? {
        return Ok(Some(remedy));
    }
    lacking_action_remedy(alloc, outline, spotted)
}

/// The remedy of a line of another tool, of a table or of version 3, of a comment, and of a path with a blank.
fn of_other_part(alloc: Global, spotted: Spotted<'_>) -> Result<Option<Remedy>, NoMemory> {
    if let Some(why) = of_other_tool(spotted.line) {
        return Ok(Some(Remedy::told(alloc, why)?));
    }
    if is_dd(spotted.line) {
        let operation = operation_of_dd(alloc, spotted.line)?;
        return Ok(Some(Remedy::told(alloc, OF_DD)?.or_if(Spot::On(spotted.number), operation)?));
    }
    if spotted.line.starts_with('#') {
        return Ok(Some(Remedy::told(alloc, "a log has no comments")?.or_blank(
            alloc,
            spotted.number,
        )?));
    }
    if is_of_table(spotted) {
        let why = "this is a line of a table: it stands below `== table NAME`, and a log has none";
        return Ok(Some(Remedy::told(alloc, why)?.or_blank(alloc, spotted.number)?));
    }
    if is_timed(spotted.line) {
        return Ok(Some(Remedy::told(alloc, OF_VERSION_3)?));
    }
    if let Some(line) = with_path(alloc, spotted)? {
        let why = "a path has no blank in it: the FILE is one word";
        return Ok(Some(Remedy::told(alloc, why)?.or(Spot::On(spotted.number), line)?));
    }
    Ok(None)
}

/// Whether a line begins with a time.
pub(crate) fn is_timed(line: &str) -> bool {
    without_time(line).len() != line.len()
}

/// Whether a line is one of a table: two numbers and a target's type.
fn is_of_table(spotted: Spotted<'_>) -> bool {
    let are_numbers = plain(spotted.word(0)).and(plain(spotted.word(1))).is_some();
    are_numbers && is_type(spotted.word(2))
}

/// The line of a mapped device whose path has a blank for its last slash.
fn with_path(alloc: Global, spotted: Spotted<'_>) -> Result<Option<String>, NoMemory> {
    if !matches!(spotted.word(0), "/dev/mapper" | "/dev/mapper/") {
        return Ok(None);
    }
    let mut draft = Draft::new(alloc);
    let name = spotted.word(1);
    draft.push(format!(in alloc; "/dev/mapper/{name}")?.as_str())?;
    for word in spotted.line.split_whitespace().skip(2) {
        draft.push(word)?;
    }
    Ok(Some(draft.line()))
}
