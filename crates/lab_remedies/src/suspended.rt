use crate::script_remedy::by_rule;
use lab_advice::{Remedy, Spot};
use lab_outline::{Outline, Spotted};
use lab_refusal::Rule;
use lab_sector::NoMemory;
use std::alloc::Global;

/// The remedy of a device that is suspended, or is to run on another table, above a suspended one: which line suspends that.
pub(crate) fn order_remedy(
    alloc: Global,
    outline: &Outline<'_>,
    spotted: Spotted<'_>,
) -> Result<Remedy, NoMemory> {
    let Some(lower) = suspended_below(outline, spotted) else {
        return Remedy::told(alloc, by_rule(Rule::V6));
    };
    let (name, below, line) = (spotted.word(1), lower.device(), lower.number);
    if spotted.word(0) == "suspend" {
        return Ok(Remedy::of(
            alloc,
            format!(in alloc;
                "line {line} suspends {below}, on which {name} is laid, and the upper device goes first: exchange that line and this \
             one"
            )?,
        ));
    }
    let why = format!(in alloc;
        "line {line} suspends {below}, on which {name} is laid, and the lower device runs again first: `resume {below}` stands \
         before this line"
    )?;
    let resume = format!(in alloc; "resume {below}")?;
    Remedy::of(alloc, why).or(Spot::Before(spotted.number), resume)
}

/// The last line before this one that suspends a device on which this one's device is laid by a live or a loaded table.
fn suspended_below<'a>(outline: &Outline<'a>, spotted: Spotted<'_>) -> Option<Spotted<'a>> {
    let (name, number) = (spotted.word(1), spotted.number);
    let tables = [
        outline.live_table(name, number).unwrap_or(""),
        outline.loaded_table(name, number).unwrap_or(""),
    ];
    let mut found = None;
    for command in &outline.commands {
        let is_above = command.number < number && command.word(0) == "suspend";
        if is_above && is_laid(outline, tables, command.device()) {
            found = Some(*command);
        }
    }
    found
}

/// Whether one of these tables names the mapped device of this name.
fn is_laid(outline: &Outline<'_>, tables: [&str; 2], name: &str) -> bool {
    tables
        .iter()
        .any(|it| outline.reference_to(*it, name).is_some())
}
