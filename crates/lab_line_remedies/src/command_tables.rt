use lab_advice::{Remedy, Spot};
use lab_guess::{mended_command, takes_table, without_comment, without_dmsetup};
use lab_outline::{Outline, Spotted};
use lab_sector::NoMemory;
use std::alloc::Global;

/// Offers a create or a load that lacks its table by each table, but for the one that is live already.
pub fn offer_tables(
    alloc: Global,
    remedy: &mut Remedy,
    outline: &Outline<'_>,
    spotted: Spotted<'_>,
    verb: &str,
) -> Result<(), NoMemory> {
    let bare = without_dmsetup(without_comment(spotted.line));
    let name = name_in(bare);
    if !takes_table(verb) || bare.split_whitespace().count() != 2 || name.starts_with('-') {
        return Ok(());
    }
    if verb != "create" && outline.table(name).is_some() && !stands(outline, name, spotted.number) {
        return offer_loads(alloc, remedy, outline, spotted.number, name);
    }
    let live = live_table(outline, spotted.number, bare);
    for table in &outline.tables {
        if verb == "create" || live != Some(table.line) {
            if let Some(line) = mended_command(alloc, spotted.line, Some(table.line))? {
                remedy.offer(1, Spot::On(spotted.number), line)?;
            }
        }
    }
    Ok(())
}

/// Offers a load of this table for each device that stands, and has another one.
fn offer_loads(
    alloc: Global,
    remedy: &mut Remedy,
    outline: &Outline<'_>,
    number: u64,
    table: &str,
) -> Result<(), NoMemory> {
    for command in &outline.commands {
        let name = command.device();
        let is_other = outline.live_table(name, number) != Some(table);
        if command.word(0) == "create" && stands(outline, name, number) && is_other {
            remedy.offer(
                0,
                Spot::On(number),
                format!(in alloc; "load {name} {table}")?,
            )?;
        }
    }
    Ok(())
}

/// Whether a device of this name stands before this line.
fn stands(outline: &Outline<'_>, name: &str, number: u64) -> bool {
    outline.created(name, number).is_some()
}

/// What is told of a load that lacks its table, where the bundle has the live one alone.
pub fn only_live(
    alloc: Global,
    outline: &Outline<'_>,
    number: u64,
    bare: &str,
) -> Result<Option<String>, NoMemory> {
    let own = Spotted { number, line: bare };
    let name = name_in(bare);
    let lacks_table = own.is_load() && !name.is_empty() && own.word(2).is_empty();
    match live_table(outline, number, bare) {
        Some(live) if lacks_table && outline.tables.len() == 1 => Ok(Some(format!(in alloc;
            "it is `load NAME TABLE`, and {live} is live already: put the new lines under a heading `== table TABLE`, and \
             write `load {name} TABLE`"
        )?)),
        _ => Ok(None),
    }
}

/// The live table of a command's device before this line.
fn live_table<'a>(outline: &Outline<'a>, number: u64, bare: &str) -> Option<&'a str> {
    outline.live_table(name_in(bare), number)
}

/// The name of a command's device, without its folder.
fn name_in(bare: &str) -> &str {
    let word = bare.split_whitespace().nth(1).unwrap_or("");
    word.strip_prefix("/dev/mapper/").unwrap_or(word)
}
