use lab_advice::{Remedy, Spot};
use lab_guess::with_word;
use lab_outline::{Outline, Spotted, plain};
use lab_sector::NoMemory;
use std::alloc::Global;

/// The remedy of a log's line with two files, if it is one.
pub fn foreign_remedy(alloc: Global, spotted: Spotted<'_>) -> Result<Option<Remedy>, NoMemory> {
    let (first, second, action) = (spotted.word(0), spotted.word(1), spotted.word(2));
    let are_files = first.starts_with("/dev/") && second.starts_with("/dev/");
    if are_files && !action.is_empty() && spotted.line.len() <= 200 {
        let why = format!(in alloc;
            "a line has one FILE: write `{first} {action}` on this line, and `{second} {action}` on a line of its own below it"
        )?;
        return Ok(Some(Remedy::of(alloc, why)));
    }
    Ok(None)
}

/// The remedy of a log's line whose file is named by its numbers, as a table may name it, if it is one.
pub fn numbers_remedy(
    alloc: Global,
    outline: &Outline<'_>,
    spotted: Spotted<'_>,
) -> Result<Option<Remedy>, NoMemory> {
    let word = spotted.word(0);
    let (major, minor) = word.split_once(':').unwrap_or(("", ""));
    let (Some(major), Some(minor)) = (plain(major), plain(minor)) else {
        return Ok(None);
    };
    let why =
        "a table may name a device by its numbers, and a log names a disk as /dev/ramN, a mapped device as /dev/mapper/NAME";
    let remedy = Remedy::told(alloc, why)?;
    let file = match (major, outline.mapped(minor)) {
        (1, _) => format!(in alloc; "/dev/ram{minor}")?,
        (253, Some(name)) => format!(in alloc; "/dev/mapper/{name}")?,
        _ => return Ok(Some(remedy)),
    };
    let line = with_word(alloc, spotted.line, 0, file.as_str())?;
    Ok(Some(remedy.or(Spot::On(spotted.number), line)?))
}

/// Offers a line without the first or the second of two numbers that stand for one at its end.
pub fn offer_one_of_two(
    alloc: Global,
    remedy: &mut Remedy,
    spotted: Spotted<'_>,
) -> Result<(), NoMemory> {
    let (first, second) = (spotted.word(4), spotted.word(5));
    let are_two = plain(first).and(plain(second)).is_some() && spotted.word(6).is_empty();
    if spotted.word(2) != "linear" || !are_two || first == second {
        return Ok(());
    }
    let (start, length, device) = (spotted.word(0), spotted.word(1), spotted.word(3));
    for offset in [first, second] {
        let line = format!(in alloc; "{start} {length} linear {device} {offset}")?;
        remedy.offer(0, Spot::On(spotted.number), line)?;
    }
    Ok(())
}

/// The remedy of a line of a script that stands in a table already, if it is one.
pub fn repeated_remedy(
    alloc: Global,
    outline: &Outline<'_>,
    spotted: Spotted<'_>,
) -> Result<Option<Remedy>, NoMemory> {
    for row in &outline.rows {
        if row.spotted.line.trim() == spotted.line.trim() {
            let (number, table) = (row.spotted.number, row.table);
            let why = format!(in alloc;
                "the line is one of a table, and stands on line {number} already, in the table {table}"
            )?;
            return Ok(Some(Remedy::of(alloc, why).or_blank(alloc, spotted.number)?));
        }
    }
    Ok(None)
}
