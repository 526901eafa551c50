use lab_advice::Remedy;
use lab_guess::without_dmsetup;
use lab_outline::{Outline, Spotted};
use lab_sector::NoMemory;
use lab_text::is_name;
use std::alloc::Global;

/// The remedy of a line that gives a device another name, if it is one: no line, and the name in all lines.
pub fn renamed_remedy(
    alloc: Global,
    outline: &Outline<'_>,
    spotted: Spotted<'_>,
) -> Result<Option<Remedy>, NoMemory> {
    let own = Spotted {
        number: spotted.number,
        line: without_dmsetup(spotted.line),
    };
    let (verb, name, other) = (own.word(0), own.word(1), own.word(2));
    let is_one = matches!(verb, "rename" | "ren" | "mv") && own.word(3).is_empty();
    let Some(created) = outline.created(name, own.number) else {
        return Ok(None);
    };
    if !is_one || !is_name(other.as_bytes()) {
        return Ok(None);
    }
    let line = created.number;
    let why = format!(in alloc;
        "a device keeps its NAME, and no command changes it: to name it {other}, write {other} for {name} on line {line}, which \
         creates it, and on each other line that names it, and leave this line out"
    )?;
    Ok(Some(Remedy::of(alloc, why).or_blank(alloc, spotted.number)?))
}
