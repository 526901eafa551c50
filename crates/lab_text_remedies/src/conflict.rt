use lab_advice::Remedy;
use lab_outline::Spotted;
use lab_sector::NoMemory;
use std::alloc::Global;

/// What is told of a mark between the two sides of a conflict.
pub(crate) const OF_CONFLICT: &str =
    "this is a mark of a conflict that git left: between `<<<<<<<` and `=======` stand the lines of one side, from there \
     to `>>>>>>>` those of the other; keep the lines of one side, and take out the marks";

/// The remedy of a line with which git begins or ends a conflict, if it is one: the sides are chosen by then.
pub(crate) fn conflict_remedy(
    alloc: Global,
    spotted: Spotted<'_>,
) -> Result<Option<Remedy>, NoMemory> {
    if !is_edge(spotted.line) {
        return Ok(None);
    }
    let remedy = Remedy::told(alloc, OF_CONFLICT)?;
    Ok(Some(remedy.or_blank(alloc, spotted.number)?))
}

/// Whether git begins or ends a conflict with this line.
pub(crate) fn is_edge(line: &str) -> bool {
    line.starts_with("<<<<<<< ") || line.starts_with(">>>>>>> ") || line.starts_with("||||||| ")
}

/// Whether the line stands between the sides of a conflict.
pub(crate) fn is_middle(line: &str) -> bool {
    line.trim_end() == "======="
}
