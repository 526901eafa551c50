use lab_outline::{Outline, Row, plain};

/// The line below the one of this number in its table.
pub fn row_below<'a>(outline: &Outline<'a>, number: u64) -> Option<Row<'a>> {
    let mut own: Option<Row<'a>> = None;
    for row in &outline.rows {
        if let Some(above) = own {
            return Some(*row).filter(|it| it.table == above.table);
        }
        if row.spotted.number == number {
            own = Some(*row);
        }
    }
    None
}

/// The last line of a table.
pub(crate) fn last_row<'a>(outline: &Outline<'a>, table: &str) -> Option<Row<'a>> {
    let mut last = None;
    for row in &outline.rows {
        if row.table == table {
            last = Some(*row);
        }
    }
    last
}

/// Whether a create or a load names this table.
pub fn is_used(outline: &Outline<'_>, table: &str) -> bool {
    outline.commands.iter().any(|it| (it.word(0) == "create" || it.is_load())
        && it.word(2) == table)
}

/// The only table that no create and no load names; nothing where there is none, or several.
pub fn only_unused<'a>(outline: &Outline<'a>) -> Option<&'a str> {
    let mut found = None;
    for heading in &outline.tables {
        if !is_used(outline, heading.line) {
            if found.is_some() {
                return None;
            }
            found = Some(heading.line);
        }
    }
    found
}

/// The sector past the last one that a line of any table is laid on, on the device of this word.
pub fn reach_of(outline: &Outline<'_>, device: &str) -> u64 {
    let mut end = 0u64;
    for row in &outline.rows {
        let line = row.spotted;
        let length = plain(line.word(1)).unwrap_or(0);
        for place in [3usize, 6, 9] {
            if line.word(place) == device {
                let offset = plain(line.word(place.saturating_add(1))).unwrap_or(0);
                end = end.max(offset.saturating_add(length));
            }
        }
    }
    end
}
