use crate::spotted::Spotted;
use lab_sector::NoMemory;
use lab_text::{Lines, is_heading, is_skipped};
use std::alloc::Global;
use std::str::from_utf8;

/// A line of a table.
#[derive(Clone, Copy, Debug)]
pub struct Row<'a> {
    /// The table's name.
    pub table: &'a str,
    /// The line's number in its part, counted from 1.
    pub within: u64,
    /// The line, and its number in the bundle.
    pub spotted: Spotted<'a>,
}

/// A bundle's commands and tables, as far as its text shows them.
#[derive(Drop)]
pub struct Outline<'a> {
    /// The script's lines that are neither blank nor comments.
    pub commands: Vec<Spotted<'a>>,
    /// The names of the tables, and the lines of their headings.
    pub tables: Vec<Spotted<'a>>,
    /// The names of the logs, and the lines of their headings.
    pub logs: Vec<Spotted<'a>>,
    /// The lines of all tables that are neither blank nor comments.
    pub rows: Vec<Row<'a>>,
}

/// The part that a line is in, and its heading's number.
#[derive(Clone, Copy)]
struct Opened<'a> {
    kind: &'a str,
    name: &'a str,
    number: u64,
}

impl<'a> Outline<'a> {
    /// The outline of a bundle of these bytes.
    pub fn of(alloc: Global, bytes: &'a [u8]) -> Result<Outline<'a>, NoMemory> {
        let mut outline = Outline::none(alloc);
        let mut opened = Opened {
            kind: "",
            name: "",
            number: 0,
        };
        let mut number = 0u64;
        for bare in Lines::new(bytes) {
            number = number.saturating_add(1);
            let line = from_utf8(bare).unwrap_or("");
            if is_heading(bare) {
                opened = opened_by(Spotted { number, line });
                outline.open(opened)?;
            } else if !is_skipped(bare) {
                outline.take(opened, Spotted { number, line })?;
            }
        }
        Ok(outline)
    }

    /// The outline of nothing.
    fn none(alloc: Global) -> Outline<'a> {
        Outline {
            commands: Vec::new(alloc),
            tables: Vec::new(alloc),
            logs: Vec::new(alloc),
            rows: Vec::new(alloc),
        }
    }

    /// Notes a part that is opened.
    fn open(&mut self, opened: Opened<'a>) -> Result<(), NoMemory> {
        let named = Spotted {
            number: opened.number,
            line: opened.name,
        };
        match opened.kind {
            "table" => self.tables.push(named)?,
            "log" => self.logs.push(named)?,
            _ => {}
        }
        Ok(())
    }

    /// Notes a line of a part.
    fn take(&mut self, opened: Opened<'a>, spotted: Spotted<'a>) -> Result<(), NoMemory> {
        match opened.kind {
            "script" => self.commands.push(spotted)?,
            "table" => self.rows.push(Row {
                table: opened.name,
                within: spotted.number.saturating_sub(opened.number),
                spotted,
            })?,
            _ => {}
        }
        Ok(())
    }
}

/// The part that a heading opens.
fn opened_by(heading: Spotted<'_>) -> Opened<'_> {
    Opened {
        kind: heading.word(1),
        name: heading.word(2),
        number: heading.number,
    }
}
