use crate::devices::disk_meant;
use crate::numbers::plain;
use crate::outline::{Outline, Row};
use crate::spotted::Spotted;

/// The tables of a device along the script.
#[derive(Clone, Copy)]
struct Slots<'a> {
    live: Option<&'a str>,
    inactive: Option<&'a str>,
}

impl<'a> Outline<'a> {
    /// The name of the device's live table before this line, if it has one.
    pub fn live_table(&self, name: &str, before: u64) -> Option<&'a str> {
        self.slots(name, before).live
    }

    /// The name of the table that was loaded for the device before this line, and isn't live yet.
    pub fn loaded_table(&self, name: &str, before: u64) -> Option<&'a str> {
        self.slots(name, before).inactive
    }

    /// The line that loaded this table.
    pub fn last_load(&self, name: &str, before: u64) -> Option<Spotted<'a>> {
        let mut found = None;
        for command in &self.commands {
            if command.number < before && command.is_load() && command.device() == name {
                found = Some(*command);
            }
        }
        found
    }

    /// The tables of the device before this line.
    fn slots(&self, name: &str, before: u64) -> Slots<'a> {
        let mut slots = Slots {
            live: None,
            inactive: None,
        };
        for command in &self.commands {
            if command.number < before && command.device() == name {
                slots = slots.after(command.word(0), table_named(*command));
            }
        }
        slots
    }

    /// How many sectors a table has.
    pub fn table_size(&self, table: &str) -> u64 {
        let mut size = 0u64;
        for row in &self.rows {
            if row.table == table {
                size = end_of(*row);
            }
        }
        size
    }

    /// How many sectors the device has that a word of a table or of a log stands for, before this line.
    pub fn size_of(&self, word: &'a str, before: u64) -> u64 {
        if let Some(number) = disk_meant(word) {
            return self.disk_size(number);
        }
        match self.name_meant(word) {
            Some(name) => self.mapped_size(name, before),
            None => 0,
        }
    }

    /// How many sectors a memory disk has.
    fn disk_size(&self, number: u64) -> u64 {
        match self.disk(number) {
            Some(command) => plain(command.word(2)).unwrap_or(0),
            None => 0,
        }
    }

    /// How many sectors a mapped device has before this line.
    pub fn mapped_size(&self, name: &str, before: u64) -> u64 {
        match self.live_table(name, before) {
            Some(table) => self.table_size(table),
            None => 0,
        }
    }
}

impl<'a> Slots<'a> {
    /// The tables after a command with this word for a table.
    fn after(self, verb: &str, table: Option<&'a str>) -> Slots<'a> {
        match verb {
            "create" => Slots {
                live: table,
                inactive: None,
            },
            "load" | "reload" => Slots {
                inactive: table,
                ..self
            },
            "clear" => Slots {
                inactive: None,
                ..self
            },
            "resume" => Slots {
                live: self.inactive.or(self.live),
                inactive: None,
            },
            "remove" => Slots {
                live: None,
                inactive: None,
            },
            _ => self,
        }
    }
}

/// The table that a command names, if it names one.
pub(crate) fn table_named(command: Spotted<'_>) -> Option<&str> {
    match (command.word(0), command.word(1), command.word(2)) {
        (_, _, "" | "--notable") | (_, "--notable", _) => None,
        ("create" | "load" | "reload", _, table) => Some(table),
        _ => None,
    }
}

/// The sector past a table line's last one.
fn end_of(row: Row<'_>) -> u64 {
    let start = plain(row.spotted.word(0)).unwrap_or(0);
    start.saturating_add(plain(row.spotted.word(1)).unwrap_or(0))
}
