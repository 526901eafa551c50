use crate::numbers::plain;
use crate::outline::{Outline, Row};
use crate::sizes::table_named;
use crate::spotted::Spotted;

/// The names that a log may get.
const NAMES: &str = "a b c d e f g h i j k l m n o p q r s t u v w x y z";

impl<'a> Outline<'a> {
    /// The heading's line of the table of this name.
    pub fn table(&self, name: &str) -> Option<Spotted<'a>> {
        for heading in &self.tables {
            if heading.line == name {
                return Some(*heading);
            }
        }
        None
    }

    /// The first table that a create or a load names, and that has no part.
    pub fn wanted_table(&self) -> Option<&'a str> {
        for command in &self.commands {
            if let Some(table) = table_named(*command) {
                if self.table(table).is_none() {
                    return Some(table);
                }
            }
        }
        None
    }

    /// A name that no log has.
    pub fn free_log(&self) -> Option<&'static str> {
        for name in NAMES.split_whitespace() {
            if !self.logs.iter().any(|log| log.line == name) {
                return Some(name);
            }
        }
        None
    }

    /// The table's line that has this sector.
    pub fn row_at(&self, table: &str, sector: u64) -> Option<Row<'a>> {
        for row in &self.rows {
            let start = plain(row.spotted.word(0)).unwrap_or(0);
            let length = plain(row.spotted.word(1)).unwrap_or(0);
            if row.table == table && start <= sector && sector < start.saturating_add(length) {
                return Some(*row);
            }
        }
        None
    }
}
