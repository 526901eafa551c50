use crate::numbers::plain;
use crate::outline::{Outline, Row};
use crate::spotted::Spotted;

/// What a table's line names: a device, and the sectors there that the line is laid on.
#[derive(Clone, Copy, Debug)]
pub struct Reference<'a> {
    pub row: Row<'a>,
    /// The word of the device.
    pub device: &'a str,
    /// The place of this word, counted from 0.
    pub place: usize,
    /// The sector past the last one.
    pub end: u64,
}

impl<'a> Outline<'a> {
    /// The first reference of a table to a device that doesn't stand before this line.
    pub fn missing(&self, table: &str, before: u64) -> Option<Reference<'a>> {
        for row in &self.rows {
            for group in 0..3 {
                if let Some(reference) = reference_of(*row, group) {
                    if row.table == table && !self.stands(reference.device, before) {
                        return Some(reference);
                    }
                }
            }
        }
        None
    }

    /// The line that creates a device which stands before this line and whose live table is laid on the device of this name.
    pub fn laid_on(&self, name: &str, before: u64) -> Option<Spotted<'a>> {
        for command in &self.commands {
            let upper = command.device();
            let table = self.live_table(upper, before).unwrap_or("");
            let stands = command.word(0) == "create" && self.created(upper, before).is_some();
            if stands && self.reference_to(table, name).is_some() {
                return Some(*command);
            }
        }
        None
    }

    /// The first reference of a table to the mapped device of this name.
    pub fn reference_to(&self, table: &str, name: &str) -> Option<Reference<'a>> {
        for row in &self.rows {
            for group in 0..3 {
                if let Some(reference) = reference_of(*row, group) {
                    if row.table == table && self.name_meant(reference.device) == Some(name) {
                        return Some(reference);
                    }
                }
            }
        }
        None
    }

    /// How many references of all tables are to the device of this word.
    pub fn count_of(&self, device: &str) -> u64 {
        let mut count = 0u64;
        for row in &self.rows {
            for group in 0..3 {
                if reference_of(*row, group).is_some_and(|it| it.device == device) {
                    count = count.saturating_add(1);
                }
            }
        }
        count
    }

    /// The first reference of a table past the end of its device, as that stands before this line.
    pub fn passing(&self, table: &str, before: u64) -> Option<Reference<'a>> {
        for row in &self.rows {
            for group in 0..3 {
                if let Some(reference) = reference_of(*row, group) {
                    if row.table == table
                        && self.size_of(reference.device, before) < reference.end
                    {
                        return Some(reference);
                    }
                }
            }
        }
        None
    }
}

/// The reference of a line, counted from 0: a delay line may have three.
fn reference_of<'a>(row: Row<'a>, group: usize) -> Option<Reference<'a>> {
    let kind = row.spotted.word(2);
    if matches!(kind, "zero" | "error") || (group != 0 && kind != "delay") {
        return None;
    }
    let place = group.saturating_mul(3).saturating_add(3);
    let device = row.spotted.word(place);
    let offset = plain(row.spotted.word(place.saturating_add(1)))?;
    let length = plain(row.spotted.word(1))?;
    Some(Reference {
        row,
        device,
        place,
        end: offset.saturating_add(length),
    })
}
