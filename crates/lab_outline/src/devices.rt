use crate::near::is_cased;
use crate::numbers::plain;
use crate::outline::Outline;
use crate::spotted::Spotted;

impl<'a> Outline<'a> {
    /// The first line with this command.
    pub fn command(&self, verb: &str) -> Option<Spotted<'a>> {
        for command in &self.commands {
            if command.word(0) == verb {
                return Some(*command);
            }
        }
        None
    }

    /// The last line before this one that does this to the device.
    pub fn last_of(&self, verb: &str, name: &str, before: u64) -> Option<Spotted<'a>> {
        let mut found = None;
        for command in &self.commands {
            if command.number < before && command.does(verb, name) {
                found = Some(*command);
            }
        }
        found
    }

    /// The line that created the mapped device which stands before this line under this name.
    pub fn created(&self, name: &str, before: u64) -> Option<Spotted<'a>> {
        let created = self.last_of("create", name, before)?;
        match self.last_of("remove", name, before) {
            Some(removed) if created.number < removed.number => None,
            _ => Some(created),
        }
    }

    /// The first line from this one on that creates a device of this name.
    pub fn created_from(&self, name: &str, from: u64) -> Option<Spotted<'a>> {
        for command in &self.commands {
            if from <= command.number && command.does("create", name) {
                return Some(*command);
            }
        }
        None
    }

    /// The line that created the device which stands before this line under this name in letters of another case.
    pub fn created_cased(&self, name: &str, before: u64) -> Option<Spotted<'a>> {
        for command in &self.commands {
            let other = command.device();
            if command.word(0) == "create" && other != name && is_cased(other, name) {
                return self.created(other, before);
            }
        }
        None
    }

    /// The line that declares the disk whose name, as `ram0`, is this one in letters of another case.
    pub fn disk_cased(&self, name: &str) -> Option<Spotted<'a>> {
        let number = name.trim_start_matches(|c: char| c.is_ascii_alphabetic());
        let front = name.strip_suffix(number)?;
        if front != "ram" && is_cased(front, "ram") {
            self.disk_of_number(number)
        } else {
            None
        }
    }

    /// The line that declares the disk of this number.
    pub fn disk(&self, number: u64) -> Option<Spotted<'a>> {
        for command in &self.commands {
            if command.word(0) == "ram" && plain(command.word(1)) == Some(number) {
                return Some(*command);
            }
        }
        None
    }

    /// The least number that no memory disk has.
    pub fn free_disk(&self) -> u64 {
        for number in 0..255u64 {
            if self.disk(number).is_none() {
                return number;
            }
        }
        255
    }

    /// The line that declares the disk of the number that this word is.
    pub fn disk_of_number(&self, word: &str) -> Option<Spotted<'a>> {
        self.disk(plain(word)?)
    }

    /// The line that declares the disk that a word of a table or of a log stands for.
    pub fn disk_of(&self, word: &str) -> Option<Spotted<'a>> {
        self.disk(disk_meant(word)?)
    }

    /// The name of the mapped device of this number: creates are counted from 0.
    pub fn mapped(&self, number: u64) -> Option<&'a str> {
        let mut count = 0u64;
        for command in &self.commands {
            if command.word(0) == "create" {
                if count == number {
                    return Some(command.device());
                }
                count = count.saturating_add(1);
            }
        }
        None
    }

    /// The name of the mapped device that a word of a table or of a log stands for.
    pub fn name_meant(&self, word: &'a str) -> Option<&'a str> {
        if let Some(name) = word.strip_prefix("/dev/mapper/") {
            return Some(name);
        }
        let number = word.strip_prefix("/dev/dm-").or(word.strip_prefix("253:"))?;
        self.mapped(plain(number)?)
    }

    /// Whether a word of a table or of a log stands for a device before this line.
    pub fn stands(&self, word: &'a str, before: u64) -> bool {
        if let Some(number) = disk_meant(word) {
            return self.disk(number).is_some();
        }
        match self.name_meant(word) {
            Some(name) => self.created(name, before).is_some(),
            None => false,
        }
    }
}

/// The number of the memory disk that a word stands for.
pub(crate) fn disk_meant(word: &str) -> Option<u64> {
    plain(word.strip_prefix("/dev/ram").or(word.strip_prefix("1:"))?)
}
