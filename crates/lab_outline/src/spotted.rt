/// A line of the bundle that is text, and its number there, counted from 1.
#[derive(Clone, Copy, Debug)]
pub struct Spotted<'a> {
    pub number: u64,
    pub line: &'a str,
}

impl<'a> Spotted<'a> {
    /// The line's word at this place, counted from 0; an empty one where it has fewer.
    pub fn word(self, place: usize) -> &'a str {
        self.line.split_whitespace().nth(place).unwrap_or("")
    }

    /// The name of the device that a command is for: that of a create may stand behind `--notable`.
    pub fn device(self) -> &'a str {
        match self.word(1) {
            "--notable" => self.word(2),
            name => name,
        }
    }

    /// Whether a command does this to the device of this name.
    pub fn does(self, verb: &str, name: &str) -> bool {
        self.word(0) == verb && self.device() == name
    }

    /// Whether the line gives a device another table.
    pub fn is_load(self) -> bool {
        matches!(self.word(0), "load" | "reload")
    }
}
