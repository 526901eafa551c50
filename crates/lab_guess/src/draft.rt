use lab_sector::NoMemory;
use std::alloc::Global;

/// A line that is put together word by word.
#[derive(Drop)]
pub struct Draft {
    text: String,
}

impl Draft {
    /// A line without a word.
    pub fn new(alloc: Global) -> Draft {
        Draft {
            text: String::new(alloc),
        }
    }

    /// Adds a word behind the others, with a space between.
    pub fn push(&mut self, word: &str) -> Result<(), NoMemory> {
        if !self.text.as_str().is_empty() {
            self.text.push_str(" ")?;
        }
        self.text.push_str(word)?;
        Ok(())
    }

    /// Adds a number as a word.
    pub fn push_number(&mut self, number: u64) -> Result<(), NoMemory> {
        let mut buffer = itoa::Buffer::new();
        self.push(buffer.format(number))
    }

    /// Adds a word in small letters.
    pub fn push_small(&mut self, alloc: Global, word: &str) -> Result<(), NoMemory> {
        let mut small = String::new(alloc);
        for letter in word.chars() {
            small.push(letter.to_ascii_lowercase())?;
        }
        self.push(small.as_str())
    }

    /// The line, unless it has the words of the one that it was made from.
    pub fn changed(self, line: &str) -> Option<String> {
        let mut words = self.text.as_str().split_whitespace();
        for word in line.split_whitespace() {
            if words.next() != Some(word) {
                return Some(self.text);
            }
        }
        match words.next() {
            Some(_) => Some(self.text),
            None => None,
        }
    }

    /// The line.
    pub fn line(self) -> String {
        self.text
    }
}
