use lab_sector::NoMemory;
use std::alloc::Global;
use strsim::osa_distance;

/// How many letters a word has at most for which a near one is sought.
const LONGEST: usize = 40;

/// How many words are told at most, where they are as near as one another.
const MOST: usize = 3;

/// How many letters off a near word is at most.
const FARTHEST: usize = 2;

/// The words that are nearest to another one, by the letters that are left out, put in, exchanged for others, or exchanged
/// with their neighbours.
#[derive(Drop)]
pub struct Near<'a> {
    meant: &'a str,
    off: usize,
    pub words: Vec<String>,
}

impl<'a> Near<'a> {
    /// No word so far, of those near to this one.
    pub fn to(alloc: Global, meant: &'a str) -> Near<'a> {
        Near {
            meant,
            off: usize::MAX,
            words: Vec::new(alloc),
        }
    }

    /// Takes a word that is told as this text, where it is near, and none of those before is nearer. One that differs in the
    /// case of more letters than a near word may is nearer than all others, and isn't taken.
    pub fn add(&mut self, alloc: Global, word: &str, text: String) -> Result<(), NoMemory> {
        let Some(off) = letters_off(alloc, self.meant, word)? else {
            return Ok(());
        };
        if off < self.off {
            self.off = off;
            self.words.clear();
        }
        let known = self.words.iter().any(|it| it.as_str() == text.as_str());
        let is_other = off == 0 && word != self.meant;
        if off == self.off && !known && !is_other && self.words.len() < MOST {
            self.words.push(text)?;
        }
        Ok(())
    }

    /// Takes a device's two numbers, where another device's are meant.
    pub fn add_pair(&mut self, alloc: Global, pair: String) -> Result<(), NoMemory> {
        if !self.meant.contains(':') {
            return Ok(());
        }
        let text = String::from_str(alloc, pair.as_str())?;
        self.add(alloc, pair.as_str(), text)
    }

    /// Whether a mapped device is meant by its number.
    pub fn is_numbered(&self) -> bool {
        self.meant.starts_with("dm")
    }

    /// Takes a word that is told as it is.
    pub fn add_word(&mut self, alloc: Global, word: &str) -> Result<(), NoMemory> {
        self.add(alloc, word, String::from_str(alloc, word)?)
    }
}

/// How many letters a word is off another one, where it is near: 1 in letters of another case, and 0 where these are more
/// than a near word may differ in.
fn letters_off(alloc: Global, word: &str, other: &str) -> Result<Option<usize>, NoMemory> {
    if LONGEST < word.len() || LONGEST < other.len() {
        return Ok(None);
    }
    let off = osa_distance(alloc, word, other)?;
    if off != 0 && is_cased(word, other) {
        return Ok(Some(if off <= FARTHEST { 1 } else { 0 }));
    }
    if off <= most_off(word.len().max(other.len())) {
        return Ok(Some(off));
    }
    Ok(None)
}

/// Whether two words differ in the case of their letters alone.
pub fn is_cased(word: &str, other: &str) -> bool {
    word.eq_ignore_ascii_case(other)
}

/// How many letters off two near words are at most, the longer one having so many.
fn most_off(length: usize) -> usize {
    match length {
        0 | 1 => 0,
        2..=4 => 1,
        _ => FARTHEST,
    }
}

/// The one of these words, with blanks between, that is nearest to a word in letters of either case, unless another one is
/// as near.
pub fn nearest_of(
    alloc: Global,
    word: &str,
    words: &'static str,
) -> Result<Option<&'static str>, NoMemory> {
    if LONGEST < word.len() {
        return Ok(None);
    }
    let small = word.to_ascii_lowercase(alloc)?;
    let mut found = None;
    let mut least = usize::MAX;
    for other in words.split_whitespace() {
        let off = letters_off(alloc, small.as_str(), other)?.unwrap_or(usize::MAX);
        if off < least {
            least = off;
            found = Some(other);
        } else if off == least {
            found = None;
        }
    }
    Ok(found)
}
