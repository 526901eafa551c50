use lab_sector::NoMemory;
use std::alloc::Global;

/// How many bytes a line to write has at most.
const MOST: usize = 200;

/// How many lines are offered at most.
const MOST_MENDS: usize = 24;

/// The rank from which on a line is a mere guess, which is told only if the bundle is accepted with it.
pub const GUESSED: u64 = 1000;

/// What is wrong, and what to write.
#[derive(Drop)]
pub struct Remedy {
    /// What is wrong and what would be right, as a sentence without its full stop.
    pub why: String,
    /// What may mend it, the likeliest first: one of these.
    pub mends: Vec<Mend>,
}

/// A line to write. Lines are counted from 1 in the bundle.
#[derive(Drop)]
pub struct Mend {
    /// How many others are likelier; those of one rank are as likely as one another.
    pub rank: u64,
    pub spot: Spot,
    pub line: String,
}

/// Where a line goes.
#[derive(Clone, Copy, PartialEq, Eq)]
pub enum Spot {
    /// In the place of this line.
    On(u64),
    /// As a new line before this one.
    Before(u64),
    /// Nowhere: this line is left out, and is blank then, so that no number changes.
    Blank(u64),
}

impl Remedy {
    /// A remedy that is told, with nothing to write so far.
    pub fn told(alloc: Global, why: &str) -> Result<Remedy, NoMemory> {
        Ok(Remedy::of(alloc, String::from_str(alloc, why)?))
    }

    /// A remedy of these words.
    pub fn of(alloc: Global, why: String) -> Remedy {
        Remedy {
            why,
            mends: Vec::new(alloc),
        }
    }

    /// The remedy with a line more that may mend it, unless this is too long to be shown, or no text.
    pub fn or(mut self, spot: Spot, line: String) -> Result<Remedy, NoMemory> {
        let rank = self.mends.len() as u64;
        self.offer(rank, spot, line)?;
        Ok(self)
    }

    /// The remedy with a line more, if there is one.
    pub fn or_if(self, spot: Spot, line: Option<String>) -> Result<Remedy, NoMemory> {
        match line {
            Some(line) => self.or(spot, line),
            None => Ok(self),
        }
    }

    /// The remedy with a line more, if there is one, as a mere guess.
    pub fn or_guess(mut self, spot: Spot, line: Option<String>) -> Result<Remedy, NoMemory> {
        if let Some(line) = line {
            let rank = GUESSED.saturating_add(self.mends.len() as u64);
            self.offer(rank, spot, line)?;
        }
        Ok(self)
    }

    /// The remedy that this line may be left out.
    pub fn or_blank(self, alloc: Global, number: u64) -> Result<Remedy, NoMemory> {
        self.or(Spot::Blank(number), String::new(alloc))
    }

    /// Takes a line more of this rank, unless this is one of those before.
    pub fn offer(&mut self, rank: u64, spot: Spot, line: String) -> Result<(), NoMemory> {
        let fits = line.len() <= MOST && line.as_bytes().iter().all(|byte| is_text_byte(*byte));
        if fits && self.mends.len() < MOST_MENDS && !self.has(spot, line.as_str()) {
            self.mends.push(Mend { rank, spot, line })?;
        }
        Ok(())
    }

    /// Whether this line is offered for this spot.
    fn has(&self, spot: Spot, line: &str) -> bool {
        self.mends
            .iter()
            .any(|mend| mend.spot == spot && mend.line.as_str() == line)
    }
}

/// Whether the byte may stand in a bundle's line.
fn is_text_byte(byte: u8) -> bool {
    byte == b'\t' || (0x20..=0x7e).contains(&byte)
}
