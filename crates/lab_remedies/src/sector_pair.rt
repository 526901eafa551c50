use lab_advice::{Remedy, Spot};
use lab_guess::action_meant;
use lab_outline::{Outline, Spotted, plain};
use lab_rule_remedies::fits;
use lab_sector::NoMemory;
use std::alloc::Global;

/// A first sector and a count of them, or an OFFSET and a LENGTH.
#[derive(Clone, Copy)]
pub(crate) struct Pair {
    pub first: u64,
    pub count: u64,
    /// Whether a `+` stands between the two.
    pub is_sum: bool,
}

impl Pair {
    /// The pair that the words of a line from this place on are, up to the line's end or a word in brackets.
    pub fn at(spotted: Spotted<'_>, place: usize) -> Option<Pair> {
        let word = spotted.word(place);
        let second = spotted.word(place.saturating_add(1));
        let third = spotted.word(place.saturating_add(2));
        let fourth = spotted.word(place.saturating_add(3));
        let (first, count, rest) = if second == "+" {
            (word, third, fourth)
        } else if let Some((first, count)) = word.split_once('+') {
            (first, count, second)
        } else {
            (word, second, third)
        };
        let is_end = rest.is_empty() || rest.starts_with('[');
        Some(Pair {
            first: plain(first)?,
            count: plain(count)?,
            is_sum: second == "+" || word.contains('+'),
        })
        .filter(|_| is_end)
    }

    /// The OFFSET and the LENGTH of so many sectors.
    pub fn in_bytes(self) -> Pair {
        Pair {
            first: self.first.saturating_mul(512),
            count: self.count.saturating_mul(512),
            is_sum: self.is_sum,
        }
    }

    /// Whether the two are multiples of 512, and there is a count.
    pub fn is_aligned(self) -> bool {
        self.count != 0 && self.first % 512 == 0 && self.count % 512 == 0
    }

    /// Whether the file has these bytes.
    pub fn fits(self, outline: &Outline<'_>, file: &str) -> bool {
        fits(outline, file, self.first, self.count)
    }

    /// The line of these bytes.
    pub fn line(self, alloc: Global, file: &str, action: &str) -> Result<String, NoMemory> {
        let (offset, length) = (self.first, self.count);
        Ok(format!(in alloc; "{file} {action} {offset} {length}")?)
    }
}

/// The remedy of a log's line with FIRST+COUNT in sectors, as findings have it, if it is one.
pub(crate) fn sum_remedy(
    alloc: Global,
    outline: &Outline<'_>,
    spotted: Spotted<'_>,
) -> Result<Option<Remedy>, NoMemory> {
    let (file, action) = (spotted.word(0), action_meant(spotted.word(1)));
    let Some(pair) = Pair::at(spotted, 2).filter(|it| it.is_sum) else {
        return Ok(None);
    };
    let bytes = pair.in_bytes();
    let is_of_bytes = pair.is_aligned() && !bytes.fits(outline, file);
    if !matches!(action, "read" | "write" | "trim") || is_of_bytes {
        return Ok(None);
    }
    let why =
        "FIRST+COUNT are sectors, as dmlab's findings tell them, and a log has OFFSET and LENGTH in bytes, 512 times as many";
    let line = bytes.line(alloc, file, action)?;
    Ok(Some(Remedy::told(alloc, why)?.or(Spot::On(spotted.number), line)?))
}
