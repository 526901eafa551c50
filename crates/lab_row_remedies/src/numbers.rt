use lab_guess::with_word;
use lab_outline::{Spotted, plain};
use lab_sector::NoMemory;
use std::alloc::Global;

/// How many letters a word has at most that is shown.
const SHOWN: usize = 40;

/// What is told of a line in which a number is wrong: which word it is, where one of these places has none; and why.
pub fn number_at_fault(
    alloc: Global,
    spotted: Spotted<'_>,
    places: &[usize],
    why: &str,
) -> Result<String, NoMemory> {
    for place in places {
        let word = spotted.word(*place);
        if !word.is_empty() && plain(word).is_none() && word.len() <= SHOWN {
            let place = place.saturating_add(1);
            return Ok(format!(in alloc; "word {place}, `{word}`, is no number; {why}")?);
        }
    }
    Ok(String::from_str(alloc, why)?)
}

/// The line with digits in the place of letters that look like them, or of a product, in the first word of these places that
/// has some.
pub fn with_digits(
    alloc: Global,
    line: &str,
    places: &[usize],
) -> Result<Option<String>, NoMemory> {
    for place in places {
        let word = line.split_whitespace().nth(*place).unwrap_or("");
        if let Some(number) = digits_meant(word).or(product_meant(word)) {
            let number = format!(in alloc; "{number}")?;
            return Ok(Some(with_word(alloc, line, *place, number.as_str())?));
        }
    }
    Ok(None)
}

/// The number of a word that has letters in the place of digits: O for 0, l and I for 1.
pub fn digits_meant(word: &str) -> Option<u64> {
    let mut number = 0u64;
    for letter in word.chars() {
        let digit = match letter {
            'O' | 'o' => 0,
            'l' | 'I' => 1,
            _ => u64::from(letter.to_digit(10)?),
        };
        number = number.checked_mul(10)?.checked_add(digit)?;
    }
    Some(number).filter(|_| word.chars().any(|letter| !letter.is_ascii_digit()))
}

/// The number of a word that is a product of two: 8*512.
fn product_meant(word: &str) -> Option<u64> {
    let (one, other) = word.split_once('*')?;
    plain(one)?.checked_mul(plain(other)?)
}
