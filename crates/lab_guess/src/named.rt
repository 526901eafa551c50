use lab_sector::NoMemory;
use std::alloc::Global;

/// How many letters a name has at most.
const MOST: usize = 32;

/// How many bytes a word has at most for which a name is sought.
const LONGEST: usize = 200;

/// The name that is nearest to a word which is none: hyphens stand for the signs that no name has, and the first 32 letters
/// for all; nothing where no letter is left.
pub fn name_near(alloc: Global, word: &str) -> Result<Option<String>, NoMemory> {
    let path = word
        .strip_prefix("/dev/mapper/")
        .or(word.strip_prefix("/dev/"));
    let bare = path
        .unwrap_or(word)
        .trim_matches(|c: char| !c.is_ascii_alphanumeric() && c != '_');
    if LONGEST < word.len() || bare.is_empty() {
        return Ok(None);
    }
    let mut name = String::new(alloc);
    for letter in bare.chars() {
        if name.len() < MOST {
            name.push(if is_of_name(letter) { letter } else { '-' })?;
        }
    }
    Ok(Some(name))
}

/// Whether the letter may stand in a name.
fn is_of_name(letter: char) -> bool {
    letter.is_ascii_alphanumeric() || matches!(letter, '_' | '.' | '-')
}
