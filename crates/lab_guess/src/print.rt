use lab_sector::NoMemory;
use std::alloc::Global;

/// Where a letter stands, as to the dashes before it.
#[derive(Clone, Copy, PartialEq, Eq)]
enum Before {
    /// Behind a blank, or first.
    Blank,
    /// Behind a word's first dash, which stands for two hyphens already.
    Dash,
    /// In a word.
    Word,
}

/// The line with ASCII's signs in the place of those of print, as a word processor puts them: dashes, quotes and blanks. A
/// dash at a word's begin becomes two hyphens, and double quotes are left out. Nothing where another letter is left that is
/// no ASCII.
pub fn in_ascii(alloc: Global, line: &str) -> Result<Option<String>, NoMemory> {
    let mut text = String::new(alloc);
    let mut before = Before::Blank;
    for letter in line.chars() {
        let sign = sign_of(letter);
        if !is_left_out(letter) && !is_text(sign) {
            return Ok(None);
        }
        if !is_left_out(letter) {
            before = push_sign(&mut text, before, letter, sign)?;
        }
    }
    Ok(Some(text))
}

/// Adds the sign of a letter, and answers what it is to those behind it.
fn push_sign(
    text: &mut String,
    before: Before,
    letter: char,
    sign: char,
) -> Result<Before, NoMemory> {
    if before == Before::Dash && sign == '-' {
        return Ok(Before::Dash);
    }
    if before == Before::Blank && sign == '-' && letter != '-' {
        text.push_str("--")?;
        return Ok(Before::Dash);
    }
    text.push(sign)?;
    Ok(match sign {
        ' ' | '\t' => Before::Blank,
        _ => Before::Word,
    })
}

/// ASCII's sign for a letter of print; another letter as it is.
fn sign_of(letter: char) -> char {
    match letter {
        '\u{2010}'..='\u{2015}' | '\u{2212}' => '-',
        '\u{2018}' | '\u{2019}' => '\'',
        '\u{a0}' | '\u{2000}'..='\u{200a}' | '\u{202f}' | '\u{3000}' => ' ',
        other => other,
    }
}

/// Whether a letter is one of print that stands for nothing here: a double quote, a sign without width.
fn is_left_out(letter: char) -> bool {
    matches!(letter, '\u{201c}'..='\u{201f}' | '\u{200b}'..='\u{200d}' | '\u{feff}')
}

/// Whether a letter may stand in a bundle.
fn is_text(letter: char) -> bool {
    letter == '\t' || (' '..='~').contains(&letter)
}
