ghost use Rattle.std.specs.Prelude.{◌≡◌, ◌<◌, ◌++◌, OnOk, decimal, string_bytes};
ghost use Rattle.lab_advice.specs.Shown.{byte_shown, bytes_shown, hex_digit, line_shown, number_text, place_text, shown_text, told_text, within_text};

use crate::lines::Part;
use crate::place::Place;
use lab_sector::NoMemory;

/// How many bytes of a line are shown at most.
const SHOWN: usize = 200;

/// Appends the line of the place, if there is one.
pub fn push_told(text: &mut String, place: Option<Place<'_>>) -> Result<(), NoMemory>
    ensures told { OnOk result (string_bytes text.new
        ≡ string_bytes text.old ++ told_text place.entry) }
{
    match place {
        Some(place) => push_place(text, place),
        None => Ok(()),
    }
}

/// Appends `dmlab: line N of the bundle, PART line L: LINE`, as a line.
fn push_place(text: &mut String, place: Place<'_>) -> Result<(), NoMemory>
    ensures { OnOk result (string_bytes text.new
        ≡ string_bytes text.old ++ place_text place.entry) }
{
    push_in_bundle(text, place.number)?;
    push_within(text, place)?;
    push_line(text, place.line)
}

/// Appends `dmlab: line N of the bundle`.
fn push_in_bundle(text: &mut String, number: u64) -> Result<(), NoMemory>
    ensures { OnOk result (string_bytes text.new
        ≡ string_bytes text.old ++ number_text number) }
{
    text.push_str("dmlab: line ")?;
    push_number(text, number)?;
    text.push_str(" of the bundle")?;
    Ok(())
}

/// Appends `: LINE`, as the rest of a line.
fn push_line(text: &mut String, line: &[u8]) -> Result<(), NoMemory>
    ensures { OnOk result (string_bytes text.new
        ≡ string_bytes text.old ++ shown_text line.now) }
{
    text.push_str(": ")?;
    push_shown(text, line)?;
    text.push_str("\n")?;
    Ok(())
}

/// Appends `, PART line L`, but for the whole bundle.
fn push_within(text: &mut String, place: Place<'_>) -> Result<(), NoMemory>
    ensures { OnOk result (string_bytes text.new
        ≡ string_bytes text.old ++ within_text place.entry.part place.entry.within) }
{
    match place.part {
        Part::Whole => return Ok(()),
        Part::Table(name) => push_named(text, ", table ", name)?,
        Part::Script => text.push_str(", script")?,
        Part::Log(name) => push_named(text, ", log ", name)?,
        Part::History => text.push_str(", history")?,
    }
    text.push_str(" line ")?;
    push_number(text, place.within)
}

/// Appends a word and a name.
fn push_named(text: &mut String, word: &str, name: &[u8]) -> Result<(), NoMemory>
    ensures { OnOk result (string_bytes text.new
        ≡ string_bytes text.old ++ (word.now ++ line_shown name.now)) }
{
    text.push_str(word)?;
    push_shown(text, name)
}

/// Appends the line up to its first 200 bytes, and `..` where it has more. A byte that is no text is shown as `\xHH`.
#[tactic(auto, using(crate::proofs::Rulesets::push_shown))]
fn push_shown(text: &mut String, line: &[u8]) -> Result<(), NoMemory>
    ensures { OnOk result (string_bytes text.new
        ≡ string_bytes text.old ++ line_shown line.now) }
{
    if line.len() <= SHOWN {
        return push_bytes(text, line);
    }
    let (front, _rest) = line.split_at(SHOWN);
    push_bytes(text, front)?;
    text.push_str("..")?;
    Ok(())
}

/// Appends the bytes, one by one.
fn push_bytes(text: &mut String, bytes: &[u8]) -> Result<(), NoMemory>
    ensures { OnOk result (string_bytes text.new
        ≡ string_bytes text.old ++ bytes_shown bytes.now) }
{
    for byte in bytes {
        push_byte(text, *byte)?;
    }
    Ok(())
}

/// Appends a byte: a tab and 0x20 to 0x7E as they are, another as `\xHH`.
fn push_byte(text: &mut String, byte: u8) -> Result<(), NoMemory>
    ensures { OnOk result (string_bytes text.new
        ≡ string_bytes text.old ++ byte_shown byte) }
{
    if byte == b'\t' || (0x20..=0x7e).contains(&byte) {
        text.push(char::from(byte))?;
        return Ok(());
    }
    text.push_str("\\x")?;
    text.push(hex_digit(byte / 16))?;
    text.push(hex_digit(byte % 16))?;
    Ok(())
}

/// The hexadecimal digit of a value below 16, a capital from 10 on.
fn hex_digit(value: u8) -> char
    ensures { value < 16 → result ≡ hex_digit value }
{
    match value {
        0..=9 => char::from(b'0'.saturating_add(value)),
        _ => char::from(b'A'.saturating_add(value.saturating_sub(10))),
    }
}

/// Appends a number.
pub fn push_number(text: &mut String, number: u64) -> Result<(), NoMemory>
    ensures number { OnOk result (string_bytes text.new
        ≡ string_bytes text.old ++ decimal number) }
{
    let mut buffer = itoa::Buffer::new();
    text.push_str(buffer.format(number))?;
    Ok(())
}
