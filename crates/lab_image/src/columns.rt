ghost use Rattle.std.specs.Prelude.{◌≡◌, ◌++◌, ◌∷◌, OnOk, decimal};
ghost use Rattle.lab_image.specs.Text.{changed_byte_text, changed_bytes_text, changed_text};
ghost use Rattle.lab_image.specs.Text.{disk_sectors_text, operation_text};

use crate::row::DiskRow;
use itoa::Buffer;
use lab_next::Writer;
use lab_sector::NoMemory;
use lab_target::Mark;
use lab_text::push_numbered;

/// Appends the disk, and its sectors: `ramN`, and behind a tab `FIRST+COUNT`.
pub(crate) fn push_sectors(text: &mut Vec<u8>, row: &DiskRow) -> Result<(), NoMemory>
    ensures { OnOk result (text.new.items ≡ text.old.items ++ disk_sectors_text row.now) }
{
    push_numbered(text, b"ram", row.disk)?;
    push_numbered(text, b"\t", row.first)?;
    push_numbered(text, b"+", row.count)
}

/// Appends the log, the line and the sector of the operation, each behind a tab.
pub(crate) fn push_operation(text: &mut Vec<u8>, writer: Writer) -> Result<(), NoMemory>
    ensures { OnOk result (text.new.items ≡ text.old.items ++ 9 ∷ operation_text writer) }
{
    push_numbered(text, b"\t", u64::from(writer.origin.log))?;
    push_numbered(text, b"\t", writer.origin.line)?;
    text.push(b'\t')?;
    push_wide(text, writer.sector)
}

/// Appends a tab and the changed bytes, or `-` where there are none.
pub(crate) fn push_changed(text: &mut Vec<u8>, marks: &[Mark]) -> Result<(), NoMemory>
    ensures { OnOk result (text.new.items ≡ text.old.items ++ 9 ∷ changed_text marks.now) }
{
    match marks.split_first() {
        Some((first, more)) => push_bytes(text, *first, more),
        None => push_word(text, b"\t-"),
    }
}

/// Appends a tab and these changed bytes, with a comma between two.
fn push_bytes(text: &mut Vec<u8>, first: Mark, more: &[Mark]) -> Result<(), NoMemory>
    ensures { OnOk result (text.new.items
        ≡ text.old.items ++ 9 ∷ changed_byte_text first ++ changed_bytes_text more.now) }
{
    push_byte(text, b"\t", first)?;
    for mark in more {
        push_byte(text, b",", *mark)?;
    }
    Ok(())
}

/// Appends a word and `BYTE=VALUE`.
fn push_byte(text: &mut Vec<u8>, before: &[u8], mark: Mark) -> Result<(), NoMemory>
    ensures { OnOk result (text.new.items ≡ text.old.items ++ before.now
        ++ changed_byte_text mark) }
{
    push_numbered(text, before, mark.place)?;
    push_numbered(text, b"=", u64::from(mark.value))
}

/// Appends the word.
fn push_word(text: &mut Vec<u8>, word: &[u8]) -> Result<(), NoMemory>
    ensures { OnOk result (text.new.items ≡ text.old.items ++ word.now) }
{
    text.extend_from_slice(word)?;
    Ok(())
}

/// Appends the number in decimal.
fn push_wide(text: &mut Vec<u8>, number: u128) -> Result<(), NoMemory>
    ensures { OnOk result (text.new.items ≡ text.old.items ++ decimal number) }
{
    let mut buffer = Buffer::new();
    push_word(text, buffer.format(number).as_bytes())
}
