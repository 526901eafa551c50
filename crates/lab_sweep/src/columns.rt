ghost use Rattle.std.specs.Prelude.{◌≡◌, ◌∷◌, ◌++◌, OnOk, decimal};
ghost use Rattle.lab_core.specs.Columns.{device_word, or_dash, origin_text};
ghost use Rattle.lab_sweep.specs.FoundRow.{finding_word, log_name, sectors_text, type_text};
ghost use Rattle.lab_sweep.specs.FoundRow.{writer_text};

use itoa::Buffer;
use lab_findings::Finding;
use lab_model::Action;
use lab_next::{Origin, Writer};
use lab_sector::{DevNo, NoMemory, Span};
use lab_state::numbered;
use lab_table::Scenario;
use lab_target::Target;
use lab_text::push_numbered;

/// Appends the word.
pub(crate) fn push_word(text: &mut Vec<u8>, word: &[u8]) -> Result<(), NoMemory>
    ensures { OnOk result (text.new.items ≡ text.old.items ++ word.now) }
{
    text.extend_from_slice(word)?;
    Ok(())
}

/// Appends a tab and the word.
pub(crate) fn push_column(text: &mut Vec<u8>, word: &[u8]) -> Result<(), NoMemory>
    ensures { OnOk result (text.new.items ≡ text.old.items ++ 9 ∷ word.now) }
{
    text.push(b'\t')?;
    push_word(text, word)
}

/// The word of a finding.
pub(crate) fn word_of(finding: Finding) -> &'static [u8]
    ensures { result.now ≡ finding_word finding }
{
    match finding {
        Finding::Eio => b"eio",
        Finding::Lost => b"lost",
        Finding::Corrupt => b"corrupt",
        Finding::Stale => b"stale",
        Finding::Misplaced => b"misplaced",
        Finding::BrokenSync => b"broken-sync",
    }
}

/// Appends a tab and the name of the log of this number.
pub(crate) fn push_name<T: Target>(
    text: &mut Vec<u8>,
    scenario: &Scenario<T>,
    log: u32,
) -> Result<(), NoMemory>
    ensures { OnOk result (text.new.items ≡ text.old.items ++ 9 ∷ log_name scenario.now log) }
{
    match numbered(&scenario.lines, log) {
        Some(plan) => push_column(text, &plan.name),
        None => push_word(text, b"\t-"),
    }
}

/// Appends a tab and `ramN` or `dmN`.
pub(crate) fn push_device(text: &mut Vec<u8>, device: DevNo) -> Result<(), NoMemory>
    ensures { OnOk result (text.new.items ≡ text.old.items ++ 9 ∷ device_word device) }
{
    match device {
        DevNo::Ram(number) => push_numbered(text, b"\tram", u64::from(number)),
        DevNo::Dm(number) => push_numbered(text, b"\tdm", u64::from(number)),
    }
}

/// Appends a tab and the operation's sectors; a sync has none.
pub(crate) fn push_sectors(text: &mut Vec<u8>, action: Action, span: Span) -> Result<(), NoMemory>
    ensures { OnOk result (text.new.items ≡ text.old.items ++ 9 ∷ sectors_text action span) }
{
    match action {
        Action::Sync | Action::Datasync => push_word(text, b"\t-"),
        Action::Read | Action::Write | Action::Trim => {
            push_numbered(text, b"\t", span.first)?;
            push_numbered(text, b"+", span.len)
        }
    }
}

/// Appends a tab and the bytes of a type word up to its first zero.
pub(crate) fn push_type(text: &mut Vec<u8>, bytes: &[u8]) -> Result<(), NoMemory>
    ensures { OnOk result (text.new.items ≡ text.old.items ++ 9 ∷ type_text bytes.now) }
{
    text.push(b'\t')?;
    for byte in bytes {
        if *byte == 0 {
            return Ok(());
        }
        text.push(*byte)?;
    }
    Ok(())
}

/// Appends a tab and a sector of an operation, or `-` where there is none.
pub(crate) fn push_writer(text: &mut Vec<u8>, writer: Option<Writer>) -> Result<(), NoMemory>
    ensures { OnOk result (text.new.items ≡ text.old.items ++ 9 ∷ or_dash writer_text writer) }
{
    let Some(writer) = writer else {
        return push_word(text, b"\t-");
    };
    push_origin(text, writer.origin)?;
    push_sector(text, writer.sector)
}

/// Appends a tab and an operation, or `-` where there is none.
pub(crate) fn push_sync(text: &mut Vec<u8>, sync: Option<Origin>) -> Result<(), NoMemory>
    ensures { OnOk result (text.new.items ≡ text.old.items ++ 9 ∷ or_dash origin_text sync) }
{
    match sync {
        Some(origin) => push_origin(text, origin),
        None => push_word(text, b"\t-"),
    }
}

/// Appends a tab and `LOG.LINE`.
fn push_origin(text: &mut Vec<u8>, origin: Origin) -> Result<(), NoMemory>
    ensures { OnOk result (text.new.items ≡ text.old.items ++ 9 ∷ origin_text origin) }
{
    push_numbered(text, b"\t", u64::from(origin.log))?;
    push_numbered(text, b".", origin.line)
}

/// Appends `+` and the number.
fn push_sector(text: &mut Vec<u8>, sector: u128) -> Result<(), NoMemory>
    ensures { OnOk result (text.new.items ≡ text.old.items ++ 43 ∷ decimal sector) }
{
    text.push(b'+')?;
    push_wide(text, sector)
}

/// Appends the number in decimal.
pub(crate) fn push_wide(text: &mut Vec<u8>, number: u128) -> Result<(), NoMemory>
    ensures { OnOk result (text.new.items ≡ text.old.items ++ decimal number) }
{
    let mut buffer = Buffer::new();
    push_word(text, buffer.format(number).as_bytes())
}
