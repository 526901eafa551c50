ghost use Rattle.std.specs.Prelude.{◌≡◌, ◌-◌, ◌++◌, OnOk};
ghost use Rattle.lab_model.specs.State.{bio_of};
ghost use Rattle.lab_trace.specs.Made.{bio_lack, dropped_as, lack_of, lack_text, lack_word};

use crate::words::push_word;
use lab_bios::Bio;
use lab_next::{bio_of, count_wanting, stage_failed};
use lab_sector::{Kind, NoMemory};
use lab_state::State;
use lab_target::Target;

/// What a bio lacks once the bios for its pieces are made.
#[derive(Clone, Copy, Debug, PartialEq, Eq)]
pub(crate) enum Lack {
    /// One of its pieces failed.
    Failed,
    /// Some of its sectors are answered as zeroes.
    Zeroes,
    /// Some of its sectors go nowhere.
    Dropped,
}

/// What the bio of this number lacks, where the bios from the place `first` on, up to `count`, were made for its
/// pieces.
pub(crate) fn lack_of<T: Target>(
    state: &State<T>,
    first: u64,
    count: u64,
    number: u64,
) -> Option<Lack>
    ensures { result ≡ lack_of state.now first (count - first) (bio_of state.now number) }
{
    let bio = bio_of(state, number)?;
    let wanting = count_wanting(state, first, count, bio.span.len);
    bio_lack(bio, count.saturating_sub(first), wanting)
}

/// What the bio lacks, where so many bios were made for its pieces, and none for so many of its sectors.
fn bio_lack(bio: &Bio, made: u64, wanting: u64) -> Option<Lack>
    ensures { result ≡ bio_lack bio.now made wanting }
{
    if stage_failed(&bio.stage) {
        Some(Lack::Failed)
    } else if made == 0 || wanting > 0 {
        Some(dropped_as(bio.kind))
    } else {
        None
    }
}

/// What becomes of sectors that no bio is made for.
fn dropped_as(kind: Kind) -> Lack
    ensures { result ≡ dropped_as kind }
{
    match kind {
        Kind::Read => Lack::Zeroes,
        Kind::Write | Kind::Trim | Kind::Flush => Lack::Dropped,
    }
}

/// Appends the word of what a bio lacks, with a space before it where so many bios were made.
pub(crate) fn push_lack(text: &mut Vec<u8>, made: u64, lack: Option<Lack>) -> Result<(), NoMemory>
    ensures { OnOk result (text.new.items ≡ text.old.items ++ lack_text made lack) }
{
    let Some(lack) = lack else {
        return Ok(());
    };
    let space = if made == 0 {
        b"".as_slice()
    } else {
        b" ".as_slice()
    };
    push_word(text, space)?;
    push_lack_word(text, lack)
}

/// Appends the word of what a bio lacks.
fn push_lack_word(text: &mut Vec<u8>, lack: Lack) -> Result<(), NoMemory>
    ensures { OnOk result (text.new.items ≡ text.old.items ++ lack_word lack) }
{
    match lack {
        Lack::Failed => push_word(text, b"failed"),
        Lack::Zeroes => push_word(text, b"zeroes"),
        Lack::Dropped => push_word(text, b"dropped"),
    }
}
