ghost use Rattle.std.specs.Prelude.{◌≡◌, ◌+◌, ◌-◌, ◌++◌, OnOk, decimal, option_copied};
ghost use Rattle.lab_bios.specs.Views.{stage_of};
ghost use Rattle.lab_model.specs.State.{bio_of};
ghost use Rattle.lab_trace.specs.Made.{comma, entry_text, made_text, map_text, mark_text};
ghost use Rattle.lab_trace.specs.Made.{marks_text, same_byte, stage_text};

use crate::lack::{lack_of, push_lack};
use crate::words::push_word;
use crate::written::{push_byte, push_written};
use lab_bios::{Bio, Stage};
use lab_next::{answer_marks, bio_of};
use lab_sector::NoMemory;
use lab_state::State;
use lab_target::{Mark, Marks, Target};
use lab_text::{push_number, push_numbered};

/// Appends what became of the bio of this number, which was cut where so many bios were made before.
pub(crate) fn push_map<T: Target>(
    text: &mut Vec<u8>,
    state: &State<T>,
    first: u64,
    number: u64,
) -> Result<(), NoMemory>
    ensures { OnOk result (text.new.items ≡ text.old.items ++ map_text first state.now number) }
{
    let count = state.traffic.count();
    push_made(text, state, first, count, number)?;
    let lack = lack_of(state, first, count, number);
    push_lack(text, count.saturating_sub(first), lack)
}

/// Appends the bios from the place `first` on, up to `count`, that were made for the bio of this number, with a comma
/// between two.
fn push_made<T: Target>(
    text: &mut Vec<u8>,
    state: &State<T>,
    first: u64,
    count: u64,
    number: u64,
) -> Result<(), NoMemory>
    ensures { OnOk result (text.new.items ≡ text.old.items
        ++ made_text state.now (bio_of state.now number) first first (count - first)) }
{
    let bio = bio_of(state, number);
    for place in first..count {
        push_comma(text, first, place)?;
        push_one(text, place + 1, bio, bio_of(state, place + 1))?;
    }
    Ok(())
}

/// Appends a comma, but not before the first bio.
fn push_comma(text: &mut Vec<u8>, first: u64, place: u64) -> Result<(), NoMemory>
    ensures { OnOk result (text.new.items ≡ text.old.items ++ comma first place) }
{
    if first == place {
        Ok(())
    } else {
        push_word(text, b",")
    }
}

/// Appends the number of a bio that was made for another, and what is told of it.
fn push_one(
    text: &mut Vec<u8>,
    number: u64,
    bio: Option<&Bio>,
    child: Option<&Bio>,
) -> Result<(), NoMemory>
    ensures { OnOk result (text.new.items ≡ text.old.items
        ++ (decimal number ++ entry_text (option_copied bio.entry) (option_copied child.entry))) }
{
    push_number(text, number)?;
    match child {
        Some(child) => push_entry(text, bio, child),
        None => Ok(()),
    }
}

/// Appends until when a bio that was made for another is held, what its answer changes, and what it writes other than
/// that.
fn push_entry(text: &mut Vec<u8>, bio: Option<&Bio>, child: &Bio) -> Result<(), NoMemory>
    ensures { OnOk result (text.new.items
        ≡ text.old.items ++ entry_text (option_copied bio.entry) (Some child.now)) }
{
    push_stage(text, &child.stage)?;
    push_marks(text, answer_marks(child))?;
    push_written(text, bio, child)
}

/// Appends `@MOMENT` where a bio is held until that moment.
fn push_stage(text: &mut Vec<u8>, stage: &Stage) -> Result<(), NoMemory>
    ensures { OnOk result (text.new.items ≡ text.old.items ++ stage_text (stage_of stage.now)) }
{
    match stage {
        Stage::Held(due, _) => push_numbered(text, b"@", *due),
        Stage::Entering | Stage::InFlight(_, _) => Ok(()),
    }
}

/// Appends what both marks change, the fixed one first. Of a byte that both change its last value alone is told, which
/// the random one gives it.
fn push_marks(text: &mut Vec<u8>, marks: Marks) -> Result<(), NoMemory>
    ensures { OnOk result (text.new.items ≡ text.old.items ++ marks_text marks) }
{
    if !same_byte(marks.fixed, marks.random) {
        push_mark(text, marks.fixed)?;
    }
    push_mark(text, marks.random)
}

/// Whether both marks change the same byte.
fn same_byte(fixed: Option<Mark>, random: Option<Mark>) -> bool
    ensures { result ≡ same_byte fixed random }
{
    match (fixed, random) {
        (Some(fixed), Some(random)) => fixed.place == random.place,
        _ => false,
    }
}

/// Appends what a mark changes, if there is one.
fn push_mark(text: &mut Vec<u8>, mark: Option<Mark>) -> Result<(), NoMemory>
    ensures { OnOk result (text.new.items ≡ text.old.items ++ mark_text mark) }
{
    match mark {
        Some(mark) => push_byte(text, mark.place, mark.value),
        None => Ok(()),
    }
}
