ghost use Rattle.std.specs.Prelude.{◌≡◌, ◌<◌, ◌++◌, [], ◌∷◌, IfOk, IfSome, IsSome, OnErr, OnOk};
ghost use Rattle.std.specs.Prelude.{Some, length, map, slice_get};
ghost use Rattle.lab_text.specs.Words.{words_of};
ghost use Rattle.lab_model.specs.Slots.{live_at};
ghost use Rattle.lab_model.specs.After.{Next};
ghost use Rattle.lab_model.specs.ControlEffect.{line_told, message, status_texts};
ghost use Rattle.lab_model.specs.ControlEffect.{stepped, table_texts, tell as told};
ghost use Rattle.lab_model.specs.Tables.{line_at};
ghost use Rattle.lab_model.specs.Moves.{Moves};
ghost use Rattle.lab_effect.specs.Replies.{reply_of};

use crate::replies::{status_replies, table_replies, tell};
use lab_model::Text;
use lab_sector::NoMemory;
use lab_state::{Reply, State};
use lab_table::Table;
use lab_target::Target;
use lab_text::Words;
use std::alloc::Global;

/// A message goes to the line that has this sector of the device's live table, and its reply is told.
pub fn message<T: Target>(
    state: &mut State<T>,
    alloc: Global,
    script_line: u64,
    device: u32,
    sector: u64,
    text: &[u8],
) -> Result<(), NoMemory>
    requires { Moves (message T.meaning state.old script_line device sector (words_of text.now)) }
    ensures next { OnOk result
        (message T.meaning state.old script_line device sector (words_of text.now)
        ≡ Next (stepped state.new)) }
    ensures err { OnErr result (state.new ≡ state.old) }
{
    let Some(table) = state.traffic.live_mut(device) else {
        unreachable!();
    };
    tell_line(table, &mut state.replies, alloc, script_line, sector, text)
}

/// The line that has this sector of a table takes a message, and its reply is told. Room for the reply is made
/// first, since a message changes the line's state.
fn tell_line<T: Target>(
    table: &mut Table<T>,
    replies: &mut Vec<Reply>,
    alloc: Global,
    script_line: u64,
    sector: u64,
    text: &[u8],
) -> Result<(), NoMemory>
    requires { IsSome (line_at table.old sector) }
    ensures table { OnOk result (IfSome (line_at table.old sector)
        (λ number. table.new ≡ line_told T.meaning (words_of text.now) number table.old)) }
    ensures reply { OnOk result (IfSome (line_at table.old sector)
        (λ number. IfSome (slice_get table.old number) (λ line. replies.new.items
        ≡ replies.old.items
        ++ reply_of script_line (T.meaning.reply line.target (words_of text.now)) ∷ []))) }
    ensures err_table { OnErr result (table.new ≡ table.old) }
    ensures err_replies { OnErr result (replies.new.items ≡ replies.old.items) }
{
    replies.reserve(1)?;
    let number = line_with(table, sector);
    let text = table.message(alloc, number, Words::new(text))?;
    replies.push_reserved(Reply {
        line: script_line,
        text: Text::new(text),
    });
    Ok(())
}

/// The number of the line that has this sector of a table; one has.
#[tactic(auto, using(crate::proofs::LineSectors::some_inside))]
fn line_with<T: Target>(table: &Table<T>, sector: u64) -> usize
    requires { IsSome (line_at table.now sector) }
    ensures line { line_at table.now sector ≡ Some result }
    ensures inside { result < length table.now }
{
    let _lines = table.lines();
    table.line_at(sector)
}

/// The state of each line of the device's live table is told.
pub fn status<T: Target>(
    state: &mut State<T>,
    alloc: Global,
    script_line: u64,
    device: u32,
) -> Result<(), NoMemory>
    requires { Moves (told state.old script_line device (status_texts T.meaning state.old device)) }
    ensures next { OnOk result
        (told state.old script_line device (status_texts T.meaning state.old device)
        ≡ Next (stepped state.new)) }
    ensures err { OnErr result (state.new ≡ state.old) }
{
    let lines = count_lines(state, device);
    let held = state.traffic.held_by_line(alloc, device, lines)?;
    let more = status_replies(alloc, state, script_line, device, &held)?;
    tell(&mut state.replies, more)
}

/// How many lines the device's live table has; none where it has no such table.
fn count_lines<T: Target>(state: &State<T>, device: u32) -> usize
    ensures { IfSome (live_at state.now.devices device) (λ table. result ≡ length table) }
{
    match state.traffic.live(device) {
        Some(table) => table.lines().len(),
        None => 0,
    }
}

/// The lines of the device's live table are told.
pub fn show_table<T: Target>(
    state: &mut State<T>,
    alloc: Global,
    script_line: u64,
    device: u32,
) -> Result<(), NoMemory>
    requires { Moves (told state.old script_line device (table_texts T.meaning)) }
    ensures next { OnOk result
        (told state.old script_line device (table_texts T.meaning) ≡ Next (stepped state.new)) }
    ensures err { OnErr result (state.new ≡ state.old) }
{
    let more = live_table(alloc, state, script_line, device)?;
    tell(&mut state.replies, more)
}

/// A reply with the words of each line of the device's live table, if it has one.
fn live_table<T: Target>(
    alloc: Global,
    state: &State<T>,
    script_line: u64,
    device: u32,
) -> Result<Vec<Reply>, NoMemory>
    ensures { IfOk result (λ more. IfSome (live_at state.now.devices device) (λ table. more.items
        ≡ map (reply_of script_line) (table_texts T.meaning table))) }
{
    match state.traffic.live(device) {
        Some(table) => table_replies(alloc, script_line, table),
        None => Ok(Vec::new(alloc)),
    }
}
