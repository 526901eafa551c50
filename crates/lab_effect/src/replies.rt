ghost use Rattle.std.specs.Prelude.{◌≡◌, ◌++◌, ◌∷◌, decimal, IfOk, IfSome, OnErr, OnOk, length, map};
ghost use Rattle.lab_model.specs.ControlEffect.{line_text, status_texts, table_texts};
ghost use Rattle.lab_model.specs.Slots.{live_at};
ghost use Rattle.lab_effect.specs.Replies.{reply_of};
ghost use Rattle.lab_state.specs.HeldRows.{AreHeldAt};

use lab_model::{TableLine, Text};
use lab_sector::NoMemory;
use lab_state::{Reply, State};
use lab_table::Table;
use lab_target::{Held, Target};
use lab_text::push_number;
use std::alloc::Global;

/// Some replies are told after those that were.
pub(crate) fn tell(replies: &mut Vec<Reply>, more: Vec<Reply>) -> Result<(), NoMemory>
    ensures ok { OnOk result (replies.new.items ≡ replies.old.items ++ more.items) }
    ensures err { OnErr result (replies.new.items ≡ replies.old.items) }
{
    let mut more = more;
    Ok(replies.append(&mut more)?)
}

/// A reply with the words of each line of a table.
pub(crate) fn table_replies<T: Target>(
    alloc: Global,
    script_line: u64,
    table: &Table<T>,
) -> Result<Vec<Reply>, NoMemory>
    ensures { IfOk result (λ replies. replies.items
        ≡ map (reply_of script_line) (table_texts T.meaning table.now)) }
{
    let mut replies = Vec::new(alloc);
    for line in table.lines() {
        replies.push(table_reply(alloc, script_line, line)?)?;
    }
    Ok(replies)
}

/// A reply with the words of a line of a table.
fn table_reply<T: Target>(
    alloc: Global,
    script_line: u64,
    line: &TableLine<T>,
) -> Result<Reply, NoMemory>
    ensures { IfOk result (λ reply. reply
        ≡ reply_of script_line (line_text line.now (T.meaning.shape line.now.target).printed)) }
{
    let words = line.target.print(alloc)?;
    let text = line_text(alloc, line.start, line.len, &words)?;
    Ok(Reply {
        line: script_line,
        text: Text::new(text),
    })
}

/// A reply with the status of each line of the device's live table, if it has one, with what is held for it.
pub(crate) fn status_replies<T: Target>(
    alloc: Global,
    state: &State<T>,
    script_line: u64,
    device: u32,
    held: &[Held],
) -> Result<Vec<Reply>, NoMemory>
    requires { IfSome (live_at state.now.devices device)
        (λ table. AreHeldAt state.now.bios device (length table) held.now) }
    ensures { IfOk result (λ replies. IfSome (live_at state.now.devices device) (λ table. replies.items
        ≡ map (reply_of script_line) (status_texts T.meaning state.now device table))) }
{
    let mut replies = Vec::new(alloc);
    let Some(table) = state.traffic.live(device) else {
        return Ok(replies);
    };
    for (place, line) in table.lines().iter().enumerate() {
        replies.push(status_reply(alloc, state, script_line, line, held[place])?)?;
    }
    Ok(replies)
}

/// A reply with the status of a line of a table, with what is held for it.
fn status_reply<T: Target>(
    alloc: Global,
    state: &State<T>,
    script_line: u64,
    line: &TableLine<T>,
    held: Held,
) -> Result<Reply, NoMemory>
    ensures { IfOk result (λ reply. reply ≡ reply_of script_line (line_text line.now
        (T.meaning.status line.now.target state.now.clock held))) }
{
    let status = line.target.status(alloc, state.traffic.clock(), held)?;
    let text = line_text(alloc, line.start, line.len, &status)?;
    Ok(Reply {
        line: script_line,
        text: Text::new(text),
    })
}

/// A line's start and length, and a text after them.
fn line_text(alloc: Global, start: u64, len: u64, text: &[u8]) -> Result<Vec<u8>, NoMemory>
    ensures { IfOk result (λ out. out.items
        ≡ decimal start ++ 32 ∷ decimal len ++ 32 ∷ text.now) }
{
    let mut out = Vec::new(alloc);
    push_number(&mut out, start)?;
    out.push(b' ')?;
    push_number(&mut out, len)?;
    out.push(b' ')?;
    out.extend_from_slice(text)?;
    Ok(out)
}
