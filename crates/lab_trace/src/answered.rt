ghost use Rattle.std.specs.Prelude.{◌≡◌, [], ◌∷◌, ◌++◌, ◌+◌, ◌<◌, IfOk, OnOk};
ghost use Rattle.std.specs.List.{All};
ghost use Rattle.lab_watch.specs.Grids.{spelled_writers};
ghost use Rattle.lab_trace.specs.Answered.{answer_columns, lost_if, lost_text, origin_or_dash};
ghost use Rattle.lab_trace.specs.Answered.{origin_run_text, origin_runs_text, origins_text};
ghost use Rattle.lab_trace.specs.Answered.{same_origin, writers_text, wrote};

use crate::words::push_word;
use lab_next::{Origin, Writer};
use lab_sector::{Kind, NoMemory};
use lab_text::push_number;
use lab_watch::{Row, Run, has_written};

/// Appends what is told of the answer to an operation of this kind, behind what happened.
pub fn push_answer_columns(
    text: &mut Vec<u8>,
    kind: Option<Kind>,
    told: &Row,
) -> Result<(), NoMemory>
    ensures text { OnOk result (text.new.items ≡ text.old.items ++ answer_columns kind told.now) }
{
    push_lost(text, kind, told)?;
    text.push(b'\t')?;
    push_writers(text, kind, told)
}

/// Appends whether a write or a trim is lost.
fn push_lost(text: &mut Vec<u8>, kind: Option<Kind>, told: &Row) -> Result<(), NoMemory>
    ensures { OnOk result (text.new.items ≡ text.old.items ++ lost_text kind told.now) }
{
    match kind {
        Some(Kind::Write | Kind::Trim) => push_if_lost(text, has_written(told)),
        Some(Kind::Read | Kind::Flush) | None => Ok(()),
    }
}

/// Appends that a write or a trim is lost, if it is.
fn push_if_lost(text: &mut Vec<u8>, lost: bool) -> Result<(), NoMemory>
    ensures { OnOk result (text.new.items ≡ text.old.items ++ lost_if lost) }
{
    if lost {
        push_word(text, b" lost")
    } else {
        Ok(())
    }
}

/// Appends who wrote what a read is answered, or `-` where no read is.
fn push_writers(text: &mut Vec<u8>, kind: Option<Kind>, told: &Row) -> Result<(), NoMemory>
    ensures { OnOk result (text.new.items ≡ text.old.items ++ writers_text kind told.now) }
{
    match kind {
        Some(Kind::Read) => push_origins(text, told),
        _ => push_word(text, b"-"),
    }
}

/// Appends the runs of sectors by origin, or `-` where there is no sector.
fn push_origins(text: &mut Vec<u8>, told: &Row) -> Result<(), NoMemory>
    ensures { OnOk result (text.new.items ≡ text.old.items ++ origins_text told.now) }
{
    match told.runs().split_first() {
        Some((first, more)) => push_runs(text, *first, more),
        None => push_word(text, b"-"),
    }
}

/// Appends the runs of sectors by origin, where the first ones are this run.
fn push_runs(text: &mut Vec<u8>, first: Run, more: &[Run]) -> Result<(), NoMemory>
    requires { All (λ run. 0 < run.count) more.now }
    ensures { OnOk result (text.new.items
        ≡ text.old.items ++ origin_runs_text first.count (wrote first.writer)
        (spelled_writers more.now)) }
{
    let mut origin = wrote(first.writer);
    let mut count = first.count;
    for run in more {
        if same_origin(origin, wrote(run.writer)) {
            count = longer(count, run.count)?;
            continue;
        }
        push_ended(text, count, origin)?;
        origin = wrote(run.writer);
        count = run.count;
    }
    push_run(text, count, origin)
}

/// The sum of two counts of sectors. There is no memory for more than a number counts.
fn longer(count: u64, more: u64) -> Result<u64, NoMemory>
    ensures { IfOk result (λ sum. sum ≡ count + more) }
{
    count.checked_add(more).ok_or(NoMemory)
}

/// Appends so many sectors from one origin, and a comma.
fn push_ended(text: &mut Vec<u8>, count: u64, origin: Option<Origin>) -> Result<(), NoMemory>
    ensures { OnOk result (text.new.items
        ≡ text.old.items ++ (origin_run_text count origin ++ 44 ∷ [])) }
{
    push_run(text, count, origin)?;
    Ok(text.push(b',')?)
}

/// The operation that wrote a sector.
fn wrote(writer: Option<Writer>) -> Option<Origin>
    ensures { result ≡ wrote writer }
{
    match writer {
        Some(writer) => Some(writer.origin),
        None => None,
    }
}

/// Whether two sectors come from the same operation, or both from none.
fn same_origin(a: Option<Origin>, b: Option<Origin>) -> bool
    ensures { result ≡ same_origin a b }
{
    match (a, b) {
        (None, None) => true,
        (Some(a), Some(b)) => a.log == b.log && a.line == b.line,
        _ => false,
    }
}

/// Appends so many sectors from one origin.
fn push_run(text: &mut Vec<u8>, count: u64, origin: Option<Origin>) -> Result<(), NoMemory>
    ensures { OnOk result (text.new.items ≡ text.old.items ++ origin_run_text count origin) }
{
    push_number(text, count)?;
    text.push(b'x')?;
    push_origin(text, origin)
}

/// Appends an operation's log and line, or `-` where nobody wrote.
fn push_origin(text: &mut Vec<u8>, origin: Option<Origin>) -> Result<(), NoMemory>
    ensures { OnOk result (text.new.items ≡ text.old.items ++ origin_or_dash origin) }
{
    let Some(origin) = origin else {
        return push_word(text, b"-");
    };
    push_number(text, u64::from(origin.log))?;
    text.push(b'.')?;
    push_number(text, origin.line)
}
