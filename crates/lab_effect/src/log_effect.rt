ghost use Rattle.std.specs.Prelude.{◌≡◌, IsSome, OnErr, OnOk};
ghost use Rattle.lab_model.specs.After.{Next};
ghost use Rattle.lab_model.specs.Lists.{numbered};
ghost use Rattle.lab_model.specs.LogEffect.{take_line, wait_of};
ghost use Rattle.lab_model.specs.Moves.{Moves};
ghost use Rattle.lab_model.specs.Bounds.{NextFits};
ghost use Rattle.lab_effect.specs.Logs.{line_at_log, operation_of, with_bio};
ghost use Rattle.lab_logs.specs.Lines.{CanTake};

use crate::operation::operation;
use lab_model::{Action, Entry};
use lab_sector::{DevNo, NoMemory, Span};
use lab_state::{Bio, State, numbered};
use lab_table::{LogLine, Scenario};
use lab_target::Target;
use std::alloc::Global;

/// The log of this number takes its next line.
pub fn take_line<T: Target>(
    state: &mut State<T>,
    alloc: Global,
    scenario: &Scenario<T>,
    number: u32,
) -> Result<(), NoMemory>
    requires moves { Moves (take_line scenario.now state.old number) }
    requires fits { NextFits scenario.now state.old number }
    ensures next { OnOk result (take_line scenario.now state.old number ≡ Next state.new) }
    ensures err { OnErr result (state.new ≡ state.old) }
{
    let Some(plan) = numbered(&scenario.lines, number) else {
        return Ok(());
    };
    let Some(log) = state.logs.get(number) else {
        return Ok(());
    };
    match plan.lines.get(log.taken) {
        Some(line) => take_this(state, alloc, number, line),
        None => Ok(()),
    }
}

/// The log of this number takes this line.
fn take_this<T: Target>(
    state: &mut State<T>,
    alloc: Global,
    number: u32,
    line: &LogLine,
) -> Result<(), NoMemory>
    requires there { IsSome (numbered state.old.logs number) }
    requires moves { Moves (line_at_log state.old number line.now) }
    requires fits { CanTake state.old.logs number (wait_of line.now.entry) }
    ensures next { OnOk result (line_at_log state.old number line.now ≡ Next state.new) }
    ensures err { OnErr result (state.new ≡ state.old) }
{
    let Some((action, span)) = operation_of(&line.entry) else {
        return state.logs.take_entry(number, line.device, &line.entry);
    };
    let Some(device) = line.device else {
        unreachable!();
    };
    let bio = operation(alloc, number, line.number, device, action, span);
    operate(state, number, bio)
}

/// The operation that an entry asks for, if it asks for one.
fn operation_of(entry: &Entry) -> Option<(Action, Span)>
    ensures { result ≡ operation_of entry.now }
{
    match entry {
        Entry::Operate(action, span) => Some((*action, *span)),
        Entry::Add | Entry::Open | Entry::Close | Entry::Wait(_) => None,
    }
}

/// An operation begins on an open file: its bio enters the file's device.
fn operate<T: Target>(state: &mut State<T>, number: u32, bio: Bio) -> Result<(), NoMemory>
    requires { CanTake state.old.logs number 0 }
    ensures next { OnOk result (state.new ≡ with_bio state.old number bio) }
    ensures err { OnErr result (state.new ≡ state.old) }
{
    state.traffic.push(bio)?;
    state.logs.take_line(number);
    Ok(())
}
