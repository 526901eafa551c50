ghost use Rattle.std.specs.Prelude.{◌≡◌};
ghost use Rattle.lab_model.specs.LogEffect.{fill_of, operation, written};

use lab_model::Action;
use lab_sector::{DevNo, Span};
use lab_state::{Bio, MarkPlaces, MarkValues, Parent, Stage, Written};
use std::alloc::Global;

/// The bio of an operation on this line of the log of this number.
pub(crate) fn operation(
    alloc: Global,
    log: u32,
    line: u64,
    device: DevNo,
    action: Action,
    span: Span,
) -> Bio
    ensures { result ≡ operation log line device action span }
{
    Bio {
        kind: action.kind(),
        device,
        values: MarkValues::none(),
        parent: Parent::FromLog(log, line, action),
        written: written(alloc, action, fill_of(log, line), span.len),
        stage: Stage::Entering,
        span,
        places: MarkPlaces::none(),
    }
}

/// What a write of so many sectors writes; another operation writes nothing.
fn written(alloc: Global, action: Action, byte: u8, count: u64) -> Written
    ensures { result ≡ written action byte count }
{
    match action {
        Action::Write => Written::of(alloc, count, byte),
        Action::Read | Action::Sync | Action::Datasync | Action::Trim => Written::none(alloc),
    }
}

/// The byte of a write on a line of a log: each log and line has one of its own.
fn fill_of(log: u32, line: u64) -> u8
    ensures { result ≡ fill_of log line }
{
    ((16 * u64::from(log) + line % 256) % 256) as u8
}
