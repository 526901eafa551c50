ghost use Rattle.std.specs.Prelude.{◌≡◌, [], ◌∷◌, ◌++◌, length, OnOk};
ghost use Rattle.lab_trace.specs.Answered.{answer_columns};
ghost use Rattle.lab_trace.specs.Happened.{told_after, told_before};
ghost use Rattle.lab_trace.specs.Rows.{event_row};
ghost use Rattle.lab_trace.specs.Text.{row_text};

use crate::ending::{Ending, push_ending};
use crate::happened::{push_after, push_before};
use crate::telling::row_of;
use crate::text::push_row;
use lab_core::Lab;
use lab_model::Event;
use lab_sector::NoMemory;
use lab_state::State;
use lab_target::Target;

/// Appends what is told of the event at this place before it is fired.
pub(crate) fn push_start<T: Target>(
    text: &mut Vec<u8>,
    lab: &Lab<T>,
    place: u64,
    event: Event,
) -> Result<(), NoMemory>
    ensures { OnOk result (text.new.items ≡ text.old.items
        ++ row_text (event_row lab.now.scenario lab.now.state place event) ++ 9
        ∷ told_before lab.now.scenario lab.now.state event) }
{
    // Its clause says that the events are a run, so the bios can be numbered.
    let _events = lab.history();
    push_row(text, &row_of(lab.scenario(), lab.state(), place, event))?;
    text.push(b'\t')?;
    push_before(text, lab.scenario(), lab.state(), event)
}

/// Appends what is told of an event once it was fired, where so many bios were made before, and ends the line.
pub(crate) fn push_end<T: Target>(
    text: &mut Vec<u8>,
    before: u64,
    lab: &Lab<T>,
    event: Event,
    ending: &Ending,
) -> Result<(), NoMemory>
    ensures { OnOk result (text.new.items ≡ text.old.items ++ (told_after before lab.now.state event
        ++ (answer_columns ending.now.kind ending.now.told ++ 10 ∷ []))) }
{
    push_after(text, before, lab.state(), event)?;
    push_ending(text, ending)?;
    Ok(text.push(b'\n')?)
}

/// How many bios a laboratory has made.
pub(crate) fn count_made<T: Target>(lab: &Lab<T>) -> u64
    ensures { result ≡ length lab.now.state.bios }
{
    count_in(lab.state())
}

/// How many bios were made.
fn count_in<T: Target>(state: &State<T>) -> u64
    ensures { result ≡ length state.now.bios }
{
    state.traffic.count()
}
