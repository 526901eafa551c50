ghost use Rattle.std.specs.Prelude.{◌≡◌, ◌++◌, ◌∷◌, ◌+◌, [], length, IfOk};
ghost use Rattle.lab_model.specs.Report.{text_line};
ghost use Rattle.lab_watch.specs.Known.{all_kept, nothing_known};
ghost use Rattle.lab_trace.specs.Traces.{head_text};

use crate::ending::Ending;
use crate::fired::{count_made, push_end, push_start};
use crate::text::push_head;
use lab_core::{Lab, Observer};
use lab_model::Event;
use lab_sector::NoMemory;
use lab_target::Target;
use std::alloc::Global;

/// The trace of a run while it goes.
#[derive(Drop)]
pub(crate) struct Tracer {
    /// The columns' names, and a line for each event so far.
    pub(crate) text: Vec<u8>,
    /// What was found out of the last event's answer, and who wrote what once it has come.
    pub(crate) ending: Ending,
    /// How many bios had been made when the last event came.
    pub(crate) made: u64,
}

impl Tracer {
    /// The columns' names; nobody wrote anything.
    pub(crate) fn new(alloc: Global) -> Result<Tracer, NoMemory>
        ensures text { IfOk result (λ tracer. tracer.text.items ≡ text_line head_text) }
        ensures nobody { IfOk result (λ tracer. tracer.ending.writers ≡ nothing_known all_kept) }
    {
        let mut text = Vec::new(alloc);
        push_head(&mut text)?;
        Ok(Tracer {
            text,
            ending: Ending::new(alloc),
            made: 0,
        })
    }

    /// What was written.
    pub(crate) fn into_text(self) -> Vec<u8>
        ensures { result ≡ self.text }
    {
        self.text
    }
}

impl<T: Target> Observer<T> for Tracer {
    ghost use Rattle.std.specs.Prelude.{◌≡◌, ◌++◌, ◌∷◌, ◌+◌, [], length};
    ghost use Rattle.lab_watch.specs.Heard.{heard};
    ghost use Rattle.lab_watch.specs.Drops.{mapped};
    ghost use Rattle.lab_watch.specs.Settled.{settled};
    ghost use Rattle.lab_trace.specs.Answered.{answer_columns};
    ghost use Rattle.lab_trace.specs.Happened.{told_after, told_before};
    ghost use Rattle.lab_trace.specs.Rows.{event_row};
    ghost use Rattle.lab_trace.specs.Text.{row_text};
    ghost use Rattle.lab_trace.specs.Traces.{ended_columns};

    ghost awaits = { λ lab event before after.
        (after.text.items ≡ before.text.items
        ++ row_text (event_row lab.scenario lab.state (length lab.history + 1) event) ++ 9
        ∷ told_before lab.scenario lab.state event)
        × (after.made ≡ length lab.state.bios)
        × (answer_columns after.ending.kind after.ending.told
        ≡ ended_columns lab.state (heard lab.state event before.ending.writers) event)
        × (after.ending.writers
        ≡ settled lab.state event (heard lab.state event before.ending.writers)) };

    ghost sees = { λ lab event before after.
        (after.text.items ≡ before.text.items ++ (told_after before.made lab.state event
        ++ (answer_columns before.ending.kind before.ending.told ++ 10 ∷ [])))
        × (after.ending.writers
        ≡ mapped T.meaning before.made lab.state event before.ending.writers) };

    fn about_to(&mut self, alloc: Global, lab: &Lab<T>, event: Event) -> Result<(), NoMemory> {
        self.ending.find_out(alloc, lab.state(), event)?;
        self.made = count_made(lab);
        push_start(&mut self.text, lab, lab.history().len() as u64 + 1, event)
    }

    fn fired(&mut self, alloc: Global, lab: &Lab<T>, event: Event) -> Result<(), NoMemory> {
        push_end(&mut self.text, self.made, lab, event, &self.ending)?;
        self.ending
            .writers
            .map(alloc, lab.state(), self.made, event)
    }
}
