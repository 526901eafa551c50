ghost use Rattle.std.specs.Prelude.{◌≡◌, ◌++◌, OnOk};
ghost use Rattle.lab_watch.specs.Heard.{heard};
ghost use Rattle.lab_watch.specs.Known.{all_kept, nothing_known};
ghost use Rattle.lab_watch.specs.Settled.{settled};
ghost use Rattle.lab_trace.specs.Answered.{answer_columns};
ghost use Rattle.lab_trace.specs.Traces.{ended_columns};

use crate::answered::push_answer_columns;
use lab_model::Event;
use lab_next::kind_answered;
use lab_sector::{Kind, NoMemory};
use lab_state::State;
use lab_target::Target;
use lab_watch::{Kept, Row, Writers};
use std::alloc::Global;

/// What is found out of an event's answer, before the event is fired.
#[derive(Drop)]
pub struct Ending {
    /// The kind of the operation that the event answers without a failure, if it answers one so.
    pub kind: Option<Kind>,
    /// What is told of each sector of that operation, in order.
    pub told: Row,
    /// Who wrote what, once the event has come.
    pub writers: Writers,
}

impl Ending {
    /// Before the first event nobody wrote anything.
    pub fn new(alloc: Global) -> Ending
        ensures nobody { result.writers ≡ nothing_known all_kept }
    {
        let kept = Kept {
            reads: true,
            drops: true,
        };
        Ending {
            kind: None,
            told: Row::new(alloc),
            writers: Writers::new(alloc, kept),
        }
    }

    /// Finds out what the event answers, in the state in which it comes.
    pub fn find_out<T: Target>(
        &mut self,
        alloc: Global,
        state: &State<T>,
        event: Event,
    ) -> Result<(), NoMemory>
        ensures answer { OnOk result (answer_columns self.new.kind self.new.told
            ≡ ended_columns state.now (heard state.now event self.old.writers) event) }
        ensures writers { OnOk result (self.new.writers
            ≡ settled state.now event (heard state.now event self.old.writers)) }
    {
        self.writers.hear(alloc, state, event)?;
        self.kind = kind_answered(state, event);
        self.told = self.writers.told(alloc, state, event)?;
        self.writers.settle(state, event)
    }
}

/// Appends what was found out of an event's answer.
pub fn push_ending(text: &mut Vec<u8>, ending: &Ending) -> Result<(), NoMemory>
    ensures text { OnOk result (text.new.items
        ≡ text.old.items ++ answer_columns ending.now.kind ending.now.told) }
{
    push_answer_columns(text, ending.kind, &ending.told)
}
