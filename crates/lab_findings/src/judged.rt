ghost use Rattle.std.specs.Prelude.{◌≡◌, ◌++◌, IfOk, OnOk};
ghost use Rattle.lab_next.specs.Answering.{kind_answered};
ghost use Rattle.lab_findings.specs.Noted.{answered_by, op_answered, watch_noted};
ghost use Rattle.lab_findings.specs.Content.{content_answered};
ghost use Rattle.lab_findings.specs.Judged.{op_noted, read_noted};

use crate::answered::Answered;
use crate::content::content_answered;
use crate::noted::Noted;
use crate::watch::Watch;
use lab_bios::{Bio, Parent};
use lab_model::Event;
use lab_next::{Origin, kind_answered, number_answered};
use lab_sector::{Kind, NoMemory};
use lab_state::State;
use lab_target::Target;
use std::alloc::Global;

impl Watch {
    /// What is noted at an event, in the state in which it comes, once it was heard of.
    pub fn noted<T: Target>(
        &self,
        alloc: Global,
        state: &State<T>,
        event: Event,
    ) -> Result<Vec<Noted>, NoMemory>
        ensures noted { IfOk result (λ noted. noted.items ≡ watch_noted state.now event self.now) }
    {
        let mut noted = Vec::new(alloc);
        match event {
            Event::Serve(_) | Event::Finish(_) => {
                if let Some(op) = op_answered(state, event) {
                    self.note(&mut noted, alloc, state, event, op)?;
                }
            }
            _ => {}
        }
        Ok(noted)
    }

    /// Adds what is noted of an operation that the event answers.
    fn note<T: Target>(
        &self,
        noted: &mut Vec<Noted>,
        alloc: Global,
        state: &State<T>,
        event: Event,
        op: Answered,
    ) -> Result<(), NoMemory>
        ensures { OnOk result (noted.new.items ≡ noted.old.items
            ++ op_noted self.now op (content_answered state.now event) (kind_answered state.now event)) }
    {
        match kind_answered(state, event) {
            None => self.note_eio(noted, op),
            Some(Kind::Write) => {
                self.note_lost(noted, alloc, op)?;
                self.note_spoiled(noted, alloc, op)
            }
            Some(Kind::Trim) => self.note_lost(noted, alloc, op),
            Some(Kind::Read) => self.note_read(noted, alloc, state, event, op),
            Some(Kind::Flush) => {
                self.note_broken(noted, alloc, op)?;
                self.note_synced(noted, op)
            }
        }
    }

    /// Adds what is noted of a read that the event answers.
    fn note_read<T: Target>(
        &self,
        noted: &mut Vec<Noted>,
        alloc: Global,
        state: &State<T>,
        event: Event,
        op: Answered,
    ) -> Result<(), NoMemory>
        ensures { OnOk result (noted.new.items ≡ noted.old.items
            ++ read_noted self.now op (content_answered state.now event)) }
    {
        if self.sought.corrupt {
            let sectors = content_answered(alloc, state, event)?;
            self.note_corrupt(noted, alloc, op, &sectors)?;
        }
        self.note_stale(noted, alloc, op)?;
        self.note_misplaced(noted, alloc, op)
    }
}

/// The operation that an event answers in this state, if it answers one.
fn op_answered<T: Target>(state: &State<T>, event: Event) -> Option<Answered>
    ensures { result ≡ op_answered state.now event }
{
    let number = number_answered(event);
    let bio = state.traffic.get(number)?;
    answered_by(number, state.traffic.clock(), bio)
}

/// The operation of a log with this bio, at a moment, if it is one.
fn answered_by(number: u64, moment: u64, bio: &Bio) -> Option<Answered>
    ensures { result ≡ answered_by number moment bio.now bio.now.parent }
{
    match bio.parent {
        Parent::FromLog(log, line, action) => Some(Answered {
            number,
            origin: Origin { log, line },
            action,
            device: bio.device,
            span: bio.span,
            moment,
        }),
        Parent::FromBio(_, _) => None,
    }
}
